ghost use Rattle.std.specs.Prelude.{◌≡◌, ◌≤◌};
ghost use Rattle.lb_types.specs.declared.limits.TheConstants.{MAX_PINS};
ghost use Rattle.lb_config_arguments.specs.Faults.{Gives};
ghost use Rattle.lb_config_arguments.specs.Reading.{each_word};
ghost use Rattle.lb_config_parameters.specs.StickTables.{no_table, table_word, stick_table_at};

use crate::table_draft::TableDraft;
use lb_acl::TableType;
use lb_config_arguments::{LineError, Words};
use lb_types::TableSettings;
use std::marker::Model;

/// A line `stick-table`.
#[derive(Debug, Drop)]
pub struct StickTable {
    kind: TableType,
    settings: TableSettings,
}

impl Model for StickTable {
    ghost use Rattle.lb_config_parameters.specs.TableViews.{StickTableView, IsTableSize};

    ghost Value = { StickTableView };

    ghost view = { λ table. record {
      kind = table.kind;
      size = table.settings.size;
      expire = table.settings.expire;
      is_nopurge = table.settings.no_purge;
    } };

    ghost invariant = { λ table. IsTableSize table.settings.size };
}

impl StickTable {
    pub(crate) fn new(kind: TableType, size: u32, expire: Option<u32>, is_nopurge: bool) -> Self
        requires least { 1 ≤ size }
        requires greatest { size ≤ MAX_PINS }
        ensures { result ≡ record { kind = kind; size = size; expire = expire; is_nopurge = is_nopurge } }
    {
        let settings = TableSettings {
            size,
            expire,
            no_purge: is_nopurge,
        };
        StickTable { kind, settings }
    }

    /// The type of its keys.
    pub fn kind(&self) -> TableType
        ensures { result ≡ self.now.kind }
    {
        self.kind
    }

    /// The settings for a backend's table: how many pins it may hold, 1 to 16777216, and after how many milliseconds without use a
    /// pin goes. They also say whether a full table keeps its pins and takes no new one.
    pub fn settings(&self) -> TableSettings
        ensures size { result.size ≡ self.now.size }
        ensures expire { result.expire ≡ self.now.expire }
        ensures no_purge { result.no_purge ≡ self.now.is_nopurge }
    {
        self.settings
    }
}

/// The words after `stick-table`.
#[tactic(auto, unfolding(crate::specs::StickTables::stick_table_at))]
pub fn read_stick_table(words: &mut Words) -> Result<StickTable, LineError>
    ensures { Gives (λ table. table) result (stick_table_at words.old) }
{
    Ok(read_draft(words)?.end()?)
}

fn read_draft(words: &mut Words) -> Result<TableDraft, LineError>
    ensures { Gives (λ table. table) result (each_word table_word no_table words.old) }
{
    let mut table = TableDraft::new();
    while let Some(word) = words.next_word_or_end()? {
        table = table.with_word(words, word)?;
    }
    Ok(table)
}
