ghost use Rattle.std.specs.Prelude.{◌≡◌, ◌≤◌, true};
ghost use Rattle.lb_types.specs.declared.limits.TheConstants.{MAX_PINS};
ghost use Rattle.lb_config_arguments.specs.Faults.{Gives};
ghost use Rattle.lb_config_parameters.specs.StickTables.{no_table, table_parameter, is_left_out_type, table_type, table_word, is_whole, table_end};

use crate::StickTable;
use lb_acl::{KeyLen, MAX_KEY_LEN, TableType};
use lb_config_arguments::{Fault, LineError, Words, is, read_number, read_size, read_time};
use std::marker::Model;

/// What the next word of a line `stick-table` may be.
#[derive(Clone, Copy, Debug, PartialEq, Eq)]
pub(crate) enum TableDue {
    Parameter,
    LenOrParameter,
    Type,
    Len,
    Size,
    Expire,
}

impl TableDue {
    /// Whether no value is due.
    fn is_whole(self) -> bool
        ensures { result ≡ is_whole self }
    {
        match self {
            TableDue::Parameter | TableDue::LenOrParameter => true,
            _ => false,
        }
    }
}

/// The parameters of a line `stick-table` as far as they were read.
#[derive(Clone, Copy, Debug)]
pub(crate) struct TableDraft {
    kind: Option<TableType>,
    size: Option<u32>,
    expire: Option<u32>,
    is_nopurge: bool,
    due: TableDue,
}

impl Model for TableDraft {
    ghost use Rattle.std.specs.Option.{ForSome};
    ghost use Rattle.lb_config_parameters.specs.TableViews.{TableDraftView, IsTableSize};

    ghost Value = { TableDraftView };

    ghost view = { λ table. record {
      kind = table.kind;
      size = table.size;
      expire = table.expire;
      is_nopurge = table.is_nopurge;
      due = table.due;
    } };

    ghost invariant = { λ table. ForSome table.size IsTableSize };

    ghost inverse = { λ table. record {
      kind = table.kind;
      size = table.size;
      expire = table.expire;
      is_nopurge = table.is_nopurge;
      due = table.due;
    } };
}

impl TableDraft {
    /// Nothing was read.
    pub(crate) fn new() -> Self
        ensures { result ≡ no_table }
    {
        TableDraft {
            kind: None,
            size: None,
            expire: None,
            is_nopurge: false,
            due: TableDue::Parameter,
        }
    }

    /// The draft after the word.
    #[tactic(auto, unfolding(crate::specs::StickTables::table_word))]
    pub(crate) fn with_word(self, words: &Words, word: &[u8]) -> Result<Self, LineError>
        ensures { Gives (λ table. table) result (table_word self word.now) }
    {
        match self.due {
            TableDue::Parameter => self.with_parameter(words, word),
            TableDue::LenOrParameter if is(word, b"len") => Ok(self.with_due(TableDue::Len)),
            TableDue::LenOrParameter => self.with_parameter(words, word),
            TableDue::Type => self.with_type(words, word),
            TableDue::Len => Ok(self.with_len(read_number(1, MAX_KEY_LEN, word)? as u16)),
            TableDue::Size => Ok(self.with_size(read_size(word)?)),
            TableDue::Expire => Ok(self.with_expire(read_time(word)?)),
        }
    }

    fn with_due(self, due: TableDue) -> Self
        ensures { result ≡ record self { due = due } }
    {
        let mut table = self;
        table.due = due;
        table
    }

    fn with_len(self, len: u16) -> Self
        requires least { 1 ≤ len }
        requires greatest { len ≤ MAX_KEY_LEN }
        ensures { result ≡ record self { kind = Some (TableType.Text len); due = TableDue.Parameter } }
    {
        self.with_kind(TableType::Text(KeyLen::new(len)), TableDue::Parameter)
    }

    fn with_kind(self, kind: TableType, due: TableDue) -> Self
        ensures { result ≡ record self { kind = Some kind; due = due } }
    {
        let mut table = self;
        table.kind = Some(kind);
        table.due = due;
        table
    }

    fn with_size(self, size: u32) -> Self
        requires least { 1 ≤ size }
        requires greatest { size ≤ MAX_PINS }
        ensures { result ≡ record self { size = Some size; due = TableDue.Parameter } }
    {
        let mut table = self;
        table.size = Some(size);
        table.due = TableDue::Parameter;
        table
    }

    fn with_expire(self, millis: u32) -> Self
        ensures { result ≡ record self { expire = Some millis; due = TableDue.Parameter } }
    {
        let mut table = self;
        table.expire = Some(millis);
        table.due = TableDue::Parameter;
        table
    }

    fn with_nopurge(self) -> Self
        ensures { result ≡ record self { is_nopurge = true; due = TableDue.Parameter } }
    {
        let mut table = self;
        table.is_nopurge = true;
        table.due = TableDue::Parameter;
        table
    }

    /// The draft after the name of a parameter.
    #[tactic(auto, unfolding(crate::specs::StickTables::table_parameter))]
    fn with_parameter(self, words: &Words, word: &[u8]) -> Result<Self, LineError>
        ensures { Gives (λ table. table) result (table_parameter self word.now) }
    {
        if is(word, b"type") {
            return Ok(self.with_due(TableDue::Type));
        }
        if is(word, b"size") {
            return Ok(self.with_due(TableDue::Size));
        }
        if is(word, b"expire") {
            return Ok(self.with_due(TableDue::Expire));
        }
        if is(word, b"nopurge") {
            return Ok(self.with_nopurge());
        }
        Err(Fault::LeftOut(words.copied(word)?).into())
    }

    /// The draft after a type.
    #[tactic(auto, unfolding(crate::specs::StickTables::table_type))]
    fn with_type(self, words: &Words, word: &[u8]) -> Result<Self, LineError>
        ensures { Gives (λ table. table) result (table_type self word.now) }
    {
        if is(word, b"ip") {
            return Ok(self.with_kind(TableType::Ip, TableDue::Parameter));
        }
        if is(word, b"string") {
            let kind = TableType::Text(KeyLen::new(32));
            return Ok(self.with_kind(kind, TableDue::LenOrParameter));
        }
        if is_left_out_type(word) {
            return Err(Fault::LeftOut(words.copied(word)?).into());
        }
        Err(Fault::UnknownWord.into())
    }

    /// The table, which has a type and a size.
    #[tactic(auto, unfolding(crate::specs::StickTables::table_end))]
    pub(crate) fn end(self) -> Result<StickTable, Fault>
        ensures { result ≡ table_end self }
    {
        let TableDraft {
            kind,
            size,
            expire,
            is_nopurge,
            due,
        } = self;
        if !due.is_whole() {
            return Err(Fault::Missing);
        }
        let Some(kind) = kind else {
            return Err(Fault::Missing);
        };
        let Some(size) = size else {
            return Err(Fault::Missing);
        };
        Ok(StickTable::new(kind, size, expire, is_nopurge))
    }
}

#[tactic(auto, unfolding(crate::specs::StickTables::is_left_out_type))]
fn is_left_out_type(word: &[u8]) -> bool
    ensures { result ≡ is_left_out_type word.now }
{
    is(word, b"ipv6") || is(word, b"integer") || is(word, b"binary")
}
