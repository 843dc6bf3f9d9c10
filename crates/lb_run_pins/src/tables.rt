ghost use Rattle.std.specs.Prelude.{◌≡◌, ◌++◌, map, IfOk, OnOk};
ghost use Rattle.dual_cert_text.specs.Spellings.{text_of_lines};
ghost use Rattle.pin_file.specs.Spellings.{backend_lines, pin_line, spelling};
ghost use Rattle.lb_run_pins.specs.Saved.{pins_at};

use crate::Pace;
use lb_config::BackendConfig;
use lb_types::Moment;
use pin_file::{push_backend, push_first_line, push_last_line, push_pin};
use pin_file_return::saved_pin;
use pin_set::TablePin;
use std::alloc::{AllocError, Global};
use std::marker::Model;
use std::time::Clock;

/// A copy of the pins of a backend's table. Contracts see the backend and the pins.
#[derive(Drop)]
pub struct Table<'a> {
    backend: &'a BackendConfig,
    pins: Vec<TablePin>,
}

impl<'a> Model for Table<'a> {
    ghost use Rattle.lb_run_pins.specs.Saved.{TableView};

    ghost Value = { TableView };

    ghost view = { λ table. record { backend = table.backend.now; pins = table.pins.items } };
}

impl<'a> Table<'a> {
    /// The pins of the backend's table, in order of last use. It allocates nothing.
    pub fn new(backend: &'a BackendConfig, pins: Vec<TablePin>) -> Self
        ensures backend { result.backend ≡ backend.now }
        ensures pins { result.pins ≡ pins.items }
    {
        Table { backend, pins }
    }

    /// Puts the lines that the file of this moment has of the table at the end of the text.
    fn push<R: Clock>(
        &self,
        rt: &R,
        alloc: Global,
        text: &mut Vec<u8>,
        now: Moment,
        pace: Pace<'_>,
    ) -> Result<(), AllocError>
        ensures { OnOk result (text.new.items
            ≡ text.old.items ++ text_of_lines (backend_lines (pins_at now self.now))) }
    {
        push_backend(text, &self.backend.name())?;
        self.push_pins(rt, alloc, text, now, pace)?;
        Ok(())
    }

    /// Puts the lines of the pins at the end of the text, and rests as the pace says.
    fn push_pins<R: Clock>(
        &self,
        rt: &R,
        alloc: Global,
        text: &mut Vec<u8>,
        now: Moment,
        pace: Pace<'_>,
    ) -> Result<(), AllocError>
        ensures { OnOk result (text.new.items
            ≡ text.old.items ++ text_of_lines (map (λ p. pin_line p) (pins_at now self.now).pins)) }
    {
        for (number, row) in self.pins.iter().enumerate() {
            let pin = saved_pin(alloc, self.backend.servers(), row, now)?;
            push_pin(text, &pin)?;
            pace.rest_after(rt, number);
        }
        Ok(())
    }

    /// A number that changes where a pin was used, made or moved, or went, except by a rare chance. It costs a look at each pin.
    pub(crate) fn mark(&self, before: u64) -> u64 {
        let mut mark = before;
        for row in &self.pins {
            let place = match row.pin.place {
                Some(server) => server.index() as u64,
                None => u64::MAX,
            };
            mark = mixed(mixed(mark, row.last_use.as_millis()), place);
        }
        mixed(mark, self.pins.len() as u64)
    }
}

/// A number of both, of which each bit depends on many of theirs.
fn mixed(mark: u64, next: u64) -> u64 {
    let sum = (mark ^ next).wrapping_mul(0x9E37_79B9_7F4A_7C15);
    sum ^ (sum >> 29)
}

/// The text of the file that has these tables' pins at this moment, in the order of the tables.
///
/// It costs one walk over the pins, at this pace, and the memory of the text: of a pin its key, and at most some 40 bytes beside it and its
/// servers' names. The only error is out of memory.
pub fn pins_text<R: Clock>(
    rt: &R,
    alloc: Global,
    tables: &[Table<'_>],
    now: Moment,
    pace: Pace<'_>,
) -> Result<Vec<u8>, AllocError>
    ensures { IfOk result (λ text. text.items ≡ spelling (map (pins_at now) tables.now)) }
{
    let mut text = Vec::new(alloc);
    push_first_line(&mut text)?;
    for table in tables {
        table.push(rt, alloc, &mut text, now, pace)?;
    }
    push_last_line(&mut text)?;
    Ok(text)
}

/// The mark of all tables.
pub(crate) fn mark_of(tables: &[Table<'_>]) -> u64 {
    let mut mark = 0;
    for table in tables {
        mark = table.mark(mark);
    }
    mark
}
