ghost use Rattle.http_relay_dial.specs.Dials.{talk_of};
ghost use Rattle.http_relay_serve.specs.Causes.{AnswersBy};

use crate::Cause;
use http_relay_wire::{Wire, WireFault, write_all};

/// Writes the relay's own answer for this cause to the client. It allocates nothing. At a fault a beginning of it went out.
pub fn answer<C: Wire>(client: &mut C, cause: Cause) -> Result<(), WireFault>
    ensures { AnswersBy cause (talk_of C.written C.reading C.faults client.old) (talk_of C.written C.reading C.faults client.new) result }
{
    write_all(client, cause.answer().text())
}
