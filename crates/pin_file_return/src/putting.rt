ghost use Rattle.std.specs.Prelude.{◌≡◌};
ghost use Rattle.lb_desk_ports.specs.Calls.{after_call};
ghost use Rattle.pin_file_return.specs.Puts.{PutsAll};

use lb_desk_model::SetPin;
use lb_desk_ports::{Pinning, Port, Refused};

/// Sets the pins in their order, and says how many were answered that they are pinned. A call that is refused ends it, with the
/// port's error; the pins before it are set.
///
/// It costs one call of the port for each pin.
pub fn return_pins<R, P: Port<R>>(rt: &R, port: &mut P, pins: Vec<SetPin>) -> Result<usize, Refused>
    ensures sets { PutsAll pins.items (P.entries port.old) (P.entries port.new) result }
    ensures refusals { P.refusals port.new ≡ after_call result (P.refusals port.old) }
{
    let mut pinned = 0;
    for pin in pins {
        if let Pinning::Pinned(_) = port.set(rt, pin)? {
            pinned += 1;
        }
    }
    Ok(pinned)
}
