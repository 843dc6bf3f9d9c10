ghost use Rattle.std.specs.Prelude.{◌<◌, IfOk};
ghost use Rattle.std.specs.Duration.{as_nanos};

use http_relay_wire::WireFault;
use std::time::Duration;

/// Says how long calls of a stream may wait.
pub trait Patience {
    /// How long the next call may wait before it asks again, which is more than 0; or how a call fails that may not wait at all.
    fn next_wait(&mut self) -> Result<Duration, WireFault>
        ensures some { IfOk result (λ wait. 0 < as_nanos wait) };
}
