ghost use Rattle.std.specs.Prelude.{◌≡◌, Err};
ghost use Rattle.http_relay_wire.specs.Faults.{after_read_fault, after_write_fault};

use thiserror::Error;

/// Why a read or a write of a wire failed.
#[derive(Clone, Copy, Debug, PartialEq, Eq, Hash, Error)]
pub enum WireFault {
    /// The peer kept it waiting beyond the limit.
    #[error("the peer took too long")]
    Timeout,
    /// The connection failed, or no read was left.
    #[error("the connection broke")]
    Broken,
}

/// How often a wire has failed, by kind. A count that has reached 2^64 - 1 stays there.
#[derive(Clone, Copy, Debug, Default, PartialEq, Eq, Hash)]
pub struct FaultCounts {
    /// Reads that took too long.
    pub reads_timed_out: u64,
    /// Reads that broke.
    pub reads_broken: u64,
    /// Writes that took too long.
    pub writes_timed_out: u64,
    /// Writes that broke.
    pub writes_broken: u64,
}

impl FaultCounts {
    /// Counts a read that failed so.
    pub fn count_read(&mut self, fault: WireFault)
        ensures { self.new ≡ after_read_fault fault self.old }
    {
        match fault {
            WireFault::Timeout => self.reads_timed_out = self.reads_timed_out.saturating_add(1),
            WireFault::Broken => self.reads_broken = self.reads_broken.saturating_add(1),
        }
    }

    /// Counts a write that failed so.
    pub fn count_write(&mut self, fault: WireFault)
        ensures { self.new ≡ after_write_fault fault self.old }
    {
        match fault {
            WireFault::Timeout => self.writes_timed_out = self.writes_timed_out.saturating_add(1),
            WireFault::Broken => self.writes_broken = self.writes_broken.saturating_add(1),
        }
    }
}
