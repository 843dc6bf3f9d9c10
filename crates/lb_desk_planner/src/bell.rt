ghost use Rattle.std.specs.Prelude.{◌≡◌, IfOk};
ghost use Rattle.lb_desk_planner.specs.Told.{heard_after};

use crossbeam_channel::{Receiver, Sender, bounded};
use std::alloc::{AllocError, Global};
use std::marker::Model;
use std::sync::Wait;

/// Signals to a planner that there may be pins to move. Each thread has its own.
#[derive(Debug, Drop)]
pub struct Bell {
    to: Sender<()>,
}

/// What a planner hears of its bells. Contracts see how many notices it has heard, up to 2^64 - 1.
#[derive(Debug, Drop)]
pub struct Notices {
    from: Receiver<()>,
    heard: u64,
}

impl Model for Notices {
    ghost use Rattle.std.specs.Prelude.{ℕ};

    ghost Value = { ℕ };

    ghost view = { λ notices. notices.heard };
}

impl Bell {
    /// A bell, and the notices of it and of its copies. All memory that they need is taken here.
    pub fn new(alloc: Global) -> Result<(Bell, Notices), AllocError>
        ensures { IfOk result (λ made. made.1 ≡ 0) }
    {
        // Room for one: a ring that finds another one waiting is the same notice.
        let (to, from) = bounded(alloc, 1)?;
        Ok((Bell { to }, Notices { from, heard: 0 }))
    }

    /// Notifies the planner, and doesn't wait for it. A ring that finds another one not heard yet is one notice with it. If nobody
    /// hears any more, nothing happens. It costs a lock that is never held for long.
    pub fn ring<R: Wait>(&self, rt: &R) {
        let _ = self.to.try_send(rt, ());
    }
}

impl Clone for Bell {
    /// One more bell for the same planner. It fails at 2^63 - 1 of them.
    fn clone(&self) -> Result<Bell, AllocError> {
        Ok(Bell {
            to: self.to.clone()?,
        })
    }
}

impl Notices {
    /// Waits until there is a notice, and answers true; or false, once all bells are gone and each notice was heard.
    pub fn hear<R: Wait>(&mut self, rt: &R) -> bool
        ensures { self.new ≡ heard_after self.old result }
    {
        let Ok(()) = self.from.recv(rt) else {
            return false;
        };
        self.heard = self.heard.saturating_add(1);
        true
    }
}
