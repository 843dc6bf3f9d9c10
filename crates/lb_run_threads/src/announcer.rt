ghost use Rattle.std.specs.Prelude.{None};

use check_workers_loop::{Flipped, Flips, flip_line};
use lb_config::BackendConfig;
use lb_desk_planner::Bell;
use lb_run_floor::Reports;
use std::alloc::{AllocError, Global};
use std::sync::Wait;

/// Announces a check that makes a server of a backend go up or down: to the backend's planner, if it has one, and on standard error.
/// A line that there is no memory for is left out.
#[derive(Drop)]
pub(crate) struct Announcer<'a> {
    pub(crate) alloc: Global,
    pub(crate) reports: &'a Reports,
    pub(crate) backend: &'a BackendConfig,
    pub(crate) bell: Option<Bell>,
}

impl<R: Wait + Eprint> Flips<R> for Announcer<'_> {
    ghost told = { λ _. None };

    fn tell(&mut self, rt: &R, flip: Flipped) {
        if let Some(bell) = &self.bell {
            bell.ring(rt);
        }
        if let Ok(line) = self.line_of(flip) {
            self.reports.say(rt, &line);
        }
    }
}

impl Announcer<'_> {
    /// The line of the flip. One of a server that the backend doesn't have is empty.
    fn line_of(&self, flip: Flipped) -> Result<Vec<u8>, AllocError> {
        let Some(server) = self.backend.servers().get(flip.server.index()) else {
            return Ok(Vec::new(self.alloc));
        };
        flip_line(
            self.alloc,
            self.backend.name().as_bytes(),
            server.name().as_bytes(),
            flip.is_up,
        )
    }
}
