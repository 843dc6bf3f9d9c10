use libc::net::{POLLOUT, poll};
use libc::types::pollfd;
use std::sync::atomic::{AtomicU64, Ordering};

/// The descriptor of standard error.
const STANDARD_ERROR: i32 = 2;

/// Where the balancer's threads report on standard error.
///
/// A line is written only where standard error takes it at once. Where its reader has stalled, the line is left out and counted, so that
/// no check and no stop waits for that reader. The next line that is written comes after one with that count. A pipe keeps some 1,000
/// lines for its reader before it takes no more.
#[derive(Drop)]
pub struct Reports {
    left_out: AtomicU64,
}

impl Reports {
    pub fn new() -> Self {
        Reports {
            left_out: AtomicU64::new(0),
        }
    }

    /// Writes the line, of at most 2,048 bytes, or leaves it out. It costs a system call more than the write.
    pub fn say<R: Eprint>(&self, rt: &R, line: &[u8]) {
        if !takes_lines() {
            self.left_out.fetch_add(1, Ordering::SeqCst);
            return;
        }
        let left_out = self.left_out.swap(0, Ordering::SeqCst);
        if left_out > 0 {
            let _ = eprint!(rt; "{left_out} lines were left out here\n");
        }
        if let Ok(text) = str::from_utf8(line) {
            let _ = eprint!(rt; "{text}");
        }
    }
}

/// Whether standard error takes bytes without a wait: of a pipe, 4,096 of them at least.
fn takes_lines() -> bool {
    let mut asked = [pollfd {
        fd: STANDARD_ERROR,
        events: POLLOUT,
        revents: 0,
    }];
    poll(&mut asked, 0) > 0
}
