use crate::Unwritten;
use crate::files::write_text;
use std::alloc::Global;
use std::fs::Files;

/// What a thread takes of the system to write the file of pins. Whatever has files, and is shared between threads, is one. A thread takes this
/// and not `Files`, whose open files no bound lets a thread have.
pub trait TextFiles: Sync {
    /// Has the file at the path hold this text. It is a whole one at each moment, the one before or this one.
    fn write_text(&self, alloc: Global, path: &str, text: &[u8]) -> Result<(), Unwritten>;
}

impl<R: Files + Sync> TextFiles for R {
    fn write_text(&self, alloc: Global, path: &str, text: &[u8]) -> Result<(), Unwritten> {
        write_text(self, alloc, path, text)
    }
}
