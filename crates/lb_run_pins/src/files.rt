//! The file of pins among the system's files.
use crate::{PinsFault, Unwritten};
use pin_file::{PinFile, read_pin_file};
use std::alloc::{AllocError, Global};
use std::fs::{Files, OpenFile, OpenOptions};
use std::io::{ErrorKind, Read, Write};
use std::os::unix::fs::OpenOptionsExt;
use std::{fs, io};

/// The pins that the file has. One that isn't there has none.
///
/// It takes the memory of the text and of the pins.
pub fn read_pins<R: Files>(rt: &R, alloc: Global, path: &str) -> Result<PinFile, PinsFault> {
    let mut file = match fs::open(rt, path) {
        Ok(file) => file,
        Err(error) if error.kind() == ErrorKind::NotFound => {
            return Ok(PinFile::new(Vec::new(alloc)));
        }
        Err(_) => return Err(PinsFault::CannotRead),
    };
    let mut text = Vec::new(alloc);
    match file.read_to_end(&mut text) {
        Ok(_) => Ok(read_pin_file(alloc, &text)?),
        Err(error) if error.kind() == ErrorKind::OutOfMemory => Err(PinsFault::Memory),
        Err(_) => Err(PinsFault::CannotRead),
    }
}

/// Has the file hold this text: it is written to a file beside it, whose name ends in `.new`, which reaches the disk and then gets the
/// name. So the file is always a whole one, the one before or this one. Only its owner may read it.
pub(crate) fn write_text<R: Files>(
    rt: &R,
    alloc: Global,
    path: &str,
    text: &[u8],
) -> Result<(), Unwritten> {
    let beside = name_beside(alloc, path)?;
    write_beside(rt, &beside, text)?;
    fs::rename(rt, beside.as_str(), path)?;
    Ok(())
}

fn name_beside(alloc: Global, path: &str) -> Result<String, AllocError> {
    let mut name = String::from_str(alloc, path)?;
    name.push_str(".new")?;
    Ok(name)
}

fn write_beside<R: Files>(rt: &R, path: &str, text: &[u8]) -> io::Result<()> {
    let mut file = OpenOptions::new()
        .write(true)
        .create(true)
        .truncate(true)
        .mode(0o600)
        .open(rt, path)?;
    file.write_all(text)?;
    file.sync_all()
}
