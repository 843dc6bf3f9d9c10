//! How long `read_config` takes for six kinds of texts that cost much for their bytes, and how long `read_checked`, which it
//! begins with. There may be texts that cost more; none that we know of.
//!
//! The one word is the size of a text in bytes (16384 without a word; the largest configuration has 1048576). What was read is
//! counted and printed; the times go to standard error.

mod texts;

use crate::config_reading::texts::{KINDS, Kind};
use anyhow::{Result, bail};
use lb_config::{Config, read_config};
use lb_config_sections::read_checked;
use std::alloc::Global;
use std::rt::Runtime;
use std::time::Instant;

pub(crate) fn run(rt: &impl Runtime, alloc: Global, words: &[&str]) -> Result<()> {
    let size = match words.first() {
        Some(word) => word.parse()?,
        None => 16384,
    };
    for kind in &KINDS {
        measure(rt, alloc, *kind, size)?;
    }
    Ok(())
}

/// Reads one text of the kind.
fn measure(rt: &impl Runtime, alloc: Global, kind: Kind, size: usize) -> Result<()> {
    let text = kind.text(alloc, size)?;
    let name = kind.name();
    let checking = time_of_check(rt, alloc, &text)?;
    let reading = time_of_reading(rt, alloc, &text, name)?;
    eprintln!(rt;
        "{name}: {} bytes, checked in {checking} us, read in {reading} us",
        text.len()
    )?;
    Ok(())
}

fn time_of_check(rt: &impl Runtime, alloc: Global, text: &[u8]) -> Result<u128> {
    let start = Instant::now(rt)?;
    let checked = read_checked(alloc, text);
    let time = start.elapsed(rt)?;
    if checked.is_err() {
        bail!("a fault in a text");
    }
    Ok(time.as_micros())
}

/// The time in which the text is read. What was read is counted and printed.
fn time_of_reading(rt: &impl Runtime, alloc: Global, text: &[u8], name: &str) -> Result<u128> {
    let start = Instant::now(rt)?;
    let Ok(config) = read_config(alloc, text) else {
        bail!("the text was not read");
    };
    let time = start.elapsed(rt)?;
    tell(rt, name, &config)?;
    Ok(time.as_micros())
}

fn tell(rt: &impl Runtime, name: &str, config: &Config) -> Result<()> {
    let (frontends, backends) = (config.frontends().len(), config.backends().len());
    println!(rt; "{name}: {frontends} frontends, {backends} backends")?;
    Ok(())
}
