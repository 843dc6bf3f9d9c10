//! Memory that is in use.

use anyhow::{Context, Result};
use std::fs;
use std::rt::Files;

/// How many bytes a page has.
const PAGE: u64 = 4096;

/// The resident memory of this program, in bytes, as Linux reports it.
pub fn resident<R: Files + Alloc>(rt: &R) -> Result<u64> {
    let text = fs::read_to_string(rt, "/proc/self/statm")?;
    let word = text
        .split_whitespace()
        .nth(1)
        .context("no resident pages are told")?;
    let pages: u64 = word.parse().context("the resident pages are no number")?;
    Ok(pages.saturating_mul(PAGE))
}

/// By how many bytes the resident memory has grown since it was `before`, for each of so many.
pub fn grown<R: Files + Alloc>(rt: &R, before: u64, things: u64) -> Result<u64> {
    let bytes = resident(rt)?.saturating_sub(before);
    Ok(bytes.checked_div(things).unwrap_or(0))
}
