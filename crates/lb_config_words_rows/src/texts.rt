//! What the tables share.

use lb_config_words::Word;
use std::alloc::{AllocError, Global};

/// The words of the text, which are separated by one space.
pub(crate) fn words_of(alloc: Global, text: &str) -> Result<Vec<Word>, AllocError> {
    let mut words = Vec::new(alloc);
    for part in text.split(' ') {
        words.push(Word::new(Vec::from_slice(alloc, part.as_bytes())?))?;
    }
    Ok(words)
}
