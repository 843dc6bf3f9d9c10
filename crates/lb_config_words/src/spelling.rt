ghost use Rattle.std.specs.Prelude.{◌≡◌, ◌==◌, ◌∷◌, ◌&&◌, Some, length, IfOk, OnOk};
ghost use Rattle.std.specs.Option.{is_none};
ghost use Rattle.lb_config_words.specs.WordResults.{first_group, after_group};
ghost use Rattle.lb_config_words.specs.Words.{word_of, spelled_of};

use crate::piece::{Piece, Pieces};
use crate::{SpellingFault, Word};
use std::alloc::{AllocError, Global};
use std::marker::Model;

/// How many words a line may have.
const MAX_WORDS: usize = 64;

/// The words of a line, and why its spelling breaks off after them, if it does.
#[derive(Debug, Drop)]
pub(crate) struct Spelling {
    pub(crate) words: Vec<Word>,
    pub(crate) ending: Option<SpellingFault>,
}

impl Model for Spelling {
    ghost use Rattle.lb_config_words.specs.Words.{Spelled};

    ghost Value = { Spelled };

    ghost view = { λ spelling. record { words = spelling.words.items; ending = spelling.ending } };
}

impl Spelling {
    /// Whether there is neither a word nor a fault.
    pub(crate) fn is_nothing(&self) -> bool
        ensures { result ≡ (length self.now.words == 0 && is_none self.now.ending) }
    {
        self.words.is_empty() && self.ending.is_none()
    }
}

/// The words of a line without its end.
#[tactic(auto, unfolding(crate::specs::Words::spelled_of))]
pub(crate) fn spell(alloc: Global, line: &[u8]) -> Result<Spelling, AllocError>
    ensures { IfOk result (λ spelling. spelling ≡ spelled_of line.now) }
{
    let mut words = Vec::new(alloc);
    let mut pieces = Pieces::new(line);
    while let Some(first) = pieces.next_piece() {
        if first.is_gap() {
            continue;
        }
        if words.len() == MAX_WORDS {
            return Ok(broken_off(words, SpellingFault::TooManyWords));
        }
        match read_word(alloc, first, &mut pieces)? {
            Ok(word) => words.push(word)?,
            Err(fault) => return Ok(broken_off(words, fault)),
        }
    }
    Ok(Spelling {
        words,
        ending: None,
    })
}

fn broken_off(words: Vec<Word>, fault: SpellingFault) -> Spelling
    ensures { result ≡ record { words = words.items; ending = Some fault } }
{
    Spelling {
        words,
        ending: Some(fault),
    }
}

/// The word that begins with this piece, up to the next gap.
#[tactic(auto, unfolding(crate::specs::Words::word_of), using(crate::proofs::Groups::with_front_more, crate::proofs::Groups::with_front_nil))]
fn read_word(
    alloc: Global,
    first: Piece,
    pieces: &mut Pieces,
) -> Result<Result<Word, SpellingFault>, AllocError>
    ensures word { IfOk result (λ word. word_of (first_group (first ∷ pieces.old)) ≡ word) }
    ensures rest { IfOk result (λ word. OnOk word (pieces.new ≡ after_group (first ∷ pieces.old))) }
{
    let mut bytes = Vec::new(alloc);
    let mut next = Some(first);
    while let Some(piece) = next {
        match piece {
            Piece::Gap => break,
            Piece::Mark => {}
            Piece::Letter(byte) => bytes.push(byte)?,
            Piece::Broken(fault) => return Ok(Err(fault)),
        }
        next = pieces.next_piece();
    }
    Ok(Ok(Word::new(bytes)))
}
