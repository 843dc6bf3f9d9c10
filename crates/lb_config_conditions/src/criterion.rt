ghost use Rattle.std.specs.Prelude.{◌≡◌};
ghost use Rattle.lb_config_arguments.specs.Faults.{Gives};
ghost use Rattle.lb_config_conditions.specs.Criteria.{criterion_in, pattern_in};

use crate::call::{is_call_of, read_token};
use lb_acl::{KeySample, Matching, Sample};
use lb_config_arguments::{Fault, LineError, Words, is};

/// What an ACL tests.
#[derive(Debug, Drop)]
pub(crate) enum Criterion {
    /// The client's address.
    Source,
    /// Texts of the request, compared so.
    Texts(Sample, Matching),
}

impl Criterion {
    ghost use Rattle.lb_config_conditions.specs.AclLines.{tests_source};

    /// Whether it tests the client's address.
    pub(crate) fn tests_source(&self) -> bool
        ensures { result ≡ tests_source self.now }
    {
        match self {
            Criterion::Source => true,
            Criterion::Texts(_, _) => false,
        }
    }
}

/// The criterion that the word names.
#[tactic(auto, unfolding(crate::specs::Criteria::criterion_in))]
pub(crate) fn read_criterion(words: &Words, word: &[u8]) -> Result<Criterion, LineError>
    ensures { Gives (λ criterion. criterion) result (criterion_in word.now) }
{
    if is(word, b"src") {
        return Ok(Criterion::Source);
    }
    if is(word, b"method") {
        return Ok(Criterion::Texts(Sample::Method, Matching::Equal));
    }
    if is(word, b"path") {
        return Ok(Criterion::Texts(Sample::Path, Matching::Equal));
    }
    if is(word, b"path_beg") {
        return Ok(Criterion::Texts(Sample::Path, Matching::Begins));
    }
    if is(word, b"path_end") {
        return Ok(Criterion::Texts(Sample::Path, Matching::Ends));
    }
    if is_call_of(b"hdr", b"req.hdr", word) {
        let name = read_token(words, word)?;
        return Ok(Criterion::Texts(Sample::Field(name), Matching::Equal));
    }
    Err(Fault::LeftOut(words.copied(word)?).into())
}

/// The pattern of `stick on` that the word names.
#[tactic(auto, unfolding(crate::specs::Criteria::pattern_in))]
pub fn read_pattern(words: &Words, word: &[u8]) -> Result<KeySample, LineError>
    ensures { Gives (λ sample. sample) result (pattern_in word.now) }
{
    if is(word, b"src") {
        return Ok(KeySample::Source);
    }
    if is_call_of(b"hdr", b"req.hdr", word) {
        return Ok(KeySample::Field(read_token(words, word)?));
    }
    if is_call_of(b"cook", b"req.cook", word) {
        return Ok(KeySample::Cookie(read_token(words, word)?));
    }
    Err(Fault::UnknownWord.into())
}
