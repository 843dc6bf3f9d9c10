//! Words that are one letter off a known one.
ghost use Rattle.std.specs.Prelude.{◌≡◌};
ghost use Rattle.lb_config_hints.specs.Near.{are_swapped, is_near};

/// The first of the known words that is one letter off this word, unless this word is known itself.
pub(crate) fn meant(known: &[&'static str], word: &[u8]) -> Option<&'static [u8]> {
    if known.iter().any(|it| it.as_bytes() == word) {
        return None;
    }
    known
        .iter()
        .find(|it| is_near(word, it.as_bytes()))
        .map(|it| it.as_bytes())
}

/// Whether the words are one letter apart: one has one more, another one, or two of them the other way round.
#[tactic(auto, unfolding(crate::specs::Near::is_near))]
pub(crate) fn is_near(word: &[u8], known: &[u8]) -> bool
    ensures { result ≡ is_near word.now known.now }
{
    let (mut word, mut known) = (word, known);
    while let Some((a, rest)) = word.split_first() {
        let Some((b, others)) = known.split_first() else {
            return rest.is_empty();
        };
        if a != b {
            return rest == others || rest == known || word == others || are_swapped(word, known);
        }
        word = rest;
        known = others;
    }
    known.len() == 1
}

/// Whether two letters are the other way round at the beginning, and all others equal.
fn are_swapped(word: &[u8], known: &[u8]) -> bool
    ensures { result ≡ are_swapped word.now known.now }
{
    match (word, known) {
        ([a, b, rest @ ..], [c, d, others @ ..]) => a == d && b == c && rest == others,
        _ => false,
    }
}
