ghost use Rattle.std.specs.Prelude.{◌≡◌, [], ◌∷◌, ◌==◌, ◌++◌, ◌<◌, length, position, IsNone, IfNone, IfSome, MatchOption};
ghost use Rattle.lb_types_text.specs.Parts.{parts};

use std::marker::Model;

/// The parts of some bytes between the marks, one after another. Without a mark the bytes are the one part, so empty
/// bytes have one part, which is empty. As a value it is the list of the parts not yet given.
#[derive(Debug, Drop)]
pub struct Parts<'a> {
    mark: u8,
    rest: Option<&'a [u8]>,
}

impl<'a> Model for Parts<'a> {
    ghost use Rattle.std.specs.Prelude.{List, ℕ};
    ghost use Rattle.lb_types_text.specs.Parts.{parts_left};

    ghost Value = { List (List ℕ) };

    ghost view = { λ p. parts_left p.mark p.rest };
}

impl<'a> Parts<'a> {
    /// All parts of the bytes.
    pub fn new(bytes: &'a [u8], mark: u8) -> Self
        ensures { result ≡ parts mark bytes.now }
    {
        Parts {
            mark,
            rest: Some(bytes),
        }
    }

    /// The next part, or none once all were given.
    pub fn next_part(&mut self) -> Option<&'a [u8]>
        ensures first { IfSome result (λ part. self.old ≡ part.now ∷ self.new) }
        ensures none { IfNone result ((self.old ≡ []) × (self.new ≡ [])) }
    {
        let rest = self.rest?;
        match cut(rest, self.mark) {
            Some((part, behind)) => {
                self.rest = Some(behind);
                Some(part)
            }
            None => {
                self.rest = None;
                Some(rest)
            }
        }
    }
}

/// What stands before the first mark, and what follows it. None if there is no mark.
pub fn cut(bytes: &[u8], mark: u8) -> Option<(&[u8], &[u8])>
    ensures found { IfSome result (λ two. parts mark bytes.now ≡ two.0.now ∷ parts mark two.1.now) }
    ensures more { IfSome result (λ two. 0 < length (parts mark two.1.now)) }
    ensures whole { IfSome result (λ two. bytes.now ≡ two.0.now ++ mark ∷ two.1.now) }
    ensures none { IfNone result (parts mark bytes.now ≡ bytes.now ∷ []) }
{
    let at = position_of(bytes, mark)?;
    let (before, _) = bytes.split_at(at);
    let (_, behind) = bytes.split_at(at + 1);
    Some((before, behind))
}

fn position_of(bytes: &[u8], mark: u8) -> Option<usize>
    ensures { result ≡ position (λ b. b == mark) bytes.now }
{
    bytes.iter().position(|b| *b == mark)
}
