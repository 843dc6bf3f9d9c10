ghost use Rattle.std.specs.Prelude.{◌≡◌, ◌==◌, drop, position};
ghost use Rattle.std.specs.Option.{option_map};
ghost use Rattle.haproxy_admin.specs.Cuts.{cut};

/// What stands before the first byte `mark`, and what follows it. None if there is no such byte.
#[tactic(auto, unfolding(crate::specs::Cuts::cut))]
pub(crate) fn cut(mark: u8, bytes: &[u8]) -> Option<(&[u8], &[u8])>
    ensures { option_map (λ two. (two.0.now, two.1.now)) result ≡ cut mark bytes.now }
{
    let at = position_of(mark, bytes)?;
    let (before, _) = bytes.split_at(at);
    let (_, after) = bytes.split_at(at + 1);
    Some((before, after))
}

fn position_of(mark: u8, bytes: &[u8]) -> Option<usize>
    ensures { result ≡ position (λ b. b == mark) bytes.now }
{
    bytes.iter().position(|b| *b == mark)
}

/// The bytes without so many at their front.
pub(crate) fn without_front(len: usize, bytes: &[u8]) -> &[u8]
    ensures { result.now ≡ drop len bytes.now }
{
    let (_, rest) = bytes.split_at(len.min(bytes.len()));
    rest
}
