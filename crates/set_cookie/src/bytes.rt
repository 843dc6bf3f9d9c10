ghost use Rattle.std.specs.Prelude.{◌≡◌, ◌≤◌, length, take};
ghost use Rattle.lb_acl.specs.Bytes.{place_of};
ghost use Rattle.set_cookie.specs.Bytes.{before, after, has_mark};

/// The place of the first byte `mark`, or the length.
fn place_of(mark: u8, bytes: &[u8]) -> usize
    ensures exact { result ≡ place_of mark bytes.now }
    ensures within { result ≤ length bytes.now }
{
    for (i, byte) in bytes.iter().enumerate() {
        if *byte == mark {
            return i;
        }
    }
    bytes.len()
}

/// Whether there is such a byte.
pub(crate) fn has_mark(mark: u8, bytes: &[u8]) -> bool
    ensures { result ≡ has_mark mark bytes.now }
{
    place_of(mark, bytes) < bytes.len()
}

/// The first bytes, at most `len`.
pub(crate) fn front(bytes: &[u8], len: usize) -> &[u8]
    ensures { result.now ≡ take len bytes.now }
{
    let (kept, _) = bytes.split_at(len.min(bytes.len()));
    kept
}

/// What stands before the first byte `mark`, or all.
pub(crate) fn before(mark: u8, bytes: &[u8]) -> &[u8]
    ensures { result.now ≡ before mark bytes.now }
{
    let (front, _) = bytes.split_at(place_of(mark, bytes));
    front
}

/// What stands after the first byte `mark`, or nothing.
pub(crate) fn after(mark: u8, bytes: &[u8]) -> &[u8]
    ensures { result.now ≡ after mark bytes.now }
{
    let at = place_of(mark, bytes);
    if at == bytes.len() {
        return &[];
    }
    let (_, rest) = bytes.split_at(at + 1);
    rest
}
