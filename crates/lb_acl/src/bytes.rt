ghost use Rattle.std.specs.Prelude.{◌≡◌, ◌≤◌, length};
ghost use Rattle.std.specs.List.{prefix_len, suffix_len};
ghost use Rattle.lb_acl.specs.Bytes.{is_blank, trimmed, is_equal, place_of};

/// The bytes without the spaces and tabs at both ends.
#[tactic(auto, unfolding(crate::specs::Bytes::trimmed))]
pub fn trimmed(bytes: &[u8]) -> &[u8]
    ensures { result.now ≡ trimmed bytes.now }
{
    let (_, rest) = bytes.split_at(blanks_before(bytes));
    let (kept, _) = rest.split_at(rest.len() - blanks_behind(rest));
    kept
}

fn is_blank(byte: u8) -> bool
    ensures { result ≡ is_blank byte }
{
    byte == b' ' || byte == b'\t'
}

/// How many spaces and tabs the bytes begin with.
fn blanks_before(bytes: &[u8]) -> usize
    ensures exact { result ≡ prefix_len is_blank bytes.now }
    ensures within { result ≤ length bytes.now }
{
    for (i, byte) in bytes.iter().enumerate() {
        if !is_blank(*byte) {
            return i;
        }
    }
    bytes.len()
}

/// How many spaces and tabs the bytes end with.
fn blanks_behind(bytes: &[u8]) -> usize
    ensures exact { result ≡ suffix_len is_blank bytes.now }
    ensures within { result ≤ length bytes.now }
{
    let mut end = bytes.len();
    while end > 0 && is_blank(bytes[end - 1]) {
        end -= 1;
    }
    bytes.len() - end
}

/// Whether the bytes are the same, without regard to the case of ASCII letters where `ignores_case` says so.
pub(crate) fn is_equal(ignores_case: bool, a: &[u8], b: &[u8]) -> bool
    ensures { result ≡ is_equal ignores_case a.now b.now }
{
    if ignores_case {
        a.eq_ignore_ascii_case(b)
    } else {
        a == b
    }
}

/// The place of the first byte `mark`, or the length.
pub(crate) fn place_of(mark: u8, bytes: &[u8]) -> usize
    ensures exact { result ≡ place_of mark bytes.now }
    ensures within { result ≤ length bytes.now }
{
    for (i, byte) in bytes.iter().enumerate() {
        if *byte == mark {
            return i;
        }
    }
    bytes.len()
}
