ghost use Rattle.std.specs.Prelude.{◌≡◌};
ghost use Rattle.lb_acl.specs.Matches.{matches};

use crate::bytes::is_equal;

/// How a sample is compared with a value.
#[derive(Clone, Copy, Debug, PartialEq, Eq)]
pub enum Matching {
    /// The two are equal.
    Equal,
    /// The sample begins with the value: `path_beg`.
    Begins,
    /// The sample ends with the value: `path_end`.
    Ends,
}

impl Matching {
    /// Whether the sample matches the value, without regard to the case of ASCII letters where `ignores_case` says so.
    pub(crate) fn matches(self, ignores_case: bool, sample: &[u8], value: &[u8]) -> bool
        ensures { result ≡ matches self ignores_case sample.now value.now }
    {
        match self {
            Matching::Equal => is_equal(ignores_case, sample, value),
            Matching::Begins => is_front(ignores_case, sample, value),
            Matching::Ends => is_end(ignores_case, sample, value),
        }
    }
}

/// Whether the sample begins with the value.
fn is_front(ignores_case: bool, sample: &[u8], value: &[u8]) -> bool
    ensures { result ≡ matches Matching.Begins ignores_case sample.now value.now }
{
    if sample.len() < value.len() {
        return false;
    }
    let (front, _) = sample.split_at(value.len());
    is_equal(ignores_case, front, value)
}

/// Whether the sample ends with the value.
fn is_end(ignores_case: bool, sample: &[u8], value: &[u8]) -> bool
    ensures { result ≡ matches Matching.Ends ignores_case sample.now value.now }
{
    if sample.len() < value.len() {
        return false;
    }
    let (_, end) = sample.split_at(sample.len() - value.len());
    is_equal(ignores_case, end, value)
}
