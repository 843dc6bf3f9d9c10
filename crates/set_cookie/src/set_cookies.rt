ghost use Rattle.std.specs.Prelude.{◌≡◌};
ghost use Rattle.std.specs.List.{list_any};
ghost use Rattle.set_cookie.specs.SetCookies.{is_control, is_cookie, name_of, pair_of, value_of};

use crate::bytes::{after, before, has_mark};
use lb_acl::trimmed;

/// Whether the text of a `Set-Cookie` field is of a cookie of this name.
#[tactic(auto, unfolding(crate::specs::SetCookies::is_cookie))]
pub(crate) fn is_cookie(name: &[u8], text: &[u8]) -> bool
    ensures { result ≡ is_cookie name.now text.now }
{
    if has_control(text) {
        return false;
    }
    let pair = pair_of(text);
    if !has_mark(b'=', pair) {
        return false;
    }
    name_of(pair) == name
}

fn has_control(text: &[u8]) -> bool
    ensures { result ≡ list_any is_control text.now }
{
    text.iter().any(|byte| is_control(*byte))
}

/// Whether the byte is a control byte other than a tab.
fn is_control(byte: u8) -> bool
    ensures { result ≡ is_control byte }
{
    byte < b' ' && byte != b'\t' || byte == 127
}

/// The cookie's name and value.
pub(crate) fn pair_of(text: &[u8]) -> &[u8]
    ensures { result.now ≡ pair_of text.now }
{
    before(b';', text)
}

/// The name of a pair or an attribute.
pub(crate) fn name_of(part: &[u8]) -> &[u8]
    ensures { result.now ≡ name_of part.now }
{
    trimmed(before(b'=', part))
}

/// The value of a pair or an attribute.
pub(crate) fn value_of(part: &[u8]) -> &[u8]
    ensures { result.now ≡ value_of part.now }
{
    trimmed(after(b'=', part))
}
