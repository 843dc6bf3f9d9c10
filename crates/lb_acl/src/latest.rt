ghost use Rattle.std.specs.Prelude.{◌≡◌, [], ◌∷◌};
ghost use Rattle.std.specs.List.{last_or};
ghost use Rattle.std.specs.Option.{option_copied};
ghost use Rattle.lb_acl.specs.Fields.{trimmed_parts, values_of};
ghost use Rattle.lb_acl.specs.Cookies.{cookie_value, cookies_in, cookies_of};

use crate::Field;
use crate::bytes::{place_of, trimmed};
use lb_types_text::Parts;

/// The last comma-separated value of the last field of this name.
pub(crate) fn last_value<'a>(name: &[u8], fields: &'a [Field]) -> Option<&'a [u8]>
    ensures { option_copied result ≡ last_or None (values_of name.now fields.now) }
{
    let mut found = None;
    for field in fields {
        found = later_value(name, field, found);
    }
    found
}

/// The field's last value if it has the name, or else what was found before it.
#[tactic(auto, unfolding(crate::specs::Fields::values_of))]
fn later_value<'a>(name: &[u8], field: &'a Field, found: Option<&'a [u8]>) -> Option<&'a [u8]>
    ensures { option_copied result ≡ last_or (option_copied found.entry) (values_of name.now (field.now ∷ [])) }
{
    if !field.is_named(name) {
        return found;
    }
    last_element(field.value(), found)
}

/// The last element of the list.
fn last_element<'a>(list: &'a [u8], found: Option<&'a [u8]>) -> Option<&'a [u8]>
    ensures { option_copied result ≡ last_or (option_copied found.entry) (trimmed_parts 44 list.now) }
{
    let mut last = found;
    let mut parts = Parts::new(list, b',');
    while let Some(part) = parts.next_part() {
        last = Some(trimmed(part));
    }
    last
}

/// The value of the last cookie of this name.
pub(crate) fn last_cookie<'a>(name: &[u8], fields: &'a [Field]) -> Option<&'a [u8]>
    ensures { option_copied result ≡ last_or None (cookies_of name.now fields.now) }
{
    let mut found = None;
    for field in fields {
        found = later_cookie(name, field, found);
    }
    found
}

/// The field's last cookie of the name if it is a `Cookie` field and has one, or else what was found before it.
#[tactic(auto, unfolding(crate::specs::Cookies::cookies_of))]
fn later_cookie<'a>(name: &[u8], field: &'a Field, found: Option<&'a [u8]>) -> Option<&'a [u8]>
    ensures { option_copied result ≡ last_or (option_copied found.entry) (cookies_of name.now (field.now ∷ [])) }
{
    if !field.is_named(b"Cookie") {
        return found;
    }
    last_cookie_in(name, field.value(), found)
}

/// The last cookie of the name in the value of one field.
fn last_cookie_in<'a>(name: &[u8], value: &'a [u8], found: Option<&'a [u8]>) -> Option<&'a [u8]>
    ensures { option_copied result ≡ last_or (option_copied found.entry) (cookies_in name.now value.now) }
{
    let mut last = found;
    let mut parts = Parts::new(value, b';');
    while let Some(part) = parts.next_part() {
        if let Some(cookie) = cookie_value(name, trimmed(part)) {
            last = Some(cookie);
        }
    }
    last
}

/// What follows the first `=`, if the name stands before it.
#[tactic(auto, unfolding(crate::specs::Cookies::cookie_value))]
fn cookie_value<'a>(name: &[u8], pair: &'a [u8]) -> Option<&'a [u8]>
    ensures { option_copied result ≡ cookie_value name.now pair.now }
{
    let at = place_of(b'=', pair);
    if at == pair.len() {
        return None;
    }
    let (before, _) = pair.split_at(at);
    if before != name {
        return None;
    }
    let (_, value) = pair.split_at(at + 1);
    Some(value)
}
