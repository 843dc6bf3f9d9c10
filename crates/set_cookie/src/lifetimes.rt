ghost use Rattle.std.specs.Prelude.{◌≡◌, ◌∷◌, [], None};
ghost use Rattle.std.specs.List.{last_or, filter_map};
ghost use Rattle.lb_types_text.specs.Parts.{parts};
ghost use Rattle.set_cookie.specs.Answers.{answered_at};
ghost use Rattle.set_cookie.specs.Lifetimes.{expiry, has_ended, is_attribute, is_deletion, is_negative, is_no_age, no_age};
ghost use Rattle.set_cookie.specs.Lines.{lines_of};
ghost use Rattle.set_cookie.specs.Scans.{head_of};

use crate::bytes::after;
use crate::dates::moment;
use crate::fields::answered_at;
use crate::set_cookies::{name_of, pair_of, value_of};
use lb_types_text::{Digits, Parts};

/// Whether the text deletes its cookie, in an answer with these fields.
#[tactic(auto, unfolding(crate::specs::Lifetimes::is_deletion))]
pub(crate) fn is_deletion(fields: &[u8], text: &[u8]) -> bool
    ensures { result ≡ is_deletion (answered_at (head_of (lines_of fields.now))) text.now }
{
    value_of(pair_of(text)).is_empty() || has_ended(fields, after(b';', text))
}

/// Whether these attributes say that the cookie has ended.
#[tactic(auto, unfolding(crate::specs::Lifetimes::has_ended))]
fn has_ended(fields: &[u8], attributes: &[u8]) -> bool
    ensures { result ≡ has_ended (answered_at (head_of (lines_of fields.now))) (parts 59 attributes.now) }
{
    if let Some(has_no_age) = last_no_age(attributes) {
        return has_no_age;
    }
    match last_expiry(attributes) {
        Some(expires) => expires <= answered_at(fields),
        None => false,
    }
}

/// What the last age says that can be read.
fn last_no_age(attributes: &[u8]) -> Option<bool>
    ensures { result ≡ last_or None (filter_map no_age (parts 59 attributes.now)) }
{
    let mut found = None;
    let mut parts = Parts::new(attributes, b';');
    while let Some(attribute) = parts.next_part() {
        if let Some(has_no_age) = no_age(attribute) {
            found = Some(has_no_age);
        }
    }
    found
}

/// The last date of expiry that can be read.
fn last_expiry(attributes: &[u8]) -> Option<u64>
    ensures { result ≡ last_or None (filter_map expiry (parts 59 attributes.now)) }
{
    let mut found = None;
    let mut parts = Parts::new(attributes, b';');
    while let Some(attribute) = parts.next_part() {
        if let Some(expires) = expiry(attribute) {
            found = Some(expires);
        }
    }
    found
}

fn is_attribute(name: &[u8], attribute: &[u8]) -> bool
    ensures { result ≡ is_attribute name.now attribute.now }
{
    name_of(attribute).eq_ignore_ascii_case(name)
}

/// Whether the attribute says that the cookie has no age.
#[tactic(auto, unfolding(crate::specs::Lifetimes::no_age))]
fn no_age(attribute: &[u8]) -> Option<bool>
    ensures { result ≡ no_age attribute.now }
{
    if !is_attribute(b"Max-Age", attribute) {
        return None;
    }
    is_no_age(value_of(attribute))
}

/// The moment at which the attribute says that the cookie expires.
#[tactic(auto, unfolding(crate::specs::Lifetimes::expiry))]
fn expiry(attribute: &[u8]) -> Option<u64>
    ensures { result ≡ expiry attribute.now }
{
    if !is_attribute(b"Expires", attribute) {
        return None;
    }
    moment(value_of(attribute))
}

/// Whether an age of so many seconds is 0 or less, if it is a number.
#[tactic(auto, unfolding(crate::specs::Lifetimes::is_no_age, lb_types_text::specs::Numbers::digits_of))]
fn is_no_age(age: &[u8]) -> Option<bool>
    ensures { result ≡ is_no_age age.now }
{
    let is_negative = is_negative(age);
    let (_, digits) = age.split_at(usize::from(is_negative));
    match Digits::read(digits) {
        Digits::Misspelt => None,
        Digits::TooLarge => Some(is_negative),
        Digits::Value(seconds) => Some(is_negative || seconds == 0),
    }
}

fn is_negative(number: &[u8]) -> bool
    ensures { result ≡ is_negative number.now }
{
    number.starts_with(b"-")
}
