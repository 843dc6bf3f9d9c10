ghost use Rattle.std.specs.Prelude.{◌≡◌, ◌∷◌, [], None, codes};
ghost use Rattle.std.specs.List.{last_or, filter_map};
ghost use Rattle.std.specs.Option.{option_copied};
ghost use Rattle.set_cookie.specs.Answers.{answered_at};
ghost use Rattle.set_cookie.specs.Dates.{moment};
ghost use Rattle.set_cookie.specs.Fields.{field_value, is_field, is_field_line, values_of};
ghost use Rattle.set_cookie.specs.Lines.{lines_of};
ghost use Rattle.set_cookie.specs.Names.{ends_name, may_end_at, name_end};
ghost use Rattle.set_cookie.specs.Scans.{date_after, head_of, text_after};
ghost use Rattle.set_cookie.specs.SetCookies.{set_cookies};

use crate::bytes::{after, before};
use crate::dates::moment;
use crate::lines::next_line;
use crate::set_cookies::is_cookie;
use lb_acl::trimmed;

/// The start of the year 2000, in the order of moments: what counts as the date of an answer without one.
pub const UNDATED: u64 = (2000 * 12 * 32 + 1) * 86_400;

/// Whether the line is a field line. It costs one walk over the line's name.
#[tactic(auto, using(crate::proofs::Names::ends_within, crate::proofs::Names::field_line, crate::proofs::Names::endless))]
fn is_field_line(line: &[u8]) -> bool
    ensures { result ≡ is_field_line line.now }
{
    match name_end(line) {
        Some(end) => end > 0 && line[end] == b':',
        None => false,
    }
}

/// The place of the first byte that no name has.
fn name_end(line: &[u8]) -> Option<usize>
    ensures { result ≡ name_end line.now }
{
    line.iter().position(|byte| ends_name(*byte))
}

/// Whether no name has this byte.
fn ends_name(byte: u8) -> bool
    ensures { result ≡ ends_name byte }
{
    byte == b':' || byte <= b' ' || byte >= 127
}

/// Whether the line's field has this name, whatever the case of its letters.
#[tactic(auto, using(crate::proofs::Names::other_len))]
fn is_field(name: &[u8], line: &[u8]) -> bool
    ensures { result ≡ is_field name.now line.now }
{
    if !may_end_at(name.len(), line) {
        return false;
    }
    before(b':', line).eq_ignore_ascii_case(name)
}

/// Whether the line's name may have so many bytes: `:` follows them, or nothing.
fn may_end_at(len: usize, line: &[u8]) -> bool
    ensures { result ≡ may_end_at len line.now }
{
    len >= line.len() || line[len] == b':'
}

/// The value of the line's field.
fn field_value(line: &[u8]) -> &[u8]
    ensures { result.now ≡ field_value line.now }
{
    trimmed(after(b':', line))
}

/// The last text for a cookie of this name in the lines up to the first empty one, or none where one of them is no field line.
#[tactic(auto, using(crate::proofs::Rows::text_at_last, crate::proofs::Rows::text_at_end, crate::proofs::Rows::text_at_bad, crate::proofs::Rows::text_at_line))]
pub(crate) fn last_text<'a>(name: &[u8], fields: &'a [u8]) -> Option<&'a [u8]>
    ensures { option_copied result ≡ text_after name.now None (lines_of fields.now) }
{
    let mut found = None;
    let mut rest = fields;
    while let Some((line, behind)) = next_line(rest) {
        if line.is_empty() {
            return found;
        }
        if !is_field_line(line) {
            return None;
        }
        found = later_text(name, line, found);
        rest = behind;
    }
    found
}

/// The line's text for a cookie of this name, or else what was found before it.
#[tactic(auto, unfolding(crate::specs::SetCookies::set_cookies, crate::specs::Fields::values_of))]
fn later_text<'a>(name: &[u8], line: &'a [u8], found: Option<&'a [u8]>) -> Option<&'a [u8]>
    ensures { option_copied result ≡ last_or (option_copied found.entry) (set_cookies name.now (line.now ∷ [])) }
{
    if !is_field(b"Set-Cookie", line) {
        return found;
    }
    let text = field_value(line);
    if !is_cookie(name, text) {
        return found;
    }
    Some(text)
}

/// The moment at which the server says that it answered, in the lines up to the first empty one.
#[tactic(auto, unfolding(crate::specs::Answers::answered_at, crate::specs::Scans::date_after))]
pub(crate) fn answered_at(fields: &[u8]) -> u64
    ensures { result ≡ answered_at (head_of (lines_of fields.now)) }
{
    last_date(fields).unwrap_or(UNDATED)
}

/// The last date in the lines up to the first empty one.
#[tactic(auto, using(crate::proofs::Rows::date_at_last, crate::proofs::Rows::date_at_end, crate::proofs::Rows::date_at_line))]
fn last_date(fields: &[u8]) -> Option<u64>
    ensures { result ≡ date_after None (lines_of fields.now) }
{
    let mut found = None;
    let mut rest = fields;
    while let Some((line, behind)) = next_line(rest) {
        if line.is_empty() {
            return found;
        }
        found = later_date(line, found);
        rest = behind;
    }
    found
}

/// The line's date, or else what was found before it.
#[tactic(auto, unfolding(crate::specs::Fields::values_of))]
fn later_date(line: &[u8], found: Option<u64>) -> Option<u64>
    ensures { result ≡ last_or found (filter_map moment (values_of (codes "Date") (line.now ∷ []))) }
{
    if !is_field(b"Date", line) {
        return found;
    }
    moment(field_value(line)).or(found)
}
