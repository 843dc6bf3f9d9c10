ghost use Rattle.std.specs.Prelude.{◌≡◌, ◌≤◌, ◌<◌, ◌∷◌, [], length, IfSome, IfNone};
ghost use Rattle.std.specs.List.{position_or_len};
ghost use Rattle.set_cookie.specs.Dates.{date_words, full_year, is_date_mark, moment, moment_of, month_of, number_within, seconds_of};

use lb_types_text::{Digits, Parts};

/// The place of the date among all moments, if it can be read.
#[tactic(auto, unfolding(crate::specs::Dates::moment))]
pub(crate) fn moment(text: &[u8]) -> Option<u64>
    ensures { result ≡ moment text.now }
{
    let (_, rest) = next_word(text)?;
    let (day, rest) = next_word(rest)?;
    let (month, rest) = next_word(rest)?;
    let (year, rest) = next_word(rest)?;
    let (time, rest) = next_word(rest)?;
    let (_, rest) = next_word(rest)?;
    if next_word(rest).is_some() {
        return None;
    }
    moment_of(day, month, year, time)
}

/// The first word of a date, and what follows it.
#[tactic(auto, using(crate::proofs::Words::word_here, crate::proofs::Words::mark_here, crate::proofs::Words::no_words))]
fn next_word(text: &[u8]) -> Option<(&[u8], &[u8])>
    ensures first { IfSome result (λ two. date_words text.now ≡ two.0.now ∷ date_words two.1.now) }
    ensures none { IfNone result (date_words text.now ≡ []) }
{
    let mut rest = text;
    while !rest.is_empty() {
        let (word, behind) = rest.split_at(word_len(rest));
        if !word.is_empty() {
            return Some((word, behind));
        }
        let (_, behind) = rest.split_at(1);
        rest = behind;
    }
    None
}

/// How many bytes stand before the first mark.
fn word_len(text: &[u8]) -> usize
    ensures exact { result ≡ position_or_len is_date_mark text.now }
    ensures within { result ≤ length text.now }
{
    for (i, byte) in text.iter().enumerate() {
        if is_date_mark(*byte) {
            return i;
        }
    }
    text.len()
}

fn is_date_mark(byte: u8) -> bool
    ensures { result ≡ is_date_mark byte }
{
    byte == b' ' || byte == b',' || byte == b'-'
}

/// The place of these among all moments.
#[tactic(auto, unfolding(crate::specs::Dates::moment_of))]
fn moment_of(day: &[u8], month: &[u8], year: &[u8], time: &[u8]) -> Option<u64>
    ensures { result ≡ moment_of day.now month.now year.now time.now }
{
    let day = number_within(1, 31, day)?;
    let month = month_of(month)?;
    let year = full_year(number_within(0, 9999, year)?)?;
    let seconds = seconds_of(time)?;
    Some(((year * 12 + month) * 32 + day) * 86_400 + seconds)
}

/// The number that the word spells, if it is within these bounds.
#[tactic(auto, unfolding(crate::specs::Dates::number_within, lb_types_text::specs::Numbers::digits_of))]
fn number_within(least: u64, greatest: u64, word: &[u8]) -> Option<u64>
    ensures exact { result ≡ number_within least greatest word.now }
    ensures greatest { IfSome result (λ number. number ≤ greatest) }
{
    match Digits::read(word) {
        Digits::Value(number) if least <= number && number <= greatest => Some(number),
        _ => None,
    }
}

/// How many months of the year are before it.
#[tactic(auto, unfolding(crate::specs::Dates::month_of))]
fn month_of(word: &[u8]) -> Option<u64>
    ensures exact { result ≡ month_of word.now }
    ensures greatest { IfSome result (λ months. months ≤ 12) }
{
    if word.eq_ignore_ascii_case(b"Jan") {
        return Some(0);
    }
    if word.eq_ignore_ascii_case(b"Feb") {
        return Some(1);
    }
    if word.eq_ignore_ascii_case(b"Mar") {
        return Some(2);
    }
    if word.eq_ignore_ascii_case(b"Apr") {
        return Some(3);
    }
    if word.eq_ignore_ascii_case(b"May") {
        return Some(4);
    }
    if word.eq_ignore_ascii_case(b"Jun") {
        return Some(5);
    }
    if word.eq_ignore_ascii_case(b"Jul") {
        return Some(6);
    }
    if word.eq_ignore_ascii_case(b"Aug") {
        return Some(7);
    }
    if word.eq_ignore_ascii_case(b"Sep") {
        return Some(8);
    }
    if word.eq_ignore_ascii_case(b"Oct") {
        return Some(9);
    }
    if word.eq_ignore_ascii_case(b"Nov") {
        return Some(10);
    }
    if word.eq_ignore_ascii_case(b"Dec") {
        return Some(11);
    }
    None
}

/// The year, with its century.
#[tactic(auto, unfolding(crate::specs::Dates::full_year))]
fn full_year(year: u64) -> Option<u64>
    requires { year ≤ 9999 }
    ensures exact { result ≡ full_year year }
    ensures greatest { IfSome result (λ year. year ≤ 9999) }
{
    if year < 70 {
        Some(2000 + year)
    } else if year < 100 {
        Some(1900 + year)
    } else if year < 1601 {
        None
    } else {
        Some(year)
    }
}

/// The seconds since midnight.
#[tactic(auto, unfolding(crate::specs::Dates::seconds_of))]
fn seconds_of(word: &[u8]) -> Option<u64>
    ensures exact { result ≡ seconds_of word.now }
    ensures greatest { IfSome result (λ seconds. seconds < 86_400) }
{
    let mut parts = Parts::new(word, b':');
    let hour = parts.next_part()?;
    let minute = parts.next_part()?;
    let second = parts.next_part()?;
    if parts.next_part().is_some() {
        return None;
    }
    let hour = number_within(0, 23, hour)?;
    let minute = number_within(0, 59, minute)?;
    let second = number_within(0, 59, second)?;
    Some(hour * 3600 + minute * 60 + second)
}
