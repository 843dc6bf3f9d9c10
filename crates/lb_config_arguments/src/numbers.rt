ghost use Rattle.std.specs.Prelude.{◌≡◌, ◌≤◌, length, take, drop, Some, IfOk};
ghost use Rattle.std.specs.Int.{div_ceil};
ghost use Rattle.lb_config_arguments.specs.Numbers.{within, amount_of, digit_count, quantity_of, time_unit, size_unit, number_in, time_in, size_in};

use crate::{Fault, is};
use lb_types::MAX_PINS;
use lb_types_text::Digits;

/// The longest time, in milliseconds: some 24.8 days, as in HAProxy.
pub const MAX_MILLIS: u64 = 2_147_483_647;

/// The number that the word is, in the range from `least` to `most`. Leading zeros are allowed.
#[tactic(auto, unfolding(crate::specs::Numbers::number_in))]
pub fn read_number(least: u64, most: u64, word: &[u8]) -> Result<u64, Fault>
    ensures exact { result ≡ number_in least most word.now }
    ensures at_least { IfOk result (λ number. least ≤ number) }
    ensures at_most { IfOk result (λ number. number ≤ most) }
{
    within(least, most, amount(Some(1), Digits::read(word)))
}

/// A time in milliseconds, at most 2147483647: a number with `us`, `ms`, `s`, `m`, `h` or `d`, or in milliseconds without a
/// unit. One in microseconds is rounded up.
#[tactic(auto, unfolding(crate::specs::Numbers::time_in))]
pub fn read_time(word: &[u8]) -> Result<u32, Fault>
    ensures { result ≡ time_in word.now }
{
    let millis = micros(word).map(|micros| micros.div_ceil(1000));
    Ok(within(0, MAX_MILLIS, millis)? as u32)
}

/// A time in microseconds.
#[tactic(auto, unfolding(crate::specs::Numbers::quantity_of))]
fn micros(word: &[u8]) -> Option<u64>
    ensures { result ≡ quantity_of time_unit word.now }
{
    let (digits, unit) = split(word);
    amount(time_unit(unit), Digits::read(digits))
}

/// The size of a table, 1 to 16777216: a number, or one with `k`, `m` or `g` for 2^10, 2^20 and 2^30.
#[tactic(auto, unfolding(crate::specs::Numbers::size_in))]
pub fn read_size(word: &[u8]) -> Result<u32, Fault>
    ensures exact { result ≡ size_in word.now }
    ensures at_least { IfOk result (λ size. 1 ≤ size) }
    ensures at_most { IfOk result (λ size. size ≤ MAX_PINS) }
{
    Ok(within(1, MAX_PINS, entries(word))? as u32)
}

/// A number of entries.
#[tactic(auto, unfolding(crate::specs::Numbers::quantity_of))]
fn entries(word: &[u8]) -> Option<u64>
    ensures { result ≡ quantity_of size_unit word.now }
{
    let (digits, unit) = split(word);
    amount(size_unit(unit), Digits::read(digits))
}

fn within(least: u64, most: u64, number: Option<u64>) -> Result<u64, Fault>
    ensures exact { result ≡ within least most number }
    ensures at_least { IfOk result (λ number. least ≤ number) }
    ensures at_most { IfOk result (λ number. number ≤ most) }
{
    match number {
        Some(number) if least <= number && number <= most => Ok(number),
        _ => Err(Fault::BadNumber),
    }
}

/// So many units, if 64 bits can hold that.
fn amount(unit: Option<u64>, digits: Digits) -> Option<u64>
    ensures { result ≡ amount_of unit digits }
{
    let unit = unit?;
    match digits {
        Digits::Value(number) => number.checked_mul(unit),
        Digits::Misspelt | Digits::TooLarge => None,
    }
}

/// The digits that the word begins with, and what follows them.
fn split(word: &[u8]) -> (&[u8], &[u8])
    ensures digits { result.0.now ≡ take (digit_count word.now) word.now }
    ensures unit { result.1.now ≡ drop (digit_count word.now) word.now }
{
    word.split_at(digit_count(word))
}

/// How many digits the word begins with.
fn digit_count(word: &[u8]) -> usize
    ensures exact { result ≡ digit_count word.now }
    ensures within { result ≤ length word.now }
{
    for (i, byte) in word.iter().enumerate() {
        if !byte.is_ascii_digit() {
            return i;
        }
    }
    word.len()
}

/// The length of a unit of time in microseconds.
#[tactic(auto, unfolding(crate::specs::Numbers::time_unit))]
fn time_unit(unit: &[u8]) -> Option<u64>
    ensures { result ≡ time_unit unit.now }
{
    if unit.is_empty() {
        Some(1_000)
    } else if is(unit, b"us") {
        Some(1)
    } else if is(unit, b"ms") {
        Some(1_000)
    } else if is(unit, b"s") {
        Some(1_000_000)
    } else if is(unit, b"m") {
        Some(60_000_000)
    } else if is(unit, b"h") {
        Some(3_600_000_000)
    } else if is(unit, b"d") {
        Some(86_400_000_000)
    } else {
        None
    }
}

/// How much a unit of sizes is.
#[tactic(auto, unfolding(crate::specs::Numbers::size_unit))]
fn size_unit(unit: &[u8]) -> Option<u64>
    ensures { result ≡ size_unit unit.now }
{
    if unit.is_empty() {
        Some(1)
    } else if is(unit, b"k") {
        Some(1 << 10)
    } else if is(unit, b"m") {
        Some(1 << 20)
    } else if is(unit, b"g") {
        Some(1 << 30)
    } else {
        None
    }
}
