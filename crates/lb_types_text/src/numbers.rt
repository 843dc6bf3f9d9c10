ghost use Rattle.std.specs.Prelude.{◌≡◌, ◌+◌, ◌*◌, ◌<◌, length, true};
ghost use Rattle.std.specs.Char.{is_ascii_digit, digit_value};
ghost use Rattle.std.specs.List.{list_all};
ghost use Rattle.std.specs.Str.Parse.{digits_value};
ghost use Rattle.lb_types_text.specs.Numbers.{is_number, within_64_bits, digits_of, has_no_leading_zero, numeral_of};

/// What a word says, read as decimal digits. Leading zeros are allowed.
#[derive(Clone, Copy, Debug, PartialEq, Eq)]
pub enum Digits {
    /// The word is empty, or has a byte that is no digit.
    Misspelt,
    /// The number is 2^64 or more.
    TooLarge,
    /// The number.
    Value(u64),
}

impl Digits {
    /// What the word says.
    #[tactic(auto, unfolding(crate::specs::Numbers::digits_of))]
    pub fn read(word: &[u8]) -> Digits
        ensures { result ≡ digits_of word.now }
    {
        if !is_number(word) {
            return Digits::Misspelt;
        }
        match value(word) {
            Some(number) => Digits::Value(number),
            None => Digits::TooLarge,
        }
    }
}

/// The number that the word spells without a leading zero (`0` alone is zero), or none. A number above 2^64 - 1 is
/// given as 2^64 - 1: this is for readers whose limits are all below that.
#[tactic(auto, unfolding(crate::specs::Numbers::numeral_of))]
pub fn numeral(word: &[u8]) -> Option<u64>
    ensures { result ≡ numeral_of word.now }
{
    if !is_number(word) {
        return None;
    }
    if !has_no_leading_zero(word) {
        return None;
    }
    Some(value(word).unwrap_or(u64::MAX))
}

fn is_number(word: &[u8]) -> bool
    ensures { result ≡ is_number word.now }
{
    !word.is_empty() && are_digits(word)
}

fn are_digits(word: &[u8]) -> bool
    ensures { result ≡ list_all is_ascii_digit word.now }
{
    word.iter().all(|byte| byte.is_ascii_digit())
}

/// Whether the word, which isn't empty, has one digit or begins with another one than `0`.
fn has_no_leading_zero(word: &[u8]) -> bool
    requires { 0 < length word.now }
    ensures { result ≡ has_no_leading_zero word.now }
{
    word.len() == 1 || word[0] != b'0'
}

/// The number that the digits write, if 64 bits can hold it.
fn value(word: &[u8]) -> Option<u64>
    requires { list_all is_ascii_digit word.now ≡ true }
    ensures { result ≡ within_64_bits (digits_value 10 word.now) }
{
    let mut number: u64 = 0;
    for byte in word {
        number = with_digit(number, *byte)?;
    }
    Some(number)
}

/// The number with the digit appended to its own.
fn with_digit(number: u64, byte: u8) -> Option<u64>
    requires { is_ascii_digit byte ≡ true }
    ensures { result ≡ within_64_bits (number * 10 + digit_value byte) }
{
    number.checked_mul(10)?.checked_add(u64::from(byte - b'0'))
}
