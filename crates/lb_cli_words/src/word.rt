//! One word of a command line.
ghost use Rattle.std.specs.Prelude.{◌≡◌, option_map};
ghost use Rattle.clap.specs.Lexer.{strip_byte, name_and_value};
ghost use Rattle.lb_cli_words.specs.Words.{attached, ends_options, first_letter, is_help, is_operand, is_option};

/// What follows a hyphen.
pub(crate) fn behind_hyphen(word: &str) -> Option<&str>
    ensures { option_map (λ rest. rest.now) result ≡ strip_byte 45 word.now }
{
    word.strip_prefix('-')
}

/// The first character after the hyphen of an option. A word that has none is no option.
pub(crate) fn first_letter(word: &str) -> Option<char>
    ensures { result ≡ first_letter word.now }
{
    behind_hyphen(word)?.chars().next()
}

/// Whether the word is `--`.
pub(crate) fn ends_options(word: &str) -> bool
    ensures { result ≡ ends_options word.now }
{
    word == "--"
}

/// Whether the word is an option, and no operand.
pub(crate) fn is_option(word: &str) -> bool
    ensures { result ≡ is_option word.now }
{
    first_letter(word).is_some()
}

/// Whether the word asks for help.
pub(crate) fn is_help(word: &str) -> bool
    ensures { result ≡ is_help word.now }
{
    word == "--help" || first_letter(word) == Some('h')
}

/// Whether the word is an operand where options may stand.
pub(crate) fn is_operand(word: &str) -> bool
    ensures { result ≡ is_operand word.now }
{
    !ends_options(word) && !is_option(word)
}

/// What follows an `f`.
pub(crate) fn behind_f(text: &str) -> Option<&str>
    ensures { option_map (λ rest. rest.now) result ≡ strip_byte 102 text.now }
{
    text.strip_prefix('f')
}

/// What follows a `=`.
fn behind_equals(text: &str) -> Option<&str>
    ensures { option_map (λ rest. rest.now) result ≡ strip_byte 61 text.now }
{
    text.strip_prefix('=')
}

/// An option's value in its own word, of which this is what follows the letter.
pub(crate) fn attached(text: &str) -> Option<&str>
    ensures { option_map (λ value. value.now) result ≡ attached text.now }
{
    if text.is_empty() {
        return None;
    }
    Some(behind_equals(text).unwrap_or(text))
}

/// What stands before the first `=`, and what follows it, if there is one.
pub(crate) fn name_and_value(word: &str) -> (&str, Option<&str>)
    ensures { (result.0.now, option_map (λ value. value.now) result.1) ≡ name_and_value word.now }
{
    match word.split_once('=') {
        Some((name, value)) => (name, Some(value)),
        None => (word, None),
    }
}
