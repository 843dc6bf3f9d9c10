use lb_types_text::{Digits, Parts, cut, numeral};

/// A text, and its parts between spaces, one after another.
const PARTS: &[(&str, &[Option<&str>])] = &[
    ("", &[Some(""), None, None]),
    ("row", &[Some("row"), None, None]),
    ("a b", &[Some("a"), Some("b"), None, None]),
    (
        " a  b ",
        &[
            Some(""),
            Some("a"),
            Some(""),
            Some("b"),
            Some(""),
            None,
            None,
        ],
    ),
    (" ", &[Some(""), Some(""), None, None]),
];

/// A text, and what stands before its first comma and after it.
const CUTS: &[(&str, Option<(&str, &str)>)] = &[
    ("a,b,c", Some(("a", "b,c"))),
    (",", Some(("", ""))),
    ("abc", None),
];

// After the last part nothing comes, however often one asks.
#[test]
fn parts_stand_between_the_marks_and_a_cut_is_at_the_first(rt: HostRuntime) {
    for (text, wanted) in PARTS {
        let mut parts = Parts::new(text.as_bytes(), b' ');
        for part in *wanted {
            let wanted = part.map(|part| part.as_bytes());
            assert_eq!(rt; parts.next_part(), wanted, "in {text:?}");
        }
    }
    for (text, wanted) in CUTS {
        let wanted = wanted.map(|(part, rest)| (part.as_bytes(), rest.as_bytes()));
        assert_eq!(rt; cut(text.as_bytes(), b','), wanted, "of {text}");
    }
}

const LARGEST: u64 = 18446744073709551615;

/// A word, and the number that it spells as digits and as a numeral.
const NUMBERS: &[(&str, Digits, Option<u64>)] = &[
    ("0", Digits::Value(0), Some(0)),
    ("10", Digits::Value(10), Some(10)),
    (
        "18446744073709551614",
        Digits::Value(18446744073709551614),
        Some(18446744073709551614),
    ),
    (
        "18446744073709551615",
        Digits::Value(LARGEST),
        Some(LARGEST),
    ),
    ("18446744073709551616", Digits::TooLarge, Some(LARGEST)),
    (
        "99999999999999999999999999",
        Digits::TooLarge,
        Some(LARGEST),
    ),
    ("007", Digits::Value(7), None),
    ("00", Digits::Value(0), None),
    ("01", Digits::Value(1), None),
    ("018446744073709551615", Digits::Value(LARGEST), None),
    ("", Digits::Misspelt, None),
    ("-1", Digits::Misspelt, None),
    ("+1", Digits::Misspelt, None),
    ("1 ", Digits::Misspelt, None),
    ("1x", Digits::Misspelt, None),
    ("99999999999999999999999999x", Digits::Misspelt, None),
];

// Digits allow leading zeros, and report a number that is too large. A numeral has none, and is cut at 2^64 - 1.
#[test]
fn words_and_the_numbers_that_they_spell(rt: HostRuntime) {
    for (word, digits, number) in NUMBERS {
        let read = (Digits::read(word.as_bytes()), numeral(word.as_bytes()));
        assert_eq!(rt; read, (*digits, *number), "{word:?}");
    }
}
