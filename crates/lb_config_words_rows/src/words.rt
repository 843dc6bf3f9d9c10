use lb_config_words::{Line, SpellingFault, Word, read_lines};
use std::alloc::Global;
use std::process::Abort;
use std::test::Fail;

fn are_words(found: &[Word], wanted: &[&str]) -> bool {
    for (word, text) in found.iter().zip(wanted) {
        if word.as_bytes() != text.as_bytes() {
            return false;
        }
    }
    found.len() == wanted.len()
}

/// Whether the text is one line of these words and this ending.
fn is_line(lines: &[Line], words: &[&str], ending: Option<SpellingFault>) -> bool {
    let [line] = lines else {
        return false;
    };
    line.ending() == ending && are_words(line.words(), words)
}

fn are_numbered(lines: &[Line], numbers: &[u32]) -> bool {
    for (line, number) in lines.iter().zip(numbers) {
        if line.number() != *number {
            return false;
        }
    }
    lines.len() == numbers.len()
}

const UNCLOSED: Option<SpellingFault> = Some(SpellingFault::UnclosedQuote);

const BACKSLASH: Option<SpellingFault> = Some(SpellingFault::RefusedBackslash);

const DOLLAR: Option<SpellingFault> = Some(SpellingFault::RefusedDollar);

/// A text of one line, its words, and its ending.
type Spelled = (
    &'static [u8],
    &'static [&'static str],
    Option<SpellingFault>,
);

/// Lines that are spelled well.
const WHOLE: &[Spelled] = &[
    (b"global", &["global"], None),
    (
        b"  stats \t socket\t/run/lb  ",
        &["stats", "socket", "/run/lb"],
        None,
    ),
    (b"balance roundrobin\n", &["balance", "roundrobin"], None),
    (b"balance roundrobin\r\n", &["balance", "roundrobin"], None),
    (
        b"balance round\rrobin\r\r\n",
        &["balance", "round\rrobin\r"],
        None,
    ),
    (b"mode http\r", &["mode", "http\r"], None),
    (
        b"gr\xc3\xbcn \xf0\x9f\x98\x80",
        &["gr\u{fc}n", "\u{1f600}"],
        None,
    ),
    (b"a\x0bb", &["a\u{b}b"], None),
    (
        b"acl a path /x # all of it",
        &["acl", "a", "path", "/x"],
        None,
    ),
    (b"a#b c", &["a"], None),
    (b"'#' b", &["#", "b"], None),
    (b"\"#\" b", &["#", "b"], None),
    (b"\\# b", &["#", "b"], None),
    (b"a\\ b", &["a b"], None),
    (b"a\\\\b", &["a\\b"], None),
    (b"\\'a\\\"", &["'a\""], None),
    (b"\\$x $y", &["$x", "$y"], None),
    (b"'a b'", &["a b"], None),
    (b"'a\\ $b\"'", &["a\\ $b\""], None),
    (b"\"a b\\\"c'\"", &["a b\"c'"], None),
    (b"\"\\ \\#\\\\\\'\\$\"", &[" #\\'$"], None),
    (b"a'b'\"c\"d", &["abcd"], None),
    (b"''", &[""], None),
    (b"\"\" x", &["", "x"], None),
    (b"a \"\"# b", &["a", ""], None),
    (b"'a''b'", &["ab"], None),
];

/// Lines whose spelling breaks.
const BROKEN: &[Spelled] = &[
    (b"foo \"x", &["foo"], UNCLOSED),
    (b"foo 'x", &["foo"], UNCLOSED),
    (b"foo ab'x", &["foo"], UNCLOSED),
    (b"'", &[], UNCLOSED),
    (b"\"a\\\"", &[], UNCLOSED),
    (b"'a\n", &[], UNCLOSED),
    (b"a b\\", &["a"], BACKSLASH),
    (b"a b\\\n", &["a"], BACKSLASH),
    (b"a b\\\r\n", &["a"], BACKSLASH),
    (b"a b\\\t", &["a"], BACKSLASH),
    (b"a b\\n", &["a"], BACKSLASH),
    (b"a \"b\\n\" c", &["a"], BACKSLASH),
    (b"a \"b$c\" d", &["a"], DOLLAR),
    (b"\"$\"", &[], DOLLAR),
    // A quote that is not closed is reported where it opens, so before what stands in it.
    (b"a \"b$c", &["a"], UNCLOSED),
    (b"a \"b\\n", &["a"], UNCLOSED),
    (b"a \\n\"b", &["a"], BACKSLASH),
    (b"a 'b' \"$", &["a", "b"], UNCLOSED),
];

/// Texts with the numbers of their lines.
const NUMBERED: &[(&[u8], &[u32])] = &[
    (b"", &[]),
    (b"\n\n", &[]),
    (b" \t\r\n# x\n  # y", &[]),
    (b"a\nb", &[1, 2]),
    (b"a\nb\n", &[1, 2]),
    (b"\n\na\r\n\r\n#\nb", &[3, 6]),
    (b"\n'\n\nx", &[2, 4]),
    (b"\r", &[1]),
];

/// Each text is one line of these words and this ending.
fn expect_lines(rt: &impl Abort, alloc: Global, rows: &[Spelled]) -> Result<(), Fail> {
    for (text, words, ending) in rows {
        let lines = read_lines(alloc, text)?;
        assert!(rt; is_line(&lines, words, *ending), "{text:?}");
    }
    Ok(())
}

/// Each text has lines of these numbers.
fn expect_numbers(rt: &impl Abort, alloc: Global, rows: &[(&[u8], &[u32])]) -> Result<(), Fail> {
    for (text, numbers) in rows {
        let lines = read_lines(alloc, text)?;
        assert!(rt; are_numbered(&lines, numbers), "{text:?}");
    }
    Ok(())
}

#[test]
fn a_line_has_words_an_ending_and_a_number(rt: HostRuntime) -> Result<(), Fail> {
    expect_lines(&rt, rt.alloc(), WHOLE)?;
    expect_lines(&rt, rt.alloc(), BROKEN)?;
    expect_numbers(&rt, rt.alloc(), NUMBERED)
}
