use crate::texts::words_of;
use lb_acl::{AclLine, KeySample, Polarity};
use lb_config_arguments::{LineError, Words};
use lb_config_conditions::{
    Alternative, UnresolvedAcl, UnresolvedCond, read_declaration, read_pattern, read_server_rule,
};
use std::alloc::Global;
use std::process::Abort;
use std::test::Fail;

/// What follows the alternative in the text that is wanted, if that begins so: tests are joined by `&`, `!` stands before a
/// negated one, and `{}` for an anonymous ACL.
fn behind_tests<'a>(alternative: &Alternative, wanted: &'a [u8]) -> Option<&'a [u8]> {
    let mut rest = wanted;
    let mut joint: &[u8] = b"";
    for term in alternative.terms() {
        rest = rest.strip_prefix(joint)?;
        if term.is_negated {
            rest = rest.strip_prefix(b"!")?;
        }
        rest = match &term.acl {
            UnresolvedAcl::Anonymous(_) => rest.strip_prefix(b"{}")?,
            UnresolvedAcl::Named(name) => rest.strip_prefix(name.as_bytes())?,
        };
        joint = b"&";
    }
    Some(rest)
}

/// The same of the whole condition, whose alternatives are joined by `|`.
fn behind_alternatives<'a>(cond: &UnresolvedCond, wanted: &'a [u8]) -> Option<&'a [u8]> {
    let mut rest = wanted;
    let mut joint: &[u8] = b"";
    for alternative in cond.alternatives() {
        rest = rest.strip_prefix(joint)?;
        rest = behind_tests(alternative, rest)?;
        joint = b"|";
    }
    Some(rest)
}

/// The condition of the rule `use-server` has this shape and polarity.
fn expect_cond(
    rt: &impl Abort,
    alloc: Global,
    line: &str,
    shape: &str,
    polarity: Polarity,
) -> Result<(), LineError> {
    let words = words_of(alloc, line)?;
    let rule = read_server_rule(&mut Words::new(alloc, &words, None))?;
    let behind = behind_alternatives(&rule.cond, shape.as_bytes());
    assert!(rt;
        matches!(behind, Some([])) && rule.cond.polarity() == polarity,
        "{line}"
    );
    Ok(())
}

/// Rules, and the shape and polarity of their conditions.
const CONDITIONS: &[(&str, &str, Polarity)] = &[
    ("s if a", "a", Polarity::If),
    ("s if a b or c", "a&b|c", Polarity::If),
    ("s if a or b c", "a|b&c", Polarity::If),
    ("s if a || b || c d", "a|b|c&d", Polarity::If),
    ("s if !a", "!a", Polarity::If),
    ("s if ! a", "!a", Polarity::If),
    ("s if !!a", "a", Polarity::If),
    ("s if ! !a", "a", Polarity::If),
    ("s if ! ! ! a b", "!a&b", Polarity::If),
    ("s if !a or !b", "!a|!b", Polarity::If),
    ("s if and", "and", Polarity::If),
    ("s if { path / } a", "{}&a", Polarity::If),
    ("s if !{ path / or } or a", "!{}|a", Polarity::If),
    ("s if ! { path -i -- -x } b", "!{}&b", Polarity::If),
    ("s unless a", "a", Polarity::Unless),
];

#[test]
fn or_separates_weaker_than_and(rt: HostRuntime) -> Result<(), Fail> {
    for (line, shape, polarity) in CONDITIONS {
        expect_cond(&rt, rt.alloc(), *line, *shape, *polarity)?;
    }
    Ok(())
}

/// What the ACL tests.
fn acl_kind(line: &AclLine) -> &'static str {
    match line {
        AclLine::Source(_) => "source",
        AclLine::Text(_) => "text",
    }
}

/// What the pattern takes, and its name.
fn pattern<'a>(sample: &'a KeySample) -> (&'static str, &'a [u8]) {
    match sample {
        KeySample::Source => ("source", b""),
        KeySample::Field(name) => ("field", name.as_bytes()),
        KeySample::Cookie(name) => ("cookie", name.as_bytes()),
    }
}

/// ACLs with their name and kind.
const ACLS: &[(&str, &[u8], &str)] = &[
    ("local src 10.0.0.0/8 127.0.0.1", b"local", "source"),
    ("image path_end -i .JPG .png", b"image", "text"),
];

/// Patterns with what they take and its name.
const PATTERNS: &[(&str, (&str, &[u8]))] = &[
    ("src", ("source", b"")),
    ("hdr(x-id)", ("field", b"x-id")),
    ("req.hdr(Host)", ("field", b"Host")),
    ("cook(s)", ("cookie", b"s")),
    ("req.cook(SERVERID)", ("cookie", b"SERVERID")),
];

#[test]
fn acls_have_a_name_and_a_kind_and_patterns_a_name(rt: HostRuntime) -> Result<(), Fail> {
    for (text, name, kind) in ACLS {
        let words = words_of(rt.alloc(), *text)?;
        let read = read_declaration(&mut Words::new(rt.alloc(), &words, None))?;
        assert!(rt;
            read.name.as_bytes() == *name && acl_kind(&read.line) == *kind,
            "{text}"
        );
    }
    let none = Words::new(rt.alloc(), &[], None);
    for (word, wanted) in PATTERNS {
        let sample = read_pattern(&none, word.as_bytes())?;
        assert_eq!(rt; pattern(&sample), *wanted, "{word}");
    }
    Ok(())
}
