use lb_acl::{Field, Head, Text, Version, path_of, trimmed};
use std::alloc::{AllocError, Global};
use std::net::Ipv4Addr;

const CLIENT: Ipv4Addr = Ipv4Addr::LOCALHOST;

pub(crate) fn text(alloc: Global, word: &str) -> Result<Text, AllocError> {
    Ok(Text::new(Vec::from_slice(alloc, word.as_bytes())?))
}

/// The fields of such lines, each `name: value`.
pub(crate) fn fields<'a>(
    alloc: Global,
    lines: &[(&'a str, &'a str)],
) -> Result<Vec<Field<'a>>, AllocError> {
    let mut fields = Vec::new(alloc);
    for (name, value) in lines {
        fields.push(Field::new(name.as_bytes(), value.as_bytes()))?;
    }
    Ok(fields)
}

pub(crate) fn head<'a>(method: &'a str, target: &'a str, fields: &'a [Field<'a>]) -> Head<'a> {
    Head::new(
        method.as_bytes(),
        target.as_bytes(),
        Version::Http11,
        fields,
        CLIENT,
    )
}

/// Targets and their paths.
const PATHS: &[(&str, &str)] = &[
    ("http://h/a?b", "/a"),
    ("*", ""),
    ("/b?u=http://h/a", "/b"),
    ("/a#b?c", "/a"),
    ("http://h", ""),
    ("http://h?x=/y", "/y"),
    ("h:80", ""),
    ("a:b://c/d", "/d"),
    ("", ""),
    ("a/b", "/b"),
];

/// Values, and what is left of them without blanks around.
const TRIMMED: &[(&str, &str)] = &[(" \t a b\t ", "a b"), (" \t", ""), ("\ra\n", "\ra\n")];

// A path is the target's from its slash to its query. Only spaces and tabs are trimmed.
#[test]
fn paths_of_targets_and_values_without_blanks(rt: HostRuntime) {
    for (target, path) in PATHS {
        assert_eq!(rt; path_of(target.as_bytes()), path.as_bytes(), "of {target}");
    }
    for (value, rest) in TRIMMED {
        assert_eq!(rt; trimmed(value.as_bytes()), rest.as_bytes(), "of {value:?}");
    }
}

/// Whether it is the field `Host: x`, with a blank before and after the value.
fn is_host(field: &Field<'_>) -> bool {
    field.name() == b"Host".as_slice()
        && field.value() == b" x ".as_slice()
        && field.is_named(b"hOST")
}

#[test]
fn parts_of_heads(rt: HostRuntime) {
    let lines = fields(rt.alloc(), &[("Host", " x ")]).expect(&rt, "memory");
    let head = Head::new(b"PUT", b"/p", Version::Http10, &lines, CLIENT);
    let told = (head.method(), head.target(), head.version(), head.source());
    let wanted = (b"PUT".as_slice(), b"/p".as_slice(), Version::Http10, CLIENT);
    let has_host = head.fields().len() == 1 && head.fields().iter().all(|field| is_host(field));
    assert_eq!(rt; (told, has_host), (wanted, true));
}
