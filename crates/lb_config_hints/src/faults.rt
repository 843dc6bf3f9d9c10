//! Hints by the kind of the fault, and the words of its line.
use crate::Hint;
use crate::known::{BALANCES, FIRST, OPTIONS, PARAMETERS, TIMEOUTS};
use crate::names::{meant_name, word_at};
use crate::near::meant;
use lb_config_arguments::is;
use lb_config_sections::Cause;
use lb_config_words::{Line, Word};

/// What may help with a fault of a line with these words, in a text of these lines, if there is anything to say.
///
/// It allocates nothing, and takes one walk over some twenty words. For a name that no line declares it walks over the lines too.
pub fn hint_for<'a>(cause: &Cause, words: &[Word], lines: &'a [Line]) -> Option<Hint<'a>> {
    let first = word_at(words, 0);
    match cause {
        Cause::NotUtf8 => Some(Hint::Says("write the file in UTF-8")),
        Cause::UnknownSection => Some(of_no_section(first)),
        Cause::UnknownWord => of_unknown(first, word_at(words, 1)),
        Cause::Missing => of_missing(first),
        Cause::BadNumber => of_number(first),
        Cause::BadName => Some(Hint::Says("a name has 1 to 64 letters, digits and - _ . :")),
        Cause::Duplicate => Some(Hint::Says("a line before this one declares the name")),
        Cause::NoSuchName => Some(of_name(words, lines)),
        Cause::TooMany => None,
        Cause::LeftOut(word) => of_left_out(word.as_bytes(), first, word_at(words, 2)),
    }
}

/// A word that begins no section stands before the first one.
fn of_no_section(first: &[u8]) -> Hint<'static> {
    match meant(FIRST, first) {
        Some(word) => Hint::Meant(word),
        None => Hint::Says("a section comes first: global, defaults, frontend, backend or listen"),
    }
}

/// A word isn't known, or is one too many.
fn of_unknown(first: &[u8], second: &[u8]) -> Option<Hint<'static>> {
    if let Some(word) = meant(FIRST, first) {
        return Some(Hint::Meant(word));
    }
    if is(first, b"timeout") {
        return Some(one_of(
            TIMEOUTS,
            second,
            "timeout takes client, connect, server, queue and check",
        ));
    }
    if is(first, b"option") {
        return Some(one_of(
            OPTIONS,
            second,
            "option takes forwardfor, httpchk, allbackups and evacuate",
        ));
    }
    if is(first, b"balance") {
        return Some(one_of(
            BALANCES,
            second,
            "balance takes roundrobin, leastconn and first",
        ));
    }
    says_of(FORMS, first)
}

/// The word of a list that was meant, or else these words.
fn one_of(known: &[&'static str], word: &[u8], words: &'static str) -> Hint<'static> {
    match meant(known, word) {
        Some(word) => Hint::Meant(word),
        None => Hint::Says(words),
    }
}

/// A word is missing.
fn of_missing(first: &[u8]) -> Option<Hint<'static>> {
    says_of(ENDS, first)
}

/// A word is no number, or is out of range.
fn of_number(first: &[u8]) -> Option<Hint<'static>> {
    if is(first, b"timeout") {
        return Some(Hint::Says("a time is a number with us, ms, s, m, h, d or nothing, for ms"));
    }
    None
}

/// A name isn't declared.
fn of_name<'a>(words: &[Word], lines: &'a [Line]) -> Hint<'a> {
    if let Some(name) = meant_name(words, lines) {
        return Hint::Meant(name);
    }
    let first = word_at(words, 0);
    if is(first, b"use_backend") || is(first, b"default_backend") {
        return Hint::Says(
            "no backend or listen section has this name, or no acl line one of those in the condition",
        );
    }
    Hint::Says("no server or acl line of the section has this name")
}

/// The word is one of HAProxy's that is left out. This is the first and the third word of its line.
fn of_left_out(word: &[u8], first: &[u8], third: &[u8]) -> Option<Hint<'static>> {
    if is(first, b"server") {
        if word == third {
            return Some(Hint::Says(
                "names of hosts aren't looked up: write an IPv4 address and a port",
            ));
        }
        if let Some(parameter) = meant(PARAMETERS, word) {
            return Some(Hint::Meant(parameter));
        }
    }
    says_of(INSTEAD, word)
}

/// What the list says of the word, if it does.
fn says_of(list: &[(&'static str, &'static str)], word: &[u8]) -> Option<Hint<'static>> {
    list.iter()
        .find(|(listed, _)| listed.as_bytes() == word)
        .map(|(_, words)| Hint::Says(*words))
}

/// The forms of lines, by their first word.
const FORMS: &[(&str, &str)] = &[
    (
        "stick",
        "stick on takes src, hdr(NAME), cook(NAME), req.hdr(NAME) and req.cook(NAME)",
    ),
    (
        "stick-table",
        "stick-table takes type ip, type string [len N], size N, expire T and nopurge",
    ),
    (
        "use_backend",
        "if or unless comes before the conditions: names of acl lines, or tests in { }",
    ),
    (
        "use-server",
        "if or unless comes before the conditions: names of acl lines, or tests in { }",
    ),
    (
        "pin-cost",
        "if or unless comes before the conditions: names of acl lines, or tests in { }",
    ),
];

/// What is due in a line that ends too early, by its first word.
const ENDS: &[(&str, &str)] = &[
    (
        "server",
        "a server has a name, an address and a port: server a 10.0.0.2:80",
    ),
    ("bind", "an address has a port: bind 127.0.0.1:8080"),
    ("stick", "the section needs a stick-table"),
];

/// Words of HAProxy's that are left out, each with what to do without it.
const INSTEAD: &[(&str, &str)] = &[
    (
        "cookie",
        "let a table keep the clients: stick-table, and stick on req.cook(NAME)",
    ),
    (
        "stick",
        "a section has one stick on; under req.cook(NAME) answers set pins too",
    ),
    ("tcp", "only HTTP is balanced"),
    (
        "ssl",
        "there is no TLS, to clients or to servers: a proxy in front may end it",
    ),
    (
        "peers",
        "two balancers share no pins; run --pins keeps them over a restart",
    ),
    (
        "resolvers",
        "names of hosts aren't looked up: write IPv4 addresses",
    ),
    ("server-template", "write a server line for each"),
    (
        "http-request",
        "requests are changed by the forwarding profile alone",
    ),
    (
        "http-response",
        "answers are changed by the forwarding profile alone",
    ),
    ("redirect", "let a server redirect"),
    (
        "http-check",
        "a check is one request: option httpchk METHOD URI",
    ),
    (
        "\\",
        "a backslash only comes before a space, #, $, a quote or a backslash",
    ),
    (
        "no",
        "leave the line out: a section has what its lines and its defaults say",
    ),
];
