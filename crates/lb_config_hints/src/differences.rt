//! Lines that are taken and mean something else to HAProxy.
use crate::names::word_at;
use lb_config_arguments::{is, read_time};
use lb_config_words::{Line, Word};
use std::alloc::{AllocError, Global};

/// By which words a line differs.
enum Sign {
    /// Each line.
    Always,
    /// It has this word.
    Has(&'static str),
    /// It has a word that begins so.
    Begins(&'static str),
    /// After this word it has a time of 0.
    HasZero(&'static str),
    /// After this word it has a number that isn't 0 or 1.
    HasMany(&'static str),
}

/// Lines of one first word that differ, and in what.
struct Difference {
    first: &'static str,
    sign: Sign,
    says: &'static str,
}

/// Appends what the lines mean that differs from what they mean to HAProxy, each as `line 12: ..`, in the order of the lines. Before them
/// comes that the text has no line `mode`, if it has none.
///
/// It takes some twenty looks at the words of each line.
pub fn push_differences(
    alloc: Global,
    found: &mut Vec<Word>,
    lines: &[Line],
) -> Result<(), AllocError> {
    if !lines
        .iter()
        .any(|line| is(word_at(line.words(), 0), b"mode"))
    {
        let words = Vec::from_slice(alloc, b"no mode line: HTTP is balanced; by HAProxy TCP")?;
        found.push(Word::new(words))?;
    }
    for line in lines {
        push_of_line(alloc, found, line)?;
    }
    Ok(())
}

fn push_of_line(alloc: Global, found: &mut Vec<Word>, line: &Line) -> Result<(), AllocError> {
    for difference in DIFFERENCES {
        if difference.is_in(line.words()) {
            found.push(said(alloc, line.number(), difference.says)?)?;
        }
    }
    Ok(())
}

/// The words about a line.
fn said(alloc: Global, number: u32, says: &str) -> Result<Word, AllocError> {
    let mut words = Vec::new(alloc);
    words.extend_from_slice(b"line ")?;
    words.extend_from_slice(number.to_string(alloc)?.as_bytes())?;
    words.extend_from_slice(b": ")?;
    words.extend_from_slice(says.as_bytes())?;
    Ok(Word::new(words))
}

impl Difference {
    /// Whether a line with these words differs in this.
    fn is_in(&self, words: &[Word]) -> bool {
        self.first.as_bytes() == word_at(words, 0) && self.sign.is_in(words)
    }
}

impl Sign {
    fn is_in(&self, words: &[Word]) -> bool {
        match self {
            Sign::Always => true,
            Sign::Has(sign) => words.iter().any(|word| word.as_bytes() == sign.as_bytes()),
            Sign::Begins(sign) => words
                .iter()
                .any(|word| word.as_bytes().starts_with(sign.as_bytes())),
            Sign::HasZero(sign) => is_zero(word_after(words, sign)),
            Sign::HasMany(sign) => is_many(word_after(words, sign)),
        }
    }
}

/// The word after this one, or no bytes if there is none.
fn word_after<'a>(words: &'a [Word], before: &str) -> &'a [u8] {
    match words
        .iter()
        .position(|word| word.as_bytes() == before.as_bytes())
    {
        Some(place) => word_at(words, place + 1),
        None => b"",
    }
}

fn is_zero(time: &[u8]) -> bool {
    matches!(read_time(time), Ok(0))
}

fn is_many(number: &[u8]) -> bool {
    !number.is_empty() && !is(number, b"0") && !is(number, b"1")
}

/// What docs/CONFIGURATION.md says under "The same text, another meaning" of single lines, and which words are this program's own.
const DIFFERENCES: &[Difference] = &[
    Difference {
        first: "timeout",
        sign: Sign::HasZero("queue"),
        says: "timeout queue 0: nothing waits; to HAProxy as if the line weren't there",
    },
    Difference {
        first: "timeout",
        sign: Sign::Has("check"),
        says: "timeout check: of the whole check; to HAProxy of the answer, once connected",
    },
    Difference {
        first: "stick-table",
        sign: Sign::HasZero("expire"),
        says: "expire 0: a pin is out of time immediately; to HAProxy pins stay",
    },
    Difference {
        first: "server",
        sign: Sign::HasMany("weight"),
        says: "weight: under roundrobin so many requests in a row; HAProxy interleaves them",
    },
    Difference {
        first: "default-server",
        sign: Sign::HasMany("weight"),
        says: "weight: under roundrobin so many requests in a row; HAProxy interleaves them",
    },
    Difference {
        first: "balance",
        sign: Sign::Has("leastconn"),
        says: "leastconn: a request waits for the server with the fewest connections; HAProxy passes over a full one",
    },
    Difference {
        first: "use-server",
        sign: Sign::Always,
        says: "use-server: the servers that rules name are part of a pin's name; to HAProxy a key has one entry",
    },
    Difference {
        first: "stick",
        sign: Sign::Begins("hdr("),
        says: "hdr: each comma separates values; to HAProxy none in double quotes",
    },
    Difference {
        first: "stick",
        sign: Sign::Begins("req.hdr("),
        says: "hdr: each comma separates values; to HAProxy none in double quotes",
    },
    Difference {
        first: "stick",
        sign: Sign::Begins("cook("),
        says: "cook: only ; separates cookies, and no space comes before =; to HAProxy a comma ends one too",
    },
    Difference {
        first: "stick",
        sign: Sign::Begins("req.cook("),
        says: "cook: only ; separates cookies, and no space comes before =; to HAProxy a comma ends one too",
    },
    Difference {
        first: "option",
        sign: Sign::Has("HTTP/1.1"),
        says: "httpchk with HTTP/1.1: checks send Host with the server's address; HAProxy's send none",
    },
    Difference {
        first: "tune.relays",
        sign: Sign::Always,
        says: "tune.relays: HAProxy doesn't know it",
    },
    Difference {
        first: "tune.tries",
        sign: Sign::Always,
        says: "tune.tries: HAProxy doesn't know it",
    },
    Difference {
        first: "tune.journal",
        sign: Sign::Always,
        says: "tune.journal: HAProxy doesn't know it",
    },
    Difference {
        first: "option",
        sign: Sign::Has("evacuate"),
        says: "evacuate: HAProxy doesn't know it",
    },
    Difference {
        first: "pin-cost",
        sign: Sign::Always,
        says: "pin-cost: HAProxy doesn't know it",
    },
    Difference {
        first: "server",
        sign: Sign::Has("maxpins"),
        says: "maxpins: HAProxy doesn't know it",
    },
    Difference {
        first: "default-server",
        sign: Sign::Has("maxpins"),
        says: "maxpins: HAProxy doesn't know it",
    },
];
