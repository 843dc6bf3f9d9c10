//! A chunked body in its parts, each of which knows whether it is good.

/// What a part is.
#[derive(Clone, Copy)]
pub(crate) enum PartKind {
    /// The size line of a chunk.
    Size,
    /// The data of a chunk.
    Content,
    /// The line end after the data of a chunk.
    ContentEnd,
    /// The trailer with its empty line.
    Trailer,
}

/// Where a bad part shows that no more bytes can make it good.
#[derive(Clone, Copy)]
pub(crate) struct Bad {
    /// With so many of its bytes it shows, at the earliest.
    pub(crate) may: usize,
    /// With so many it shows, whatever was seen before.
    pub(crate) must: usize,
}

/// A part of a chunked body.
#[derive(Drop)]
pub(crate) struct Part {
    pub(crate) kind: PartKind,
    pub(crate) text: Vec<u8>,
    pub(crate) bad: Option<Bad>,
}

/// How far a body can be passed on.
#[derive(Clone, Copy)]
pub(crate) enum Reach {
    /// To its end.
    Whole,
    /// As far as it came: there may be more.
    Short,
    /// To a part that is bad.
    Bad,
    /// To a part that is bad, of which that doesn't have to be seen yet.
    BadOrShort,
}

/// How many bytes of a chunked body can be passed on where so many came, and what ends them. A line goes out when it is whole, data
/// as they come.
pub(crate) fn reach_of(parts: &[Part], came: usize) -> (usize, Reach) {
    let mut passed: usize = 0;
    for part in parts {
        let here = came.saturating_sub(passed);
        if let Some(bad) = part.bad {
            return (passed, reach_of_bad(bad, here));
        }
        if here < part.text.len() {
            let more = match part.kind {
                PartKind::Content => here,
                PartKind::Size | PartKind::ContentEnd | PartKind::Trailer => 0,
            };
            return (passed.saturating_add(more), Reach::Short);
        }
        passed = passed.saturating_add(part.text.len());
    }
    (passed, Reach::Whole)
}

/// What ends a body at a bad part of which so many bytes came.
fn reach_of_bad(bad: Bad, here: usize) -> Reach {
    if here >= bad.must {
        Reach::Bad
    } else if here >= bad.may {
        Reach::BadOrShort
    } else {
        Reach::Short
    }
}
