//! Plans and sheets are written as they were read, and a writer that fails gets a beginning of the text.

use crate::texts;
use dual_cert::{Plan, Sheet, WriteFailed, read_plan, read_sheet, write_plan, write_sheet};
use lb_types::Counted;
use std::alloc::Global;
use std::io;
use std::io::{BufWriter, ErrorKind, Write};
use std::process::Abort;
use std::test::Fail;

/// A writer that is due a text, takes at most `at_most` bytes of it a write, and from write number `writes` on does as `then`
/// says.
#[derive(Clone, Copy)]
struct Faulty<'a> {
    writes: usize,
    at_most: usize,
    then: Then,
    /// What is due still.
    due: &'a [u8],
    /// Whether all that it took was due.
    is_right: bool,
}

#[derive(Clone, Copy)]
enum Then {
    Fails,
    TakesNothing,
}

impl Write for Faulty<'_> {
    fn write(&mut self, buf: &[u8]) -> io::Result<usize> {
        if self.writes == 0 {
            return match self.then {
                Then::Fails => Err(io::Error::from(ErrorKind::StorageFull)),
                Then::TakesNothing => Ok(0),
            };
        }
        self.writes = self.writes.saturating_sub(1);
        let count = buf.len().min(self.at_most);
        match self.due.strip_prefix(&buf[..count]) {
            Some(rest) => self.due = rest,
            None => self.is_right = false,
        }
        Ok(count)
    }

    fn flush(&mut self) -> io::Result<()> {
        Ok(())
    }
}

/// What a text spells.
#[derive(Clone, Copy)]
enum Document<'a> {
    Plan(&'a Plan),
    Sheet(&'a Sheet),
}

fn write_to(document: Document<'_>, out: &mut Counted<Faulty<'_>>) -> Result<(), WriteFailed> {
    match document {
        Document::Plan(plan) => write_plan(plan, out),
        Document::Sheet(sheet) => write_sheet(sheet, out),
    }
}

/// Writes the document of the text to this writer: as a whole and without a failure, or a beginning of it with one failure. It
/// returns how many bytes that has.
fn bytes_taken(
    rt: &impl Abort,
    document: Document<'_>,
    text: &str,
    writer: Faulty<'_>,
) -> Option<usize> {
    let mut out = Counted::new(writer);
    let result = write_to(document, &mut out);
    let failures = out.failures();
    let writer = out.into_inner();
    assert!(rt; writer.is_right, "{text}");
    match result {
        Ok(()) => {
            assert!(rt; failures == 0 && writer.due.is_empty(), "{text}");
            None
        }
        Err(fault) => {
            assert!(rt; failures == 1 && fault.text() == "44 WriteFailed", "{text}");
            Some(text.len().saturating_sub(writer.due.len()))
        }
    }
}

/// Writes the document of the text to writers that give up at each write in turn, and returns how many writes the whole text took.
fn writes_needed(
    rt: &impl Abort,
    document: Document<'_>,
    text: &str,
    at_most: usize,
    then: Then,
) -> usize {
    let mut least = 0;
    for writes in 0..=text.len() {
        let writer = Faulty {
            writes,
            at_most,
            then,
            due: text.as_bytes(),
            is_right: true,
        };
        let Some(taken) = bytes_taken(rt, document, text, writer) else {
            return writes;
        };
        assert!(rt; least <= taken, "at least {least} bytes of {text}");
        // Each write goes on where the last one stopped.
        least = taken.saturating_add(1);
    }
    usize::MAX
}

/// A failed write leaves a beginning of the text, and byte by byte each byte takes one write.
fn expect_beginnings(rt: &impl Abort, document: Document<'_>, text: &str) {
    for then in &[Then::Fails, Then::TakesNothing] {
        let whole = writes_needed(rt, document, text, usize::MAX, *then);
        let bytewise = writes_needed(rt, document, text, 1, *then);
        assert!(rt; whole < text.len() && bytewise == text.len(), "{text}");
    }
}

/// The document is written as this text.
fn expect_whole(rt: &impl Abort, document: Document<'_>, text: &str) {
    let writer = Faulty {
        writes: usize::MAX,
        at_most: usize::MAX,
        then: Then::Fails,
        due: text.as_bytes(),
        is_right: true,
    };
    let taken = bytes_taken(rt, document, text, writer);
    assert!(rt; taken.is_none(), "{text}");
}

/// The plan's sheet is the same once it is written and read.
fn expect_again(rt: &impl Abort, alloc: Global, plan: &Plan) -> Result<(), Fail> {
    let sheet = plan.sheet(alloc)?;
    let mut out = Counted::new(Vec::new(alloc));
    write_sheet(&sheet, &mut out)?;
    let again = read_sheet(alloc, &out.into_inner())?;
    assert!(rt; again == sheet);
    Ok(())
}

#[test]
fn a_failed_write_leaves_a_beginning_of_the_text(rt: HostRuntime) -> Result<(), Fail> {
    for text in texts::PLANS {
        let plan = read_plan(rt.alloc(), text.as_bytes())?;
        expect_beginnings(&rt, Document::Plan(&plan), text);
        expect_again(&rt, rt.alloc(), &plan)?;
    }
    for text in texts::SHEETS {
        let sheet = read_sheet(rt.alloc(), text.as_bytes())?;
        expect_beginnings(&rt, Document::Sheet(&sheet), text);
    }
    Ok(())
}

/// The text is read and written as it was read.
fn expect_round(rt: &impl Abort, alloc: Global, text: &str) -> Result<(), Fail> {
    if text.starts_with("stickyplan") {
        let plan = read_plan(alloc, text.as_bytes())?;
        expect_whole(rt, Document::Plan(&plan), text);
        return expect_again(rt, alloc, &plan);
    }
    let sheet = read_sheet(alloc, text.as_bytes())?;
    expect_whole(rt, Document::Sheet(&sheet), text);
    Ok(())
}

#[test]
fn texts_of_many_servers_go_round(rt: HostRuntime) -> Result<(), Fail> {
    let mut text = String::new(rt.alloc());
    for (before, count, usage, behind) in texts::OF_MANY_SERVERS {
        text.clear();
        text.push_str(*before)?;
        texts::add_servers(rt.alloc(), *count, *usage, &mut text)?;
        text.push_str(*behind)?;
        expect_round(&rt, rt.alloc(), &text)?;
    }
    Ok(())
}

// The buffer is smaller than the text, and than one of its lines.
#[test]
fn a_buffered_writer_gets_the_same_bytes(rt: HostRuntime) -> Result<(), Fail> {
    let plan = read_plan(rt.alloc(), texts::FOUR_PINS.as_bytes())?;
    let mut bytes = Vec::new(rt.alloc());
    let mut out = Counted::new(BufWriter::with_capacity(rt.alloc(), 16, &mut bytes)?);
    write_plan(&plan, &mut out)?;
    out.flush()?;
    drop(out);
    assert!(rt; bytes.as_slice() == texts::FOUR_PINS.as_bytes());
    Ok(())
}
