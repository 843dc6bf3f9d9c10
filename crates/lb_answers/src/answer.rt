ghost use Rattle.std.specs.Prelude.{OnOk, OnErr};
ghost use Rattle.std.specs.Io.KnownBytes.{Appends};
ghost use Rattle.std.specs.Option.{option_copied};
ghost use Rattle.lb_types_counted.specs.Writers.{AppendsFront, Rises};
ghost use Rattle.dual_cert_text.specs.Faults.{fault_text};
ghost use Rattle.dual_cert_write.specs.Sending.{Sends};
ghost use Rattle.lb_answers.specs.Answers.{answer_text, Wrote};
ghost use Rattle.lb_answers.specs.Journals.{plan_text};

use crate::journals::send_journal;
use crate::named_backend::NamedBackend;
use crate::names::send_labelled;
use crate::replies::send_reply;
use crate::scores::send_score;
use crate::tables::{send_rows, send_table};
use command_socket_words::CommandFault;
use dual_cert_plan::Plan;
use dual_cert_text::TextFault;
use dual_cert_write::sending::{Sent, send};
use dual_cert_write::{WriteFailed, write_plan};
use lb_desk_model::{Entry, Reply};
use lb_types::Place;
use lb_types_counted::Counted;
use pin_set::{Score, TablePin};
use std::io::Write;

/// An answer to an operator or a replay. It borrows what it reports.
#[derive(Clone, Copy, Debug)]
pub enum Answer<'a> {
    /// To an event that names this server, or none: the backend's reply.
    Reply(&'a NamedBackend<'a>, Place, &'a Reply),
    /// To a command that was not taken.
    CommandFault(CommandFault),
    /// To the text of a plan or of a sheet that was not taken.
    TextFault(TextFault),
    /// To `show table`: the backend's pins, in order of last use.
    Table(&'a NamedBackend<'a>, &'a [TablePin]),
    /// To `show table` of a key: those of the backend's pins that have it, in order of last use, and how many pins the table has.
    Rows(&'a NamedBackend<'a>, usize, &'a [TablePin]),
    /// To `show plan`: the plan that was installed last, if the journal still keeps it.
    Plan(Option<&'a Plan>),
    /// To `show journal`: the backend's entries in order, and the number of the first of them. A journal of two slices has two
    /// such answers.
    Journal(&'a NamedBackend<'a>, u64, &'a [Entry]),
    /// To `plan backend`: a plan was installed, with this score.
    Evacuated(Score),
    /// To `plan backend`: each plan was made for another version of the table.
    AllStale,
    /// There was not memory enough, and nothing has changed.
    OutOfMemory,
    /// The backend has made as many steps as it can number, and takes no more.
    Worn,
}

/// Writes the answer's lines, each with its end.
///
/// It allocates nothing, holds no more than a word of the answer, and makes a few writes for each word: give it a writer that
/// buffers. Where it fails, the writer's count of failures rose and a beginning of the text went out. Nothing is flushed.
pub fn write_answer<W: Write>(answer: &Answer<'_>, out: &mut Counted<W>) -> Result<(), WriteFailed>
    ensures whole { OnOk result (Appends out.old.contents out.new.contents (answer_text answer.now)) }
    // It fails only where a write failed.
    ensures failed { OnErr result (Rises out.old.failures out.new.failures) }
    ensures front { OnErr result
        (AppendsFront out.old.contents out.new.contents (answer_text answer.now)) }
{
    send_answer(answer, out)
}

#[tactic(auto, unfolding(crate::specs::Answers::answer_text))]
fn send_answer<W: Write>(answer: &Answer<'_>, out: &mut Counted<W>) -> Sent
    ensures { Wrote out.old out.new result (answer_text answer.now) }
{
    match answer {
        Answer::Reply(backend, asked, reply) => {
            let sent = send_reply(out, Ok(()), backend.servers, *asked, reply);
            send(out, sent, b"\n")
        }
        Answer::CommandFault(fault) => {
            let sent = send(out, Ok(()), fault.text().as_bytes());
            send(out, sent, b"\n")
        }
        Answer::TextFault(fault) => {
            let sent = send_text_fault(out, Ok(()), *fault);
            send(out, sent, b"\n")
        }
        Answer::Table(backend, pins) => send_table(out, Ok(()), backend, pins),
        Answer::Rows(backend, used, pins) => send_rows(out, Ok(()), backend, *used, pins),
        Answer::Plan(plan) => send_plan(out, *plan),
        Answer::Journal(backend, first, entries) => {
            send_journal(out, Ok(()), backend, *first, entries)
        }
        Answer::Evacuated(score) => {
            let sent = send_score(out, Ok(()), *score);
            send(out, sent, b"\n")
        }
        Answer::AllStale => send(out, Ok(()), b"stale\n"),
        Answer::OutOfMemory => send(out, Ok(()), b"out of memory\n"),
        Answer::Worn => send(out, Ok(()), b"81 Worn\n"),
    }
}

/// Sends the text of the plan, or that there is none.
fn send_plan<W: Write>(out: &mut Counted<W>, plan: Option<&Plan>) -> Sent
    ensures { Wrote out.old out.new result (plan_text (option_copied plan.entry)) }
{
    match plan {
        Some(plan) => write_plan(plan, out),
        None => send(out, Ok(()), b"no plan\n"),
    }
}

/// Sends the fault of a text, with its line's number where it has one.
fn send_text_fault<W: Write>(out: &mut Counted<W>, sent: Sent, fault: TextFault) -> Sent
    ensures { Sends out.old sent out.new result (fault_text fault) }
{
    match fault {
        TextFault::BadLine(line) => send_labelled(out, sent, b"40 BadLine ", line),
        TextFault::TooLarge => send(out, sent, b"41 TooLarge"),
        TextFault::NotCanonical => send(out, sent, b"42 NotCanonical"),
        TextFault::Truncated => send(out, sent, b"43 Truncated"),
    }
}
