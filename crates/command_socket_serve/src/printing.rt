//! Printing answers one after another: once a write failed, nothing more is printed.
ghost use Rattle.std.specs.Prelude.{◌++◌, codes};
ghost use Rattle.lb_answers.specs.Answers.{answer_text};
ghost use Rattle.lb_answers.specs.Replies.{reply_text};
ghost use Rattle.command_socket_words.specs.Faults.{fault_text};
ghost use Rattle.command_socket_serve.specs.Refusals.{refused_line};
ghost use Rattle.command_socket_serve.specs.Lines.{empty_line};
ghost use Rattle.command_socket_serve.specs.Outcomes.{PrintsOn};

use command_socket::CommandFault;
use dual_cert_write::WriteFailed;
use dual_cert_write::sending::send;
use lb_answers::{Answer, NamedBackend, write_answer};
use lb_desk_model::Reply;
use lb_desk_ports::Refused;
use lb_types::Place;
use lb_types_counted::Counted;
use std::io::Write;

/// How the printing went so far.
pub(crate) type Printed = Result<(), WriteFailed>;

/// Prints the answer, where no write failed so far.
pub(crate) fn print<W: Write>(out: &mut Counted<W>, sent: Printed, answer: &Answer<'_>) -> Printed
    ensures { PrintsOn out.old sent out.new result (answer_text answer.now) }
{
    sent?;
    write_answer(answer, out)
}

/// Prints that a call was refused.
#[tactic(auto, unfolding(lb_answers::specs::Answers::answer_text))]
pub(crate) fn print_refused<W: Write>(
    out: &mut Counted<W>,
    sent: Printed,
    refused: Refused,
) -> Printed
    ensures { PrintsOn out.old sent out.new result (refused_line refused) }
{
    match refused {
        Refused::Memory => print(out, sent, &Answer::OutOfMemory),
        Refused::Worn => print(out, sent, &Answer::Worn),
    }
}

/// Prints why a command was not taken.
#[tactic(auto, unfolding(lb_answers::specs::Answers::answer_text))]
pub(crate) fn print_fault<W: Write>(
    out: &mut Counted<W>,
    sent: Printed,
    fault: CommandFault,
) -> Printed
    ensures { PrintsOn out.old sent out.new result (fault_text fault ++ codes "\n") }
{
    print(out, sent, &Answer::CommandFault(fault))
}

/// Prints why a change was not made. The server is the one that the change names, if it names one.
#[tactic(auto, unfolding(lb_answers::specs::Answers::answer_text))]
pub(crate) fn print_reply<W: Write>(
    out: &mut Counted<W>,
    sent: Printed,
    named: &NamedBackend<'_>,
    server: Place,
    reply: &Reply,
) -> Printed
    ensures { PrintsOn out.old sent out.new result (reply_text named.now.servers.now server reply.now ++ codes "\n") }
{
    print(out, sent, &Answer::Reply(named, server, reply))
}

/// Prints the text.
pub(crate) fn print_text<W: Write>(out: &mut Counted<W>, sent: Printed, text: &[u8]) -> Printed
    ensures { PrintsOn out.old sent out.new result text.now }
{
    send(out, sent, text)
}

/// Prints the empty line that ends an answer.
pub(crate) fn print_end<W: Write>(out: &mut Counted<W>, sent: Printed) -> Printed
    ensures { PrintsOn out.old sent out.new result empty_line }
{
    send(out, sent, b"\n")
}
