ghost use Rattle.std.specs.Prelude.{◌≡◌, map, IfOk};
ghost use Rattle.lb_desk_backend.specs.Configured.{OpenInOrder};
ghost use Rattle.command_socket_serve.specs.Desks.{desk_seen};
ghost use Rattle.std.specs.Io.BufRead.{strip_last};
ghost use Rattle.command_socket_serve.specs.Lines.{IsTextOf, Serves, line_in};

use crate::line::{Next, answer_line};
use crate::printing::{Printed, print_end, print_refused};
use crate::{Console, Told};
use lb_desk_ports::{Gate, Refused};
use lb_desk_steer::Steer;
use lb_types_counted::Counted;
use std::alloc::Global;
use std::io;
use std::io::{BufRead, BufReader, BufWriter, ErrorKind, Read, Write};

/// How many bytes are read at most: a longest line, the two bytes of its end, and none more.
const MOST_READ: u64 = 4098;

/// Answers the one line of a connection. It is ended by a line feed, by a carriage return and a line feed, or by the end of what the
/// client sends. The caller closes the connection, and limits its reads and writes. There is a desk for each backend of the
/// configuration, in its order.
///
/// A line of more than 4,096 bytes is answered as one `100 UnknownCommand`; what comes after the first 4,098 bytes is not read. A
/// client whose connection fails before its line has ended, for example at a limit, gets no answer, and nothing is carried out. Where
/// there is not enough memory to read the line, `out of memory` is the answer.
pub fn serve_connection<R, S: Steer<R>, G: Gate<R>, T: Told, C: Read + Write>(
    rt: &R,
    alloc: Global,
    console: &Console<'_, G>,
    desks: &mut [S],
    told: &mut T,
    stream: &mut C,
) -> Next
    requires { OpenInOrder console.now.config.backends (map S.backend desks.old) }
    ensures serves { Serves (desk_seen S.entries S.planned_now S.backend S.sights) console.now (C.remaining stream.old) desks.old desks.new
        (T.told told.old) (T.told told.new) result }
    ensures backends { map S.backend desks.new ≡ map S.backend desks.old }
{
    let text = match read_text(alloc, stream) {
        Ok(text) => text,
        Err(error) => {
            if error.kind() == ErrorKind::OutOfMemory {
                // A client that doesn't take it changes nothing for others.
                let _ = refuse_line(stream);
            }
            return Next::GoOn;
        }
    };
    let line = line_in(&text);
    let Ok(buffered) = BufWriter::new(alloc, &mut *stream) else {
        let mut out = Counted::new(stream);
        return answer_line(rt, alloc, console, desks, told, line, &mut out).next;
    };
    let mut out = Counted::new(buffered);
    let answered = answer_line(rt, alloc, console, desks, told, line, &mut out);
    // A client that doesn't take its answer changes nothing for others.
    let _ = out.flush();
    answered.next
}

/// Reports that there is not enough memory to read a line.
fn refuse_line<W: Write>(out: &mut W) -> Printed {
    let mut out = Counted::new(out);
    let printed = print_refused(&mut out, Ok(()), Refused::Memory);
    print_end(&mut out, printed)
}

/// Reads the first line of a connection, with its end. It allocates 8,192 bytes in addition to the line.
fn read_text<C: Read>(alloc: Global, stream: &mut C) -> io::Result<Vec<u8>>
    ensures { IfOk result (λ text. IsTextOf (C.remaining stream.old) text.items) }
{
    let mut text = Vec::new(alloc);
    let mut reader = BufReader::new(alloc, stream.take(MOST_READ))?;
    reader.read_until(b'\n', &mut text)?;
    Ok(text)
}

/// The line without its end.
fn line_in(text: &[u8]) -> &[u8]
    ensures { result.now ≡ line_in text.now }
{
    match text.split_last() {
        Some((&b'\n', line)) => without_return(line),
        _ => text,
    }
}

/// The line without a carriage return at its end.
fn without_return(line: &[u8]) -> &[u8]
    ensures { result.now ≡ strip_last 13 line.now }
{
    match line.split_last() {
        Some((&b'\r', rest)) => rest,
        _ => line,
    }
}
