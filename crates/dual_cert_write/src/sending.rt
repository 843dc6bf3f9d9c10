//! Sending a text piece by piece: once a write failed, nothing more is sent.
ghost use Rattle.std.specs.Prelude.{◌∷◌, [], ◌++◌};
ghost use Rattle.dual_cert_text.specs.Spellings.{line_of_words};
ghost use Rattle.dual_cert_write.specs.Sending.{Sends, words_of};

use crate::WriteFailed;
use lb_types_counted::Counted;
use std::io::Write;

/// How the sending went so far.
pub type Sent = Result<(), WriteFailed>;

/// Sends the bytes, where no write failed so far.
pub fn send<W: Write>(out: &mut Counted<W>, sent: Sent, bytes: &[u8]) -> Sent
    ensures { Sends out.old sent out.new result bytes.now }
{
    sent?;
    match out.write_all(bytes) {
        Ok(()) => Ok(()),
        Err(_) => Err(WriteFailed),
    }
}

/// Sends the words with a space before each but the first.
pub fn send_words<W: Write>(out: &mut Counted<W>, sent: Sent, first: &[u8], more: &[&[u8]]) -> Sent
    ensures { Sends out.old sent out.new result (line_of_words (words_of first.now more.now)) }
{
    let mut sent = send(out, sent, first);
    for word in more {
        sent = send(out, sent, b" ");
        sent = send(out, sent, word);
    }
    sent
}

/// Sends the words as a line.
pub fn send_line<W: Write>(out: &mut Counted<W>, sent: Sent, first: &[u8], more: &[&[u8]]) -> Sent
    ensures { Sends out.old sent out.new result
        (line_of_words (words_of first.now more.now) ++ 10 ∷ []) }
{
    let sent = send_words(out, sent, first, more);
    send(out, sent, b"\n")
}
