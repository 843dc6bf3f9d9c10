//! Keys of pins, each as one word.
ghost use Rattle.std.specs.Prelude.{◌≡◌, ◌<◌, true};
ghost use Rattle.std.specs.Fmt.{digit_glyph};
ghost use Rattle.std.specs.List.{list_all};
ghost use Rattle.std.specs.Net.Addr.{ipv4_octets};
ghost use Rattle.std.specs.Net.Text.{ipv4_text};
ghost use Rattle.dual_cert_write.specs.Sending.{Sends};
ghost use Rattle.lb_answers.specs.Keys.{is_plain, escaped, text_word, key_word, asked_key};

use crate::names::send_labelled;
use dual_cert_write::sending::{Sent, send};
use lb_types_counted::Counted;
use pin_set::PinKey;
use std::io::Write;
use std::net::Ipv4Addr;

/// Sends a request's key, or `-` where it has none.
pub(crate) fn send_asked_key<W: Write>(
    out: &mut Counted<W>,
    sent: Sent,
    key: &Option<PinKey>,
) -> Sent
    ensures { Sends out.old sent out.new result (asked_key key.now) }
{
    match key {
        Some(key) => send_key(out, sent, key),
        None => send(out, sent, b"-"),
    }
}

/// Sends a key.
pub(crate) fn send_key<W: Write>(out: &mut Counted<W>, sent: Sent, key: &PinKey) -> Sent
    ensures { Sends out.old sent out.new result (key_word key.now) }
{
    match key {
        PinKey::Ipv4(address) => send_address(out, sent, *address),
        PinKey::Text(text) => send_text(out, sent, text.as_bytes()),
    }
}

/// Sends the four numbers of an address, joined by dots.
fn send_address<W: Write>(out: &mut Counted<W>, sent: Sent, address: Ipv4Addr) -> Sent
    ensures { Sends out.old sent out.new result (ipv4_text (ipv4_octets address)) }
{
    let [a, b, c, d] = address.octets();
    let sent = send_labelled(out, sent, b"", u64::from(a));
    let sent = send_labelled(out, sent, b".", u64::from(b));
    let sent = send_labelled(out, sent, b".", u64::from(c));
    send_labelled(out, sent, b".", u64::from(d))
}

/// Sends the bytes of a key, those escaped that have to be.
#[tactic(auto, unfolding(crate::specs::Keys::text_word))]
fn send_text<W: Write>(out: &mut Counted<W>, sent: Sent, bytes: &[u8]) -> Sent
    ensures { Sends out.old sent out.new result (text_word bytes.now) }
{
    if bytes == b"-".as_slice() {
        return send(out, sent, b"%2D");
    }
    // Most keys are plain, and go out in one write.
    if all_plain(bytes) {
        return send(out, sent, bytes);
    }
    let mut sent = sent;
    for byte in bytes {
        sent = send_escaped(out, sent, *byte);
    }
    sent
}

fn all_plain(bytes: &[u8]) -> bool
    ensures { result ≡ list_all is_plain bytes.now }
{
    bytes.iter().all(|byte| is_plain(*byte))
}

/// Whether the byte stands for itself: ASCII prints it, and it is neither a space nor `%`.
fn is_plain(byte: u8) -> bool
    ensures { result ≡ is_plain byte }
{
    byte.is_ascii_graphic() && byte != b'%'
}

/// Sends the byte, escaped where it has to be.
fn send_escaped<W: Write>(out: &mut Counted<W>, sent: Sent, byte: u8) -> Sent
    ensures { Sends out.old sent out.new result (escaped byte) }
{
    if is_plain(byte) {
        send(out, sent, &[byte])
    } else {
        send(out, sent, &[b'%', digit(byte / 16), digit(byte % 16)])
    }
}

/// The upper-case hexadecimal digit.
fn digit(value: u8) -> u8
    requires { value < 16 }
    ensures { result ≡ digit_glyph true value }
{
    if value < 10 {
        b'0' + value
    } else {
        b'A' + (value - 10)
    }
}
