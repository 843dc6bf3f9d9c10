ghost use Rattle.std.specs.Prelude.{◌≡◌, ◌++◌, IfOk, OnOk};
ghost use Rattle.http_relay_forward.specs.Forwarded.{request_line, field_line, kept_lines, address_line, forwarded};

use crate::options::is_kept;
use lb_acl::{Field, Head, Version, trimmed};
use std::alloc::{AllocError, Global};
use std::net::Ipv4Addr;

/// Room for the forwarded form of a head of 16384 bytes with 100 fields, so that it is asked for once.
const ROOM: usize = 17000;

/// The head that the server gets: under `forwardfor` with the client's address. The only error is out of memory.
pub fn rewrite(alloc: Global, head: &Head, forwardfor: bool) -> Result<Vec<u8>, AllocError>
    ensures { IfOk result (λ text. text.items ≡ forwarded head.now forwardfor) }
{
    let mut text = Vec::with_capacity(alloc, ROOM)?;
    push_request_line(&mut text, head)?;
    push_kept_lines(&mut text, head.fields())?;
    text.extend_from_slice(b"Connection: close\r\n")?;
    push_address_line(alloc, &mut text, forwardfor, head.source())?;
    text.extend_from_slice(b"\r\n")?;
    Ok(text)
}

fn push_request_line(text: &mut Vec<u8>, head: &Head) -> Result<(), AllocError>
    ensures { OnOk result (text.new.items ≡ text.old.items ++ request_line head.now) }
{
    text.extend_from_slice(head.method())?;
    text.extend_from_slice(b" ")?;
    text.extend_from_slice(head.target())?;
    text.extend_from_slice(match head.version() {
        Version::Http10 => b" HTTP/1.0\r\n".as_slice(),
        Version::Http11 => b" HTTP/1.1\r\n",
    })?;
    Ok(())
}

fn push_kept_lines(text: &mut Vec<u8>, fields: &[Field]) -> Result<(), AllocError>
    ensures { OnOk result (text.new.items ≡ text.old.items ++ kept_lines fields.now) }
{
    for field in fields {
        if is_kept(fields, field) {
            push_field_line(text, field)?;
        }
    }
    Ok(())
}

fn push_field_line(text: &mut Vec<u8>, field: &Field) -> Result<(), AllocError>
    ensures { OnOk result (text.new.items ≡ text.old.items ++ field_line field.now) }
{
    text.extend_from_slice(field.name())?;
    text.extend_from_slice(b": ")?;
    text.extend_from_slice(trimmed(field.value()))?;
    text.extend_from_slice(b"\r\n")?;
    Ok(())
}

fn push_address_line(
    alloc: Global,
    text: &mut Vec<u8>,
    forwardfor: bool,
    source: Ipv4Addr,
) -> Result<(), AllocError>
    ensures { OnOk result (text.new.items ≡ text.old.items ++ address_line forwardfor source) }
{
    if !forwardfor {
        return Ok(());
    }
    text.extend_from_slice(b"X-Forwarded-For: ")?;
    text.extend_from_slice(source.to_string(alloc)?.as_bytes())?;
    text.extend_from_slice(b"\r\n")?;
    Ok(())
}
