//! Heads, bodies and responses that are relayed over memory, to be timed from outside.
//!
//! The first word says how often, the second one what: `heads`, `hostile`, `bodies`, `chunks`, `small_chunks`, `size_lines`,
//! `trailers` or `responses`; without a second word, all of them. The number of bytes that went out is printed, so that no work can
//! be left out.
//!
//! A head has 500 bytes and 12 fields, a hostile one nearly the most bytes and fields that it may have. Each is read, judged and
//! rewritten. A body has 1,024,000 bytes. Two bodies are hostile: 1,000 chunks of a byte whose size lines are as long as they may be,
//! and a trailer of one field that is nearly as long as it may be.

ghost use Rattle.std.specs.Prelude.{◌<◌};

use anyhow::{Context, Result};
use http_relay_body::{copy_back, send_body};
use http_relay_forward::{BodyKind, rewrite};
use http_relay_head::{HEAD_ROOM, read_head};
use http_relay_wire::{Script, ScriptedWire};
use std::alloc::{AllocError, Global};
use std::net::Ipv4Addr;
use std::rt::Runtime;

/// A browser's head of 500 bytes with 12 fields.
const HEAD: &[u8] =
    b"GET /catalogue/items/4711?sort=price&page=2 HTTP/1.1\r\nHost: shop.example.com\r\nUser-Agent: Mozilla/5.0 (X11; Linux x86_64; rv:128.0) Gecko/20100101 Firefox/128.0\r\nAccept: text/html,application/xhtml+xml\r\nAccept-Language: en-GB,en;q=0.5\r\nAccept-Encoding: gzip, deflate\r\nReferer: http://shop.example.com/catalogue/\r\nCookie: session=4f0c2f7d1b; theme=dark\r\nCache-Control: no-cache\r\nPragma: no-cache\r\nDNT: 1\r\nX-Requested-With: XMLHttpRequest-00000000000000000000000000000000000\r\nConnection: keep-alive\r\n\r\n";

/// The bytes of a body.
const SIZE: usize = 1_024_000;

/// What can be relayed.
const PARTS: [&str; 8] = [
    "heads",
    "hostile",
    "bodies",
    "chunks",
    "small_chunks",
    "size_lines",
    "trailers",
    "responses",
];

pub(crate) fn run(rt: &impl Runtime, alloc: Global, words: &[&str]) -> Result<()> {
    let times: u32 = words.first().context("how often?")?.parse()?;
    let what = words.get(1).copied();
    for part in &PARTS {
        if what.unwrap_or(part) == *part {
            relay_part(rt, alloc, part, times)?;
        }
    }
    Ok(())
}

/// Relays one of `PARTS` so many times, and prints how many bytes went out.
fn relay_part(rt: &impl Runtime, alloc: Global, part: &str, times: u32) -> Result<()> {
    let sent = match part {
        "heads" => relay_heads(alloc, HEAD, times)?,
        "hostile" => relay_heads(alloc, &hostile(alloc)?, times)?,
        "bodies" => send_bodies(alloc, BodyKind::Length(SIZE as u64), &plain(alloc)?, times)?,
        "chunks" => send_chunks(alloc, 16000, b"3e80\r\n", times)?,
        "small_chunks" => send_chunks(alloc, 100, b"64\r\n", times)?,
        "size_lines" => send_bodies(alloc, BodyKind::Chunked, &long_size_lines(alloc)?, times)?,
        "trailers" => send_bodies(alloc, BodyKind::Chunked, &long_trailer(alloc)?, times)?,
        _ => copy_responses(alloc, &plain(alloc)?, times)?,
    };
    println!(rt; "{part}, {times} times: {sent} bytes")?;
    Ok(())
}

/// The bytes that go out for so many heads.
fn relay_heads(alloc: Global, head: &[u8], times: u32) -> Result<u64> {
    let client = Ipv4Addr::new(10, 0, 0, 7);
    let mut room = [0; HEAD_ROOM];
    let mut sent = 0;
    for _ in 0..times {
        sent = u64::saturating_add(sent, relay_head(alloc, head, &mut room, client)?);
    }
    Ok(sent)
}

fn relay_head(
    alloc: Global,
    head: &[u8],
    room: &mut [u8; HEAD_ROOM],
    client: Ipv4Addr,
) -> Result<u64> {
    let mut wire = ScriptedWire::new(alloc, head, Script::SMOOTH);
    let read = read_head(alloc, &mut wire, room, client)?;
    let text = rewrite(alloc, &read.head(), true)?;
    Ok(text.len() as u64)
}

/// A head of 100 fields, of which the first names 7901 options and the others are none of them.
fn hostile(alloc: Global) -> Result<Vec<u8>, AllocError> {
    let mut head = Vec::from_slice(alloc, b"GET / HTTP/1.1\r\nConnection: a")?;
    for _ in 0..7900 {
        head.extend_from_slice(b",a")?;
    }
    for _ in 0..99 {
        head.extend_from_slice(b"\r\nb:1")?;
    }
    head.extend_from_slice(b"\r\n\r\n")?;
    Ok(head)
}

/// The bytes that go out for so many bodies.
fn send_bodies(alloc: Global, kind: BodyKind, body: &[u8], times: u32) -> Result<u64> {
    let mut sent = 0;
    for _ in 0..times {
        sent = u64::saturating_add(sent, send_one(alloc, kind, body)?);
    }
    Ok(sent)
}

fn send_one(alloc: Global, kind: BodyKind, body: &[u8]) -> Result<u64> {
    let mut client = ScriptedWire::new(alloc, body, Script::SMOOTH);
    let mut server = ScriptedWire::new(alloc, b"", Script::SMOOTH);
    send_body(kind, b"", &mut client, &mut server)?;
    Ok(server.written().len() as u64)
}

/// The bytes that go out for so many bodies in chunks of this size.
fn send_chunks(alloc: Global, size: usize, size_line: &[u8], times: u32) -> Result<u64>
    requires { 0 < size }
{
    send_bodies(
        alloc,
        BodyKind::Chunked,
        &chunked(alloc, size, size_line)?,
        times,
    )
}

/// The bytes that go out for so many responses.
fn copy_responses(alloc: Global, response: &[u8], times: u32) -> Result<u64> {
    let mut sent = 0;
    for _ in 0..times {
        sent = u64::saturating_add(sent, copy_one(alloc, response)?);
    }
    Ok(sent)
}

fn copy_one(alloc: Global, response: &[u8]) -> Result<u64> {
    let mut server = ScriptedWire::new(alloc, response, Script::SMOOTH);
    let mut client = ScriptedWire::new(alloc, b"", Script::SMOOTH);
    Ok(copy_back(&mut server, &mut client)?)
}

/// A body of so many bytes.
fn plain(alloc: Global) -> Result<Vec<u8>, AllocError> {
    Ok(vec![in alloc; b'x'; SIZE]?)
}

/// The same in chunks of so many bytes, each after this size line.
fn chunked(alloc: Global, size: usize, size_line: &[u8]) -> Result<Vec<u8>, AllocError>
    requires { 0 < size }
{
    let mut body = Vec::with_capacity(alloc, SIZE)?;
    for chunk in plain(alloc)?.chunks(size) {
        body.extend_from_slice(size_line)?;
        body.extend_from_slice(chunk)?;
        body.extend_from_slice(b"\r\n")?;
    }
    body.extend_from_slice(b"0\r\n\r\n")?;
    Ok(body)
}

/// A thousand chunks of a byte, each with a size line of 256 bytes.
fn long_size_lines(alloc: Global) -> Result<Vec<u8>, AllocError> {
    let extension = vec![in alloc; b'a'; 252]?;
    let mut body = Vec::new(alloc);
    for _ in 0..1000 {
        body.extend_from_slice(b"1;")?;
        body.extend_from_slice(&extension)?;
        body.extend_from_slice(b"\r\nx\r\n")?;
    }
    body.extend_from_slice(b"0\r\n\r\n")?;
    Ok(body)
}

/// No chunk, and a trailer of one field of 8,180 bytes.
fn long_trailer(alloc: Global) -> Result<Vec<u8>, AllocError> {
    let value = vec![in alloc; b'x'; 8178]?;
    let mut body = Vec::from_slice(alloc, b"0\r\nX:")?;
    body.extend_from_slice(&value)?;
    body.extend_from_slice(b"\n\n")?;
    Ok(body)
}
