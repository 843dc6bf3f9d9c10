ghost use Rattle.std.specs.Prelude.{◌≡◌, ◌≤◌, ◌<◌, true, length, IfErr, IfOk, OnOk, IsFalse, IsTrue};
ghost use Rattle.std.specs.Io.KnownBytes.{IsAtEnd, prepend_known};
ghost use Rattle.http_relay_body.specs.Copies.{Copied, WentOut, server_faults, client_faults, fault_number};
ghost use Rattle.http_relay_body.specs.Copying.{CopiedOn, IsOfClient, IsOfServer, TellsOn, has_ended, piece, told};

use http_relay_wire::{Wire, WireFault, write_all};
use thiserror::Error;

/// The most bytes that are moved at once: with as many, a system call costs little beside the bytes that it moves.
const ROOM: usize = 65536;

/// The bytes of the room that a response begins in. Most end within it, and a room costs as many bytes written as it has.
const FIRST_ROOM: usize = 4096;

/// Why a response was not copied to its end.
#[derive(Clone, Copy, Debug, PartialEq, Eq, Error)]
pub enum CopyFault {
    /// 93: a read from the server failed before its first byte.
    #[error("the server sent nothing")]
    NoResponse(WireFault),
    /// 93: a read from the server failed after its first byte.
    #[error("the server's response was cut short")]
    CutShort(WireFault),
    /// 93: a write to the client failed.
    #[error("the client's wire failed")]
    Client(WireFault),
}

impl CopyFault {
    /// The number of the fault.
    pub fn number(self) -> u16
        ensures { result ≡ fault_number self }
    {
        match self {
            CopyFault::NoResponse(_) | CopyFault::CutShort(_) | CopyFault::Client(_) => 93,
        }
    }
}

/// How far a response was copied.
#[derive(Clone, Copy, Debug, PartialEq, Eq)]
pub enum Progress {
    /// The server has ended after so many bytes.
    Ended(u64),
    /// So many bytes were copied, and the server may send more.
    Goes(u64),
}

/// Reads a piece of a response into the front of the room, after so many bytes of it: what one read of the server gives. It answers how
/// many bytes the piece has, none only if the server has ended.
pub fn read_piece<S: Wire>(server: &mut S, room: &mut [u8], before: u64) -> Result<usize, CopyFault>
    requires { 0 < length room.old }
    ensures within { IfOk result (λ count. count ≤ length room.new) }
    ensures read { (S.reading server.old).unread ≡ prepend_known (piece result room.new) (S.reading server.new).unread }
    ensures ended { IfOk result (λ count. count ≡ 0 → IsAtEnd (S.reading server.new).unread × ((S.reading server.new).ended ≡ true)) }
    ensures left { IfOk result (λ count. (S.reading server.new).left < (S.reading server.old).left) }
    ensures fault { IfErr result (λ fault. IsOfServer before fault) }
    ensures server { S.faults server.new ≡ server_faults result (S.faults server.old) }
    ensures server_written { S.written server.new ≡ S.written server.old }
{
    match server.read(room) {
        Ok(count) => Ok(count),
        Err(fault) if before == 0 => Err(CopyFault::NoResponse(fault)),
        Err(fault) => Err(CopyFault::CutShort(fault)),
    }
}

/// Writes a piece of a response to the client, after so many bytes of it. It answers how many these are with the piece, at most
/// 2^64 - 1. At a fault a beginning of the piece went out.
pub fn write_piece<C: Wire>(client: &mut C, piece: &[u8], before: u64) -> Result<u64, CopyFault>
    requires { 0 < length piece.now }
    ensures tells { TellsOn before piece.now result }
    ensures sent { WentOut (C.written client.old) (C.written client.new) piece.now result }
    ensures fault { IfErr result (λ fault. IsOfClient fault) }
    ensures client { C.faults client.new ≡ client_faults result (C.faults client.old) }
    ensures client_reading { C.reading client.new ≡ C.reading client.old }
{
    match write_all(client, piece) {
        Ok(()) => Ok(before.saturating_add(piece.len() as u64)),
        Err(fault) => Err(CopyFault::Client(fault)),
    }
}

/// Copies what one read of the server gives, after so many bytes of the response: `read_piece`, and then `write_piece`. It answers how many
/// these are with it, at most 2^64 - 1, or that the server has ended. It reads once, and writes all that it read. The fault says which of both failed.
pub fn copy_piece<S: Wire, C: Wire>(
    server: &mut S,
    client: &mut C,
    room: &mut [u8],
    before: u64,
) -> Result<Progress, CopyFault>
    requires { 0 < length room.old }
    ensures copied { CopiedOn before (S.reading server.old) (S.reading server.new) (C.written client.old) (C.written client.new) (told result) }
    ensures ended { IfOk result (λ progress. IsTrue (has_ended progress)
        → IsAtEnd (S.reading server.new).unread × ((S.reading server.new).ended ≡ true)) }
    ensures left { IfOk result (λ progress. (S.reading server.new).left < (S.reading server.old).left) }
    ensures server { S.faults server.new ≡ server_faults (told result) (S.faults server.old) }
    ensures client { C.faults client.new ≡ client_faults (told result) (C.faults client.old) }
    ensures server_written { S.written server.new ≡ S.written server.old }
    ensures client_reading { C.reading client.new ≡ C.reading client.old }
{
    let count = match read_piece(server, room, before) {
        Ok(0) => return Ok(Progress::Ended(before)),
        Ok(count) => count,
        Err(fault) => return Err(fault),
    };
    match write_piece(client, &room[..count], before) {
        Ok(copied) => Ok(Progress::Goes(copied)),
        Err(fault) => Err(fault),
    }
}

/// Copies what the server sends to the client, byte for byte, until the server ends, and answers how many bytes it sent (never more
/// than 2^64 - 1). It allocates nothing: the bytes go through a buffer, and what a read gave is written before the next. The buffer
/// has 4 KiB until a read fills it, and 64 KiB from there on.
pub fn copy_back<S: Wire, C: Wire>(server: &mut S, client: &mut C) -> Result<u64, CopyFault>
    ensures copied { Copied (S.reading server.old) (S.reading server.new) (C.written client.old) (C.written client.new) result }
    ensures server { S.faults server.new ≡ server_faults result (S.faults server.old) }
    ensures client { C.faults client.new ≡ client_faults result (C.faults client.old) }
    ensures server_written { S.written server.new ≡ S.written server.old }
    ensures client_reading { C.reading client.new ≡ C.reading client.old }
{
    match copy_through(server, client, &mut [0; FIRST_ROOM], 0, true) {
        Ok(Progress::Ended(copied)) => Ok(copied),
        Ok(Progress::Goes(copied)) => copy_rest(server, client, copied),
        Err(fault) => Err(fault),
    }
}

/// Copies what comes after the first bytes of a response, which were so many. The room is in a frame of its own, whose pages are
/// touched when it is entered: a response that ends within the first room costs none of this memory.
#[inline(never)]
fn copy_rest<S: Wire, C: Wire>(
    server: &mut S,
    client: &mut C,
    before: u64,
) -> Result<u64, CopyFault>
    ensures copied { CopiedOn before (S.reading server.old) (S.reading server.new) (C.written client.old) (C.written client.new) result }
    ensures ended { OnOk result (IsAtEnd (S.reading server.new).unread × ((S.reading server.new).ended ≡ true)) }
    ensures server { S.faults server.new ≡ server_faults result (S.faults server.old) }
    ensures client { C.faults client.new ≡ client_faults result (C.faults client.old) }
    ensures server_written { S.written server.new ≡ S.written server.old }
    ensures client_reading { C.reading client.new ≡ C.reading client.old }
{
    match copy_through(server, client, &mut [0; ROOM], before, false) {
        Ok(Progress::Ended(copied) | Progress::Goes(copied)) => Ok(copied),
        Err(fault) => Err(fault),
    }
}

/// Copies through this room after so many bytes, until the server ends. Where it `pauses`, a read that fills the room ends it too.
fn copy_through<S: Wire, C: Wire>(
    server: &mut S,
    client: &mut C,
    room: &mut [u8],
    before: u64,
    pauses: bool,
) -> Result<Progress, CopyFault>
    requires { 0 < length room.old }
    ensures copied { CopiedOn before (S.reading server.old) (S.reading server.new) (C.written client.old) (C.written client.new) (told result) }
    ensures ended { IfOk result (λ progress. IsTrue (has_ended progress)
        → IsAtEnd (S.reading server.new).unread × ((S.reading server.new).ended ≡ true)) }
    ensures whole { IsFalse pauses → IfOk result (λ progress. IsTrue (has_ended progress)) }
    ensures server { S.faults server.new ≡ server_faults (told result) (S.faults server.old) }
    ensures client { C.faults client.new ≡ client_faults (told result) (C.faults client.old) }
    ensures server_written { S.written server.new ≡ S.written server.old }
    ensures client_reading { C.reading client.new ≡ C.reading client.old }
{
    let mut copied = before;
    loop {
        let later = match copy_piece(server, client, room, copied) {
            Ok(Progress::Goes(later)) => later,
            Ok(Progress::Ended(copied)) => return Ok(Progress::Ended(copied)),
            Err(fault) => return Err(fault),
        };
        let count = later.saturating_sub(copied);
        copied = later;
        if pauses && count == room.len() as u64 {
            return Ok(Progress::Goes(copied));
        }
    }
}
