ghost use Rattle.std.specs.Prelude.{◌≡◌, ◌++◌, IfOk, OnOk};
ghost use Rattle.lb_run_doors.specs.Handed.{descriptor_text, handed_line, no_bind_line, not_listening_line};

use crate::fault::HandedFault;
use std::alloc::{AllocError, Global};

/// What is wrong with the sockets, as it is printed, with its line end. The only error is out of memory.
pub fn handed_line(alloc: Global, fault: &HandedFault) -> Result<Vec<u8>, AllocError>
    ensures { IfOk result (λ line. line.items ≡ handed_line fault.now) }
{
    let mut line = Vec::new(alloc);
    match fault {
        HandedFault::PidIsNoNumber => line.extend_from_slice(
            b"LISTEN_PID is not the number of a process\n",
        )?,
        HandedFault::CountIsNoNumber => line.extend_from_slice(
            b"LISTEN_FDS is not a number of sockets\n",
        )?,
        HandedFault::NotListening(number) => push_not_listening(alloc, &mut line, *number)?,
        HandedFault::NoBind { socket, binds } => push_no_bind(&mut line, socket, binds)?,
    }
    Ok(line)
}

fn push_not_listening(alloc: Global, line: &mut Vec<u8>, number: u32) -> Result<(), AllocError>
    ensures { OnOk result (line.new.items ≡ line.old.items ++ not_listening_line number) }
{
    push_descriptor(alloc, line, number)?;
    line.extend_from_slice(b" was handed over, and is no listening IPv4 stream socket\n")?;
    Ok(())
}

fn push_descriptor(alloc: Global, line: &mut Vec<u8>, number: u32) -> Result<(), AllocError>
    ensures { OnOk result (line.new.items ≡ line.old.items ++ descriptor_text number) }
{
    line.extend_from_slice(b"descriptor ")?;
    line.extend_from_slice(number.to_string(alloc)?.as_bytes())?;
    Ok(())
}

fn push_no_bind(line: &mut Vec<u8>, socket: &[u8], binds: &[u8]) -> Result<(), AllocError>
    ensures { OnOk result (line.new.items ≡ line.old.items ++ no_bind_line socket.now binds.now) }
{
    line.extend_from_slice(b"socket ")?;
    line.extend_from_slice(socket)?;
    line.extend_from_slice(b" was handed over, and no bind takes it")?;
    line.extend_from_slice(binds)?;
    line.extend_from_slice(b"\n")?;
    Ok(())
}
