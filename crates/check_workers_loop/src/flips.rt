ghost use Rattle.std.specs.Prelude.{◌≡◌, ◌∷◌, ◌++◌, [], List, Option, IfOk};
ghost use Rattle.std.specs.Option.{option_to_list};
ghost use Rattle.lb_desk_ports.specs.Calls.{Grows};
ghost use Rattle.check_workers_loop.specs.Flips.{flip_by, flip_filed, flip_line, flip_of, flipped};

use check_workers_round::CheckMade;
use lb_desk_ports::{Filed, Refused};
use lb_types::ServerId;
use rise_fall::Flip;
use server_state::Checked;
use std::alloc::{AllocError, Global};

/// A server that a check made go up or down.
#[derive(Clone, Copy, Debug, PartialEq, Eq, Hash)]
pub struct Flipped {
    pub server: ServerId,
    /// Whether it is up now.
    pub is_up: bool,
}

/// What receives a report when a check makes a server go up or down, such as a planner or a log.
pub trait Flips<R> {
    ghost use Rattle.check_workers_loop.specs.declared.flips.Flipped.{Flipped};

    /// What was reported, in its order, as far as it is recorded.
    ghost told: { Self → Option (List Flipped) };

    /// Receives the report of a flip. The next check waits for this to return.
    fn tell(&mut self, rt: &R, flip: Flipped)
        ensures told { Grows (told self.old) (told self.new) (flip ∷ []) };
}

/// Reports the flip that the check made, if one was made and did.
pub(crate) fn tell_flip<R, F: Flips<R>>(rt: &R, flips: &mut F, made: Option<CheckMade>)
    ensures { Grows (F.told flips.old) (F.told flips.new) (option_to_list (flip_of made)) }
{
    if let Some(flip) = flip_of(made) {
        flips.tell(rt, flip);
    }
}

fn flip_of(made: Option<CheckMade>) -> Option<Flipped>
    ensures { result ≡ flip_of made }
{
    let made = made?;
    flip_filed(made.server, made.filed)
}

fn flip_filed(server: ServerId, filed: Result<Filed, Refused>) -> Option<Flipped>
    ensures { result ≡ flip_filed server filed }
{
    let Ok(Filed::Checked(Checked::Took(flip))) = filed else {
        return None;
    };
    match flip {
        Flip::Stays => None,
        Flip::WentUp => Some(Flipped {
            server,
            is_up: true,
        }),
        Flip::WentDown => Some(Flipped {
            server,
            is_up: false,
        }),
    }
}

/// The line that reports this server of this backend as up or down, such as `Server web/s1 is DOWN`, with its newline. The only error
/// is out of memory.
pub fn flip_line(
    alloc: Global,
    backend: &[u8],
    server: &[u8],
    is_up: bool,
) -> Result<Vec<u8>, AllocError>
    ensures { IfOk result (λ line. line.items ≡ flip_line backend.now server.now is_up) }
{
    let mut line = Vec::new(alloc);
    line.extend_from_slice(b"Server ")?;
    line.extend_from_slice(backend)?;
    line.extend_from_slice(b"/")?;
    line.extend_from_slice(server)?;
    line.extend_from_slice(b" is ")?;
    line.extend_from_slice(if is_up { b"UP".as_slice() } else { b"DOWN" })?;
    line.extend_from_slice(b"\n")?;
    Ok(line)
}
