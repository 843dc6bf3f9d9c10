use crate::client_door::endpoint_text;
use crate::fault::{BindFault, HandedFault};
use crate::handed_socket::HandedSocket;
use lb_config::Frontend;
use lb_config_arguments::Endpoint;
use std::alloc::{AllocError, Global};

/// Refuses the first of these sockets whose address no `bind` names. Else it might keep an address from being bound, and that would be
/// reported in its place.
pub(crate) fn refuse_unnamed(
    alloc: Global,
    frontends: &[Frontend],
    sockets: &[HandedSocket],
) -> Result<(), BindFault> {
    for socket in sockets {
        if !is_named(frontends, socket.endpoint) {
            return Err(no_bind(alloc, frontends, socket)?.into());
        }
    }
    Ok(())
}

fn is_named(frontends: &[Frontend], endpoint: Endpoint) -> bool {
    for frontend in frontends {
        if frontend.rules().binds().contains(&endpoint) {
            return true;
        }
    }
    false
}

/// That no `bind` takes this socket.
pub(crate) fn no_bind(
    alloc: Global,
    frontends: &[Frontend],
    socket: &HandedSocket,
) -> Result<HandedFault, AllocError> {
    Ok(HandedFault::NoBind {
        socket: endpoint_text(alloc, socket.endpoint)?,
        binds: all_binds(alloc, frontends)?,
    })
}

/// All `bind`s, as ` (bind 127.0.0.1:80, bind 127.0.0.1:81)`.
fn all_binds(alloc: Global, frontends: &[Frontend]) -> Result<Vec<u8>, AllocError> {
    let mut text = Vec::new(alloc);
    for frontend in frontends {
        push_binds(alloc, frontend, &mut text)?;
    }
    if !text.is_empty() {
        text.extend_from_slice(b")")?;
    }
    Ok(text)
}

fn push_binds(alloc: Global, frontend: &Frontend, text: &mut Vec<u8>) -> Result<(), AllocError> {
    for endpoint in frontend.rules().binds() {
        let before: &[u8] = if text.is_empty() { b" (" } else { b", " };
        text.extend_from_slice(before)?;
        text.extend_from_slice(b"bind ")?;
        text.extend_from_slice(&endpoint_text(alloc, *endpoint)?)?;
    }
    Ok(())
}
