//! All addresses of a configuration, bound before anything is served, and the sockets that the process was handed over for them.
//!
//! Promised: `Doors::open` binds every `bind` of every frontend, in their order, and then the command socket, or returns the first
//! address that can't be bound. Which frontend a listener is for, and which limits its clients have, is what the configuration says. Each
//! socket that was handed over is the listener of a `bind` with its address, or opening fails. What the system does with an address no
//! clause says, nor which sockets it hands over. Start at `Doors`, whose words are in `specs/Doors.antt` and `specs/Handed.antt`; `handed_over`
//! has the sockets. Private to `lb_run`.
#![tactic(auto)]

mod client_door;
mod doors;
mod fault;
mod fault_lines;
mod handed_socket;
mod handing_over;
mod no_bind;

pub use client_door::ClientDoor;
pub use doors::Doors;
pub use fault::{BindFault, HandedFault};
pub use fault_lines::handed_line;
pub use handed_socket::HandedSocket;
pub use handing_over::handed_over;
