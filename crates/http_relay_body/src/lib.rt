//! The body of a relayed request, from the client to the server, and the response that comes back.
//!
//! Promised: where `send_body` answers `Ok`, it wrote the bytes that it took, and they are a body of the head's kind; nothing is read
//! past its end. Else it wrote a beginning of them, and the fault has its cause in that call. Either the client ended or failed where
//! no body stood yet and more bytes could make one, or no more bytes could, or the server failed. `copy_back` copies what the server
//! sends byte for byte until it ends. Where a read failed, all that was read before it went out; where a write failed, a beginning of
//! it. `copy_piece` does a part of that, one read and one write, for a caller that waits for the server elsewhere;
//! `read_piece` and `write_piece` are its halves, for a caller that looks at what was read before it goes out. Each takes one buffer of
//! fixed size and no memory.
//!
//! Start at `send_body`, whose words are in `specs/Bodies.antt`. It rests on `length`, which passes on so many bytes by the words of
//! `specs/Moves.antt`, and on `chunks`, whose bodies are in `specs/Chunks.antt`. There `part` judges the parts of a body, each of
//! which says how many bytes must still come. What was judged goes out from a `room`. `copy_back` is in `response`, with its words in
//! `specs/Copies.antt`. `BodyFront::of` says how much of a body came whole with its head, so that it can go out with it.
#![tactic(auto)]

mod at_hand;
mod chunks;
mod fault;
mod front;
mod length;
mod response;
mod sending;

pub use fault::BodyFault;
pub use front::BodyFront;
pub use response::{CopyFault, Progress, copy_back, copy_piece, read_piece, write_piece};
pub use sending::send_body;
