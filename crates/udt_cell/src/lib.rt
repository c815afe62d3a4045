//! A socket that threads share: a turn round a socket, in which each event is one item of one legal history.
#![tactic(auto)]

mod boxed;
mod laws;
mod shared;

pub use boxed::{BoxedSocket, EventEntry, EventsSpent};
pub use laws::{messages, prefix, seen_is_legal};
pub use shared::{OutOfMemory, SharedSocket, SocketPass};

#[cfg(test)]
mod tests;
