//! Handshakes as functions: a listener's cookie and judgement, and what a client and a meeting socket
//! make of what arrives.
//!
//! Nothing here reads a clock or sends anything: who calls hands in the moment, and sends the
//! handshakes that it is given.
#![tactic(auto)]

mod client;
mod fields;
mod listen;
mod meet;
#[cfg(test)]
mod tests;

pub use client::ClientShake;
pub use fields::{asked, peer_in, says};
pub use listen::{ListenShake, cookie};
pub use meet::MeetShake;
pub use udt_model::{ClientSaw, MeetSaw, Peer, Verdict};
