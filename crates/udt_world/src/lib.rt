//! The world of a script: its sockets and the datagrams that they emitted, line by line.
//!
//! It does no input or output. Who owns a `World` gives it the lines one by one, and the text of
//! each is added after what was printed before.
#![tactic(auto)]

mod arrivals;
mod calls;
mod generated;
mod hosts;
mod network;
mod opening;
mod quiet;
#[cfg(test)]
mod tests;
mod world;

pub use generated::generate;
pub use udt_core::OutOfMemory;
pub use world::{LineNo, World};
