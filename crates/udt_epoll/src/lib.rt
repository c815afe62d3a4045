//! Members that are asked which of them are ready.
#![tactic(auto)]

mod asking;
mod looks;
mod poll;
#[cfg(test)]
mod tests;

pub use asking::OutOfMemory;
pub use looks::Looks;
pub use poll::Poll;
