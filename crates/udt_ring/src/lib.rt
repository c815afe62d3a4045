//! A ring of parts over one piece of memory, each with a head and some bytes.
#![tactic(auto)]

mod ring;
#[cfg(test)]
mod tests;

pub use ring::{Ring, write};
