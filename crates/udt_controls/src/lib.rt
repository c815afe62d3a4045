//! Two rate controls beside the native one: a fixed period, and a window that adds and halves.
#![tactic(auto)]

mod aimd;
mod fixed;
pub mod laws;

pub use aimd::Aimd;
pub use fixed::Fixed;

#[cfg(test)]
mod tests;
