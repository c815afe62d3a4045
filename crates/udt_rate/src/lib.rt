//! Rate control of a sender: the trait of a control, the native control and its two formulas.
#![tactic(auto)]

mod constants;
mod control;
mod formulas;
pub mod laws;
mod native;
mod steady;

pub use control::{Control, Seen};
pub use formulas::{increase, shorter};
pub use native::{Native, is_new};
pub use steady::Steady;

#[cfg(test)]
mod tests;
