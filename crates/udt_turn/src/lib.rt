//! A ticket lock whose value stands for one legal history, and passes that carry what their holders have seen and made.
#![tactic(auto)]

mod held;
mod pass;
mod rule;
mod story;
mod turn;
mod view;

pub use held::Held;
pub use pass::Pass;
pub use story::{Naming, Story};
pub use turn::{Full, Look, OutOfMemory, Turn};
pub use view::{History, Stage, View};

#[cfg(test)]
mod tests;
