//! Queues between the workers of an endpoint, whose passes know what they put and took, and the schedule
//! of one worker.
#![tactic(auto)]

mod attach;
mod buffer;
mod building;
mod lane;
mod lanes;
mod line;
mod memory;
mod outbox;
mod schedule;
#[cfg(test)]
mod tests;
mod tree;
mod view;

pub use attach::{AttachPass, Note};
pub use buffer::{Buffer, MOST_BYTES};
pub use building::attach_lists;
pub use lane::Lane;
pub use line::{Line, LinePass};
pub use memory::{Full, OutOfMemory};
pub use outbox::{OutPass, Outbox};
pub use schedule::Schedule;
pub use tree::{Fork, Listing, Tree};
pub use view::{Entry, Hand, Right, View};
