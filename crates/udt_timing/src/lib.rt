//! Round-trip times, windows of arrival times and the history of ACKs.
#![tactic(auto)]

mod ack_history;
mod arrival_times;
mod laws;
mod round_trip;
#[cfg(test)]
mod tests;

pub use ack_history::AckWindow;
pub use arrival_times::Samples;
pub use laws::{
    kept_are_near, median_is_ninth, ninth_is_one, stays_within_a_minute, time_is_between,
    variance_is_between,
};
pub use round_trip::Rtt;
use std::alloc::AllocError;

/// Memory ran out.
#[derive(Clone, Copy, Debug, PartialEq, Eq)]
pub struct OutOfMemory;

impl From<AllocError> for OutOfMemory {
    fn from(_error: AllocError) -> Self {
        OutOfMemory
    }
}
