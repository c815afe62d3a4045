//! The commands of the program, over sources and sinks of bytes.
#![tactic(auto)]

mod controls;
mod offline;
mod play;
mod streams;
mod summaries;
#[cfg(test)]
mod tests;

pub use offline::{
    DONE, NO_COMMAND, OUT_OF_MEMORY, REFUSED, SINK_FAILED, SOURCE_FAILED, run_offline, run_plain,
};
