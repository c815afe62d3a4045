//! The words of a command line, read as an order to the program.
#![tactic(auto)]

mod arguments;
mod commands;
mod laws;
mod limits;
mod order;
mod reading;
#[cfg(test)]
mod tests;

pub use laws::{five_words_are_refused, hyphens_are_refused};
pub use limits::{
    LAST_SEED, MOST_CONNECTIONS, MOST_PAIR_BYTES, MOST_RECORD_TURNS, MOST_WORLD_TURNS,
};
pub use order::{Name, Order, WordsFault};
pub use reading::read_words;
pub use udt_model::{Addr, ControlName};
