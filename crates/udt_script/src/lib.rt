//! The lines of scripts, read and printed.
#![tactic(auto)]

mod append;
mod lines;
mod printed;
mod reading;
#[cfg(test)]
mod tests;
mod texts;
mod words;

pub use lines::{Call, Line, Opening, Pairing, Reply, ScriptDatagram};
pub use printed::{
    print_accept, print_datagram, print_dropped, print_host, print_listen_twice, print_meet_taken,
    print_open, print_pair, print_refused, print_reply,
};
pub use reading::read_line;
