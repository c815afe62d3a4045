//! How a file is framed when it is sent, and a reader of a frame that comes in pieces.
#![tactic(auto)]

mod frame;
mod reader;
#[cfg(test)]
mod tests;

pub use frame::header;
pub use reader::{BadFrame, FrameReader};
