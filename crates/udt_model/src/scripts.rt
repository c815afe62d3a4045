// What a script is played with.

/// A rate control, by the name that a command has for it.
#[derive(Clone, Copy, Debug, PartialEq, Eq)]
pub enum ControlName {
    Native,
    Fixed,
    Aimd,
}

/// What is told of a generated run: the bytes that one socket accepted and the other delivered, the
/// acknowledged blocks of the one, and the datagrams that both emitted.
#[derive(Clone, Copy, Debug, PartialEq, Eq)]
pub struct Summary {
    pub accepted: u64,
    pub delivered: u64,
    pub acked: u64,
    pub datagrams: u64,
}
