// What a socket keeps beside its halves.

/// What was counted. Each count stays at 2^64 - 1 once it stands there.
#[derive(Clone, Copy, Debug, PartialEq, Eq)]
pub struct Counters {
    /// Data packets that were sent first, and those that were retransmitted.
    pub sent: u64,
    pub resent: u64,
    /// Blocks by what became of them.
    pub placed: u64,
    pub double: u64,
    pub below: u64,
    pub above: u64,
    /// Control packets that were taken, stale packets, and datagrams that were foreign or no packet.
    pub control: u64,
    pub stale: u64,
    pub foreign: u64,
    pub malformed: u64,
}

/// Nothing was counted yet.
pub const NO_COUNTERS: Counters = Counters {
    sent: 0,
    resent: 0,
    placed: 0,
    double: 0,
    below: 0,
    above: 0,
    control: 0,
    stale: 0,
    foreign: 0,
    malformed: 0,
};

/// An ACK that was emitted: its number, the first offset that had not arrived, and its moment in
/// microseconds.
#[derive(Clone, Copy, Debug, PartialEq, Eq)]
pub struct SentAck {
    pub number: u32,
    pub offset: u64,
    pub moment: u64,
}

/// What the EXP timer does: nothing yet, it breaks the connection, it counts all that is in flight as
/// lost, or it has a keep-alive sent.
#[derive(Clone, Copy, Debug, PartialEq, Eq)]
pub enum ExpOutcome {
    NotDue,
    Breaks,
    LosesAll,
    KeepsAlive,
}
