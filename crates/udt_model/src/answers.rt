// What a socket answers to its events.

use crate::addresses::{Addr, Ip};
use crate::packets::Malformed;

/// The other end of a connection: its address and socket ID, the initial sequence number, the bytes of a
/// block that it takes, and how many blocks it has room for.
#[derive(Clone, Copy, Debug, PartialEq, Eq)]
pub struct Peer {
    pub addr: Addr,
    pub id: u32,
    pub isn: u32,
    pub payload: u32,
    pub flow: u32,
}

/// Why a connection was lost.
#[derive(Clone, Copy, Debug, PartialEq, Eq)]
pub enum Cause {
    PeerShutdown,
    Expired,
    PortDown,
}

/// Why a connection didn't come about: nobody answered in time, or the listener refused.
#[derive(Clone, Copy, Debug, PartialEq, Eq)]
pub enum Failure {
    TimedOut,
    Rejected,
}

/// How a socket came by its peer: it has none yet, it was connected from its opening on, a listener
/// answered it, or it met its peer.
#[derive(Clone, Copy, Debug, PartialEq, Eq)]
pub enum Origin {
    Nobody,
    Opening,
    Listener,
    Rendezvous,
}

/// The peer of a socket that has none.
pub const NOBODY: Peer = Peer {
    addr: Addr {
        ip: Ip::V4(0),
        port: 0,
    },
    id: 0,
    isn: 0,
    payload: 0,
    flow: 0,
};

/// What became of a connection that was asked for. `Idle` comes where none was, and after a close.
#[derive(Clone, Copy, Debug, PartialEq, Eq)]
pub enum Shaken {
    Idle,
    Waiting,
    Done,
    TimedOut,
    Rejected,
    Lost(Cause),
}

/// Why a call of a socket did nothing.
#[derive(Clone, Copy, Debug, PartialEq, Eq)]
pub enum Refusal {
    ConnLost(Cause),
    NotConnected,
    OutOfMemory,
    Connected,
    BadParameter,
    NotListening,
    StreamOnly,
    MessageOnly,
    TooLarge,
    AgainSend,
    AgainRecv,
    Spent,
    EventsSpent,
}

/// Why a sending half took no bytes: no block is free now, the direction may carry no further ones, or
/// the message has more blocks than a socket keeps.
#[derive(Clone, Copy, Debug, PartialEq, Eq)]
pub enum SendNo {
    Again,
    Spent,
    TooLarge,
}

/// What became of a block. `Below` and `Above` are outside of what there is room for, and at the
/// offset of a `Double` a block was placed before, or the offset was consumed.
#[derive(Clone, Copy, Debug, PartialEq, Eq)]
pub enum Placed {
    New,
    Below,
    Above,
    Double,
}

/// What a data packet did at a receiving half: what became of its block, the first and the last offset
/// of the gap that it showed and that is to be reported now, and whether a light ACK is due.
#[derive(Clone, Copy, Debug, PartialEq, Eq)]
pub struct Arrived {
    pub placed: Placed,
    pub gap: Option<(u64, u64)>,
    pub light: bool,
}

/// What a message drop request did at a receiving half: it took its offsets, with the first and the last
/// offset of the gap that it showed and that is to be reported now, or it was stale.
#[derive(Clone, Copy, Debug, PartialEq, Eq)]
pub enum Dropped {
    Taken { gap: Option<(u64, u64)> },
    Stale,
}

/// What packing did. A block and a drop request come with the bytes of their datagram, and a moment
/// before which nothing may be sent is in microseconds.
#[derive(Clone, Copy, Debug, PartialEq, Eq)]
pub enum Packed {
    Block(usize),
    DropAsk(usize),
    NotYet(u64),
    Nothing,
}

/// What a socket has measured and counted: the round-trip time and its variance in microseconds, the
/// congestion window in packets, the packet sending period in nanoseconds, its counters, and the first
/// offset that isn't acknowledged.
#[derive(Clone, Copy, Debug, PartialEq, Eq)]
pub struct Perf {
    pub rtt: u64,
    pub var: u64,
    pub window: u64,
    pub period: u64,
    pub sent: u64,
    pub resent: u64,
    pub placed: u64,
    pub double: u64,
    pub below: u64,
    pub above: u64,
    pub control: u64,
    pub stale: u64,
    pub foreign: u64,
    pub malformed: u64,
    pub acked: u64,
}

/// What became of a datagram that arrived.
#[derive(Clone, Copy, Debug, PartialEq, Eq)]
pub enum Heard {
    Placed,
    Double,
    Below,
    Above,
    BadLength,
    Ack,
    Nak,
    Ack2,
    Dropped,
    Alive,
    Shutdown,
    Cookie,
    Request,
    Reject,
    Connected,
    Answered,
    Adopted,
    Rejected,
    Stale,
    Foreign,
    Malformed(Malformed),
}
