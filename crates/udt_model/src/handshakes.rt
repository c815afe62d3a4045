// What handshakes are made of and lead to.

use crate::addresses::Addr;
use crate::answers::Peer;
use crate::packets::{Config, Shake};

/// The version of the protocol that handshakes name.
pub const VERSION: u32 = 4;

/// How many bytes the packet size of a handshake has beyond the payload: the headers of IP, UDP and
/// UDT, in its least form.
pub const SIZE_OVER_PAYLOAD: u32 = 44;

/// The microseconds for which a cookie is the newest: a minute.
pub const COOKIE_LIFE: u64 = 60_000_000;

/// What a handshake asks or answers, by its connection type: 0, 1, -1, -2, 1002, or any other.
#[derive(Clone, Copy, Debug, PartialEq, Eq)]
pub enum Asked {
    Meets,
    Requests,
    Answers,
    Agrees,
    Refuses,
    Other,
}

/// A socket that asks for a connection: what it was opened with, its ID and initial sequence number,
/// the address that it asks, and the moment of its call in microseconds.
#[derive(Clone, Copy, Debug, PartialEq, Eq)]
pub struct Caller {
    pub config: Config,
    pub own: u32,
    pub isn: u32,
    pub to: Addr,
    pub began: u64,
}

/// What a listener makes of a request. An answer comes as the handshake to send back.
#[derive(Clone, Copy, Debug, PartialEq, Eq)]
pub enum Verdict {
    Cookie(Shake),
    Request,
    Reject(Shake),
}

/// What a client makes of a handshake.
#[derive(Clone, Copy, Debug, PartialEq, Eq)]
pub enum ClientSaw {
    Cookie,
    Connected(Peer),
    Rejected,
    Stale,
}

/// What a meeting socket makes of a handshake.
#[derive(Clone, Copy, Debug, PartialEq, Eq)]
pub enum MeetSaw {
    Adopted(Peer),
    Answered,
    Connected(Peer),
    Stale,
}
