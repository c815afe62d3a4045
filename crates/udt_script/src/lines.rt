// The forms of a script's lines, and the answers that are printed.

use udt_model::{Addr, Heard, Kind, Packed, Perf, Refusal, Shaken};

/// Two sockets that are to be paired: what they carry, their names, the bytes of a block, the
/// initial sequence number, how many blocks each keeps each way, and the offset at which both
/// directions begin.
#[derive(Clone, Copy, Debug, PartialEq, Eq)]
pub struct Pairing<'a> {
    pub kind: Kind,
    pub a: &'a [u8],
    pub b: &'a [u8],
    pub payload: u32,
    pub isn: u32,
    pub blocks: u32,
    pub start: u64,
}

/// A socket that is to be opened without a connection: what it carries, its name and that of its
/// host, the bytes of a block, the initial sequence number, and how many blocks it keeps each way.
#[derive(Clone, Copy, Debug, PartialEq, Eq)]
pub struct Opening<'a> {
    pub kind: Kind,
    pub name: &'a [u8],
    pub host: &'a [u8],
    pub payload: u32,
    pub isn: u32,
    pub blocks: u32,
}

/// A datagram of a script: whence it comes, where it goes, and its bytes.
#[derive(Debug, PartialEq, Drop)]
pub struct ScriptDatagram {
    pub from: Addr,
    pub to: Addr,
    pub bytes: Vec<u8>,
}

/// A call of a socket: to listen, with this many connections at most that wait to be accepted, a
/// connection request to an address, a rendezvous with one, what became of these, a send of bytes, a
/// receive with room for this many bytes, the same of a message, a pack, a tick, a close, or what
/// was measured so far. A message may have a time to live, in microseconds, and may have to be
/// delivered in order.
#[derive(Debug, PartialEq, Drop)]
pub enum Call {
    Listen(u32),
    Connect(Addr),
    Meet(Addr),
    Shake,
    Send(Vec<u8>),
    Recv(u32),
    SendMessage {
        ttl: Option<u64>,
        order: bool,
        bytes: Vec<u8>,
    },
    RecvMessage(u32),
    Pack,
    Tick,
    Close,
    Perf,
}

/// What a line says: nothing, a pair of sockets, a host and its address, a socket, an accept of a
/// named socket with the name for the connection, another call of one, the arrival of a datagram by
/// the number under which it was printed, or that of any bytes, from any address to any. Moments are
/// in microseconds.
#[derive(Debug, PartialEq, Drop)]
pub enum Line<'a> {
    Silent,
    Pair(Pairing<'a>),
    Host {
        name: &'a [u8],
        addr: Addr,
    },
    Open(Opening<'a>),
    Accept {
        name: &'a [u8],
        now: u64,
        accepted: &'a [u8],
    },
    Call {
        name: &'a [u8],
        now: u64,
        call: Call,
    },
    Deliver {
        number: u64,
        now: u64,
    },
    Raw {
        now: u64,
        datagram: ScriptDatagram,
    },
}

/// What a socket answered: that it listens, has asked for a connection or meets an address, the ID
/// of the connection that it accepted, what became of its own one, that one with this ID was offered
/// to it (false where it had promised no place), that a promise was taken back, how many bytes it
/// took, the bytes that it gave, the same of a message, what it packed, that it ticked or was closed,
/// what it has measured, and what became of a datagram that arrived.
#[derive(Debug, PartialEq, Drop)]
pub enum Reply {
    Listened(Result<(), Refusal>),
    Connected(Result<(), Refusal>),
    Met(Result<(), Refusal>),
    Accepted(Result<u32, Refusal>),
    Shaken(Shaken),
    Offered { id: u32, taken: bool },
    Withdrawn,
    Sent(Result<usize, Refusal>),
    Received(Result<Vec<u8>, Refusal>),
    SentMessage(Result<usize, Refusal>),
    ReceivedMessage(Result<Vec<u8>, Refusal>),
    Packed(Packed),
    Ticked,
    Closed,
    Measured(Perf),
    Heard(Heard),
}
