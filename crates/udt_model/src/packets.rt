// What packets and sockets are made with.

/// What a socket carries: a stream of bytes, or whole messages.
#[derive(Clone, Copy, Debug, PartialEq, Eq)]
pub enum Kind {
    Stream,
    Message,
}

/// What a socket is opened with: its kind, the bytes of a block, and how many blocks each way.
#[derive(Clone, Copy, Debug, PartialEq, Eq)]
pub struct Config {
    pub kind: Kind,
    pub payload: u32,
    pub snd_blocks: u32,
    pub rcv_blocks: u32,
}

/// The second word of a data packet: whether the block is its message's first and last, whether
/// the message must be delivered in order, and the message's number, which is below 2^29.
#[derive(Clone, Copy, Debug, PartialEq, Eq)]
pub struct Flags {
    pub first: bool,
    pub last: bool,
    pub order: bool,
    pub message: u32,
}

/// Why bytes are no packet.
#[derive(Clone, Copy, Debug, PartialEq, Eq)]
pub enum Malformed {
    TooShort,
    UnknownType,
    BadHandshakeLength,
    BadNakRange,
    BadDropLength,
    BadAckLength,
}

/// The fields of a handshake: the version of the protocol, the socket type (1 for a stream, 2 for
/// messages), the initial sequence number, the packet size (the bytes of a block plus 44), the flow window
/// in packets, what the handshake asks or answers, the sender's socket ID, the cookie, and the
/// address to which it is sent.
#[derive(Clone, Copy, Debug, PartialEq, Eq)]
pub struct Shake {
    pub version: u32,
    pub kind: u32,
    pub isn: u32,
    pub packet: u32,
    pub flow: u32,
    pub ask: i32,
    pub id: u32,
    pub cookie: u32,
    pub address: [u8; 16],
}

/// What an ACK carries: the number up to which everything has arrived; with the
/// round-trip time and its variance in microseconds and the free blocks of the receiver; or with
/// the receiving rate and the link's capacity too, in packets a second.
#[derive(Clone, Copy, Debug, PartialEq, Eq)]
pub enum AckBody {
    Light {
        ack: u32,
    },
    Buffer {
        ack: u32,
        rtt: u32,
        var: u32,
        buffer: u32,
    },
    Full {
        ack: u32,
        rtt: u32,
        var: u32,
        buffer: u32,
        rate: u32,
        capacity: u32,
    },
}
