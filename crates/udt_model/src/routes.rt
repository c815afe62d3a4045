// Where a datagram goes at an endpoint.

/// The socket with this ID gets a datagram, or nobody does: it is too short to name a socket, no socket
/// has the ID that it names, it is no handshake that any socket takes, or a handshake of a peer that
/// another socket has adopted, or had.
#[derive(Clone, Copy, Debug, PartialEq, Eq)]
pub enum Routed {
    ToSocket(u32),
    Short,
    Id,
    Shake,
    Stale,
}
