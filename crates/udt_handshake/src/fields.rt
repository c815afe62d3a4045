// The fields of handshakes, written and compared.

ghost use Rattle.std.specs.Prelude.{◌≡◌, ◌≤◌, ◌+◌, ◌<◌, ◌^◌};
ghost use Rattle.udt_model.specs.Handshakes as model;

use udt_model::{
    Addr, Asked, Caller, Config, FEWEST_BLOCKS, Ip, Kind, MOST_BLOCKS, Peer, SIZE_OVER_PAYLOAD,
    Shake, VERSION,
};

/// What a connection type asks or answers.
pub fn asked(ask: i32) -> Asked
    ensures { result ≡ model.asked ask }
{
    match ask {
        0 => Asked::Meets,
        1 => Asked::Requests,
        -1 => Asked::Answers,
        -2 => Asked::Agrees,
        1002 => Asked::Refuses,
        _ => Asked::Other,
    }
}

/// The connection type that asks or answers this.
pub fn type_of(asked: Asked) -> i32
    ensures { result ≡ model.type_of asked }
{
    match asked {
        Asked::Meets => 0,
        Asked::Requests => 1,
        Asked::Answers => -1,
        Asked::Agrees => -2,
        Asked::Refuses => 1002,
        Asked::Other => 2,
    }
}

/// The number of a socket type.
pub fn kind_number(kind: Kind) -> u32
    ensures { result ≡ model.kind_number kind }
{
    match kind {
        Kind::Stream => 1,
        Kind::Message => 2,
    }
}

/// The sixteen bytes in which a handshake names the address to which it is sent.
pub fn address_field(ip: Ip) -> [u8; 16]
    ensures { result ≡ model.address_field ip }
{
    match ip {
        Ip::V4(bits) => {
            let b = bits.to_be_bytes();
            [b[0], b[1], b[2], b[3], 0, 0, 0, 0, 0, 0, 0, 0, 0, 0, 0, 0]
        }
        Ip::V6(bits) => bits.to_be_bytes(),
    }
}

/// What a socket says of itself, with this payload and cookie.
pub fn says(caller: &Caller, payload: u32, asked: Asked, cookie: u32) -> Shake
    requires fits { payload + SIZE_OVER_PAYLOAD < 2 ^ 32 }
    ensures { result ≡ model.says caller.now payload asked cookie }
{
    Shake {
        version: VERSION,
        kind: kind_number(caller.config.kind),
        isn: caller.isn,
        packet: payload + SIZE_OVER_PAYLOAD,
        flow: caller.config.rcv_blocks,
        ask: type_of(asked),
        id: caller.own,
        cookie,
        address: address_field(caller.to.ip),
    }
}

/// Whether version and socket type are the same as here, and a block has at least one byte.
pub fn suits(config: &Config, shake: &Shake) -> bool
    ensures { result ≡ model.suits config.now shake.now }
{
    shake.version == VERSION
        && shake.kind == kind_number(config.kind)
        && shake.packet > SIZE_OVER_PAYLOAD
}

/// The peer that a handshake from this address makes known.
pub fn peer_in(config: &Config, from: Addr, shake: &Shake) -> Peer
    ensures { result ≡ model.peer_in config.now from shake.now }
{
    Peer {
        addr: from,
        id: shake.id,
        isn: shake.isn,
        payload: config
            .payload
            .min(shake.packet.saturating_sub(SIZE_OVER_PAYLOAD)),
        flow: FEWEST_BLOCKS.max(shake.flow.min(MOST_BLOCKS)),
    }
}
