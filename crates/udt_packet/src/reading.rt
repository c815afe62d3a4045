// From bytes to packets.

ghost use Rattle.std.specs.Prelude.{◌≡◌, ◌+◌, ◌<◌, ◌≤◌, ◌↔◌, length, take, drop, IfOk, IfSome, IfNone, Ok, Err, IsTrue, is_some};
ghost use Rattle.udt_model.specs.declared.packets.Malformed.{Malformed};
ghost use Rattle.udt_model.specs.Wire as wire;
ghost use Rattle.udt_model.specs.Wire.{IsInRange, control_type, read_control};
ghost use Rattle.udt_packet.specs.Packets.{block_packet_of, packet_of, reading_of, IsRefusedFor, SpellsBlock};

use crate::flags::flags_of;
use crate::packet::Packet;
use crate::ranges::NakRanges;
use crate::words::{HEADER, following, number_at, word_at};
use udt_model::{AckBody, Flags, Malformed, Shake};

/// The first bit of a control packet, which a block's sequence number doesn't have.
const CONTROL: u32 = 1 << 31;

/// The bits of a control packet that stand after its type.
const RESERVED: u32 = 1 << 16;

/// How many types of control packets there can be.
const TYPES: u32 = 1 << 15;

/// How many message numbers there are.
const MESSAGES: u32 = 1 << 29;

/// The bytes of a handshake, and of its address.
const SHAKE: usize = 48;

/// The socket ID of the destination, which stands in the fourth word of each packet. None for fewer
/// than 16 bytes.
#[tactic(auto, unfolding(udt_model::specs::Wire::target))]
pub fn target(bytes: &[u8]) -> Option<u32>
    ensures value { result ≡ wire.target bytes.now }
    ensures some { IsTrue (is_some result) ↔ 16 ≤ length bytes.now }
{
    if bytes.len() < HEADER {
        return None;
    }
    Some(word_at(bytes, 12))
}

/// A block as a packet carries it, with the packet's time stamp in microseconds and the socket ID of
/// its destination.
#[derive(Clone, Copy, Debug, PartialEq, Eq)]
pub struct BlockPacket<'a> {
    pub seq: u32,
    pub flags: Flags,
    pub stamp: u32,
    pub dest: u32,
    pub bytes: &'a [u8],
}

/// The block that the bytes spell, which aren't too short.
#[inline(always)]
fn block<'a>(bytes: &'a [u8]) -> BlockPacket<'a>
    requires { 16 ≤ length bytes.now }
    ensures { block_packet_of result ≡ wire.block_of bytes.now }
{
    let (header, rest) = bytes.split_at(HEADER);
    BlockPacket {
        seq: word_at(header, 0),
        flags: flags_of(word_at(header, 4)),
        stamp: word_at(header, 8),
        dest: word_at(header, 12),
        bytes: rest,
    }
}

/// The block that the bytes spell, where they spell one: what `read` gives of it, without a look at
/// what else they may be.
#[inline(always)]
#[tactic(auto, unfolding(udt_model::specs::Wire::read))]
pub fn read_block<'a>(bytes: &'a [u8]) -> Option<BlockPacket<'a>>
    ensures some { IfSome result (λ block. wire.read bytes.now ≡ Ok (block_packet_of block)) }
    ensures none { IfNone result (¬ SpellsBlock bytes.now) }
{
    if bytes.len() < HEADER || word_at(bytes, 0) >= CONTROL {
        return None;
    }
    Some(block(bytes))
}

impl<'a> From<BlockPacket<'a>> for Packet<'a> {
    fn from(block: BlockPacket<'a>) -> Packet<'a>
        ensures { packet_of result ≡ block_packet_of block.entry }
    {
        Packet::Block {
            seq: block.seq,
            flags: block.flags,
            stamp: block.stamp,
            dest: block.dest,
            bytes: block.bytes,
        }
    }
}

/// The 16 bytes of the address of a handshake.
fn address(field: &[u8]) -> [u8; 16]
    requires { 48 ≤ length field.now }
    ensures { result ≡ take 16 (drop 32 field.now) }
{
    let mut address = [0; 16];
    address.copy_from_slice(&field[32..48]);
    address
}

/// The fields of a handshake.
fn shake(field: &[u8]) -> Shake
    requires { 48 ≤ length field.now }
    ensures { result ≡ wire.shake_of field.now }
{
    Shake {
        version: word_at(field, 0),
        kind: word_at(field, 4),
        isn: number_at(field, 8),
        packet: word_at(field, 12),
        flow: word_at(field, 16),
        ask: word_at(field, 20).cast_signed(),
        id: word_at(field, 24),
        cookie: word_at(field, 28),
        address: address(field),
    }
}

/// What an ACK carries: as much as its words hold.
fn ack(field: &[u8]) -> AckBody
    requires { 4 ≤ length field.now }
    ensures { result ≡ wire.ack_of field.now }
{
    let ack = number_at(field, 0);
    if field.len() < 16 {
        return AckBody::Light { ack };
    }
    let rtt = word_at(field, 4);
    let var = word_at(field, 8);
    let buffer = word_at(field, 12);
    if field.len() < 24 {
        return AckBody::Buffer {
            ack,
            rtt,
            var,
            buffer,
        };
    }
    AckBody::Full {
        ack,
        rtt,
        var,
        buffer,
        rate: word_at(field, 16),
        capacity: word_at(field, 20),
    }
}

/// The control packet of the type with this number, by the other words of its header and the field
/// after it.
#[tactic(auto, unfolding(udt_model::specs::Wire::read_control))]
fn control<'a>(
    number: u32,
    info: u32,
    stamp: u32,
    dest: u32,
    field: &'a [u8],
) -> Result<Packet<'a>, Malformed>
    ensures { reading_of result ≡ read_control (control_type number) info stamp dest field.now }
{
    match number {
        0 if field.len() < SHAKE => Err(Malformed::BadHandshakeLength),
        0 => Ok(Packet::Handshake {
            stamp,
            dest,
            shake: shake(field),
        }),
        1 => Ok(Packet::KeepAlive { stamp, dest }),
        2 if field.len() < 4 => Err(Malformed::BadAckLength),
        2 => Ok(Packet::Ack {
            number: info,
            stamp,
            dest,
            body: ack(field),
        }),
        3 => match NakRanges::over(field) {
            Some(ranges) => Ok(Packet::Nak {
                stamp,
                dest,
                ranges,
            }),
            None => Err(Malformed::BadNakRange),
        },
        5 => Ok(Packet::Shutdown { stamp, dest }),
        6 => Ok(Packet::Ack2 {
            number: info,
            stamp,
            dest,
        }),
        7 if field.len() < 8 => Err(Malformed::BadDropLength),
        7 => Ok(Packet::DropAsk {
            message: info % MESSAGES,
            stamp,
            dest,
            first: number_at(field, 0),
            last: number_at(field, 4),
        }),
        _ => Err(Malformed::UnknownType),
    }
}

/// The packet that the bytes spell, or why they spell none.
#[tactic(auto, unfolding(udt_model::specs::Wire::read))]
fn packet<'a>(bytes: &'a [u8]) -> Result<Packet<'a>, Malformed>
    ensures { reading_of result ≡ wire.read bytes.now }
{
    if bytes.len() < HEADER {
        return Err(Malformed::TooShort);
    }
    let first = word_at(bytes, 0);
    if first < CONTROL {
        return Ok(Packet::from(block(bytes)));
    }
    control(
        first / RESERVED % TYPES,
        word_at(bytes, 4),
        word_at(bytes, 8),
        word_at(bytes, 12),
        following(bytes, HEADER),
    )
}

/// The packet that the bytes spell, or why they spell none. The bytes of a block and the words of
/// lost numbers are borrowed.
pub fn read<'a>(bytes: &'a [u8]) -> Result<Packet<'a>, Malformed>
    ensures value { reading_of result ≡ wire.read bytes.now }
    ensures refused { (why : Malformed) → (result ≡ Err why ↔ IsRefusedFor bytes.now why) }
    ensures in_range { IfOk result (λ packet. IsInRange (packet_of packet)) }
{
    packet(bytes)
}
