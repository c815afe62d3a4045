// From packets to bytes.

ghost use Rattle.std.specs.Prelude.{◌≡◌, ◌+◌, ◌^◌, ◌<◌, ◌≤◌, ◌++◌, length, drop};
ghost use Rattle.udt_model.specs.Wire as wire;
ghost use Rattle.udt_packet.specs.Packets.{packet_of, spelled, IsWritable};

use crate::flags::flags_word;
use crate::packet::Packet;
use crate::short::short_field;
use crate::words::{HEADER, four, put, put_header};
use udt_model::{AckBody, Flags, Shake};

/// The first bit of a control packet.
const CONTROL: u32 = 1 << 31;

/// The place of a control packet's type.
const TYPE: u32 = 1 << 16;

/// The four words that the packet begins with.
fn header_of(packet: &Packet) -> [u8; 16]
    requires { IsWritable packet.now }
    ensures { result ≡ wire.header_of (packet_of packet.now) }
{
    match packet {
        Packet::Block {
            seq,
            flags,
            stamp,
            dest,
            ..
        } => four(*seq, flags_word(*flags), *stamp, *dest),
        Packet::Handshake { stamp, dest, .. } => four(CONTROL, 0, *stamp, *dest),
        Packet::KeepAlive { stamp, dest } => four(CONTROL + TYPE, 0, *stamp, *dest),
        Packet::Ack {
            number,
            stamp,
            dest,
            ..
        } => four(CONTROL + 2 * TYPE, *number, *stamp, *dest),
        Packet::Nak { stamp, dest, .. } => four(CONTROL + 3 * TYPE, 0, *stamp, *dest),
        Packet::Shutdown { stamp, dest } => four(CONTROL + 5 * TYPE, 0, *stamp, *dest),
        Packet::Ack2 {
            number,
            stamp,
            dest,
        } => four(CONTROL + 6 * TYPE, *number, *stamp, *dest),
        Packet::DropAsk {
            message,
            stamp,
            dest,
            ..
        } => four(CONTROL + 7 * TYPE, *message, *stamp, *dest),
    }
}

/// How many bytes a handshake has after its header.
fn shake_size(shake: &Shake) -> usize
    ensures value { result ≡ length (wire.shake_bytes shake.now) }
    ensures bound { result ≤ 48 }
{
    let address: &[u8] = &shake.address;
    32 + address.len()
}

/// How many bytes an ACK has after its header.
fn ack_size(body: &AckBody) -> usize
    ensures { result ≡ length (wire.ack_bytes body.now) }
{
    match body {
        AckBody::Light { .. } => 4,
        AckBody::Buffer { .. } => 16,
        AckBody::Full { .. } => 24,
    }
}

/// How many bytes spell the packet.
#[tactic(auto, unfolding(udt_model::specs::Wire::spelling))]
pub fn size(packet: &Packet) -> usize
    ensures { result ≡ length (spelled packet.now) }
{
    match packet {
        Packet::Block { bytes, .. } => HEADER + bytes.len(),
        Packet::Handshake { shake, .. } => HEADER + shake_size(shake),
        Packet::Ack { body, .. } => HEADER + ack_size(body),
        Packet::Nak { ranges, .. } => HEADER + ranges.size(),
        Packet::DropAsk { .. } => HEADER + 8,
        _ => HEADER,
    }
}

/// Writes the one spelling of the packet at the front of `into`, and answers its size.
#[tactic(auto, unfolding(udt_model::specs::Wire::spelling))]
pub fn write(packet: &Packet, into: &mut [u8]) -> usize
    requires fits { length (spelled packet.now) ≤ length into.old }
    requires in_range { IsWritable packet.now }
    ensures value { result ≡ length (spelled packet.now) }
    ensures after { into.new ≡ spelled packet.now ++ drop result into.old }
{
    let place = put(into, 0, &header_of(packet));
    match packet {
        Packet::Block { bytes, .. } => put(into, place, bytes),
        Packet::Nak { ranges, .. } => ranges.put(into, place),
        _ => put(into, place, short_field(packet).as_slice()),
    }
}

/// Writes the packet of a block at the front of `into`, and answers its size: as `write` does of a
/// block, without looking at what kind of packet it is.
#[inline]
#[tactic(auto, unfolding(udt_model::specs::Wire::spelling))]
pub fn write_block(
    seq: u32,
    flags: Flags,
    stamp: u32,
    dest: u32,
    bytes: &[u8],
    into: &mut [u8],
) -> usize
    requires number { seq < 2 ^ 31 }
    requires message { flags.message < 2 ^ 29 }
    requires fits { 16 + length bytes.now ≤ length into.old }
    ensures value { result ≡ 16 + length bytes.now }
    ensures after { into.new
        ≡ wire.spelling (wire.Block seq flags stamp dest bytes.now) ++ drop result into.old }
{
    let place = put_header(into, seq, flags_word(flags), stamp, dest);
    put(into, place, bytes)
}

/// Writes the four words that a NAK begins with at the front of `into`, and answers the place after
/// them, from which on its ranges stand.
pub fn put_nak_header(stamp: u32, dest: u32, into: &mut [u8]) -> usize
    requires { 16 ≤ length into.old }
    ensures value { result ≡ 16 }
    ensures after { into.new ≡ wire.header (wire.type_word 3) 0 stamp dest ++ drop result into.old }
{
    put_header(into, CONTROL + 3 * TYPE, 0, stamp, dest)
}
