// The fields of control packets that are short, put together word by word.

ghost use Rattle.std.specs.Prelude.{◌≡◌, ◌+◌, ◌≤◌, ◌++◌, [], length};
ghost use Rattle.udt_packet.specs.Packets.{packet_of, short_of};
ghost use Rattle.udt_model.specs.Wire.{shake_bytes, ack_bytes};

use crate::packet::Packet;
use crate::words::{four, put, two};
use std::marker::Model;
use udt_model::{AckBody, Shake};

/// How many bytes such a field has at most: those of a handshake.
const LONGEST: usize = 48;

/// At most 48 bytes.
#[derive(Drop)]
pub struct Short {
    bytes: [u8; LONGEST],
    len: usize,
}

impl Model for Short {
    ghost use Rattle.std.specs.Prelude.{◌≤◌, ℕ, List, take};

    ghost Value = { List ℕ };

    ghost view = { λ a. take a.len a.bytes };

    ghost invariant = { λ a. a.len ≤ 48 };
}

impl Short {
    fn new() -> Short
        ensures { result ≡ [] }
    {
        Short {
            bytes: [0; LONGEST],
            len: 0,
        }
    }

    // Adds these bytes.
    fn add(&mut self, bytes: &[u8])
        requires { length self.old + length bytes.now ≤ 48 }
        ensures { self.new ≡ self.old ++ bytes.now }
    {
        self.len = put(&mut self.bytes, self.len, bytes);
    }

    /// The bytes.
    pub fn as_slice(&self) -> &[u8]
        ensures { result.now ≡ self.now }
    {
        &self.bytes[..self.len]
    }
}

// The field of a handshake.
fn shake_field(shake: &Shake) -> Short
    ensures { result ≡ shake_bytes shake.now }
{
    let mut field = Short::new();
    field.add(&four(shake.version, shake.kind, shake.isn, shake.packet));
    field.add(&four(
        shake.flow,
        shake.ask.cast_unsigned(),
        shake.id,
        shake.cookie,
    ));
    field.add(&shake.address);
    field
}

// The field of an ACK.
fn ack_field(body: &AckBody) -> Short
    ensures { result ≡ ack_bytes body.now }
{
    let mut field = Short::new();
    match body {
        AckBody::Light { ack } => field.add(&ack.to_be_bytes()),
        AckBody::Buffer {
            ack,
            rtt,
            var,
            buffer,
        } => field.add(&four(*ack, *rtt, *var, *buffer)),
        AckBody::Full {
            ack,
            rtt,
            var,
            buffer,
            rate,
            capacity,
        } => {
            field.add(&four(*ack, *rtt, *var, *buffer));
            field.add(&two(*rate, *capacity));
        }
    }
    field
}

/// The field of a control packet without ranges. A block and a packet of ranges have none
/// here.
pub fn short_field(packet: &Packet) -> Short
    ensures { result ≡ short_of (packet_of packet.now) }
{
    match packet {
        Packet::Handshake { shake, .. } => shake_field(shake),
        Packet::Ack { body, .. } => ack_field(body),
        Packet::DropAsk { first, last, .. } => {
            let mut field = Short::new();
            field.add(&two(*first, *last));
            field
        }
        _ => Short::new(),
    }
}
