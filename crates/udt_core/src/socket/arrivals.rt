// What a datagram that arrives does.

ghost use Rattle.std.specs.Prelude.{◌≡◌, ℕ, [], ◌++◌, ◌≤◌, length, true};
ghost use Rattle.udt_model.specs.Addresses.{same_addr};
ghost use Rattle.udt_model.specs.Phases as phase;
ghost use Rattle.udt_model.specs.Step.{step};
ghost use Rattle.udt_model.specs.declared.packets.Kind.TheVariants.{Message};
ghost use Rattle.udt_model.specs.Events.{Arrive, DidHear, at_moment, event, outs_of};
ghost use Rattle.udt_model.specs.Arrivals.{on_read, heard_now, is_own as comes_from_peer, heard_of, count_placing as count_as, packet_in, on_own as own_arrives, on_block as block_arrives, arrived_so, on_ack as ack_arrives, on_nak as nak_arrives, on_drop as drop_arrives, drop_as, on_ack2 as ack2_arrives, emitted_by_ack2, emitted_by_gap, emitted_by_light};
ghost use Rattle.udt_model.specs.Counted.{count_malformed, count_foreign, on_control as control_arrives, on_stale as stale_arrives};
ghost use Rattle.udt_model.specs.Wire.{read as wire_read, IsInRange};
ghost use Rattle.udt_packet.specs.Packets.{block_packet_of, packet_of, IsBlock, SpellsBlock};
ghost use Rattle.udt_core.specs.Changes.{ChangesExpAlone, ToldBy};
ghost use Rattle.udt_core.specs.Emitted.{datagrams_of};
ghost use Rattle.udt_core.specs.Waiting.{IsWaiting};

use super::Socket;
use crate::counts::risen;
use crate::outs::Outs;
use crate::phase::Phase;
use std::marker::Model;
use udt_model::{AckBody, Addr, Cause, Dropped, Flags, Heard, Kind, Malformed, Placed};
use udt_packet::{BlockPacket, NakRanges, Packet, read, read_block};
use udt_rate::Control;

impl<C: Control> Socket<C> {
    /// Takes in a datagram that came from this address.
    #[tactic(auto, unfolding(udt_model::specs::Step::step))]
    pub fn arrive(&mut self, now: u64, from: Addr, bytes: &[u8], outs: &mut Outs) -> Heard
        ensures reply { DidHear result ≡ (step C.ways self.old (event now (Arrive from bytes.now))).reply }
        ensures after { self.new ≡ (step C.ways self.old (event now (Arrive from bytes.now))).after }
        ensures outs { outs.new ≡ outs_of (step C.ways self.old (event now (Arrive from bytes.now))) }
        ensures malformed { (why : Malformed) → result ≡ Heard.Malformed why
            → self.new ≡ record (at_moment self.old now) { counters = count_malformed self.old.counters } }
        ensures foreign { result ≡ Heard.Foreign
            → self.new ≡ record (at_moment self.old now) { counters = count_foreign self.old.counters } }
        ensures stale { result ≡ Heard.Stale → ChangesExpAlone (at_moment self.old now) self.new }
        ensures bad_length { result ≡ Heard.BadLength → ChangesExpAlone (at_moment self.old now) self.new }
    {
        let known = from.is_same(self.peer.addr);
        outs.clear();
        self.at(now);
        match read_block(bytes) {
            Some(block) => self.on_block_packet(from, known, &block, outs),
            None => self.on_other(from, known, bytes, outs),
        }
    }

    // Bytes that spell no block. Whether they come from the peer's address is known already.
    #[inline(always)]
    fn on_other(&mut self, from: Addr, known: bool, bytes: &[u8], outs: &mut Outs) -> Heard
        requires known { known ≡ same_addr from self.old.peer.addr }
        requires empty { outs.old ≡ [] }
        requires no_block { ¬ SpellsBlock bytes.now }
        ensures reply { DidHear result ≡ (on_read C.ways self.old from (wire_read bytes.now)).reply }
        ensures after { self.new ≡ (on_read C.ways self.old from (wire_read bytes.now)).after }
        ensures outs { outs.new ≡ outs_of (on_read C.ways self.old from (wire_read bytes.now)) }
        ensures told { ToldBy result self.old self.new }
    {
        match read(bytes) {
            Err(why) => {
                self.counters.malformed = risen(self.counters.malformed);
                Heard::Malformed(why)
            }
            Ok(packet) => self.on_packet(from, known, packet, outs),
        }
    }

    // A packet that is no block. A socket that isn't connected, and waits for no handshake, takes nothing
    // in.
    #[inline(always)]
    fn on_packet(&mut self, from: Addr, known: bool, packet: Packet, outs: &mut Outs) -> Heard
        requires known { known ≡ same_addr from self.old.peer.addr }
        requires empty { outs.old ≡ [] }
        requires no_block { ¬ IsBlock (packet_of packet) }
        requires in_range { IsInRange (packet_of packet) }
        ensures reply { DidHear result
            ≡ (packet_in C.ways self.old from (packet_of packet.entry) self.old.phase).reply }
        ensures after { self.new
            ≡ (packet_in C.ways self.old from (packet_of packet.entry) self.old.phase).after }
        ensures outs { outs.new
            ≡ outs_of (packet_in C.ways self.old from (packet_of packet.entry) self.old.phase) }
        ensures told { ToldBy result self.old self.new }
    {
        match self.phase {
            Phase::Connected => {}
            Phase::Listening(_) | Phase::Connecting { .. } | Phase::Meeting { .. } => {
                return self.on_waiting(from, packet, outs);
            }
            _ => return self.on_stale(),
        }
        if !self.is_own(from, known, &packet) {
            return self.on_foreign();
        }
        self.note_arrival();
        self.on_own(packet, outs)
    }

    // A packet at a socket that waits for handshakes.
    fn on_waiting(&mut self, from: Addr, packet: Packet, outs: &mut Outs) -> Heard
        requires empty { outs.old ≡ [] }
        requires waits { IsWaiting self.old.phase }
        requires in_range { IsInRange (packet_of packet) }
        ensures reply { DidHear result
            ≡ (packet_in C.ways self.old from (packet_of packet.entry) self.old.phase).reply }
        ensures after { self.new
            ≡ (packet_in C.ways self.old from (packet_of packet.entry) self.old.phase).after }
        ensures outs { outs.new
            ≡ outs_of (packet_in C.ways self.old from (packet_of packet.entry) self.old.phase) }
        ensures told { ToldBy result self.old self.new }
    {
        let Packet::Handshake { stamp, dest, shake } = packet else {
            return self.on_stale();
        };
        match self.phase {
            Phase::Listening(_) => self.on_request(from, stamp, dest, &shake, outs),
            Phase::Connecting { .. } => self.on_answer(from, stamp, dest, &shake, outs),
            Phase::Meeting { .. } => self.on_meeting(from, stamp, dest, &shake, outs),
            _ => self.on_stale(),
        }
    }

    // The packet of a block, which most packets are: it goes the way of `on_packet`, and no other kind is
    // looked for.
    fn on_block_packet(
        &mut self,
        _from: Addr,
        known: bool,
        block: &BlockPacket,
        outs: &mut Outs,
    ) -> Heard
        requires known { known ≡ same_addr _from self.old.peer.addr }
        requires empty { outs.old ≡ [] }
        ensures reply { DidHear result
            ≡ (packet_in C.ways self.old _from (block_packet_of block.now) self.old.phase).reply }
        ensures after { self.new
            ≡ (packet_in C.ways self.old _from (block_packet_of block.now) self.old.phase).after }
        ensures outs { outs.new
            ≡ outs_of (packet_in C.ways self.old _from (block_packet_of block.now) self.old.phase) }
        ensures told { ToldBy result self.old self.new }
    {
        match self.phase {
            Phase::Connected => {}
            _ => return self.on_stale(),
        }
        if !known || block.dest != self.own {
            return self.on_foreign();
        }
        self.note_arrival();
        self.on_block(block.seq, block.flags, block.bytes, outs)
    }

    // A packet that isn't from the peer, or isn't for this socket.
    fn on_foreign(&mut self) -> Heard
        ensures value { result ≡ Heard.Foreign }
        ensures after { self.new ≡ record self.old { counters = count_foreign self.old.counters } }
    {
        self.counters.foreign = risen(self.counters.foreign);
        Heard::Foreign
    }

    // The packet comes from the peer and is for this socket. A handshake may name another
    // destination.
    fn is_own(&self, _from: Addr, known: bool, packet: &Packet) -> bool
        requires { known ≡ same_addr _from self.now.peer.addr }
        ensures { result ≡ comes_from_peer self.now _from (packet_of packet.now) }
    {
        known && (packet.is_handshake() || packet.destination() == self.own)
    }

    // The socket has heard of its peer now.
    fn note_arrival(&mut self)
        ensures { self.new ≡ heard_now self.old }
    {
        self.heard = self.last;
        self.exp_from = self.last;
        self.exp_count = 1;
    }

    // A packet from the peer that is no block. It goes its way apart, so that a block's has no room for other packets.
    #[inline(never)]
    fn on_own(&mut self, packet: Packet, outs: &mut Outs) -> Heard
        requires connected { self.old.phase ≡ phase.Connected }
        requires empty { outs.old ≡ [] }
        requires no_block { ¬ IsBlock (packet_of packet) }
        ensures reply { DidHear result ≡ (own_arrives C.ways self.old (packet_of packet.entry)).reply }
        ensures after { self.new ≡ (own_arrives C.ways self.old (packet_of packet.entry)).after }
        ensures outs { outs.new ≡ outs_of (own_arrives C.ways self.old (packet_of packet.entry)) }
        ensures told { ToldBy result self.old self.new }
    {
        match packet {
            Packet::KeepAlive { .. } => self.on_control(Heard::Alive),
            Packet::Ack { number, body, .. } => self.on_ack(number, &body, outs),
            Packet::Nak { ranges, .. } => self.on_nak(ranges),
            Packet::Ack2 { number, .. } => self.on_ack2(number),
            Packet::Shutdown { .. } => {
                self.phase = Phase::Broken(Cause::PeerShutdown);
                self.on_control(Heard::Shutdown)
            }
            Packet::DropAsk { first, last, .. } => self.on_drop(first, last, outs),
            // (no block comes here: `on_block_packet` has it)
            Packet::Block { .. } => self.on_stale(),
            Packet::Handshake { shake, .. } => self.on_shake_again(&shake, outs),
        }
    }

    // A block that came from the peer to this socket.
    fn on_block(&mut self, seq: u32, flags: Flags, bytes: &[u8], outs: &mut Outs) -> Heard
        requires empty { outs.old ≡ [] }
        ensures reply { DidHear result ≡ (block_arrives self.old seq flags bytes.now).reply }
        ensures after { self.new ≡ (block_arrives self.old seq flags bytes.now).after }
        ensures outs { outs.new ≡ outs_of (block_arrives self.old seq flags bytes.now) }
        ensures told { ToldBy result self.old self.new }
    {
        if bytes.is_empty() || bytes.len() > self.receiving.payload() as usize {
            self.counters.stale = risen(self.counters.stale);
            return Heard::BadLength;
        }
        let arrived = self.receiving.on_block(self.last, seq, flags, bytes);
        self.report_gap(arrived.gap, outs);
        self.ack_lightly(arrived.light, outs);
        self.count_placing(arrived.placed)
    }

    // A message drop request. A stream has no messages to drop.
    fn on_drop(&mut self, first: u32, last: u32, outs: &mut Outs) -> Heard
        requires empty { outs.old ≡ [] }
        ensures reply { DidHear result ≡ (drop_arrives self.old first last).reply }
        ensures after { self.new ≡ (drop_arrives self.old first last).after }
        ensures outs { outs.new ≡ outs_of (drop_arrives self.old first last) }
        ensures told { ToldBy result self.old self.new }
    {
        match self.kind {
            Kind::Stream => self.on_stale(),
            Kind::Message => self.drop_message(first, last, outs),
        }
    }

    // A message drop request at a socket of messages. One of no message that may come is stale.
    fn drop_message(&mut self, first: u32, last: u32, outs: &mut Outs) -> Heard
        requires empty { outs.old ≡ [] }
        ensures reply { DidHear result ≡ (drop_as self.old first last Message).reply }
        ensures after { self.new ≡ (drop_as self.old first last Message).after }
        ensures outs { outs.new ≡ outs_of (drop_as self.old first last Message) }
        ensures told { ToldBy result self.old self.new }
    {
        match self.receiving.on_drop(self.last, first, last) {
            Dropped::Stale => self.on_stale(),
            Dropped::Taken { gap } => {
                self.report_gap(gap, outs);
                self.on_control(Heard::Dropped)
            }
        }
    }

    // Reports the gap that a block or a drop request showed, if it showed one.
    fn report_gap(&self, gap: Option<(u64, u64)>, outs: &mut Outs)
        requires empty { outs.old ≡ [] }
        ensures outs { outs.new ≡ datagrams_of (emitted_by_gap self.now gap) }
        ensures within { length outs.new ≤ 1 }
    {
        if let Some(ends) = gap {
            let isn = self.receiving.isn();
            outs.emit_gap(self.peer.addr, self.stamp(), self.peer.id, isn, ends);
        }
    }

    // Emits a light ACK, if one is due.
    fn ack_lightly(&self, light: bool, outs: &mut Outs)
        requires room { length outs.old ≤ 1 }
        ensures { outs.new ≡ outs.old ++ datagrams_of (emitted_by_light self.now light) }
    {
        if light {
            self.emit_light_ack(outs);
        }
    }

    // Emits a light ACK. Few blocks ask for one, so the packet is built apart from their way.
    #[cold]
    #[inline(never)]
    fn emit_light_ack(&self, outs: &mut Outs)
        requires room { length outs.old ≤ 1 }
        ensures { outs.new ≡ outs.old ++ datagrams_of (emitted_by_light self.now true) }
    {
        let packet = Packet::Ack {
            number: 0,
            stamp: self.stamp(),
            dest: self.peer.id,
            body: self.receiving.light_ack(),
        };
        outs.emit(self.peer.addr, &packet);
    }

    // Counts what became of a block.
    fn count_placing(&mut self, placed: Placed) -> Heard
        ensures value { result ≡ heard_of placed }
        ensures after { self.new ≡ record self.old { counters = count_as self.old.counters placed } }
    {
        match placed {
            Placed::New => {
                self.counters.placed = risen(self.counters.placed);
                Heard::Placed
            }
            Placed::Double => {
                self.counters.double = risen(self.counters.double);
                Heard::Double
            }
            Placed::Below => {
                self.counters.below = risen(self.counters.below);
                Heard::Below
            }
            Placed::Above => {
                self.counters.above = risen(self.counters.above);
                Heard::Above
            }
        }
    }

    // An ACK. One of blocks that were never sent, or are no longer kept, is stale. Any other is
    // answered by an ACK2, unless it is light.
    fn on_ack(&mut self, number: u32, body: &AckBody, outs: &mut Outs) -> Heard
        requires connected { self.old.phase ≡ phase.Connected }
        requires empty { outs.old ≡ [] }
        ensures reply { DidHear result ≡ (ack_arrives C.ways self.old number body.now).reply }
        ensures after { self.new ≡ (ack_arrives C.ways self.old number body.now).after }
        ensures outs { outs.new ≡ outs_of (ack_arrives C.ways self.old number body.now) }
        ensures told { ToldBy result self.old self.new }
    {
        if !self.sending.on_ack(body, &mut self.rtt) {
            return self.on_stale();
        }
        self.confirm(number, body, outs);
        self.on_control(Heard::Ack)
    }

    // Emits the ACK2 of an ACK.
    #[tactic(auto, unfolding(udt_model::specs::Wire::spelling))]
    fn confirm(&self, number: u32, body: &AckBody, outs: &mut Outs)
        requires empty { outs.old ≡ [] }
        ensures { outs.new ≡ datagrams_of (emitted_by_ack2 self.now number body.now) }
    {
        match body {
            AckBody::Light { .. } => {}
            AckBody::Buffer { .. } | AckBody::Full { .. } => {
                let packet = Packet::Ack2 {
                    number,
                    stamp: self.stamp(),
                    dest: self.peer.id,
                };
                outs.emit(self.peer.addr, &packet);
            }
        }
    }

    // A NAK. One that names nothing in flight is stale.
    #[tactic(auto, unfolding(udt_model::specs::SendReports::after_nak))]
    fn on_nak(&mut self, ranges: NakRanges) -> Heard
        ensures reply { DidHear result ≡ (nak_arrives C.ways self.old ranges.entry).reply }
        ensures after { self.new ≡ (nak_arrives C.ways self.old ranges.entry).after }
        ensures outs { outs_of (nak_arrives C.ways self.old ranges.entry) ≡ [] }
        ensures told { ToldBy result self.old self.new }
    {
        if self.sending.on_nak(ranges, &self.rtt) {
            self.on_control(Heard::Nak)
        } else {
            self.on_stale()
        }
    }

    // An ACK2. One of no ACK that is remembered is stale.
    #[tactic(auto, unfolding(udt_model::specs::ReceiveReports::after_ack2))]
    fn on_ack2(&mut self, number: u32) -> Heard
        ensures reply { DidHear result ≡ (ack2_arrives self.old number).reply }
        ensures after { self.new ≡ (ack2_arrives self.old number).after }
        ensures outs { outs_of (ack2_arrives self.old number) ≡ [] }
        ensures told { ToldBy result self.old self.new }
    {
        if self.receiving.on_ack2(self.last, number, &mut self.rtt) {
            self.on_control(Heard::Ack2)
        } else {
            self.on_stale()
        }
    }

    // A control packet that was so heard.
    pub(super) fn on_control(&mut self, heard: Heard) -> Heard
        ensures reply { DidHear result ≡ (control_arrives self.old heard []).reply }
        ensures after { self.new ≡ (control_arrives self.old heard []).after }
    {
        self.counters.control = risen(self.counters.control);
        heard
    }

    // A packet of which the socket makes no use.
    pub(super) fn on_stale(&mut self) -> Heard
        ensures reply { DidHear result ≡ (stale_arrives self.old).reply }
        ensures after { self.new ≡ (stale_arrives self.old).after }
    {
        self.counters.stale = risen(self.counters.stale);
        Heard::Stale
    }
}
