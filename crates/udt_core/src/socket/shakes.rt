// What handshakes do, as they arrive and as time passes.

ghost use Rattle.std.specs.Prelude.{◌≡◌, ◌+◌, ◌<◌, ◌≤◌, ◌^◌, [], ◌++◌, ◌∷◌, length, nat_le};
ghost use Rattle.udt_model.specs.declared.limits.TheConstants.{SHAKE_LIMIT};
ghost use Rattle.udt_model.specs.Arrivals.{packet_in};
ghost use Rattle.udt_model.specs.Connections.{shake_emission};
ghost use Rattle.udt_model.specs.Counted.{count_control};
ghost use Rattle.udt_model.specs.Events.{DidHear, outs_of};
ghost use Rattle.udt_model.specs.Shaking as model;
ghost use Rattle.udt_model.specs.Ticks.{tick_in};
ghost use Rattle.udt_model.specs.Wire.{Handshake};
ghost use Rattle.udt_core.specs.Changes.{ToldBy};
ghost use Rattle.udt_core.specs.Emitted.{datagrams_of};
ghost use Rattle.udt_core.specs.Waiting.{Listens, Asks, Meets, HasNumber, heard_as, emitted_by_verdict};

use super::Socket;
use crate::outs::Outs;
use crate::phase::Phase;
use std::marker::Model;
use udt_handshake::{asked, says};
use udt_model::{
    Addr, Asked, Caller, ClientSaw, Failure, Heard, MeetSaw, Origin, SHAKE_INTERVAL, SHAKE_LIMIT,
    Shake, Verdict,
};
use udt_packet::Packet;
use udt_rate::Control;

impl<C: Control> Socket<C> {
    // Emits a handshake to an address, for the socket with this ID there.
    #[tactic(auto, unfolding(udt_model::specs::Wire::spelling))]
    fn emit_shake(&self, to: Addr, dest: u32, shake: Shake, outs: &mut Outs)
        requires room { length outs.old ≤ 2 }
        requires number { shake.isn < 2 ^ 31 }
        ensures { outs.new ≡ outs.old ++ datagrams_of (shake_emission self.now to dest shake ∷ []) }
    {
        let packet = Packet::Handshake {
            stamp: self.stamp(),
            dest,
            shake,
        };
        outs.emit(to, &packet);
    }

    // ---- a listener

    // A handshake at a listener, which takes requests without a destination, from a socket with an ID.
    pub(super) fn on_request(
        &mut self,
        from: Addr,
        _stamp: u32,
        dest: u32,
        shake: &Shake,
        outs: &mut Outs,
    ) -> Heard
        requires listens { Listens self.old.phase }
        requires empty { outs.old ≡ [] }
        requires number { shake.now.isn < 2 ^ 31 }
        ensures reply { DidHear result
            ≡ (packet_in C.ways self.old from (Handshake _stamp dest shake.now) self.old.phase).reply }
        ensures after { self.new
            ≡ (packet_in C.ways self.old from (Handshake _stamp dest shake.now) self.old.phase).after }
        ensures outs { outs.new
            ≡ outs_of (packet_in C.ways self.old from (Handshake _stamp dest shake.now) self.old.phase) }
        ensures told { ToldBy result self.old self.new }
    {
        let Phase::Listening(backlog) = &mut self.phase else {
            return self.on_stale();
        };
        match asked(shake.ask) {
            Asked::Requests if dest == 0 && shake.id != 0 => {
                let verdict = backlog.judge(shake, from, self.last);
                self.on_verdict(from, shake.id, verdict, outs)
            }
            _ => self.on_stale(),
        }
    }

    // What a listener made of a request.
    fn on_verdict(&mut self, from: Addr, id: u32, verdict: Verdict, outs: &mut Outs) -> Heard
        requires empty { outs.old ≡ [] }
        requires number { HasNumber verdict }
        ensures reply { result ≡ heard_as verdict }
        ensures after { self.new ≡ record self.old { counters = count_control self.old.counters } }
        ensures outs { outs.new ≡ datagrams_of (emitted_by_verdict self.old from id verdict) }
    {
        match verdict {
            Verdict::Cookie(answer) => {
                self.emit_shake(from, id, answer, outs);
                self.on_control(Heard::Cookie)
            }
            Verdict::Request => self.on_control(Heard::Request),
            Verdict::Reject(answer) => {
                self.emit_shake(from, id, answer, outs);
                self.on_control(Heard::Reject)
            }
        }
    }

    // ---- a client

    // A handshake at a client.
    pub(super) fn on_answer(
        &mut self,
        from: Addr,
        _stamp: u32,
        dest: u32,
        shake: &Shake,
        outs: &mut Outs,
    ) -> Heard
        requires asks { Asks self.old.phase }
        requires empty { outs.old ≡ [] }
        ensures reply { DidHear result
            ≡ (packet_in C.ways self.old from (Handshake _stamp dest shake.now) self.old.phase).reply }
        ensures after { self.new
            ≡ (packet_in C.ways self.old from (Handshake _stamp dest shake.now) self.old.phase).after }
        ensures outs { outs.new
            ≡ outs_of (packet_in C.ways self.old from (Handshake _stamp dest shake.now) self.old.phase) }
        ensures told { ToldBy result self.old self.new }
    {
        let Phase::Connecting { client, again } = &mut self.phase else {
            return self.on_stale();
        };
        match client.on_shake(dest, shake, from) {
            ClientSaw::Cookie => {
                *again = self.last + SHAKE_INTERVAL;
                let to = client.caller().to;
                let request = client.request();
                self.emit_shake(to, 0, request, outs);
                self.on_control(Heard::Cookie)
            }
            ClientSaw::Connected(peer) => {
                self.connect_with(peer, Origin::Listener);
                self.on_control(Heard::Connected)
            }
            ClientSaw::Rejected => {
                self.phase = Phase::Failed(Failure::Rejected);
                self.on_control(Heard::Rejected)
            }
            ClientSaw::Stale => self.on_stale(),
        }
    }

    // ---- a rendezvous

    // A handshake at a meeting socket.
    pub(super) fn on_meeting(
        &mut self,
        from: Addr,
        _stamp: u32,
        dest: u32,
        shake: &Shake,
        outs: &mut Outs,
    ) -> Heard
        requires meets { Meets self.old.phase }
        requires empty { outs.old ≡ [] }
        ensures reply { DidHear result
            ≡ (packet_in C.ways self.old from (Handshake _stamp dest shake.now) self.old.phase).reply }
        ensures after { self.new
            ≡ (packet_in C.ways self.old from (Handshake _stamp dest shake.now) self.old.phase).after }
        ensures outs { outs.new
            ≡ outs_of (packet_in C.ways self.old from (Handshake _stamp dest shake.now) self.old.phase) }
        ensures told { ToldBy result self.old self.new }
    {
        let Phase::Meeting { meeting, .. } = &mut self.phase else {
            return self.on_stale();
        };
        match meeting.on_shake(dest, shake, from) {
            MeetSaw::Adopted(peer) => {
                let answer = meeting.request();
                self.peer = peer;
                self.origin = Origin::Rendezvous;
                self.emit_shake(peer.addr, peer.id, answer, outs);
                self.on_control(Heard::Adopted)
            }
            MeetSaw::Answered => {
                let answer = meeting.request();
                if let Some(peer) = meeting.adopted() {
                    self.emit_shake(peer.addr, peer.id, answer, outs);
                }
                self.on_control(Heard::Answered)
            }
            MeetSaw::Connected(peer) => {
                self.connect_with(peer, Origin::Rendezvous);
                if let Asked::Answers = asked(shake.ask) {
                    self.answer(Asked::Agrees, outs);
                }
                self.on_control(Heard::Connected)
            }
            MeetSaw::Stale => self.on_stale(),
        }
    }

    // ---- a connected socket

    // Emits an answer to the peer.
    fn answer(&self, asks: Asked, outs: &mut Outs)
        requires room { length outs.old ≤ 2 }
        ensures { outs.new ≡ outs.old ++ datagrams_of (model.answer_to self.now asks ∷ []) }
    {
        let caller = Caller {
            config: self.config(),
            own: self.own,
            isn: self.isn,
            to: self.peer.addr,
            began: self.last,
        };
        let shake = says(&caller, self.receiving.payload(), asks, 0);
        self.emit_shake(self.peer.addr, self.peer.id, shake, outs);
    }

    // A handshake from the peer's address once there is a connection.
    pub(super) fn on_shake_again(&mut self, shake: &Shake, outs: &mut Outs) -> Heard
        requires empty { outs.old ≡ [] }
        ensures reply { DidHear result ≡ (model.on_shake_again self.old shake.now).reply }
        ensures after { self.new ≡ (model.on_shake_again self.old shake.now).after }
        ensures outs { outs.new ≡ outs_of (model.on_shake_again self.old shake.now) }
        ensures told { ToldBy result self.old self.new }
    {
        if shake.id != self.peer.id {
            return self.on_stale();
        }
        match answer_again(self.origin, asked(shake.ask)) {
            None => self.on_stale(),
            Some(asks) => {
                self.answer(asks, outs);
                self.on_control(Heard::Answered)
            }
        }
    }

    // ---- time

    // Emits the request of a client again, where its moment has come, or gives up.
    pub(super) fn tick_client(&mut self, outs: &mut Outs)
        requires asks { Asks self.old.phase }
        requires empty { outs.old ≡ [] }
        ensures after { self.new ≡ (tick_in C.ways self.old self.old.phase).after }
        ensures outs { outs.new ≡ outs_of (tick_in C.ways self.old self.old.phase) }
    {
        let Phase::Connecting { client, again } = &mut self.phase else {
            return;
        };
        let caller = client.caller();
        if has_waited(caller.began, self.last) {
            self.phase = Phase::Failed(Failure::TimedOut);
        } else if self.last >= *again {
            *again = self.last + SHAKE_INTERVAL;
            let request = client.request();
            self.emit_shake(caller.to, 0, request, outs);
        }
    }

    // The same of a meeting socket.
    pub(super) fn tick_meeting(&mut self, outs: &mut Outs)
        requires meets { Meets self.old.phase }
        requires empty { outs.old ≡ [] }
        ensures after { self.new ≡ (tick_in C.ways self.old self.old.phase).after }
        ensures outs { outs.new ≡ outs_of (tick_in C.ways self.old self.old.phase) }
    {
        let Phase::Meeting { meeting, again } = &mut self.phase else {
            return;
        };
        let caller = meeting.caller();
        if has_waited(caller.began, self.last) {
            self.phase = Phase::Failed(Failure::TimedOut);
        } else if self.last >= *again {
            *again = self.last + SHAKE_INTERVAL;
            let shake = meeting.request();
            let dest = match meeting.adopted() {
                Some(peer) => peer.id,
                None => 0,
            };
            self.emit_shake(caller.to, dest, shake, outs);
        }
    }
}

// What is answered to a handshake that comes again once there is a connection.
fn answer_again(origin: Origin, asked: Asked) -> Option<Asked>
    ensures { result ≡ model.answer_again origin asked }
{
    match (origin, asked) {
        (Origin::Opening, Asked::Requests) | (Origin::Rendezvous, Asked::Meets) => {
            Some(Asked::Answers)
        }
        (Origin::Rendezvous, Asked::Answers) => Some(Asked::Agrees),
        _ => None,
    }
}

// A socket that waits since a moment has waited for as long as it may.
fn has_waited(since: u64, now: u64) -> bool
    ensures { result ≡ nat_le (since + SHAKE_LIMIT) now }
{
    now.saturating_sub(since) >= SHAKE_LIMIT
}
