// A meeting socket's part in handshakes.

ghost use Rattle.std.specs.Prelude.{◌≡◌, ◌^◌, ◌<◌, ◌≤◌, ◌==◌, Option, Some, None, if◌then◌else◌};
ghost use Rattle.udt_model.specs.declared.handshakes.TheConstants.{SIZE_OVER_PAYLOAD};
ghost use Rattle.udt_model.specs.declared.limits.TheConstants.{MOST_PAYLOAD};
ghost use Rattle.udt_model.specs.declared.handshakes.MeetSaw.TheVariants as meet;
ghost use Rattle.udt_model.specs.Handshakes.{meet_saw, meet_keeps, meet_request, meets_first, meets_answer, meets_agreement};

use crate::fields::{asked, peer_in, says, suits};
use std::marker::Model;
use udt_model::{Addr, Asked, Caller, Config, MeetSaw, Peer, Shake};

/// A socket that meets another: who it is, and the peer that it has adopted.
#[derive(Debug, Drop)]
pub struct MeetShake {
    caller: Caller,
    adopted: Option<Peer>,
}

impl Model for MeetShake {
    ghost use Rattle.udt_model.specs.Handshakes.{Meeting};

    ghost Value = { Meeting };

    ghost view = { λ m. record { caller = m.caller; adopted = m.adopted } };

    ghost use Rattle.udt_handshake.specs.Meetings.{IsMeeting};

    ghost invariant = { λ m. IsMeeting m.caller m.adopted };
}

impl MeetShake {
    /// A socket that meets this address, from this moment on in microseconds.
    pub fn new(config: Config, own: u32, isn: u32, to: Addr, now: u64) -> MeetShake
        requires some { 0 < config.payload }
        requires payload { config.payload ≤ MOST_PAYLOAD }
        requires isn { isn < 2 ^ 31 }
        ensures { result ≡ record {
          caller = record { config = config; own = own; isn = isn; to = to; began = now };
          adopted = None;
        } }
    {
        let caller = Caller {
            config,
            own,
            isn,
            to,
            began: now,
        };
        MeetShake {
            caller,
            adopted: None,
        }
    }

    /// Takes in a handshake for this socket ID. The first peer that it adopts stays the only one, and
    /// stays as its first handshake said.
    #[tactic(auto, unfolding(udt_model::specs::Handshakes::meet_saw))]
    pub fn on_shake(&mut self, dest: u32, shake: &Shake, from: Addr) -> MeetSaw
        ensures value { result ≡ meet_saw self.old dest shake.now from }
        ensures next { self.new ≡ meet_keeps self.old result }
        ensures some { (peer : Peer) → result ≡ MeetSaw.Connected peer → 0 < peer.payload }
    {
        if !(from.is_same(self.caller.to) && suits(&self.caller.config, shake)) {
            return MeetSaw::Stale;
        }
        match asked(shake.ask) {
            Asked::Meets => self.on_first(from, shake),
            Asked::Answers if dest == self.caller.own => self.on_answer(from, shake),
            Asked::Agrees if dest == self.caller.own => self.on_agreement(shake),
            Asked::Answers | Asked::Agrees | Asked::Requests | Asked::Refuses | Asked::Other => {
                MeetSaw::Stale
            }
        }
    }

    // A first handshake.
    fn on_first(&mut self, from: Addr, shake: &Shake) -> MeetSaw
        requires size { SIZE_OVER_PAYLOAD < shake.now.packet }
        ensures value { result ≡ meets_first self.old from shake.now self.old.adopted }
        ensures next { self.new ≡ meet_keeps self.old result }
    {
        match self.adopted {
            None => {
                let peer = peer_in(&self.caller.config, from, shake);
                self.adopted = Some(peer);
                MeetSaw::Adopted(peer)
            }
            Some(peer) if peer.id == shake.id => MeetSaw::Answered,
            Some(_) => MeetSaw::Stale,
        }
    }

    // An answer.
    fn on_answer(&mut self, from: Addr, shake: &Shake) -> MeetSaw
        requires size { SIZE_OVER_PAYLOAD < shake.now.packet }
        ensures value { result ≡ meets_answer self.old from shake.now self.old.adopted }
        ensures next { self.new ≡ meet_keeps self.old result }
    {
        match self.adopted {
            None => {
                let peer = peer_in(&self.caller.config, from, shake);
                self.adopted = Some(peer);
                MeetSaw::Connected(peer)
            }
            Some(peer) if peer.id == shake.id => MeetSaw::Connected(peer),
            Some(_) => MeetSaw::Stale,
        }
    }

    // An answer to an answer.
    fn on_agreement(&mut self, shake: &Shake) -> MeetSaw
        ensures value { result ≡ meets_agreement shake.now self.old.adopted }
        ensures next { self.new ≡ meet_keeps self.old result }
        ensures kept { self.new ≡ self.old }
    {
        match self.adopted {
            Some(peer) if peer.id == shake.id => MeetSaw::Connected(peer),
            _ => MeetSaw::Stale,
        }
    }

    /// Who meets.
    pub fn caller(&self) -> Caller
        ensures { result ≡ self.now.caller }
    {
        self.caller
    }

    /// The peer that was adopted.
    pub fn adopted(&self) -> Option<Peer>
        ensures { result ≡ self.now.adopted }
    {
        self.adopted
    }

    /// The handshake to send: a first one while nobody was adopted, and an answer afterwards.
    pub fn request(&self) -> Shake
        ensures value { result ≡ meet_request self.now }
        ensures number { result.isn < 2 ^ 31 }
    {
        match self.adopted {
            None => says(&self.caller, self.caller.config.payload, Asked::Meets, 0),
            Some(peer) => says(&self.caller, peer.payload, Asked::Answers, 0),
        }
    }
}
