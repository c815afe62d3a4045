// A client's part in handshakes.

ghost use Rattle.std.specs.Prelude.{◌≡◌, ◌^◌, ◌<◌, ◌≤◌};
ghost use Rattle.udt_model.specs.declared.limits.TheConstants.{MOST_PAYLOAD};
ghost use Rattle.udt_model.specs.Handshakes.{client_saw, takes_cookie, client_keeps, client_request};

use crate::fields::{asked, peer_in, says, suits};
use std::marker::Model;
use udt_model::{Addr, Asked, Caller, ClientSaw, Config, Peer, Shake};

/// A client that waits for an answer: who asks, and the cookie that it was given.
#[derive(Debug, Drop)]
pub struct ClientShake {
    caller: Caller,
    cookie: u32,
}

impl Model for ClientShake {
    ghost use Rattle.udt_model.specs.Handshakes.{Connecting};

    ghost Value = { Connecting };

    ghost view = { λ c. record { caller = c.caller; cookie = c.cookie } };

    ghost use Rattle.udt_handshake.specs.Callers.{IsCaller};

    ghost invariant = { λ c. IsCaller c.caller };
}

impl ClientShake {
    /// A client that asks this address, from this moment on in microseconds.
    pub fn new(config: Config, own: u32, isn: u32, to: Addr, now: u64) -> ClientShake
        requires some { 0 < config.payload }
        requires payload { config.payload ≤ MOST_PAYLOAD }
        requires isn { isn < 2 ^ 31 }
        ensures { result ≡ record {
          caller = record { config = config; own = own; isn = isn; to = to; began = now };
          cookie = 0;
        } }
    {
        let caller = Caller {
            config,
            own,
            isn,
            to,
            began: now,
        };
        ClientShake { caller, cookie: 0 }
    }

    /// Takes in a handshake for this socket ID. Anything but a cookie, an answer or a refusal from the
    /// address that was asked, to the client's own ID, is stale.
    #[tactic(auto, unfolding(udt_model::specs::Handshakes::client_saw))]
    pub fn on_shake(&mut self, dest: u32, shake: &Shake, from: Addr) -> ClientSaw
        ensures value { result ≡ client_saw self.old dest shake.now from }
        ensures next { self.new ≡ client_keeps self.old shake.now result }
        ensures some { (peer : Peer) → result ≡ ClientSaw.Connected peer → 0 < peer.payload }
    {
        if !(from.is_same(self.caller.to) && dest == self.caller.own) {
            return ClientSaw::Stale;
        }
        match asked(shake.ask) {
            Asked::Requests => self.on_cookie(shake),
            Asked::Answers if suits(&self.caller.config, shake) => {
                ClientSaw::Connected(peer_in(&self.caller.config, from, shake))
            }
            Asked::Refuses => ClientSaw::Rejected,
            Asked::Answers | Asked::Meets | Asked::Agrees | Asked::Other => ClientSaw::Stale,
        }
    }

    // A cookie is kept, and 0 is none.
    fn on_cookie(&mut self, shake: &Shake) -> ClientSaw
        ensures value { result ≡ takes_cookie shake.now }
        ensures next { self.new ≡ client_keeps self.old shake.now result }
    {
        if shake.cookie == 0 {
            return ClientSaw::Stale;
        }
        self.cookie = shake.cookie;
        ClientSaw::Cookie
    }

    /// Who asks.
    pub fn caller(&self) -> Caller
        ensures { result ≡ self.now.caller }
    {
        self.caller
    }

    /// The request to send, with the cookie that was given, or 0.
    pub fn request(&self) -> Shake
        ensures value { result ≡ client_request self.now }
        ensures number { result.isn < 2 ^ 31 }
    {
        says(
            &self.caller,
            self.caller.config.payload,
            Asked::Requests,
            self.cookie,
        )
    }
}
