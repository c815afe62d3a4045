// The events of a socket by which it comes by a connection, as entries of the turn's history.

use crate::boxed::{BoxedSocket, EventsSpent};
use std::marker::Model;
use udt_model::{Addr, Refusal, Shaken};
use udt_rate::Control;

impl<C: Control> BoxedSocket<C> {
    ghost use Rattle.std.specs.Prelude.{◌≡◌, ◌≢◌, ◌<◌, ◌≤◌, [], Err};
    ghost use Rattle.std.specs.Prelude.{IfOk, OnOk, OnErr};
    ghost use Rattle.udt_model.specs.Events.{Listen, Connect, Meet, Accept, Shake, Offer, Withdraw, PortDown, event};
    ghost use Rattle.udt_model.specs.Events.{DidListen, DidConnect, DidMeet, Accepted};
    ghost use Rattle.udt_model.specs.Events.{DidShake, DidOffer, DidWithdraw, DidPortDown};
    ghost use Rattle.udt_cell.specs.Entries.{entry, Follows, last_count};

    // A call of `listen`, where the socket may have a further event. Without memory it has none.
    #[tactic(auto, using(crate::proofs::ConnectLemmas::listen_quiet, crate::proofs::ConnectLemmas::listen_unspent))]
    pub(crate) fn listen(
        &mut self,
        now: u64,
        backlog: u32,
        secret: [u8; 16],
    ) -> Result<Result<(), Refusal>, EventsSpent>
        ensures ok { IfOk result (λ answer. answer ≢ Err Refusal.OutOfMemory → Follows C.ways
            (entry (event now (Listen backlog secret)) (DidListen answer) []) self.old self.new) }
        ensures reason { IfOk result (λ answer. answer ≢ Err Refusal.EventsSpent) }
        ensures memory { IfOk result (λ answer. answer ≡ Err Refusal.OutOfMemory → self.new ≡ self.old) }
        ensures few { OnOk result (self.old.count < last_count) }
        ensures spent { OnErr result (last_count ≤ self.old.count) }
        ensures err { OnErr result (self.new ≡ self.old) }
    {
        if self.is_spent() {
            return Err(EventsSpent);
        }
        Ok(self.socket.listen(now, backlog, secret))
    }

    // A call of `connect`, where the socket may have a further event.
    #[tactic(auto, using(crate::proofs::ConnectLemmas::connect_quiet, crate::proofs::ConnectLemmas::connect_unspent))]
    pub(crate) fn connect(&mut self, now: u64, to: Addr) -> Result<Result<(), Refusal>, EventsSpent>
        ensures ok { IfOk result (λ answer. Follows C.ways
            (entry (event now (Connect to)) (DidConnect answer) []) self.old self.new) }
        ensures reason { IfOk result (λ answer. answer ≢ Err Refusal.EventsSpent) }
        ensures spent { OnErr result (last_count ≤ self.old.count) }
        ensures err { OnErr result (self.new ≡ self.old) }
    {
        if self.is_spent() {
            return Err(EventsSpent);
        }
        Ok(self.socket.connect(now, to))
    }

    // A call of `meet`, where the socket may have a further event.
    #[tactic(auto, using(crate::proofs::ConnectLemmas::meet_quiet, crate::proofs::ConnectLemmas::meet_unspent))]
    pub(crate) fn meet(&mut self, now: u64, to: Addr) -> Result<Result<(), Refusal>, EventsSpent>
        ensures ok { IfOk result (λ answer. Follows C.ways
            (entry (event now (Meet to)) (DidMeet answer) []) self.old self.new) }
        ensures reason { IfOk result (λ answer. answer ≢ Err Refusal.EventsSpent) }
        ensures spent { OnErr result (last_count ≤ self.old.count) }
        ensures err { OnErr result (self.new ≡ self.old) }
    {
        if self.is_spent() {
            return Err(EventsSpent);
        }
        Ok(self.socket.meet(now, to))
    }

    // A call of `accept`, where the socket may have a further event.
    #[tactic(auto, using(crate::proofs::ConnectLemmas::accept_quiet, crate::proofs::ConnectLemmas::accept_unspent))]
    pub(crate) fn accept(&mut self, now: u64) -> Result<Result<u32, Refusal>, EventsSpent>
        ensures ok { IfOk result (λ answer. Follows C.ways
            (entry (event now Accept) (Accepted answer) []) self.old self.new) }
        ensures reason { IfOk result (λ answer. answer ≢ Err Refusal.EventsSpent) }
        ensures spent { OnErr result (last_count ≤ self.old.count) }
        ensures err { OnErr result (self.new ≡ self.old) }
    {
        if self.is_spent() {
            return Err(EventsSpent);
        }
        Ok(self.socket.accept(now))
    }

    // A call of `shake`, where the socket may have a further event.
    #[tactic(auto, using(crate::proofs::ConnectLemmas::shake_quiet))]
    pub(crate) fn shake(&mut self, now: u64) -> Result<Shaken, EventsSpent>
        ensures ok { IfOk result (λ answer. Follows C.ways
            (entry (event now Shake) (DidShake answer) []) self.old self.new) }
        ensures spent { OnErr result (last_count ≤ self.old.count) }
        ensures err { OnErr result (self.new ≡ self.old) }
    {
        if self.is_spent() {
            return Err(EventsSpent);
        }
        Ok(self.socket.shake(now))
    }

    // A call of `offer`, where the socket may have a further event.
    #[tactic(auto, using(crate::proofs::ConnectLemmas::offer_quiet))]
    pub(crate) fn offer(&mut self, now: u64, id: u32) -> Result<bool, EventsSpent>
        ensures ok { IfOk result (λ answer. Follows C.ways
            (entry (event now (Offer id)) (DidOffer answer) []) self.old self.new) }
        ensures spent { OnErr result (last_count ≤ self.old.count) }
        ensures err { OnErr result (self.new ≡ self.old) }
    {
        if self.is_spent() {
            return Err(EventsSpent);
        }
        Ok(self.socket.offer(now, id))
    }

    // A call of `withdraw`, where the socket may have a further event.
    #[tactic(auto, using(crate::proofs::ConnectLemmas::withdraw_quiet, crate::proofs::ConnectLemmas::withdraw_done))]
    pub(crate) fn withdraw(&mut self, now: u64) -> Result<(), EventsSpent>
        ensures ok { OnOk result (Follows C.ways (entry (event now Withdraw) DidWithdraw []) self.old self.new) }
        ensures spent { OnErr result (last_count ≤ self.old.count) }
        ensures err { OnErr result (self.new ≡ self.old) }
    {
        if self.is_spent() {
            return Err(EventsSpent);
        }
        self.socket.withdraw(now);
        Ok(())
    }

    // A call of `port_down`, where the socket may have a further event.
    #[tactic(auto, using(crate::proofs::ConnectLemmas::port_down_quiet, crate::proofs::ConnectLemmas::port_down_done))]
    pub(crate) fn port_down(&mut self, now: u64) -> Result<(), EventsSpent>
        ensures ok { OnOk result (Follows C.ways (entry (event now PortDown) DidPortDown []) self.old self.new) }
        ensures spent { OnErr result (last_count ≤ self.old.count) }
        ensures err { OnErr result (self.new ≡ self.old) }
    {
        if self.is_spent() {
            return Err(EventsSpent);
        }
        self.socket.port_down(now);
        Ok(())
    }
}
