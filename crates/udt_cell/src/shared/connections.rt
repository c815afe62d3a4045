// The events by which a socket comes by a connection.
ghost use Rattle.std.specs.Prelude.{◌≡◌, ◌≢◌, [], Some, Err};
ghost use Rattle.std.specs.Prelude.{IfOk, OnOk, OnErr};
ghost use Rattle.udt_model.specs.Events.{Listen, Connect, Meet, Accept, Shake, Offer, Withdraw, PortDown, event};
ghost use Rattle.udt_model.specs.Events.{DidListen, DidConnect, DidMeet, Accepted, DidShake, DidOffer, DidWithdraw, DidPortDown};
ghost use Rattle.udt_turn.specs.History.{value_of};
ghost use Rattle.udt_turn.specs.Words.{IsPassOf, IsHeld, KeepsNames, found_by, view_of};
ghost use Rattle.udt_cell.specs.Entries.{entry, Follows, tale_of_sockets};
ghost use Rattle.udt_cell.specs.Sharing.{AddsEvent, FindsSpent, FindsUnspent};

use super::leaving::{give_up, pass_by};
use crate::boxed::{BoxedSocket, EventEntry, EventsSpent};
use crate::shared::{SharedSocket, SocketPass};
use std::marker::Brand;
use std::sync::Wait;
use udt_model::{Addr, Refusal, Shaken};
use udt_rate::Control;
use udt_turn::{Held, Naming};

impl<C: Control> SharedSocket<C> {
    /// Has the socket listen, and keep at most so many connections until they are accepted: 1 to 1,024.
    /// The secret makes its cookies. Beside what the socket answers, EventsSpent comes where its count
    /// stands at 2^55 - 1. OutOfMemory changes nothing at all, and is no event.
    pub fn listen<R: Wait>(
        &self,
        rt: &R,
        pass: &mut SocketPass<C>,
        now: u64,
        backlog: u32,
        secret: [u8; 16],
    ) -> Result<(), Refusal>
        requires { IsPassOf self.now.turn pass.old }
        ensures own { IsPassOf self.now.turn pass.new }
        ensures names { KeepsNames (view_of pass.old) (view_of pass.new) }
        ensures event { result ≢ Err Refusal.EventsSpent → result ≢ Err Refusal.OutOfMemory
            → AddsEvent C.ways now (Listen backlog secret) (DidListen result) [] pass.old pass.new }
        ensures spent { result ≡ Err Refusal.EventsSpent → FindsSpent C.ways pass.old pass.new }
        ensures memory { result ≡ Err Refusal.OutOfMemory → FindsUnspent C.ways pass.old pass.new }
    {
        let mut held = self.turn.enter(rt, pass);
        match held.value().listen(now, backlog, secret) {
            Ok(Err(Refusal::OutOfMemory)) => {
                give_up(held);
                Err(Refusal::OutOfMemory)
            }
            Ok(answer) => {
                tell_listen::<C, Brand>(held, now, backlog, secret, &answer);
                answer
            }
            Err(EventsSpent) => {
                pass_by(held);
                Err(Refusal::EventsSpent)
            }
        }
    }

    /// Has the socket ask a listener at this address for a connection. Beside what the socket answers,
    /// EventsSpent comes where its count stands at 2^55 - 1.
    pub fn connect<R: Wait>(
        &self,
        rt: &R,
        pass: &mut SocketPass<C>,
        now: u64,
        to: Addr,
    ) -> Result<(), Refusal>
        requires { IsPassOf self.now.turn pass.old }
        ensures own { IsPassOf self.now.turn pass.new }
        ensures names { KeepsNames (view_of pass.old) (view_of pass.new) }
        ensures event { result ≢ Err Refusal.EventsSpent
            → AddsEvent C.ways now (Connect to) (DidConnect result) [] pass.old pass.new }
        ensures spent { result ≡ Err Refusal.EventsSpent → FindsSpent C.ways pass.old pass.new }
    {
        let mut held = self.turn.enter(rt, pass);
        match held.value().connect(now, to) {
            Ok(answer) => {
                tell_connect::<C, Brand>(held, now, to, &answer);
                answer
            }
            Err(EventsSpent) => {
                pass_by(held);
                Err(Refusal::EventsSpent)
            }
        }
    }

    /// Has the socket meet another one at this address. Beside what the socket answers, EventsSpent comes
    /// where its count stands at 2^55 - 1.
    pub fn meet<R: Wait>(
        &self,
        rt: &R,
        pass: &mut SocketPass<C>,
        now: u64,
        to: Addr,
    ) -> Result<(), Refusal>
        requires { IsPassOf self.now.turn pass.old }
        ensures own { IsPassOf self.now.turn pass.new }
        ensures names { KeepsNames (view_of pass.old) (view_of pass.new) }
        ensures event { result ≢ Err Refusal.EventsSpent
            → AddsEvent C.ways now (Meet to) (DidMeet result) [] pass.old pass.new }
        ensures spent { result ≡ Err Refusal.EventsSpent → FindsSpent C.ways pass.old pass.new }
    {
        let mut held = self.turn.enter(rt, pass);
        match held.value().meet(now, to) {
            Ok(answer) => {
                tell_meet::<C, Brand>(held, now, to, &answer);
                answer
            }
            Err(EventsSpent) => {
                pass_by(held);
                Err(Refusal::EventsSpent)
            }
        }
    }

    /// Gives the ID of the first connection that waits. Beside what the socket answers, EventsSpent comes
    /// where its count stands at 2^55 - 1.
    pub fn accept<R: Wait>(
        &self,
        rt: &R,
        pass: &mut SocketPass<C>,
        now: u64,
    ) -> Result<u32, Refusal>
        requires { IsPassOf self.now.turn pass.old }
        ensures own { IsPassOf self.now.turn pass.new }
        ensures names { KeepsNames (view_of pass.old) (view_of pass.new) }
        ensures event { result ≢ Err Refusal.EventsSpent
            → AddsEvent C.ways now Accept (Accepted result) [] pass.old pass.new }
        ensures spent { result ≡ Err Refusal.EventsSpent → FindsSpent C.ways pass.old pass.new }
    {
        let mut held = self.turn.enter(rt, pass);
        match held.value().accept(now) {
            Ok(answer) => {
                tell_accept::<C, Brand>(held, now, &answer);
                answer
            }
            Err(EventsSpent) => {
                pass_by(held);
                Err(Refusal::EventsSpent)
            }
        }
    }

    /// What became of the connection that was asked for.
    pub fn shake<R: Wait>(
        &self,
        rt: &R,
        pass: &mut SocketPass<C>,
        now: u64,
    ) -> Result<Shaken, EventsSpent>
        requires { IsPassOf self.now.turn pass.old }
        ensures own { IsPassOf self.now.turn pass.new }
        ensures names { KeepsNames (view_of pass.old) (view_of pass.new) }
        ensures event { IfOk result
            (λ answer. AddsEvent C.ways now Shake (DidShake answer) [] pass.old pass.new) }
        ensures spent { OnErr result (FindsSpent C.ways pass.old pass.new) }
    {
        let mut held = self.turn.enter(rt, pass);
        match held.value().shake(now) {
            Ok(answer) => {
                tell_shake::<C, Brand>(held, now, answer);
                Ok(answer)
            }
            Err(EventsSpent) => {
                pass_by(held);
                Err(EventsSpent)
            }
        }
    }

    /// Gives a promised place to the socket with this ID. False where none is promised.
    pub fn offer<R: Wait>(
        &self,
        rt: &R,
        pass: &mut SocketPass<C>,
        now: u64,
        id: u32,
    ) -> Result<bool, EventsSpent>
        requires { IsPassOf self.now.turn pass.old }
        ensures own { IsPassOf self.now.turn pass.new }
        ensures names { KeepsNames (view_of pass.old) (view_of pass.new) }
        ensures event { IfOk result
            (λ answer. AddsEvent C.ways now (Offer id) (DidOffer answer) [] pass.old pass.new) }
        ensures spent { OnErr result (FindsSpent C.ways pass.old pass.new) }
    {
        let mut held = self.turn.enter(rt, pass);
        match held.value().offer(now, id) {
            Ok(answer) => {
                tell_offer::<C, Brand>(held, now, id, answer);
                Ok(answer)
            }
            Err(EventsSpent) => {
                pass_by(held);
                Err(EventsSpent)
            }
        }
    }

    /// Takes the promise of a place back.
    pub fn withdraw<R: Wait>(
        &self,
        rt: &R,
        pass: &mut SocketPass<C>,
        now: u64,
    ) -> Result<(), EventsSpent>
        requires { IsPassOf self.now.turn pass.old }
        ensures own { IsPassOf self.now.turn pass.new }
        ensures names { KeepsNames (view_of pass.old) (view_of pass.new) }
        ensures event { OnOk result (AddsEvent C.ways now Withdraw DidWithdraw [] pass.old pass.new) }
        ensures spent { OnErr result (FindsSpent C.ways pass.old pass.new) }
    {
        let mut held = self.turn.enter(rt, pass);
        match held.value().withdraw(now) {
            Ok(()) => {
                tell_withdraw::<C, Brand>(held, now);
                Ok(())
            }
            Err(EventsSpent) => {
                pass_by(held);
                Err(EventsSpent)
            }
        }
    }

    /// The socket's port can't be used any more.
    pub fn port_down<R: Wait>(
        &self,
        rt: &R,
        pass: &mut SocketPass<C>,
        now: u64,
    ) -> Result<(), EventsSpent>
        requires { IsPassOf self.now.turn pass.old }
        ensures own { IsPassOf self.now.turn pass.new }
        ensures names { KeepsNames (view_of pass.old) (view_of pass.new) }
        ensures event { OnOk result (AddsEvent C.ways now PortDown DidPortDown [] pass.old pass.new) }
        ensures spent { OnErr result (FindsSpent C.ways pass.old pass.new) }
    {
        let mut held = self.turn.enter(rt, pass);
        match held.value().port_down(now) {
            Ok(()) => {
                tell_port_down::<C, Brand>(held, now);
                Ok(())
            }
            Err(EventsSpent) => {
                pass_by(held);
                Err(EventsSpent)
            }
        }
    }
}

// Publishes a call of `listen`.
#[tactic(auto, using(crate::proofs::ItemLemmas::follows_goes))]
fn tell_listen<C: Control, N: Naming<EventEntry>>(
    held: Held<'_, BoxedSocket<C>>,
    now: u64,
    backlog: u32,
    secret: [u8; 16],
    answer: &Result<(), Refusal>,
)
    requires held { IsHeld (tale_of_sockets C.ways) held }
    requires item { N.item ≡ Some (entry (event now (Listen backlog secret)) (DidListen answer.now) []) }
    requires follows { Follows C.ways (entry (event now (Listen backlog secret)) (DidListen answer.now) [])
        (value_of (tale_of_sockets C.ways) (found_by held)) held.value }
    ensures own { IsPassOf held.entry.turn.now held.exit.1.0.now }
    ensures names { KeepsNames (view_of held.entry.pass.now) (view_of held.exit.1.0.now) }
    ensures adds { AddsEvent C.ways now (Listen backlog secret) (DidListen answer.now) []
        held.entry.pass.now held.exit.1.0.now }
{
    held.publish::<N>();
}

// Publishes a call of `connect`.
#[tactic(auto, using(crate::proofs::ItemLemmas::follows_goes))]
fn tell_connect<C: Control, N: Naming<EventEntry>>(
    held: Held<'_, BoxedSocket<C>>,
    now: u64,
    to: Addr,
    answer: &Result<(), Refusal>,
)
    requires held { IsHeld (tale_of_sockets C.ways) held }
    requires item { N.item ≡ Some (entry (event now (Connect to)) (DidConnect answer.now) []) }
    requires follows { Follows C.ways (entry (event now (Connect to)) (DidConnect answer.now) [])
        (value_of (tale_of_sockets C.ways) (found_by held)) held.value }
    ensures own { IsPassOf held.entry.turn.now held.exit.1.0.now }
    ensures names { KeepsNames (view_of held.entry.pass.now) (view_of held.exit.1.0.now) }
    ensures adds { AddsEvent C.ways now (Connect to) (DidConnect answer.now) [] held.entry.pass.now held.exit.1.0.now }
{
    held.publish::<N>();
}

// Publishes a call of `meet`.
#[tactic(auto, using(crate::proofs::ItemLemmas::follows_goes))]
fn tell_meet<C: Control, N: Naming<EventEntry>>(
    held: Held<'_, BoxedSocket<C>>,
    now: u64,
    to: Addr,
    answer: &Result<(), Refusal>,
)
    requires held { IsHeld (tale_of_sockets C.ways) held }
    requires item { N.item ≡ Some (entry (event now (Meet to)) (DidMeet answer.now) []) }
    requires follows { Follows C.ways (entry (event now (Meet to)) (DidMeet answer.now) [])
        (value_of (tale_of_sockets C.ways) (found_by held)) held.value }
    ensures own { IsPassOf held.entry.turn.now held.exit.1.0.now }
    ensures names { KeepsNames (view_of held.entry.pass.now) (view_of held.exit.1.0.now) }
    ensures adds { AddsEvent C.ways now (Meet to) (DidMeet answer.now) [] held.entry.pass.now held.exit.1.0.now }
{
    held.publish::<N>();
}

// Publishes a call of `accept`.
#[tactic(auto, using(crate::proofs::ItemLemmas::follows_goes))]
fn tell_accept<C: Control, N: Naming<EventEntry>>(
    held: Held<'_, BoxedSocket<C>>,
    now: u64,
    answer: &Result<u32, Refusal>,
)
    requires held { IsHeld (tale_of_sockets C.ways) held }
    requires item { N.item ≡ Some (entry (event now Accept) (Accepted answer.now) []) }
    requires follows { Follows C.ways (entry (event now Accept) (Accepted answer.now) [])
        (value_of (tale_of_sockets C.ways) (found_by held)) held.value }
    ensures own { IsPassOf held.entry.turn.now held.exit.1.0.now }
    ensures names { KeepsNames (view_of held.entry.pass.now) (view_of held.exit.1.0.now) }
    ensures adds { AddsEvent C.ways now Accept (Accepted answer.now) [] held.entry.pass.now held.exit.1.0.now }
{
    held.publish::<N>();
}

// Publishes a call of `shake`.
#[tactic(auto, using(crate::proofs::ItemLemmas::follows_goes))]
fn tell_shake<C: Control, N: Naming<EventEntry>>(
    held: Held<'_, BoxedSocket<C>>,
    now: u64,
    answer: Shaken,
)
    requires held { IsHeld (tale_of_sockets C.ways) held }
    requires item { N.item ≡ Some (entry (event now Shake) (DidShake answer) []) }
    requires follows { Follows C.ways (entry (event now Shake) (DidShake answer) [])
        (value_of (tale_of_sockets C.ways) (found_by held)) held.value }
    ensures own { IsPassOf held.entry.turn.now held.exit.1.0.now }
    ensures names { KeepsNames (view_of held.entry.pass.now) (view_of held.exit.1.0.now) }
    ensures adds { AddsEvent C.ways now Shake (DidShake answer) [] held.entry.pass.now held.exit.1.0.now }
{
    held.publish::<N>();
}

// Publishes a call of `offer`.
#[tactic(auto, using(crate::proofs::ItemLemmas::follows_goes))]
fn tell_offer<C: Control, N: Naming<EventEntry>>(
    held: Held<'_, BoxedSocket<C>>,
    now: u64,
    id: u32,
    answer: bool,
)
    requires held { IsHeld (tale_of_sockets C.ways) held }
    requires item { N.item ≡ Some (entry (event now (Offer id)) (DidOffer answer) []) }
    requires follows { Follows C.ways (entry (event now (Offer id)) (DidOffer answer) [])
        (value_of (tale_of_sockets C.ways) (found_by held)) held.value }
    ensures own { IsPassOf held.entry.turn.now held.exit.1.0.now }
    ensures names { KeepsNames (view_of held.entry.pass.now) (view_of held.exit.1.0.now) }
    ensures adds { AddsEvent C.ways now (Offer id) (DidOffer answer) [] held.entry.pass.now held.exit.1.0.now }
{
    held.publish::<N>();
}

// Publishes a call of `withdraw`.
#[tactic(auto, using(crate::proofs::ItemLemmas::follows_goes))]
fn tell_withdraw<C: Control, N: Naming<EventEntry>>(held: Held<'_, BoxedSocket<C>>, now: u64)
    requires held { IsHeld (tale_of_sockets C.ways) held }
    requires item { N.item ≡ Some (entry (event now Withdraw) DidWithdraw []) }
    requires follows { Follows C.ways (entry (event now Withdraw) DidWithdraw [])
        (value_of (tale_of_sockets C.ways) (found_by held)) held.value }
    ensures own { IsPassOf held.entry.turn.now held.exit.1.0.now }
    ensures names { KeepsNames (view_of held.entry.pass.now) (view_of held.exit.1.0.now) }
    ensures adds { AddsEvent C.ways now Withdraw DidWithdraw [] held.entry.pass.now held.exit.1.0.now }
{
    held.publish::<N>();
}

// Publishes a call of `port_down`.
#[tactic(auto, using(crate::proofs::ItemLemmas::follows_goes))]
fn tell_port_down<C: Control, N: Naming<EventEntry>>(held: Held<'_, BoxedSocket<C>>, now: u64)
    requires held { IsHeld (tale_of_sockets C.ways) held }
    requires item { N.item ≡ Some (entry (event now PortDown) DidPortDown []) }
    requires follows { Follows C.ways (entry (event now PortDown) DidPortDown [])
        (value_of (tale_of_sockets C.ways) (found_by held)) held.value }
    ensures own { IsPassOf held.entry.turn.now held.exit.1.0.now }
    ensures names { KeepsNames (view_of held.entry.pass.now) (view_of held.exit.1.0.now) }
    ensures adds { AddsEvent C.ways now PortDown DidPortDown [] held.entry.pass.now held.exit.1.0.now }
{
    held.publish::<N>();
}
