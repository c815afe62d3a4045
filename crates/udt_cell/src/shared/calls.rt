// The events that a caller makes.
ghost use Rattle.std.specs.Prelude.{◌≡◌, ◌≢◌, ◌≤◌, [], length, drop, Some, Err};
ghost use Rattle.std.specs.Prelude.{IfOk, OnOk, OnErr};
ghost use Rattle.udt_core.specs.Received.{received_in};
ghost use Rattle.udt_model.specs.Events.{Send, Recv, SendMessage, RecvMessage, Close, Measure, event};
ghost use Rattle.udt_model.specs.Events.{Sent, Received, SentMessage, ReceivedMessage, DidClose, DidMeasure};
ghost use Rattle.udt_turn.specs.History.{value_of};
ghost use Rattle.udt_turn.specs.Words.{IsPassOf, IsHeld, KeepsNames, found_by, view_of};
ghost use Rattle.udt_cell.specs.Entries.{entry, Follows, tale_of_sockets};
ghost use Rattle.udt_cell.specs.Sharing.{AddsEvent, FindsSpent};

use super::leaving::pass_by;
use crate::boxed::{BoxedSocket, EventEntry, EventsSpent};
use crate::shared::{SharedSocket, SocketPass};
use std::marker::Brand;
use std::sync::Wait;
use udt_model::{Perf, Refusal};
use udt_rate::Control;
use udt_turn::{Held, Naming};

impl<C: Control> SharedSocket<C> {
    /// Takes as many of the bytes as fit into the free blocks. Beside what the socket answers,
    /// EventsSpent comes where its count stands at 2^55 - 1.
    pub fn send<R: Wait>(
        &self,
        rt: &R,
        pass: &mut SocketPass<C>,
        now: u64,
        bytes: &[u8],
    ) -> Result<usize, Refusal>
        requires { IsPassOf self.now.turn pass.old }
        ensures own { IsPassOf self.now.turn pass.new }
        ensures names { KeepsNames (view_of pass.old) (view_of pass.new) }
        ensures event { result ≢ Err Refusal.EventsSpent
            → AddsEvent C.ways now (Send bytes.now) (Sent result) [] pass.old pass.new }
        ensures spent { result ≡ Err Refusal.EventsSpent → FindsSpent C.ways pass.old pass.new }
    {
        let mut held = self.turn.enter(rt, pass);
        match held.value().send(now, bytes) {
            Ok(answer) => {
                tell_sent::<C, Brand>(held, now, bytes, &answer);
                answer
            }
            Err(EventsSpent) => {
                pass_by(held);
                Err(Refusal::EventsSpent)
            }
        }
    }

    /// Takes the bytes whole, as one message. Once more than `ttl` microseconds have passed, where there is
    /// such a time, no block of it is retransmitted any more. `order` says that it must be delivered in
    /// order. Beside what the socket answers, EventsSpent comes where its count stands at 2^55 - 1.
    pub fn send_message<R: Wait>(
        &self,
        rt: &R,
        pass: &mut SocketPass<C>,
        now: u64,
        ttl: Option<u64>,
        order: bool,
        bytes: &[u8],
    ) -> Result<usize, Refusal>
        requires { IsPassOf self.now.turn pass.old }
        ensures own { IsPassOf self.now.turn pass.new }
        ensures names { KeepsNames (view_of pass.old) (view_of pass.new) }
        ensures event { result ≢ Err Refusal.EventsSpent → AddsEvent C.ways now
            (SendMessage ttl order bytes.now) (SentMessage result) [] pass.old pass.new }
        ensures spent { result ≡ Err Refusal.EventsSpent → FindsSpent C.ways pass.old pass.new }
    {
        let mut held = self.turn.enter(rt, pass);
        match held.value().send_message(now, ttl, order, bytes) {
            Ok(answer) => {
                tell_sent_message::<C, Brand>(held, now, ttl, order, bytes, &answer);
                answer
            }
            Err(EventsSpent) => {
                pass_by(held);
                Err(Refusal::EventsSpent)
            }
        }
    }

    /// Gives the first bytes that wait, as far as there is room. Beside what the socket answers,
    /// EventsSpent comes where its count stands at 2^55 - 1.
    pub fn recv<R: Wait>(
        &self,
        rt: &R,
        pass: &mut SocketPass<C>,
        now: u64,
        into: &mut [u8],
    ) -> Result<usize, Refusal>
        requires { IsPassOf self.now.turn pass.old }
        ensures own { IsPassOf self.now.turn pass.new }
        ensures names { KeepsNames (view_of pass.old) (view_of pass.new) }
        ensures event { result ≢ Err Refusal.EventsSpent → AddsEvent C.ways now
            (Recv (length into.old)) (Received (received_in result into.new)) [] pass.old pass.new }
        ensures within { IfOk result (λ count. count ≤ length into.old) }
        ensures rest { IfOk result (λ count. drop count into.new ≡ drop count into.old) }
        ensures err { OnErr result (into.new ≡ into.old) }
        ensures spent { result ≡ Err Refusal.EventsSpent → FindsSpent C.ways pass.old pass.new }
    {
        let mut held = self.turn.enter(rt, pass);
        match held.value().recv(now, into) {
            Ok(answer) => {
                tell_received::<C, Brand>(held, now, &answer, into);
                answer
            }
            Err(EventsSpent) => {
                pass_by(held);
                Err(Refusal::EventsSpent)
            }
        }
    }

    /// Gives the next message that can be read, whole. Beside what the socket answers, EventsSpent comes
    /// where its count stands at 2^55 - 1.
    pub fn recv_message<R: Wait>(
        &self,
        rt: &R,
        pass: &mut SocketPass<C>,
        now: u64,
        into: &mut [u8],
    ) -> Result<usize, Refusal>
        requires { IsPassOf self.now.turn pass.old }
        ensures own { IsPassOf self.now.turn pass.new }
        ensures names { KeepsNames (view_of pass.old) (view_of pass.new) }
        ensures event { result ≢ Err Refusal.EventsSpent → AddsEvent C.ways now
            (RecvMessage (length into.old)) (ReceivedMessage (received_in result into.new)) [] pass.old pass.new }
        ensures within { IfOk result (λ count. count ≤ length into.old) }
        ensures rest { IfOk result (λ count. drop count into.new ≡ drop count into.old) }
        ensures err { OnErr result (into.new ≡ into.old) }
        ensures spent { result ≡ Err Refusal.EventsSpent → FindsSpent C.ways pass.old pass.new }
    {
        let mut held = self.turn.enter(rt, pass);
        match held.value().recv_message(now, into) {
            Ok(answer) => {
                tell_received_message::<C, Brand>(held, now, &answer, into);
                answer
            }
            Err(EventsSpent) => {
                pass_by(held);
                Err(Refusal::EventsSpent)
            }
        }
    }

    /// Drops what was not sent and what was not read.
    pub fn close<R: Wait>(
        &self,
        rt: &R,
        pass: &mut SocketPass<C>,
        now: u64,
    ) -> Result<(), EventsSpent>
        requires { IsPassOf self.now.turn pass.old }
        ensures own { IsPassOf self.now.turn pass.new }
        ensures names { KeepsNames (view_of pass.old) (view_of pass.new) }
        ensures event { OnOk result (AddsEvent C.ways now Close DidClose [] pass.old pass.new) }
        ensures spent { OnErr result (FindsSpent C.ways pass.old pass.new) }
    {
        let mut held = self.turn.enter(rt, pass);
        match held.value().close(now) {
            Ok(()) => {
                tell_closed::<C, Brand>(held, now);
                Ok(())
            }
            Err(EventsSpent) => {
                pass_by(held);
                Err(EventsSpent)
            }
        }
    }

    /// What was measured and counted so far.
    pub fn perf<R: Wait>(
        &self,
        rt: &R,
        pass: &mut SocketPass<C>,
        now: u64,
    ) -> Result<Perf, EventsSpent>
        requires { IsPassOf self.now.turn pass.old }
        ensures own { IsPassOf self.now.turn pass.new }
        ensures names { KeepsNames (view_of pass.old) (view_of pass.new) }
        ensures event { IfOk result
            (λ perf. AddsEvent C.ways now Measure (DidMeasure perf) [] pass.old pass.new) }
        ensures spent { OnErr result (FindsSpent C.ways pass.old pass.new) }
    {
        let mut held = self.turn.enter(rt, pass);
        match held.value().perf(now) {
            Ok(perf) => {
                tell_measured::<C, Brand>(held, now, perf);
                Ok(perf)
            }
            Err(EventsSpent) => {
                pass_by(held);
                Err(EventsSpent)
            }
        }
    }
}

// Publishes a send.
#[tactic(auto, using(crate::proofs::ItemLemmas::follows_goes))]
fn tell_sent<C: Control, N: Naming<EventEntry>>(
    held: Held<'_, BoxedSocket<C>>,
    now: u64,
    bytes: &[u8],
    answer: &Result<usize, Refusal>,
)
    requires held { IsHeld (tale_of_sockets C.ways) held }
    requires item { N.item ≡ Some (entry (event now (Send bytes.now)) (Sent answer.now) []) }
    requires follows { Follows C.ways (entry (event now (Send bytes.now)) (Sent answer.now) [])
        (value_of (tale_of_sockets C.ways) (found_by held)) held.value }
    ensures own { IsPassOf held.entry.turn.now held.exit.1.0.now }
    ensures names { KeepsNames (view_of held.entry.pass.now) (view_of held.exit.1.0.now) }
    ensures adds { AddsEvent C.ways now (Send bytes.now) (Sent answer.now) []
        held.entry.pass.now held.exit.1.0.now }
{
    held.publish::<N>();
}

// Publishes a send of a message.
#[tactic(auto, using(crate::proofs::ItemLemmas::follows_goes))]
fn tell_sent_message<C: Control, N: Naming<EventEntry>>(
    held: Held<'_, BoxedSocket<C>>,
    now: u64,
    ttl: Option<u64>,
    order: bool,
    bytes: &[u8],
    answer: &Result<usize, Refusal>,
)
    requires held { IsHeld (tale_of_sockets C.ways) held }
    requires item { N.item ≡ Some
        (entry (event now (SendMessage ttl order bytes.now)) (SentMessage answer.now) []) }
    requires follows { Follows C.ways
        (entry (event now (SendMessage ttl order bytes.now)) (SentMessage answer.now) [])
        (value_of (tale_of_sockets C.ways) (found_by held)) held.value }
    ensures own { IsPassOf held.entry.turn.now held.exit.1.0.now }
    ensures names { KeepsNames (view_of held.entry.pass.now) (view_of held.exit.1.0.now) }
    ensures adds { AddsEvent C.ways now (SendMessage ttl order bytes.now) (SentMessage answer.now) []
        held.entry.pass.now held.exit.1.0.now }
{
    held.publish::<N>();
}

// Publishes a receive.
#[tactic(auto, using(crate::proofs::ItemLemmas::follows_goes))]
fn tell_received<C: Control, N: Naming<EventEntry>>(
    held: Held<'_, BoxedSocket<C>>,
    now: u64,
    answer: &Result<usize, Refusal>,
    into: &[u8],
)
    requires held { IsHeld (tale_of_sockets C.ways) held }
    requires item { N.item ≡ Some
        (entry (event now (Recv (length into.now))) (Received (received_in answer.now into.now)) []) }
    requires follows { Follows C.ways
        (entry (event now (Recv (length into.now))) (Received (received_in answer.now into.now)) [])
        (value_of (tale_of_sockets C.ways) (found_by held)) held.value }
    ensures own { IsPassOf held.entry.turn.now held.exit.1.0.now }
    ensures names { KeepsNames (view_of held.entry.pass.now) (view_of held.exit.1.0.now) }
    ensures adds { AddsEvent C.ways now
        (Recv (length into.now)) (Received (received_in answer.now into.now)) []
        held.entry.pass.now held.exit.1.0.now }
{
    held.publish::<N>();
}

// Publishes a receive of a message.
#[tactic(auto, using(crate::proofs::ItemLemmas::follows_goes))]
fn tell_received_message<C: Control, N: Naming<EventEntry>>(
    held: Held<'_, BoxedSocket<C>>,
    now: u64,
    answer: &Result<usize, Refusal>,
    into: &[u8],
)
    requires held { IsHeld (tale_of_sockets C.ways) held }
    requires item { N.item ≡ Some
        (entry (event now (RecvMessage (length into.now))) (ReceivedMessage (received_in answer.now into.now)) []) }
    requires follows { Follows C.ways
        (entry (event now (RecvMessage (length into.now))) (ReceivedMessage (received_in answer.now into.now)) [])
        (value_of (tale_of_sockets C.ways) (found_by held)) held.value }
    ensures own { IsPassOf held.entry.turn.now held.exit.1.0.now }
    ensures names { KeepsNames (view_of held.entry.pass.now) (view_of held.exit.1.0.now) }
    ensures adds { AddsEvent C.ways now
        (RecvMessage (length into.now)) (ReceivedMessage (received_in answer.now into.now)) []
        held.entry.pass.now held.exit.1.0.now }
{
    held.publish::<N>();
}

// Publishes a close.
#[tactic(auto, using(crate::proofs::ItemLemmas::follows_goes))]
fn tell_closed<C: Control, N: Naming<EventEntry>>(held: Held<'_, BoxedSocket<C>>, now: u64)
    requires held { IsHeld (tale_of_sockets C.ways) held }
    requires item { N.item ≡ Some (entry (event now Close) DidClose []) }
    requires follows { Follows C.ways (entry (event now Close) DidClose [])
        (value_of (tale_of_sockets C.ways) (found_by held)) held.value }
    ensures own { IsPassOf held.entry.turn.now held.exit.1.0.now }
    ensures names { KeepsNames (view_of held.entry.pass.now) (view_of held.exit.1.0.now) }
    ensures adds { AddsEvent C.ways now Close DidClose [] held.entry.pass.now held.exit.1.0.now }
{
    held.publish::<N>();
}

// Publishes a measurement.
#[tactic(auto, using(crate::proofs::ItemLemmas::follows_goes))]
fn tell_measured<C: Control, N: Naming<EventEntry>>(
    held: Held<'_, BoxedSocket<C>>,
    now: u64,
    perf: Perf,
)
    requires held { IsHeld (tale_of_sockets C.ways) held }
    requires item { N.item ≡ Some (entry (event now Measure) (DidMeasure perf) []) }
    requires follows { Follows C.ways (entry (event now Measure) (DidMeasure perf) [])
        (value_of (tale_of_sockets C.ways) (found_by held)) held.value }
    ensures own { IsPassOf held.entry.turn.now held.exit.1.0.now }
    ensures names { KeepsNames (view_of held.entry.pass.now) (view_of held.exit.1.0.now) }
    ensures adds { AddsEvent C.ways now Measure (DidMeasure perf) [] held.entry.pass.now held.exit.1.0.now }
{
    held.publish::<N>();
}
