// The events that a worker makes.
ghost use Rattle.std.specs.Prelude.{◌≡◌, Some, IfOk, OnOk, OnErr};
ghost use Rattle.udt_model.specs.Events.{Pack, Tick, Arrive, DidPack, DidTick, DidHear, event};
ghost use Rattle.udt_turn.specs.History.{value_of};
ghost use Rattle.udt_turn.specs.Words.{IsPassOf, IsHeld, KeepsNames, found_by, view_of};
ghost use Rattle.udt_cell.specs.Entries.{entry, Follows, tale_of_sockets};
ghost use Rattle.udt_cell.specs.Sharing.{AddsEvent, FindsSpent};

use super::leaving::pass_by;
use crate::boxed::{BoxedSocket, EventEntry, EventsSpent};
use crate::shared::{SharedSocket, SocketPass};
use std::marker::Brand;
use std::sync::Wait;
use udt_core::Outs;
use udt_model::{Addr, Heard, Packed};
use udt_outside::{Gate, Point};
use udt_rate::Control;
use udt_turn::{Held, Naming};

impl<C: Control> SharedSocket<C> {
    /// Takes in a datagram that came from this address. What it emits is in `outs`. The gate is
    /// called with the turn held, before the event.
    pub fn arrive<R: Wait + Copy + Send + Sync, G: Gate>(
        &self,
        rt: &R,
        pass: &mut SocketPass<C>,
        now: u64,
        from: Addr,
        bytes: &[u8],
        outs: &mut Outs,
        gate: &G,
    ) -> Result<Heard, EventsSpent>
        requires { IsPassOf self.now.turn pass.old }
        ensures own { IsPassOf self.now.turn pass.new }
        ensures names { KeepsNames (view_of pass.old) (view_of pass.new) }
        ensures event { IfOk result
            (λ heard. AddsEvent C.ways now (Arrive from bytes.now) (DidHear heard) outs.new
            pass.old pass.new) }
        ensures spent { OnErr result (FindsSpent C.ways pass.old pass.new) }
        ensures err { OnErr result (outs.new ≡ outs.old) }
    {
        let mut held = self.turn.enter(rt, pass);
        gate.reach(rt, Point::Holding(held.value().own()));
        match held.value().arrive(now, from, bytes, outs) {
            Ok(heard) => {
                tell_heard::<C, Brand>(held, now, from, bytes, heard, outs);
                Ok(heard)
            }
            Err(EventsSpent) => {
                pass_by(held);
                Err(EventsSpent)
            }
        }
    }

    /// Does what falls due at this moment. What it emits is in `outs`. The gate is called with the
    /// turn held, before the event.
    pub fn tick<R: Wait + Copy + Send + Sync, G: Gate>(
        &self,
        rt: &R,
        pass: &mut SocketPass<C>,
        now: u64,
        outs: &mut Outs,
        gate: &G,
    ) -> Result<(), EventsSpent>
        requires { IsPassOf self.now.turn pass.old }
        ensures own { IsPassOf self.now.turn pass.new }
        ensures names { KeepsNames (view_of pass.old) (view_of pass.new) }
        ensures event { OnOk result (AddsEvent C.ways now Tick DidTick outs.new pass.old pass.new) }
        ensures spent { OnErr result (FindsSpent C.ways pass.old pass.new) }
        ensures err { OnErr result (outs.new ≡ outs.old) }
    {
        let mut held = self.turn.enter(rt, pass);
        gate.reach(rt, Point::Holding(held.value().own()));
        match held.value().tick(now, outs) {
            Ok(()) => {
                tell_ticked::<C, Brand>(held, now, outs);
                Ok(())
            }
            Err(EventsSpent) => {
                pass_by(held);
                Err(EventsSpent)
            }
        }
    }

    /// Emits the next block that may be sent, if one may. The gate is called with the turn held,
    /// before the event.
    pub fn pack<R: Wait + Copy + Send + Sync, G: Gate>(
        &self,
        rt: &R,
        pass: &mut SocketPass<C>,
        now: u64,
        outs: &mut Outs,
        gate: &G,
    ) -> Result<Packed, EventsSpent>
        requires { IsPassOf self.now.turn pass.old }
        ensures own { IsPassOf self.now.turn pass.new }
        ensures names { KeepsNames (view_of pass.old) (view_of pass.new) }
        ensures event { IfOk result
            (λ packed. AddsEvent C.ways now Pack (DidPack packed) outs.new pass.old pass.new) }
        ensures spent { OnErr result (FindsSpent C.ways pass.old pass.new) }
        ensures err { OnErr result (outs.new ≡ outs.old) }
    {
        let mut held = self.turn.enter(rt, pass);
        gate.reach(rt, Point::Holding(held.value().own()));
        match held.value().pack(now, outs) {
            Ok(packed) => {
                tell_packed::<C, Brand>(held, now, packed, outs);
                Ok(packed)
            }
            Err(EventsSpent) => {
                pass_by(held);
                Err(EventsSpent)
            }
        }
    }
}

// Publishes an arrival.
#[tactic(auto, using(crate::proofs::ItemLemmas::follows_goes))]
fn tell_heard<C: Control, N: Naming<EventEntry>>(
    held: Held<'_, BoxedSocket<C>>,
    now: u64,
    from: Addr,
    bytes: &[u8],
    heard: Heard,
    outs: &Outs,
)
    requires held { IsHeld (tale_of_sockets C.ways) held }
    requires item { N.item ≡ Some (entry (event now (Arrive from bytes.now)) (DidHear heard) outs.now) }
    requires follows { Follows C.ways (entry (event now (Arrive from bytes.now)) (DidHear heard) outs.now)
        (value_of (tale_of_sockets C.ways) (found_by held)) held.value }
    ensures own { IsPassOf held.entry.turn.now held.exit.1.0.now }
    ensures names { KeepsNames (view_of held.entry.pass.now) (view_of held.exit.1.0.now) }
    ensures adds { AddsEvent C.ways now (Arrive from bytes.now) (DidHear heard) outs.now
        held.entry.pass.now held.exit.1.0.now }
{
    held.publish::<N>();
}

// Publishes a tick.
#[tactic(auto, using(crate::proofs::ItemLemmas::follows_goes))]
fn tell_ticked<C: Control, N: Naming<EventEntry>>(
    held: Held<'_, BoxedSocket<C>>,
    now: u64,
    outs: &Outs,
)
    requires held { IsHeld (tale_of_sockets C.ways) held }
    requires item { N.item ≡ Some (entry (event now Tick) DidTick outs.now) }
    requires follows { Follows C.ways (entry (event now Tick) DidTick outs.now)
        (value_of (tale_of_sockets C.ways) (found_by held)) held.value }
    ensures own { IsPassOf held.entry.turn.now held.exit.1.0.now }
    ensures names { KeepsNames (view_of held.entry.pass.now) (view_of held.exit.1.0.now) }
    ensures adds { AddsEvent C.ways now Tick DidTick outs.now held.entry.pass.now held.exit.1.0.now }
{
    held.publish::<N>();
}

// Publishes a packing.
#[tactic(auto, using(crate::proofs::ItemLemmas::follows_goes))]
fn tell_packed<C: Control, N: Naming<EventEntry>>(
    held: Held<'_, BoxedSocket<C>>,
    now: u64,
    packed: Packed,
    outs: &Outs,
)
    requires held { IsHeld (tale_of_sockets C.ways) held }
    requires item { N.item ≡ Some (entry (event now Pack) (DidPack packed) outs.now) }
    requires follows { Follows C.ways (entry (event now Pack) (DidPack packed) outs.now)
        (value_of (tale_of_sockets C.ways) (found_by held)) held.value }
    ensures own { IsPassOf held.entry.turn.now held.exit.1.0.now }
    ensures names { KeepsNames (view_of held.entry.pass.now) (view_of held.exit.1.0.now) }
    ensures adds { AddsEvent C.ways now Pack (DidPack packed) outs.now held.entry.pass.now held.exit.1.0.now }
{
    held.publish::<N>();
}
