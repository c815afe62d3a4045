// The network that threads share: one turn for each call at an end.
ghost use Rattle.std.specs.Prelude.{◌≡◌, ◌≤◌, length, take, Some, IfOk, OnOk, OnErr};
ghost use Rattle.udt_turn.specs.History.{value_of};
ghost use Rattle.udt_turn.specs.Kinds.{IsSound};
ghost use Rattle.udt_turn.specs.Words.{IsPassOf, IsHeld, found_by, view_of, Adds};
ghost use Rattle.udt_outside.specs.Ports.{Fits};
ghost use Rattle.udt_net.specs.Networks.{Said, Heard as Listened, Follows, tale_of_nets, most_bytes};
ghost use Rattle.udt_net.specs.Calls.{FindsLast, HearsAs};

use crate::network::{Item, Net};
use crate::side::Side;
use std::marker::Brand;
use std::sync::Wait;
use udt_model::Addr;
use udt_outside::{Failed, Heard};
use udt_turn::{Held, Naming, Pass, Turn};

// An end says these bytes to an address.
pub(crate) fn say<R: Wait>(
    rt: &R,
    turn: &Turn<Net>,
    pass: &mut Pass<Net>,
    from: Side,
    bytes: &[u8],
    to: Addr,
) -> Result<(), Failed>
    requires { IsPassOf turn.now pass.old }
    ensures own { IsPassOf turn.now pass.new }
    ensures ok { OnOk result (Adds tale_of_nets (Said from to bytes.now) pass.old pass.new) }
    ensures err { OnErr result (FindsLast pass.old pass.new) }
    ensures sound { IsSound tale_of_nets (view_of pass.new) }
{
    let mut saying = turn.enter(rt, pass);
    match saying.value().say(from, bytes, to) {
        Ok(()) => {
            tell_said::<Brand>(saying, from, bytes, to);
            Ok(())
        }
        Err(Failed) => {
            saying.leave();
            Err(Failed)
        }
    }
}

// An end hears what waits first.
pub(crate) fn hear<R: Wait>(
    rt: &R,
    turn: &Turn<Net>,
    pass: &mut Pass<Net>,
    at: Side,
    into: &mut [u8],
) -> Result<Heard, Failed>
    requires own { IsPassOf turn.now pass.old }
    requires space { most_bytes ≤ length into.old }
    ensures own { IsPassOf turn.now pass.new }
    ensures within { IfOk result (λ heard. Fits heard most_bytes) }
    ensures ok { IfOk result (λ heard. HearsAs at heard into.new pass.old pass.new) }
    ensures err { OnErr result (FindsLast pass.old pass.new) }
    ensures sound { IsSound tale_of_nets (view_of pass.new) }
{
    let mut hearing = turn.enter(rt, pass);
    match hearing.value().hear(at, into) {
        Ok(Heard::Datagram { len, from }) => {
            tell_heard::<Brand>(hearing, at, from, len, into);
            Ok(Heard::Datagram { len, from })
        }
        Ok(Heard::Quiet) => {
            hearing.leave();
            Ok(Heard::Quiet)
        }
        Err(Failed) => {
            hearing.leave();
            Err(Failed)
        }
    }
}

// Publishes what was said.
fn tell_said<N: Naming<Item>>(held: Held<'_, Net>, from: Side, bytes: &[u8], to: Addr)
    requires held { IsHeld tale_of_nets held }
    requires item { N.item ≡ Some (Said from to bytes.now) }
    requires follows { Follows (Said from to bytes.now) (value_of tale_of_nets (found_by held)) held.value }
    ensures own { IsPassOf held.entry.turn.now held.exit.1.0.now }
    ensures adds { Adds tale_of_nets (Said from to bytes.now) held.entry.pass.now held.exit.1.0.now }
{
    held.publish::<N>();
}

// Publishes what was heard, the prefix of a buffer.
fn tell_heard<N: Naming<Item>>(held: Held<'_, Net>, at: Side, from: Addr, len: usize, into: &[u8])
    requires held { IsHeld tale_of_nets held }
    requires item { N.item ≡ Some (Listened at (record { addr = from; bytes = take len into.now })) }
    requires follows { Follows (Listened at (record { addr = from; bytes = take len into.now }))
        (value_of tale_of_nets (found_by held)) held.value }
    ensures own { IsPassOf held.entry.turn.now held.exit.1.0.now }
    ensures adds { Adds tale_of_nets (Listened at (record { addr = from; bytes = take len into.now }))
        held.entry.pass.now held.exit.1.0.now }
{
    held.publish::<N>();
}
