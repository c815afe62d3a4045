//! Threads that count events by turns.
ghost use Rattle.std.specs.Prelude.{◌≡◌, ◌+◌, ◌^◌, ◌<◌, Some};
ghost use Rattle.udt_turn.specs.Words.{IsPassOf, IsHeld, GoesOn, found_by};
ghost use Rattle.udt_turn.specs.History.{value_of};

use crate::tally::Tally;
use std::marker::Brand;
use std::sync::Wait;
use std::thread::{Threads, join};
use udt_turn::{Held, Naming, Pass, Turn};

fn tell<N: Naming<()>>(held: Held<'_, Tally>)
    requires held { IsHeld ⟦<Tally as udt_turn::Story>⟧.tale held }
    requires item { N.item ≡ Some tt }
    requires next { held.value.count
        ≡ (value_of ⟦<Tally as udt_turn::Story>⟧.tale (found_by held)).count + 1 }
    requires most { held.value.count < 2 ^ 55 }
    ensures own { IsPassOf held.entry.turn.now held.exit.1.0.now }
{
    held.publish::<N>();
}

// One event, in a turn.
fn event<R: Wait>(rt: &R, turn: &Turn<Tally>, pass: &mut Pass<Tally>)
    requires { IsPassOf turn.now pass.old }
    ensures { IsPassOf turn.now pass.new }
{
    let mut held = turn.enter(rt, pass);
    if held.value().add() {
        tell::<Brand>(held);
    } else {
        held.leave();
    }
}

/// This many events, by one thread.
pub fn one<R: Wait>(rt: &R, turn: &Turn<Tally>, mut pass: Pass<Tally>, events: u32)
    requires { IsPassOf turn.now pass }
{
    for _ in 0..events {
        event(rt, turn, &mut pass);
    }
}

/// This many by each of two threads.
pub fn two<R: Threads + Wait + Sync>(rt: &R, turn: &Turn<Tally>, mut pass: Pass<Tally>, events: u32)
    requires { IsPassOf turn.now pass }
{
    let Ok(other) = turn.split(&mut pass) else {
        return;
    };
    join(
        rt,
        move ||
            requires { IsPassOf turn.now pass }
        { one(rt, turn, pass, events) },
        move ||
            requires { IsPassOf turn.now other }
        { one(rt, turn, other, events) },
    );
}

/// This many by each of four threads.
pub fn four<R: Threads + Wait + Sync>(
    rt: &R,
    turn: &Turn<Tally>,
    mut pass: Pass<Tally>,
    events: u32,
)
    requires { IsPassOf turn.now pass }
{
    let Ok(other) = turn.split(&mut pass) else {
        return;
    };
    join(
        rt,
        move ||
            requires { IsPassOf turn.now pass }
        { two(rt, turn, pass, events) },
        move ||
            requires { IsPassOf turn.now other }
        { two(rt, turn, other, events) },
    );
}

/// This many by each of eight threads.
pub fn eight<R: Threads + Wait + Sync>(
    rt: &R,
    turn: &Turn<Tally>,
    mut pass: Pass<Tally>,
    events: u32,
)
    requires { IsPassOf turn.now pass }
{
    let Ok(other) = turn.split(&mut pass) else {
        return;
    };
    join(
        rt,
        move ||
            requires { IsPassOf turn.now pass }
        { four(rt, turn, pass, events) },
        move ||
            requires { IsPassOf turn.now other }
        { four(rt, turn, other, events) },
    );
}
