// A bounded queue under one rule: what was put comes out in its order, once.

ghost use Rattle.std.specs.Prelude.{◌≡◌, ◌<◌, IfOk, IfErr, IfSome, IfNone};
ghost use Rattle.crossbeam_queue.specs.Passes.{view, IsPassOf, ruled_capacity};
ghost use Rattle.udt_queues.specs.Lines.{Kept, Puts, Takes, IsLive, Works};
ghost use Rattle.udt_queues.specs.Passing.{newcomer, parted, part_of, served, putter_of, both_of, gone};
ghost use Rattle.udt_queues.specs.Told.{Knows, Told, Emptied, WasEmpty, WasFull};

use crate::view::View;
use crossbeam_queue::protocol::{Join, Lesson, Outcome, Protocol, Split};
use crossbeam_queue::{Pass, RuledArrayQueue};
use std::alloc::{AllocError, Global};
use std::sync::Wait;

/// The rule that every step on a line keeps.
pub struct Fifo;

impl<T> Protocol<T, View<T>> for Fifo {
    ghost holds = { Kept };

    ghost first = { newcomer };
}

struct Putting;

impl<T> Outcome<T, View<T>> for Putting {
    ghost then = { Puts };
}

impl<T> Lesson<T, View<T>> for Putting {
    ghost fact = { Knows };
}

struct Taking;

impl<T> Outcome<T, View<T>> for Taking {
    ghost then = { Takes };
}

impl<T> Lesson<T, View<T>> for Taking {
    ghost fact = { Knows };
}

struct Parting;

impl<T> Split<View<T>> for Parting {
    ghost left = { parted };

    ghost right = { part_of };
}

struct Serving;

impl<T> Split<View<T>> for Serving {
    ghost left = { served };

    ghost right = { putter_of };
}

struct Joining;

impl<T> Join<View<T>> for Joining {
    ghost both = { both_of };

    ghost spent = { gone };
}

/// A bounded queue whose passes know what they put and took.
pub type Line<T> = RuledArrayQueue<T, View<T>, Fifo>;

/// The right to use a line, and what its holder knows of it.
pub type LinePass<T> = Pass<T, View<T>>;

/// A line with this number of places, and its first pass.
pub(crate) fn make_line<T: Drop>(
    alloc: Global,
    places: usize,
) -> Result<(Line<T>, LinePass<T>), AllocError>
    requires { 0 < places }
    ensures own { IfOk result (λ r. IsPassOf r.0 r.1) }
    ensures places { IfOk result (λ r. ruled_capacity r.0 ≡ places) }
    ensures first { IfOk result (λ r. view r.1 ≡ newcomer) }
{
    Line::ruled(alloc, places)
}

/// Puts a value in. It comes back only where the line was full at a step of this call.
pub(crate) fn put_in<T: Drop, R: Wait>(
    rt: &R,
    line: &Line<T>,
    pass: &mut LinePass<T>,
    value: T,
) -> Result<(), T>
    requires own { IsPassOf line.now pass.old }
    requires live { IsLive (view pass.old) }
    ensures own { IsPassOf line.now pass.new }
    ensures ok { IfOk result (λ _. Puts (view pass.old) value (view pass.new)) }
    ensures back { IfErr result (λ x. x ≡ value) }
    ensures err { IfErr result (λ _. view pass.new ≡ view pass.old) }
    ensures full { IfErr result (λ _. WasFull (ruled_capacity line.now) (view pass.old)) }
{
    line.push_as::<Putting, R>(rt, pass, value)
}

/// Puts a value in, and tries again where the line was full.
pub(crate) fn put_again<T: Drop, R: Wait>(rt: &R, line: &Line<T>, pass: &mut LinePass<T>, value: T)
    requires own { IsPassOf line.now pass.old }
    requires live { IsLive (view pass.old) }
    ensures own { IsPassOf line.now pass.new }
    ensures put { Puts (view pass.old) value (view pass.new) }
{
    let mut back = value;
    for _ in rt.forever() {
        match put_in(rt, line, pass, back) {
            Ok(()) => return,
            Err(again) => back = again,
        }
    }
    unreachable!()
}

/// Puts a value in, by one try, where no other pass is at work.
pub(crate) fn offer<T: Drop>(line: &Line<T>, pass: &mut LinePass<T>, value: T) -> Result<(), T>
    requires own { IsPassOf line.now pass.old }
    requires live { IsLive (view pass.old) }
    ensures own { IsPassOf line.now pass.new }
    ensures ok { IfOk result (λ _. Puts (view pass.old) value (view pass.new)) }
{
    line.try_push_as::<Putting>(pass, value)
}

/// Takes the value that was put first. None comes only where the line was empty at a step of this call.
pub(crate) fn take_out<T: Drop, R: Wait>(
    rt: &R,
    line: &Line<T>,
    pass: &mut LinePass<T>,
) -> Option<T>
    requires own { IsPassOf line.now pass.old }
    requires works { Works (view pass.old) }
    ensures own { IsPassOf line.now pass.new }
    ensures some { IfSome result (λ x. Takes (view pass.old) x (view pass.new)) }
    ensures kept { IfNone result (view pass.new ≡ view pass.old) }
    ensures none { IfNone result (WasEmpty (view pass.old)) }
    ensures told { IfNone result (Told (view pass.new)) }
    ensures emptied { IfNone result (Emptied (view pass.new)) }
{
    match line.pop_as::<Taking, R>(rt, pass) {
        Some(value) => Some(value),
        None => None,
    }
}

/// Gives a pass with a name of its own, which has put and taken nothing, and may take where this one may.
pub(crate) fn part<T: Drop>(line: &Line<T>, pass: &mut LinePass<T>) -> LinePass<T>
    requires own { IsPassOf line.now pass.old }
    requires live { IsLive (view pass.old) }
    ensures own { IsPassOf line.now pass.new }
    ensures new_own { IsPassOf line.now result }
    ensures kept { view pass.new ≡ parted (view pass.old) }
    ensures new { view result ≡ part_of (view pass.old) }
{
    line.another::<Parting>(pass)
}

/// Gives a pass with a name of its own, which has put nothing, and may not take.
pub(crate) fn part_putter<T: Drop>(line: &Line<T>, pass: &mut LinePass<T>) -> LinePass<T>
    requires own { IsPassOf line.now pass.old }
    requires live { IsLive (view pass.old) }
    ensures own { IsPassOf line.now pass.new }
    ensures new_own { IsPassOf line.now result }
    ensures kept { view pass.new ≡ served (view pass.old) }
    ensures new { view result ≡ putter_of (view pass.old) }
{
    line.another::<Serving>(pass)
}

/// Joins a pass into another, which then has the hands of both, and tells what holds between them.
pub(crate) fn join_in<T: Drop>(line: &Line<T>, other: LinePass<T>, into: &mut LinePass<T>)
    requires own { IsPassOf line.now into.old }
    requires other { IsPassOf line.now other }
    ensures own { IsPassOf line.now into.new }
    ensures both { view into.new ≡ both_of (view into.old) (view other) }
    ensures told { Told (view into.new) }
{
    line.absorb::<Joining>(into, other);
    line.learn_as::<Taking>(into);
}
