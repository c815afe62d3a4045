//! A pass's round at a turn: from its ticket to the value, and from the value to the next ticket.
use crate::pass::Pass;
use crate::story::{Naming, Story};
use crate::turn::Turn;
use std::sync::Wait;

impl<V: Story> Turn<V> {
    ghost use Rattle.std.specs.Prelude.{◌≡◌};
    ghost use Rattle.udt_turn.specs.History.{value_of};
    ghost use Rattle.udt_turn.specs.Kinds.{IsSound};
    ghost use Rattle.udt_turn.specs.Words.{view_of, seen_of, mine_of, found_of, SeesItem, MakesItem};
    ghost use Rattle.udt_turn.specs.Words.{IsPassOf, IsHolding, GoesOn, KeepsNames};

    // Waits for the turn, and takes the value.
    pub(crate) fn begin<R: Wait>(&self, rt: &R, pass: &mut Pass<V>) -> V
        requires { IsPassOf self.now pass.old }
        ensures holds { IsHolding V.tale self.now pass.new }
        ensures value { result ≡ value_of V.tale (found_of pass.new) }
        ensures names { KeepsNames (view_of pass.old) (view_of pass.new) }
        ensures seen { seen_of pass.new ≡ seen_of pass.old }
    {
        let ticket = self.line_up(rt, &mut pass.seat);
        self.reach(rt, &mut pass.seat, ticket);
        self.take(&mut pass.seat)
    }

    // Publishes the item that N names, and gives the value back.
    pub(crate) fn finish<N: Naming<V::Entry>>(&self, pass: &mut Pass<V>, value: V)
        requires holds { IsHolding V.tale self.now pass.old }
        requires item { GoesOn V.tale N.item (value_of V.tale (found_of pass.old)) value }
        ensures own { IsPassOf self.now pass.new }
        ensures names { KeepsNames (view_of pass.old) (view_of pass.new) }
        ensures seen { SeesItem N.item pass.old pass.new }
        ensures mine { MakesItem N.item pass.old pass.new }
        ensures sound { IsSound V.tale (view_of pass.new) }
    {
        let count = value.count();
        let bits = value.bits();
        self.say::<N>(&mut pass.seat, count, bits);
        pass.last = count;
        self.call(&mut pass.seat, value);
    }

    // Gives the value back, with nothing said.
    pub(crate) fn give_back(&self, pass: &mut Pass<V>, value: V)
        requires holds { IsHolding V.tale self.now pass.old }
        requires same { value ≡ value_of V.tale (found_of pass.old) }
        ensures own { IsPassOf self.now pass.new }
        ensures names { KeepsNames (view_of pass.old) (view_of pass.new) }
        ensures seen { seen_of pass.new ≡ found_of pass.old }
        ensures mine { mine_of pass.new ≡ mine_of pass.old }
        ensures sound { IsSound V.tale (view_of pass.new) }
    {
        self.pass_by(&mut pass.seat);
        self.call(&mut pass.seat, value);
    }
}
