//! The turn, while one pass has it.
use crate::pass::Pass;
use crate::story::{Naming, Story};
use crate::turn::Turn;

/// The value of a turn, while a pass has it. It is spent by `publish` or by `leave`.
pub struct Held<'a, V: Story> {
    pub(crate) turn: &'a Turn<V>,
    pub(crate) pass: &'a mut Pass<V>,
    pub(crate) value: V,
}

impl<'a, V: Story> Held<'a, V> {
    ghost use Rattle.std.specs.Prelude.{◌≡◌, ℕ, Some};
    ghost use Rattle.std.specs.Borrow.{sem};
    ghost use Rattle.udt_turn.specs.History.{value_of};
    ghost use Rattle.udt_turn.specs.Kinds.{IsSound};
    ghost use Rattle.udt_turn.specs.Lending.{LendsValue};
    ghost use Rattle.udt_turn.specs.Words.{view_of, seen_of, mine_of, found_by, SeesItem, MakesItem};
    ghost use Rattle.udt_turn.specs.Words.{IsPassOf, IsHeld, GoesOn, KeepsNames, Adds, OnlySees};

    /// The value, to be read and changed.
    pub fn value(&mut self) -> &mut V
        ensures* lends { sem 𝓛 (LendsValue V.row V.Entry.row V.Story self.entry result) }
        ensures value { result.now ≡ self.old.value }
    {
        &mut self.value
    }

    /// Adds the item that N names, with which the value has to agree, and lets the turn go.
    pub fn publish<N: Naming<V::Entry>>(self)
        requires held { IsHeld V.tale self }
        requires item { GoesOn V.tale N.item (value_of V.tale (found_by self)) self.value }
        ensures own { IsPassOf self.entry.turn.now self.exit.1.0.now }
        ensures names { KeepsNames (view_of self.entry.pass.now) (view_of self.exit.1.0.now) }
        ensures seen { SeesItem N.item self.entry.pass.now self.exit.1.0.now }
        ensures mine { MakesItem N.item self.entry.pass.now self.exit.1.0.now }
        ensures sound { IsSound V.tale (view_of self.exit.1.0.now) }
        ensures adds { (e : V.Entry) → N.item ≡ Some e → Adds V.tale e self.entry.pass.now self.exit.1.0.now }
    {
        let Held { turn, pass, value } = self;
        turn.finish::<N>(pass, value);
    }

    /// Adds nothing, and lets the turn go. The value has to be as it was found.
    pub fn leave(self)
        requires held { IsHeld V.tale self }
        requires same { self.value ≡ value_of V.tale (found_by self) }
        ensures own { IsPassOf self.entry.turn.now self.exit.1.0.now }
        ensures names { KeepsNames (view_of self.entry.pass.now) (view_of self.exit.1.0.now) }
        ensures seen { seen_of self.exit.1.0.now ≡ found_by self.entry }
        ensures mine { mine_of self.exit.1.0.now ≡ mine_of self.entry.pass.now }
        ensures sound { IsSound V.tale (view_of self.exit.1.0.now) }
        ensures only_sees { OnlySees V.tale self.entry.pass.now self.exit.1.0.now }
    {
        let Held { turn, pass, value } = self;
        turn.give_back(pass, value);
    }
}
