//! A turn: a ticket lock round one value.
ghost use Rattle.std.specs.Prelude.{◌≡◌, [], ◌∷◌, Some, IfOk, IfErr};

use crate::held::Held;
use crate::pass::Pass;
use crate::rule::Ordered;
use crate::story::Story;
use crate::view::View;
use atomic_table::{Refused, Table};
use std::alloc::{AllocFailed, Global};
use std::snapshot::Snapshot;
use std::sync::Wait;

mod numbers;
mod queue;
mod rounds;

/// One value, which one pass at a time has, and the count and the bits of it, which all passes can read.
pub struct Turn<V: Story> {
    pub(crate) table: Table<Option<V>, View<V, V::Entry>, Snapshot<V>, Ordered, Global>,
    ghost words: { table.shared.table_id.words ≡ 4 },
    ghost slots: { table.shared.table_id.slots ≡ 1 },
}

impl<V: Story + Drop> Drop for Turn<V> {
    fn drop(self) {
        let Turn { table } = self;
        drop(table);
    }
}

/// There was no memory.
#[derive(Debug, Drop)]
pub struct OutOfMemory;

/// The numbers for passes are used up.
#[derive(Debug, Drop)]
pub struct Full;

/// What a look shows: the number of items of the history, and what its value is ready for.
#[derive(Debug, Drop)]
pub struct Look {
    pub count: u64,
    pub bits: u8,
}

impl<V: Story> Turn<V> {
    ghost use Rattle.std.specs.Prelude.{◌≡◌, ◌+◌, ◌^◌, ◌<◌, ◌≤◌, [], ◌∷◌, ◌++◌, IfOk, IfErr, max};
    ghost use Rattle.udt_turn.specs.History.{value_of, longer, Begins, IsLegal, mine_in};
    ghost use Rattle.udt_turn.specs.Rule.{NoTwice};
    ghost use Rattle.udt_turn.specs.Kinds.{newcomer, IsSound, IsWhole};
    ghost use Rattle.udt_turn.specs.Words.{view_of, seen_of, number_of, names_of, made_of, mine_of, drawn_of};
    ghost use Rattle.udt_turn.specs.Words.{opening_of, found_by, IsPassOf, IsHeld, KeepsNames, HasBranched, MakesPair};

    /// A turn round this value, which opens its history, and the pass with the number 0.
    pub fn make(alloc: Global, value: V) -> Result<(Turn<V>, Pass<V>), (V, OutOfMemory)>
        requires { V.tale.count value < 2 ^ 55 }
        ensures pass { IfOk result (λ r. IsPassOf r.0 r.1 × (view_of r.1 ≡ newcomer value)) }
        ensures opening { IfOk result (λ r. opening_of r.0 ≡ value) }
        ensures sound { IfOk result (λ r. IsSound V.tale (view_of r.1)) }
        ensures err { IfErr result (λ e. e.0 ≡ value) }
    {
        let word = value.count() * 256 + u64::from(value.bits());
        let opening = Snapshot::of(&value);
        let slots = one_slot(alloc, value)?;
        match Table::new(alloc, &[word, 0, 0, 1], slots, &opening) {
            Ok((table, seat)) => {
                let pass = Pass {
                    seat,
                    last: 0,
                    joined: 1,
                };
                Ok((Turn { table }, pass))
            }
            Err(Refused { slots }) => Err((the_one(slots), OutOfMemory)),
        }
    }

    /// Waits until the turn is this pass's, and takes the value. Nobody is promised the turn.
    pub fn enter<'a, R: Wait>(&'a self, rt: &R, pass: &'a mut Pass<V>) -> Held<'a, V>
        requires { IsPassOf self.now pass.old }
        ensures same { result.pass.ghost_name ≡ pass.entry.ghost_name }
        ensures turn { result.turn.now ≡ self.now }
        ensures held { IsHeld V.tale result }
        ensures value { result.value ≡ value_of V.tale (found_by result) }
        ensures few { V.tale.count result.value < 2 ^ 55 }
        ensures names { KeepsNames (view_of pass.old) (view_of result.pass.now) }
        ensures seen { seen_of result.pass.now ≡ seen_of pass.old }
    {
        let value = self.begin(rt, pass);
        Held {
            turn: self,
            pass,
            value,
        }
    }

    /// Reads the count and the bits, in one load. The pass has then seen the history of that length.
    pub fn look(&self, pass: &mut Pass<V>) -> Look
        requires { IsPassOf self.now pass.old }
        ensures own { IsPassOf self.now pass.new }
        ensures names { KeepsNames (view_of pass.old) (view_of pass.new) }
        ensures later { Begins (seen_of pass.old).items (seen_of pass.new).items }
        ensures mine { mine_of pass.new ≡ mine_of pass.old }
        ensures count { result.count ≡ V.tale.count (value_of V.tale (seen_of pass.new)) }
        ensures bits { result.bits ≡ V.tale.bits (value_of V.tale (seen_of pass.new)) }
        ensures sound { IsSound V.tale (view_of pass.new) }
    {
        let word = self.glance(&mut pass.seat);
        Look {
            count: word / 256,
            bits: (word % 256) as u8,
        }
    }

    /// Gives a pass with a number of its own, which has seen what this one has. The number is fresh to what this
    /// pass had seen; that no other pass has it shows at `join`.
    pub fn split(&self, pass: &mut Pass<V>) -> Result<Pass<V>, Full>
        requires { IsPassOf self.now pass.old }
        ensures own { IsPassOf self.now pass.new }
        ensures number { number_of pass.new ≡ number_of pass.old }
        ensures names { names_of pass.new ≡ names_of pass.old }
        ensures seen { seen_of pass.new ≡ seen_of pass.old }
        ensures new { IfOk result (λ p. IsPassOf self.now p) }
        ensures branch { IfOk result (λ p. HasBranched (view_of pass.old) (view_of p)) }
        ensures made { IfOk result (λ p. MakesPair pass.old pass.new p) }
        ensures drawn { IfOk result (λ p. drawn_of pass.new ≡ number_of p + 1) }
        ensures full { IfErr result (λ _. 65535 ≤ drawn_of pass.new) }
        ensures err { IfErr result (λ _. made_of pass.new ≡ made_of pass.old) }
        ensures sound { IsSound V.tale (view_of pass.new) }
        ensures sound_new { IfOk result (λ p. IsSound V.tale (view_of p)) }
    {
        if !self.number(&mut pass.seat) {
            return Err(Full);
        }
        let seat = self.branch(&mut pass.seat);
        Ok(Pass {
            seat,
            last: 0,
            joined: 1,
        })
    }

    /// Joins a pass into another, which keeps the names, the pairs and the items of both.
    pub fn join(&self, gone: Pass<V>, into: &mut Pass<V>)
        requires gone { IsPassOf self.now gone }
        requires into { IsPassOf self.now into.old }
        ensures own { IsPassOf self.now into.new }
        ensures number { number_of into.new ≡ number_of into.old }
        ensures names { names_of into.new ≡ names_of into.old ++ names_of gone }
        ensures apart { NoTwice (names_of into.new) }
        ensures made { made_of into.new ≡ made_of into.old ++ made_of gone }
        ensures drawn { drawn_of into.new ≡ max (drawn_of into.old) (drawn_of gone) }
        ensures longer { (seen_of into.new).items ≡ longer (seen_of into.old).items (seen_of gone).items }
        ensures of_into { mine_in (names_of into.old) (seen_of into.new).items ≡ mine_of into.old }
        ensures of_gone { mine_in (names_of gone) (seen_of into.new).items ≡ mine_of gone }
        ensures from_into { Begins (seen_of into.old).items (seen_of into.new).items }
        ensures from_gone { Begins (seen_of gone).items (seen_of into.new).items }
        ensures sound { IsSound V.tale (view_of into.new) }
    {
        let Pass { seat, last, joined } = gone;
        self.merge(&mut into.seat, seat);
        into.last = into.last.max(last);
        into.joined += joined;
    }

    /// Gives back the value, which stands for all that the pass has seen.
    /// At `Err` another pass was not joined.
    pub fn close(self, mut pass: Pass<V>) -> Result<V, (Turn<V>, Pass<V>)>
        requires { IsPassOf self pass }
        ensures whole { IfOk result (λ _. IsWhole (view_of pass)) }
        ensures value { IfOk result (λ v. v ≡ value_of V.tale (seen_of pass)) }
        ensures legal { IfOk result (λ _. IsLegal V.tale (seen_of pass)) }
        ensures mine { IfOk result (λ _. mine_of pass ≡ (seen_of pass).items) }
        ensures parted { IfErr result (λ _. IsWhole (view_of pass) → ⊥) }
        ensures err { IfErr result (λ r. (r.0 ≡ self) × (view_of r.1 ≡ view_of pass)) }
        ensures own { IfErr result (λ r. IsPassOf r.0 r.1) }
    {
        let joined = pass.joined;
        if self.ends(&mut pass.seat, joined) {
            let Pass {
                seat,
                last: _,
                joined: _,
            } = pass;
            Ok(self.open(seat))
        } else {
            Err((self, pass))
        }
    }
}

// The one slot, with the value.
fn one_slot<V>(alloc: Global, value: V) -> Result<Vec<Option<V>>, (V, OutOfMemory)>
    ensures ok { IfOk result (λ s. s.items ≡ Some value ∷ []) }
    ensures err { IfErr result (λ e. e.0 ≡ value) }
{
    let mut slots = Vec::new(alloc);
    match slots.push(Some(value)) {
        Ok(()) => Ok(slots),
        Err(AllocFailed { value }) => {
            slots.destroy_empty();
            match value {
                Some(value) => Err((value, OutOfMemory)),
                None => unreachable!(),
            }
        }
    }
}

// The value of the one slot.
fn the_one<V>(mut slots: Vec<Option<V>>) -> V
    requires { (x : V) × (slots.items ≡ Some x ∷ []) }
    ensures { slots.items ≡ Some result ∷ [] }
{
    match slots.pop() {
        Some(Some(value)) => {
            slots.destroy_empty();
            value
        }
        _ => unreachable!(),
    }
}
