//! The single steps of passes: count, number, split, join, look and end.
use crate::rule::{Branch, Count, End, Glance, Merge, Number, Sat, Settle};
use crate::story::Story;
use crate::turn::Turn;

// The number of numbers for passes, 0 among them.
const PASSES: u64 = 65_535;

impl<V: Story> Turn<V> {
    ghost use Rattle.std.specs.Prelude.{◌≡◌, ℕ, ◌+◌, ◌*◌, ◌%◌, ◌^◌, ◌<◌, ◌≤◌, [], ◌∷◌, Some, None, IsTrue, IsFalse, length, MatchBool, true, false};
    ghost use Rattle.udt_turn.specs.declared.view.Stage.TheVariants.{Idle, Owning, Alone};
    ghost use Rattle.udt_turn.specs.History.{value_of, mine_in, Begins, longer};
    ghost use Rattle.udt_turn.specs.Rule.{NoTwice};
    ghost use Rattle.udt_turn.specs.Kinds.{at_stage, drawn_to, parent_of, child_of, joined, Shows, HasDrawn, HasFound, IsSound, IsWhole};

    // Loads word 0, and shows the history.
    pub(crate) fn glance(&self, seat: &mut Sat<V>) -> u64
        requires own { seat.old.table_id ≡ self.now.table.shared.table_id }
        requires idle { seat.old.me.0.stage ≡ Idle }
        ensures same { (seat.new.table_id ≡ seat.old.table_id) × (seat.new.id ≡ seat.old.id) }
        ensures shows { Shows V.tale seat.old.me result seat.new.me }
    {
        self.table.shared.load::<Glance>(seat, 0)
    }

    // Draws a number, and says whether it did.
    pub(crate) fn number(&self, seat: &mut Sat<V>) -> bool
        requires own { seat.old.table_id ≡ self.now.table.shared.table_id }
        requires idle { seat.old.me.0.stage ≡ Idle }
        ensures same { (seat.new.table_id ≡ seat.old.table_id) × (seat.new.id ≡ seat.old.id) }
        ensures drew { IsTrue result → HasDrawn seat.old.me seat.new.me }
        ensures full { IsFalse result → HasFound seat.old.me seat.new.me }
        ensures sound { IsSound V.tale seat.new.me.0 }
    {
        if self.table.shared.load::<Count>(seat, 3) >= PASSES {
            return false;
        }
        self.table.shared.fetch_add::<Number>(seat, 3, 1) < PASSES
    }

    // Splits off a seat with the number that is owned.
    pub(crate) fn branch(&self, seat: &mut Sat<V>) -> Sat<V>
        requires own { seat.old.table_id ≡ self.now.table.shared.table_id }
        requires owns { (n : ℕ) × (seat.old.me.0.stage ≡ Owning n) }
        ensures same { (seat.new.table_id ≡ seat.old.table_id) × (seat.new.id ≡ seat.old.id) }
        ensures parent { seat.new.me ≡ (parent_of seat.old.me.0, seat.old.me.1) }
        ensures child { (result.table_id ≡ seat.old.table_id) × (result.me ≡ (child_of seat.old.me.0, [])) }
    {
        self.table.shared.split_seat::<Branch>(seat)
    }

    // Joins a seat into another, and looks at what both had seen.
    pub(crate) fn merge(&self, seat: &mut Sat<V>, gone: Sat<V>)
        requires own { seat.old.table_id ≡ self.now.table.shared.table_id }
        requires gone { (gone.table_id ≡ self.now.table.shared.table_id) × (gone.me.1 ≡ []) }
        requires idle { (seat.old.me.0.stage ≡ Idle) × (gone.me.0.stage ≡ Idle) }
        ensures same { (seat.new.table_id ≡ seat.old.table_id) × (seat.new.id ≡ seat.old.id) }
        ensures both { seat.new.me ≡ (record (joined seat.old.me.0 gone.me.0) { told = [] }, seat.old.me.1) }
        ensures sound { IsSound V.tale seat.new.me.0 }
        ensures from_old { Begins seat.old.me.0.seen.items seat.new.me.0.seen.items }
        ensures from_gone { Begins gone.me.0.seen.items seat.new.me.0.seen.items }
        ensures few { length seat.new.me.0.names ≤ 65535 }
        ensures old_made { mine_in seat.old.me.0.names seat.new.me.0.seen.items
            ≡ mine_in seat.old.me.0.names seat.old.me.0.seen.items }
        ensures gone_made { mine_in gone.me.0.names seat.new.me.0.seen.items
            ≡ mine_in gone.me.0.names gone.me.0.seen.items }
        ensures once { NoTwice seat.new.me.0.names }
    {
        self.table.shared.join_seat::<Merge>(seat, gone);
        self.table.shared.load::<Settle>(seat, 0);
    }

    // Says whether as many passes as were ever made are joined in this one.
    pub(crate) fn ends(&self, seat: &mut Sat<V>, joined: u64) -> bool
        requires own { seat.old.table_id ≡ self.now.table.shared.table_id }
        requires idle { seat.old.me.0.stage ≡ Idle }
        requires names { joined ≡ length seat.old.me.0.names }
        ensures same { (seat.new.table_id ≡ seat.old.table_id) × (seat.new.id ≡ seat.old.id) }
        ensures alone { IsTrue result
            → (seat.new.me ≡ (at_stage seat.old.me.0 Alone, seat.old.me.1)) × IsWhole seat.old.me.0 }
        ensures parted { IsFalse result → (seat.new.me ≡ seat.old.me) × (IsWhole seat.old.me.0 → ⊥) }
    {
        self.table.shared.load::<End>(seat, 3).min(PASSES) == joined
    }

    // Takes the turn apart, for whoever knows that it is alone.
    pub(crate) fn open(self, seat: Sat<V>) -> V
        requires own { seat.table_id ≡ self.table.shared.table_id }
        requires alone { seat.me.0.stage ≡ Alone }
        requires whole { IsWhole seat.me.0 }
        ensures value { result ≡ value_of V.tale seat.me.0.seen }
        ensures sound { IsSound V.tale seat.me.0 }
    {
        let Turn { table } = self;
        let mut closed = table.close_with(seat);
        let slot = closed.take(0);
        closed.free();
        match slot {
            Some(value) => value,
            None => unreachable!(),
        }
    }
}
