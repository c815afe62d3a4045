//! The single steps of whoever takes the turn: draw, read, take, put and call.
use crate::rule::{Call, Draw, DrawFirst, Leave, Read, Sat, Say};
use crate::story::{Naming, Story};
use crate::turn::Turn;
use std::sync::Wait;
use std::time::Duration;
use std::{hint, thread};

// The number of rounds that are spun before the thread yields.
const SPINS: u32 = 2_000;

// Only a thread spins that has fewer tickets before its own.
const NEAR: u64 = 2;

// The number of rounds for which a thread looks, with no ticket, whether the turn is free.
const ROUNDS: u32 = 10_000;

// In one of so many rounds it sleeps.
const LOOKS: u32 = 100;

// For this long, at the most.
const SLEEP_MICROS: u64 = 50;

impl<V: Story> Turn<V> {
    ghost use Rattle.std.specs.Prelude.{◌≡◌, ℕ, ◌+◌, ◌*◌, ◌%◌, ◌^◌, ◌<◌, ◌≤◌, [], ◌∷◌, Some, None, IsTrue, IsFalse};
    ghost use Rattle.udt_turn.specs.declared.view.Stage.TheVariants.{Idle, Waiting, Holding, Done};
    ghost use Rattle.udt_turn.specs.History.{value_after};
    ghost use Rattle.udt_turn.specs.Kinds.{at_stage, value_found, Agrees, HasTicket, Says, Leaves, Takes};
    ghost use Rattle.atomic_table.specs.Table.{step};
    ghost use mathlib.Core.Option.{none};

    // Draws a ticket. While the turn is taken it waits for a while with none, since a thread that has a ticket and
    // doesn't run holds up all behind it; and then it draws one that is served later.
    pub(crate) fn line_up<R: Wait>(&self, rt: &R, seat: &mut Sat<V>) -> u64
        requires own { seat.old.table_id ≡ self.now.table.shared.table_id }
        requires idle { seat.old.me.0.stage ≡ Idle }
        ensures same { (seat.new.table_id ≡ seat.old.table_id) × (seat.new.id ≡ seat.old.id) }
        ensures drew { (k : ℕ) × (result ≡ k % 2 ^ 64)
            × (seat.new.me ≡ (at_stage seat.old.me.0 (Waiting k), seat.old.me.1)) }
    {
        for round in 0..ROUNDS {
            let served = self.table.shared.peek(2);
            if self.table.shared.peek(1) == served && self.draw_first(seat, served) {
                return served;
            }
            self.stand_by(rt, round, served);
        }
        self.draw(seat)
    }

    // Spins, and now and then sleeps for a short time, unless another ticket is served by then.
    fn stand_by<R: Wait>(&self, rt: &R, round: u32, served: u64) {
        if round % LOOKS < LOOKS - 1 {
            hint::spin_loop();
        } else {
            let span = Duration::from_micros(SLEEP_MICROS);
            self.table
                .shared
                .park_timeout(rt, 2, (served % (1 << 32)) as u32, span);
        }
    }

    // Draws this ticket, if it is the next one. It was served when it was looked for.
    fn draw_first(&self, seat: &mut Sat<V>, served: u64) -> bool
        requires own { seat.old.table_id ≡ self.now.table.shared.table_id }
        requires idle { seat.old.me.0.stage ≡ Idle }
        ensures same { (seat.new.table_id ≡ seat.old.table_id) × (seat.new.id ≡ seat.old.id) }
        ensures drew { IsTrue result → (k : ℕ) × (served ≡ k % 2 ^ 64)
            × (seat.new.me ≡ (at_stage seat.old.me.0 (Waiting k), seat.old.me.1)) }
        ensures missed { IsFalse result → seat.new.me ≡ seat.old.me }
    {
        let next = served.wrapping_add(1);
        self.table
            .shared
            .compare_exchange::<DrawFirst>(seat, 1, served, next)
            == served
    }

    // Draws a ticket, of which the low 64 bits are answered.
    pub(crate) fn draw(&self, seat: &mut Sat<V>) -> u64
        requires own { seat.old.table_id ≡ self.now.table.shared.table_id }
        requires idle { seat.old.me.0.stage ≡ Idle }
        ensures same { (seat.new.table_id ≡ seat.old.table_id) × (seat.new.id ≡ seat.old.id) }
        ensures drew { (k : ℕ) × (result ≡ k % 2 ^ 64)
            × (seat.new.me ≡ (at_stage seat.old.me.0 (Waiting k), seat.old.me.1)) }
    {
        self.table.shared.fetch_add::<Draw>(seat, 1, 1)
    }

    // Reads which ticket is served until it is this one, and takes the slot.
    pub(crate) fn reach<R: Wait>(&self, rt: &R, seat: &mut Sat<V>, ticket: u64)
        requires own { seat.old.table_id ≡ self.now.table.shared.table_id }
        requires drew { (k : ℕ) × (ticket ≡ k % 2 ^ 64) × (seat.old.me.0.stage ≡ Waiting k) }
        ensures same { (seat.new.table_id ≡ seat.old.table_id) × (seat.new.id ≡ seat.old.id) }
        ensures takes { Takes V.tale seat.old.me seat.new.me }
    {
        let mut rounds = 0u32;
        for _ in rt.forever() {
            let served = self.table.shared.load::<Read>(seat, 2);
            if served == ticket {
                return;
            }
            rounds = pause(rounds, ticket.wrapping_sub(served));
        }
        unreachable!()
    }

    // Takes the value out of the slot.
    pub(crate) fn take(&self, seat: &mut Sat<V>) -> V
        requires own { seat.old.table_id ≡ self.now.table.shared.table_id }
        requires slot { (x : V) × (seat.old.me.1 ≡ (0, Some x) ∷ []) }
        ensures same { (seat.new.table_id ≡ seat.old.table_id) × (seat.new.id ≡ seat.old.id) }
        ensures value { seat.old.me.1 ≡ (0, Some result) ∷ [] }
        ensures slot { seat.new.me ≡ (seat.old.me.0, (0, None) ∷ []) }
    {
        match self.table.shared.exchange(seat, 0, None) {
            Some(value) => value,
            None => unreachable!(),
        }
    }

    // Puts the value into the slot, and serves the next ticket.
    pub(crate) fn call(&self, seat: &mut Sat<V>, value: V)
        requires own { seat.old.table_id ≡ self.now.table.shared.table_id }
        requires done { (k : ℕ) × (seat.old.me.0.stage ≡ Done k) }
        requires slot { seat.old.me.1 ≡ (0, None) ∷ [] }
        requires value { value ≡ value_after V.tale seat.old.me.0.seen.opening seat.old.me.0.seen.items }
        ensures same { (seat.new.table_id ≡ seat.old.table_id) × (seat.new.id ≡ seat.old.id) }
        ensures idle { seat.new.me ≡ (at_stage seat.old.me.0 Idle, []) }
    {
        match self.table.shared.exchange(seat, 0, Some(value)) {
            Some(_) => unreachable!(),
            None => (),
        }
        self.table.shared.fetch_add::<Call>(seat, 2, 1);
    }

    // Publishes the item that N names, with the count and the bits after it.
    pub(crate) fn say<N: Naming<V::Entry>>(&self, seat: &mut Sat<V>, count: u64, bits: u8)
        requires own { seat.old.table_id ≡ self.now.table.shared.table_id }
        requires holds { HasTicket seat.old.me.0 }
        requires item { Agrees V.tale N.item (value_found V.tale seat.old.me.0) count bits }
        ensures same { (seat.new.table_id ≡ seat.old.table_id) × (seat.new.id ≡ seat.old.id) }
        ensures said { Says V.tale N.item (step 0 0 0 0 none) seat.old.me 0 seat.new.me }
    {
        self.table
            .shared
            .store::<Say<N>>(seat, 0, count * 256 + u64::from(bits));
    }

    // Says nothing: the history that was found is seen.
    pub(crate) fn pass_by(&self, seat: &mut Sat<V>)
        requires own { seat.old.table_id ≡ self.now.table.shared.table_id }
        requires holds { HasTicket seat.old.me.0 }
        ensures same { (seat.new.table_id ≡ seat.old.table_id) × (seat.new.id ≡ seat.old.id) }
        ensures seen { Leaves (step 0 0 0 0 none) seat.old.me 0 seat.new.me }
    {
        self.table.shared.load::<Leave>(seat, 0);
    }
}

// Spins a little where the turn is near, and then lets other threads run.
fn pause(rounds: u32, distance: u64) -> u32 {
    if rounds < SPINS && distance < NEAR {
        hint::spin_loop();
        rounds + 1
    } else {
        thread::yield_now();
        0
    }
}
