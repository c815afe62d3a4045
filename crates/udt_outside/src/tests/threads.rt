// Clocks, dice, spawners and gates.

ghost use Rattle.std.specs.Prelude.{◌≡◌, ◌+◌, ◌%◌, ◌^◌, IfOk, IfSome};

use crate::{
    Clock, Dice, Failed, FreeGate, Gate, Hand, HoldGate, ListClock, ListDice, ListSpawner, Point,
    Spawner, Work, start,
};
use std::rt;
use std::sync::Wait;
use std::test::Fail;
use std::thread::Threads;

// A job that counts its runs, at a gate.
#[derive(Drop)]
struct Counter<G> {
    runs: u32,
    gate: G,
}

impl<G: Gate> Work for Counter<G> {
    ghost use Rattle.std.specs.Prelude.{◌≡◌, ◌+◌, ◌%◌, ◌^◌};

    ghost becomes = { λ before after. after.runs ≡ (before.runs + 1) % 2 ^ 32 };

    fn run<R: Wait + Threads + rt::Clock + Copy + Send + Sync>(&mut self, rt: &R) {
        self.gate.reach(rt, Point::Before(7));
        self.runs = self.runs.wrapping_add(1);
        self.gate.reach(rt, Point::After(7));
    }
}

fn spawn<
    G: Gate + Send + Drop + 'static,
    S: Spawner<Counter<G>>,
    R: Wait + Threads + rt::Clock + Copy + Send + Sync + 'static,
>(rt: &R, spawner: &mut S, job: Counter<G>) -> Result<Hand<Counter<G>>, Failed>
    ensures { IfOk result (λ hand. hand ≡ job) }
{
    spawner.spawn(
        job,
        |job| -> Option<Hand<Counter<G>>>
            ensures { IfSome result (λ hand. hand ≡ job) }
        { start(rt, job) },
    )
}

#[test]
fn a_job_runs_in_a_thread_and_is_held_at_a_gate(rt: HostRuntime) -> Result<(), Fail> {
    let Ok(gate) = HoldGate::new(rt.alloc(), Point::Before(7)) else {
        panic!(rt; "no memory")
    };
    let mut spawner = ListSpawner::new(Vec::from_slice(rt.alloc(), &[1])?);
    for (runs, done) in [(0, Err(Failed)), (4, Ok(5)), (u32::MAX, Ok(0))] {
        let job = Counter {
            runs,
            gate: gate.another(),
        };
        match spawn(&rt, &mut spawner, job) {
            Ok(hand) => {
                gate.wait(&rt);
                gate.open(&rt);
                assert_eq!(rt; Ok(hand.join(&rt).runs), done);
            }
            Err(failed) => assert_eq!(rt; Err(failed), done),
        }
    }
    FreeGate.another().reach(&rt, Point::Holding(7));
    Ok(())
}

fn moment<C: Clock>(clock: &C) -> u64 {
    clock.now()
}

fn word<D: Dice>(dice: &mut D) -> u64 {
    dice.word()
}

#[test]
fn clocks_and_dice_go_through_their_lists(rt: HostRuntime) -> Result<(), Fail> {
    let clock = ListClock::new(&[5, 3, 9]);
    for shown in [5, 3] {
        assert_eq!(rt; moment(&clock), shown);
    }
    let later = clock.another();
    for shown in [9, 9] {
        assert_eq!(rt; moment(&clock), shown);
        assert_eq!(rt; moment(&later), shown);
    }
    let mut dice = ListDice::new(Vec::from_slice(rt.alloc(), &[7, 8])?);
    for given in [7, 8, 0, 0] {
        assert_eq!(rt; word(&mut dice), given);
    }
    Ok(())
}
