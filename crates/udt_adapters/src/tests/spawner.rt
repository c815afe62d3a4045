// Jobs in threads of their own.

ghost use Rattle.std.specs.Prelude.{◌≡◌, ◌+◌, IfOk, IfSome};

use crate::ThreadSpawner;
use std::rt::Clock;
use std::sync::Wait;
use std::thread::Threads;
use udt_outside::{Failed, Hand, Spawner, Work, start};

// A job that doubles a number.
#[derive(Drop)]
struct Doubling {
    number: u64,
}

impl Work for Doubling {
    ghost use Rattle.std.specs.Prelude.{◌≡◌, ◌+◌, ◌%◌, ◌^◌};

    ghost becomes = { λ before after. after.number ≡ (before.number + before.number) % 2 ^ 64 };

    fn run<R: Wait + Threads + Clock + Copy + Send + Sync>(&mut self, _rt: &R) {
        self.number = self.number.wrapping_add(self.number);
    }
}

fn spawn<R: Wait + Threads + Clock + Copy + Send + Sync + 'static>(
    rt: &R,
    spawner: &mut ThreadSpawner,
    job: Doubling,
) -> Result<Hand<Doubling>, Failed>
    ensures { IfOk result (λ hand. hand ≡ job) }
{
    spawner.spawn(
        job,
        |job| -> Option<Hand<Doubling>>
            ensures { IfSome result (λ hand. hand ≡ job) }
        { start(rt, job) },
    )
}

#[test]
fn a_job_runs_in_a_thread_and_a_start_may_be_refused(rt: HostRuntime) {
    let mut spawner = ThreadSpawner::new();
    for number in [1, 21] {
        match spawn(&rt, &mut spawner, Doubling { number }) {
            Ok(hand) => assert_eq!(rt; hand.join(&rt).number, 2 * number),
            Err(_) => panic!(rt; "no thread"),
        }
    }
    let refused: Result<u8, Failed> = spawner.spawn(Doubling { number: 1 }, |_| None);
    assert_eq!(rt; refused, Err(Failed));
}
