// Jobs, the threads that run them, and what lets a thread be started.

ghost use Rattle.std.specs.Prelude.{◌≡◌, ℕ, ◌≤◌, Some, OnErr, OnOk, IfOk, IfSome};
ghost use Rattle.udt_outside.specs.Faults.{Rose};

use crate::failed::Failed;
use std::marker::Model;
use std::rt::Clock;
use std::snapshot::Snapshot;
use std::sync::Wait;
use std::thread;
use std::thread::{Promise, PromisedHandle, Threads};

/// A job.
pub trait Work: Sized {
    // the first may have become the second by a run
    ghost becomes: { Self → Self → Type 0 };

    /// Does the job.
    fn run<R: Wait + Threads + Clock + Copy + Send + Sync>(&mut self, rt: &R)
        ensures { becomes self.old self.new };
}

/// What a thread gives back is what the job may have become.
#[derive(Drop)]
pub struct Becomes<J>(Snapshot<J>);

impl<J: Work> Promise<J> for Becomes<J> {
    ghost kept_by = { λ p r. J.becomes p.0.value r };
}

/// A thread that runs a job. A contract sees the job that was given to `start`.
pub struct Hand<J: Work> {
    handle: PromisedHandle<J, Becomes<J>>,
}

impl<J: Work> Model for Hand<J> {
    ghost Value = { J };

    ghost view = { λ h. h.handle.promise.0.value };
}

impl<J: Work> Hand<J> {
    /// Waits until the job is done, and gives what it has become.
    pub fn join<R: Wait + Threads + Copy + Send + Sync + 'static>(self, rt: &R) -> J
        ensures { J.becomes self result }
    {
        let Hand { handle } = self;
        handle.join(rt)
    }
}

/// Starts a thread for the job. `None` where none could be started, and the job is dropped.
pub fn start<
    J: Work + Send + Drop + 'static,
    R: Wait + Threads + Clock + Copy + Send + Sync + 'static,
>(rt: &R, job: J) -> Option<Hand<J>>
    ensures { IfSome result (λ hand. hand ≡ job) }
{
    let there = *rt;
    let promise = Becomes(Snapshot::of(&job));
    match thread::spawn_with(
        rt,
        promise,
        move || -> J
            ensures { J.becomes job result }
        { done(&there, job) },
    ) {
        Ok(handle) => Some(Hand { handle }),
        Err(_) => None,
    }
}

fn done<J: Work, R: Wait + Threads + Clock + Copy + Send + Sync>(rt: &R, job: J) -> J
    ensures { J.becomes job result }
{
    let mut job = job;
    job.run(rt);
    job
}

/// What lets jobs be started, or refuses it.
pub trait Spawner<J: Work> {
    ghost faults: { Self → ℕ };

    /// Calls `start` with the job at most once, and gives what that gave. An error drops the job.
    fn spawn<H, F: FnOnce(J) -> Option<H>>(&mut self, job: J, start: F) -> Result<H, Failed>
        requires { F.pre start job }
        ensures faults_stay { faults self.old ≤ faults self.new }
        ensures faults_kept { OnOk result (faults self.new ≡ faults self.old) }
        ensures failed { OnErr result (Rose (faults self.old) (faults self.new)) }
        ensures ok { IfOk result (λ given. F.post start job (Some given)) };
}
