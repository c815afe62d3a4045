// A spawner that refuses jobs as a list says.

use crate::failed::Failed;
use crate::memory::calls::Calls;
use crate::spawner::{Spawner, Work};
use std::marker::Model;

/// A spawner whose calls with the numbers of a list are refused, and which starts each other job.
#[derive(Drop)]
pub struct ListSpawner {
    calls: Calls,
    refused: u64,
}

impl Model for ListSpawner {
    ghost use Rattle.udt_outside.specs.Spawners.{Starts};

    ghost Value = { Starts };

    ghost view = { λ s. record { calls = s.calls; refused = s.refused } };
}

impl ListSpawner {
    ghost use Rattle.std.specs.Prelude.{◌≡◌};

    /// A spawner whose calls with the numbers in `failing` fail. The first call is number 1.
    pub fn new(failing: Vec<u64>) -> ListSpawner
        ensures failing { result.calls.failing ≡ failing.items }
        ensures none_made { result.calls.made ≡ 0 }
        ensures none_refused { result.refused ≡ 0 }
    {
        ListSpawner {
            calls: Calls::new(failing),
            refused: 0,
        }
    }
}

impl<J: Work + Drop> Spawner<J> for ListSpawner {
    ghost use Rattle.std.specs.Prelude.{◌≡◌, ◌≤◌, Some, OnErr, OnOk, IfOk, is_err, IsTrue};
    ghost use Rattle.udt_outside.specs.Faults.{Rose};
    ghost use Rattle.udt_outside.specs.Calls.{fails_next};
    ghost use Rattle.udt_outside.specs.Spawners.{start_faults, after_start, after_refusal};

    ghost faults = { start_faults };

    fn spawn<H, F: FnOnce(J) -> Option<H>>(&mut self, job: J, start: F) -> Result<H, Failed>
        requires { F.pre start job }
        ensures faults_stay { start_faults self.old ≤ start_faults self.new }
        ensures faults_kept { OnOk result (start_faults self.new ≡ start_faults self.old) }
        ensures failed { OnErr result (Rose (start_faults self.old) (start_faults self.new)) }
        ensures ok { IfOk result (λ given. F.post start job (Some given)) }
        ensures fails_by_list { IsTrue (fails_next self.old.calls) → IsTrue (is_err result) }
        ensures next { OnOk result (self.new ≡ after_start self.old) }
        ensures kept { OnErr result (self.new ≡ after_refusal self.old) }
    {
        if self.calls.count() {
            return Err(Failed);
        }
        match start(job) {
            Some(given) => Ok(given),
            None => {
                self.refused = self.refused.saturating_add(1);
                Err(Failed)
            }
        }
    }
}
