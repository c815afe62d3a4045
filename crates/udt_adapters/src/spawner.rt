// The spawner of the program.

use udt_outside::{Failed, Spawner, Work};

/// A spawner that starts each job, and counts the starts that gave nothing. The count ends at
/// 2^64 - 1.
#[derive(Drop)]
pub struct ThreadSpawner {
    refused: u64,
}

impl ThreadSpawner {
    ghost use Rattle.std.specs.Prelude.{◌≡◌};

    /// A spawner to which no start was refused.
    pub fn new() -> ThreadSpawner
        ensures { result.refused ≡ 0 }
    {
        ThreadSpawner { refused: 0 }
    }
}

impl<J: Work + Drop> Spawner<J> for ThreadSpawner {
    ghost use Rattle.std.specs.Prelude.{◌≡◌, ◌≤◌, Some, None, OnErr, OnOk, IfOk};
    ghost use Rattle.udt_adapters.specs.Counts.{one_more};

    ghost faults = { λ s. s.refused };

    fn spawn<H, F: FnOnce(J) -> Option<H>>(&mut self, job: J, start: F) -> Result<H, Failed>
        requires { F.pre start job }
        ensures faults_stay { self.old.refused ≤ self.new.refused }
        ensures faults_kept { OnOk result (self.new.refused ≡ self.old.refused) }
        ensures failed { OnErr result (self.new.refused ≡ one_more self.old.refused) }
        ensures ok { IfOk result (λ given. F.post start job (Some given)) }
        ensures refused { OnErr result (F.post start job None) }
    {
        match start(job) {
            Some(given) => Ok(given),
            None => {
                self.refused = self.refused.saturating_add(1);
                Err(Failed)
            }
        }
    }
}
