// The calls of an object in memory, counted, and which of them are to fail.

ghost use Rattle.std.specs.Prelude.{◌≡◌, ◌+◌, if◌then◌else◌};
ghost use Rattle.udt_outside.specs.Calls.{is_failing, failed_of, fails_next, after_call};

use std::marker::Model;

/// The numbers of the calls that are to fail, from 1, how many calls were made, and how many of
/// these failed.
#[derive(Drop)]
pub struct Calls {
    failing: Vec<u64>,
    made: u64,
    failed: u64,
}

impl Model for Calls {
    ghost use Rattle.std.specs.Prelude.{◌≡◌, ◌≤◌};
    ghost use Rattle.udt_outside.specs.Calls.{Schedule, failures_of};

    ghost Value = { Schedule };

    ghost view = { λ c. record { failing = c.failing.items; made = c.made } };

    ghost invariant = { λ c. (c.failed ≡ failures_of c.failing.items c.made) × (c.failed ≤ c.made) };
}

impl Calls {
    /// No call was made yet.
    pub fn new(failing: Vec<u64>) -> Calls
        ensures failing { result.failing ≡ failing.items }
        ensures none_made { result.made ≡ 0 }
    {
        Calls {
            failing,
            made: 0,
            failed: 0,
        }
    }

    /// Counts a call, and says whether it is to fail.
    pub fn count(&mut self) -> bool
        ensures value { result ≡ fails_next self.old }
        ensures next { self.new ≡ after_call self.old }
        ensures faults { failed_of self.new ≡ failed_of self.old + (if result then 1 else 0) }
    {
        if self.made == u64::MAX {
            return false;
        }
        self.made += 1;
        let fails = is_listed(&self.failing, self.made);
        if fails {
            self.failed += 1;
        }
        fails
    }

    /// How many calls failed.
    pub fn failed(&self) -> u64
        ensures { result ≡ failed_of self.now }
    {
        self.failed
    }
}

fn is_listed(failing: &[u64], number: u64) -> bool
    ensures { result ≡ is_failing failing.now number }
{
    failing.contains(&number)
}
