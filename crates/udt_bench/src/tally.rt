//! A number that counts the events, for a turn and for a lock.
ghost use Rattle.std.specs.Prelude.{◌≡◌, ◌+◌, ◌^◌, ◌<◌, MatchBool, ℕ};

use crate::locks::Eventful;
use udt_turn::Story;

// Above this no event is counted.
const MOST: u64 = 1 << 40;

#[derive(Drop)]
pub struct Tally {
    pub count: u64,
}

impl Story for Tally {
    type Entry = ();

    ghost tale = { record { after = λ t e. record { count = t.count + 1 }; legal = λ t e. Unit {0}; count = λ t. t.count; bits = λ t. 0 } };

    ghost any = { record { count = 0 } };

    fn count(&self) -> u64 {
        self.count
    }

    fn bits(&self) -> u8 {
        0
    }
}

impl Tally {
    /// Counts one event more, unless there are very many.
    pub fn add(&mut self) -> bool
        ensures { MatchBool result
            ((self.new.count ≡ self.old.count + 1) × (self.new.count < 2 ^ 55)) (self.new ≡ self.old) }
    {
        if self.count < MOST {
            self.count += 1;
            true
        } else {
            false
        }
    }
}

impl Eventful for Tally {
    fn event(&mut self) {
        self.add();
    }
}
