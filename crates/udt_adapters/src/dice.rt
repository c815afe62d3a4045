// The system's random words.

ghost use Rattle.std.specs.Prelude.{None};

use std::random::RandomSource;
use std::rt;
use std::time::{SystemTime, UNIX_EPOCH};
use udt_outside::Dice;

/// Dice whose words are the system's random bytes.
#[derive(Drop)]
pub struct SystemDice<R> {
    rt: R,
}

impl<R: RandomSource + rt::Clock> SystemDice<R> {
    /// Dice over this runtime.
    pub fn new(rt: R) -> SystemDice<R> {
        SystemDice { rt }
    }

    // the wall clock's nanoseconds, and 0 where it can't be read
    fn moment(&self) -> u64 {
        let Ok(now) = SystemTime::now(&self.rt) else {
            return 0;
        };
        match now.duration_since(UNIX_EPOCH) {
            Ok(since) => u64::try_from(since.as_nanos()).unwrap_or(0),
            Err(_) => 0,
        }
    }
}

impl<R: RandomSource + rt::Clock> Dice for SystemDice<R> {
    ghost words = { λ d. None };

    /// Where the system has no random bytes, the word is what the wall clock shows.
    fn word(&mut self) -> u64 {
        let mut bytes = [0; 8];
        match self.rt.fill_bytes(&mut bytes) {
            Ok(()) => u64::from_le_bytes(bytes),
            Err(_) => self.moment(),
        }
    }
}
