// Where moments and random words come from.

/// A clock, whose readings are microseconds. One reading may be below an earlier one.
pub trait Clock: Sized {
    ghost use Rattle.std.specs.Prelude.{◌≡◌, ℕ, List, Option, IfSome};
    ghost use Rattle.udt_outside.specs.Readings.{Has};

    // a list of which each reading is a value
    ghost readings: { Self → Option (List ℕ) };

    /// The moment that the clock shows.
    fn now(&self) -> u64
        ensures { IfSome (readings self.now) (λ moments. Has moments result) };

    /// A clock of the same readings.
    fn another(&self) -> Self
        ensures { readings result ≡ readings self.now };
}

/// A source of random words.
pub trait Dice {
    ghost use Rattle.std.specs.Prelude.{ℕ, List, Option};
    ghost use Rattle.udt_outside.specs.Options.{Adds};

    // the words that it gave
    ghost words: { Self → Option (List ℕ) };

    /// The next word.
    fn word(&mut self) -> u64
        ensures { Adds (words self.old) (words self.new) result };
}
