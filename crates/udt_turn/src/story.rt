//! What a value tells of itself, and the histories for which it may stand.
ghost use Rattle.std.specs.Prelude.{◌≡◌, Option, None};
ghost use Rattle.udt_turn.specs.Story.{Telling};

use std::marker::Brand;

/// A value that stands for a history.
pub trait Story {
    /// What an item of a history says, beside the number of the pass that made it. No value of it is made.
    type Entry;

    // How its histories go on, and what a value tells.
    ghost tale: { Telling Self Self.Entry };

    // Some value, which stands where there is none.
    ghost any: { Self };

    fn count(&self) -> u64
        ensures { result ≡ tale.count self.now };

    fn bits(&self) -> u8
        ensures { result ≡ tale.bits self.now };
}

/// Names the item that a call of `Held::publish` adds. The caller passes `Brand`, and its proof picks the item.
pub trait Naming<E> {
    ghost item: { Option E };
}

impl<E> Naming<E> for Brand {
    ghost item = { None };
}
