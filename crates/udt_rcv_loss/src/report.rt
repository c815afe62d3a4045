// The ranges of a report, in memory that was taken at its making.

use crate::OutOfMemory;
use std::alloc::Global;
use std::marker::Model;

// A range by its ends.
#[derive(Drop)]
struct Ends {
    first: u64,
    last: u64,
}

impl Model for Ends {
    ghost use Rattle.udt_model.specs.Losses.{LostRange};

    ghost Value = { LostRange };

    ghost view = { λ e. record { first = e.first; last = e.last } };
}

/// The ranges of a report, in order. It has room for as many words as it was made for: a range
/// of one offset takes one word, any other two.
#[derive(Drop)]
pub struct Ranges {
    ends: Vec<Ends>,
    words: u32,
}

impl Model for Ranges {
    ghost use Rattle.udt_rcv_loss.specs.Reports.{Report};

    ghost Value = { Report };

    ghost use Rattle.std.specs.Prelude.{◌≤◌};
    ghost use Rattle.std.specs.Vec.{vec_capacity};

    ghost view = { λ r. record { words = r.words; ranges = r.ends.items } };

    ghost invariant = { λ r. r.words ≤ vec_capacity r.ends };
}

impl Ranges {
    ghost use Rattle.std.specs.Prelude.{◌≡◌, ◌<◌, ◌++◌, ◌∷◌, [], length, slice_get, Some, IfOk};

    /// No ranges, with room for this many words.
    pub fn new(alloc: Global, words: u32) -> Result<Ranges, OutOfMemory>
        ensures { IfOk result (λ r. r ≡ record { words = words; ranges = [] }) }
    {
        let ends = Vec::with_capacity(alloc, words as usize)?;
        Ok(Ranges { ends, words })
    }

    /// How many ranges there are.
    pub fn len(&self) -> usize
        ensures { result ≡ length self.now.ranges }
    {
        self.ends.len()
    }

    /// The first and the last offset of a range.
    pub fn get(&self, i: usize) -> (u64, u64)
        requires { i < length self.now.ranges }
        ensures { slice_get self.now.ranges i ≡ Some (record { first = result.0; last = result.1 }) }
    {
        let ends = &self.ends[i];
        (ends.first, ends.last)
    }

    /// Takes out all ranges.
    pub fn clear(&mut self)
        ensures { self.new ≡ record self.old { ranges = [] } }
    {
        self.ends.clear();
    }

    // puts a range after the others
    pub(crate) fn push(&mut self, first: u64, last: u64)
        requires { length self.old.ranges < self.old.words }
        ensures { self.new
            ≡ record self.old { ranges = self.old.ranges ++ record { first = first; last = last } ∷ [] } }
    {
        let _ = self.ends.push(Ends { first, last });
    }
}
