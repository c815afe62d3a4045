// The sender's list over the ring of ranges. Its ranges have no tags.

use crate::OutOfMemory;
use std::alloc::Global;
use std::marker::Model;
use udt_ranges::{LinkedRanges, Range};

/// The offsets that were reported lost and are to be retransmitted, each once, in rising order. Only
/// `new` takes memory.
#[derive(Drop)]
pub struct SndLoss {
    ranges: LinkedRanges<()>,
    // the offset of the last drop, and how many offsets there are
    floor: u64,
    count: u64,
}

impl Model for SndLoss {
    ghost use Rattle.udt_snd_loss.specs.Lost.{LossList};

    ghost Value = { LossList };

    ghost use Rattle.udt_snd_loss.specs.Inside.{seen, is_loss_list};

    ghost view = { seen };

    ghost invariant = { is_loss_list };
}

impl SndLoss {
    ghost use Rattle.std.specs.Prelude.{◌≡◌, ◌+◌, ◌<◌, ◌≤◌, ◌↔◌, [], length, drop, IfOk, IsNone};
    ghost use Rattle.udt_model.specs.Losses.{with_range, from_offset, without_range, ranges_of};
    ghost use Rattle.udt_ranges.specs.Offsets.{least};
    ghost use Rattle.udt_snd_loss.specs.Lost.{LossList, IsInWindow};

    /// An empty list for offsets within a window, with the memory that it will ever have.
    pub fn new(alloc: Global, window: u32) -> Result<SndLoss, OutOfMemory>
        ensures { IfOk result (λ l. l ≡ record { window = window; floor = 0; lost = [] }) }
    {
        let ranges = LinkedRanges::new(alloc, window, ())?;
        Ok(SndLoss {
            ranges,
            floor: 0,
            count: 0,
        })
    }

    /// Adds all offsets of a range, each once.
    pub fn add(&mut self, from: u64, to: u64)
        requires order { from ≤ to }
        requires floor { self.old.floor ≤ from }
        requires room { to < self.old.floor + self.old.window }
        ensures { self.new ≡ record self.old { lost = with_range from to self.old.lost } }
    {
        let removed = self.ranges.insert(Range {
            first: from,
            last: to,
            tag: (),
        });
        self.count = self.count - removed + (to - from + 1);
    }

    /// Drops all offsets below this one. Those that follow lie within the window above it.
    pub fn drop_below(&mut self, n: u64)
        requires { self.old.floor ≤ n }
        ensures { self.new ≡ record self.old { floor = n; lost = from_offset n self.old.lost } }
    {
        if n == 0 {
            return;
        }
        self.remove(0, n - 1);
        self.floor = n;
    }

    /// Takes out all offsets of a range.
    pub fn remove(&mut self, from: u64, to: u64)
        ensures { self.new ≡ record self.old { lost = without_range from to self.old.lost } }
    {
        if from <= to {
            let removed = self.ranges.cut(from, to);
            self.count -= removed;
        }
    }

    /// How many offsets there are.
    pub fn len(&self) -> u64
        ensures value { result ≡ length self.now.lost }
        ensures within { IsInWindow self.now }
    {
        self.count
    }

    /// Takes out the least offset.
    pub fn take_first(&mut self) -> Option<u64>
        ensures value { result ≡ least self.old.lost }
        ensures next { self.new ≡ record self.old { lost = drop 1 self.old.lost } }
        ensures none { IsNone result ↔ (self.old.lost ≡ []) }
    {
        let first = match self.first() {
            None => return None,
            Some(first) => first,
        };
        self.remove(first, first);
        Some(first)
    }

    // the least offset
    fn first(&self) -> Option<u64>
        ensures value { result ≡ least self.now.lost }
        ensures within { IsInWindow self.now }
    {
        self.ranges.first()
    }

    /// How many ranges of consecutive offsets there are.
    pub fn ranges(&self) -> u64
        ensures { result ≡ length (ranges_of self.now.lost) }
    {
        self.ranges.count()
    }
}
