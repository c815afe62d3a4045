// The receiver's list over the ring of ranges. A range has one report.

use crate::OutOfMemory;
use crate::due::choose;
use crate::last_report::LastReport;
use crate::renew::report as renew;
use crate::report::Ranges;
use std::alloc::Global;
use std::marker::Model;
use udt_ranges::{LinkedRanges, Range};

/// The packets that have not arrived, each with the moment of its last report and how many round
/// trips pass from it to the next, in rising order. Only `new` takes memory.
#[derive(Drop)]
pub struct RcvLoss {
    ranges: LinkedRanges<LastReport>,
}

impl Model for RcvLoss {
    ghost use Rattle.udt_rcv_loss.specs.Absent.{MissingList};

    ghost Value = { MissingList };

    ghost use Rattle.udt_rcv_loss.specs.Inside.{seen, is_missing_list};

    ghost view = { seen };

    ghost invariant = { is_missing_list };
}

impl RcvLoss {
    ghost use Rattle.std.specs.Prelude.{◌≡◌, ◌+◌, ◌<◌, ◌≤◌, [], length, IfOk};
    ghost use Rattle.udt_model.specs.Losses.{with_missing, without_missing, is_missing, missing_ranges, report, after_report};
    ghost use Rattle.udt_ranges.specs.Offsets.{least};
    ghost use Rattle.udt_rcv_loss.specs.Absent.{MissingList, offsets_in, IsInWindow, AllBelow, first_or};
    ghost use Rattle.udt_rcv_loss.specs.Reports.{words_of, RangesRise, AreListed};

    /// An empty list for offsets within a window, with the memory that it will ever have.
    pub fn new(alloc: Global, window: u32) -> Result<RcvLoss, OutOfMemory>
        ensures { IfOk result (λ l. l ≡ record { window = window; missing = [] }) }
    {
        let blank = LastReport {
            reported: 0,
            wait: 0,
        };
        let ranges = LinkedRanges::new(alloc, window, blank)?;
        Ok(RcvLoss { ranges })
    }

    /// Adds all offsets of a range after those that are listed, reported now.
    pub fn add(&mut self, from: u64, to: u64, now: u64)
        requires order { from ≤ to }
        requires above { AllBelow from self.old.missing }
        requires room { to < first_or from self.old.missing + self.old.window }
        ensures { self.new ≡ record self.old { missing = with_missing from to now self.old.missing } }
    {
        self.ranges.insert(Range {
            first: from,
            last: to,
            tag: LastReport {
                reported: now,
                wait: 2,
            },
        });
    }

    /// Takes out an offset, and says whether it was listed.
    pub fn remove(&mut self, n: u64) -> bool
        ensures value { result ≡ is_missing n self.old.missing }
        ensures next { self.new ≡ record self.old { missing = without_missing n n self.old.missing } }
    {
        self.ranges.cut(n, n) > 0
    }

    /// Takes out all offsets of a range.
    pub fn remove_range(&mut self, from: u64, to: u64)
        ensures { self.new ≡ record self.old { missing = without_missing from to self.old.missing } }
    {
        if from <= to {
            self.ranges.cut(from, to);
        }
    }

    /// The least offset.
    pub fn first(&self) -> Option<u64>
        ensures value { result ≡ least (offsets_in self.now.missing) }
        ensures within { IsInWindow self.now }
    {
        self.ranges.first()
    }

    /// How many ranges of consecutive offsets with one report there are.
    pub fn ranges(&self) -> u64
        ensures { result ≡ length (missing_ranges self.now.missing) }
    {
        self.ranges.count()
    }

    /// Writes down what is to be reported at this moment, with round trips of this many microseconds:
    /// the first runs of offsets that are due, as many as fit into this many words.
    pub fn due(&mut self, now: u64, rtt: u64, words: u32, into: &mut Ranges)
        requires { words ≤ into.old.words }
        ensures kept { into.new.words ≡ into.old.words }
        ensures value { into.new.ranges ≡ report now rtt words self.old.missing }
        ensures next { self.new
            ≡ record self.old { missing = after_report now into.new.ranges self.old.missing } }
        ensures fits { words_of into.new.ranges ≤ words }
        ensures rise { RangesRise 0 into.new.ranges }
        ensures listed { AreListed into.new.ranges self.old.missing }
    {
        into.clear();
        let last = match choose(&self.ranges, now, rtt, words, into) {
            None => return,
            Some(last) => last,
        };
        renew(&mut self.ranges, last, now, rtt);
    }
}
