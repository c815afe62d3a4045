// What is due in the linked ranges: runs of consecutive offsets, whatever their reports.

ghost use Rattle.std.specs.Prelude.{◌≡◌, ◌+◌, ◌≤◌, ◌<◌, ◌∷◌, ◌++◌, [], true, Option, length, IfSome, IfNone, Some};
ghost use Rattle.udt_model.specs.Losses.{fitting_ranges, words_of_range};
ghost use Rattle.udt_ranges.specs.Ranges.{IsWithin, EndsBelow, IsFrom};
ghost use Rattle.udt_rcv_loss.specs.Tags.{is_due_range};
ghost use Rattle.udt_ranges.specs.Cursors.{IsCursor, before, following, begins_at, through, beyond, head_of};
ghost use Rattle.udt_rcv_loss.specs.Runs.{IsCutAt, IsTaken, IsNextRun, ends_of_run, runs_of};

use crate::last_report::LastReport;
use crate::report::Ranges;
use udt_ranges::{LinkedRanges, Range};

/// Consecutive offsets that are due, and the first offset of the last range among them.
#[derive(Clone, Copy)]
pub(crate) struct Run {
    pub first: u64,
    pub last: u64,
    pub cursor: u64,
}

// the run that begins with a range
fn run_from(ranges: &LinkedRanges<LastReport>, range: Range<LastReport>, now: u64, rtt: u64) -> Run
    requires cursor { begins_at range.first ranges.now.ranges ≡ true }
    requires cut { IsCutAt range.first range.last ranges.now.ranges }
    requires order { range.first ≤ range.last }
    requires due { is_due_range now rtt range ≡ true }
    ensures cut { IsCutAt result.cursor result.last ranges.now.ranges }
    ensures first { result.first ≡ range.first }
    ensures order { result.first ≤ result.last }
    ensures due { runs_of now rtt (range ∷ beyond range.first ranges.now.ranges)
        ≡ ends_of_run result ∷ runs_of now rtt (beyond result.cursor ranges.now.ranges) }
{
    let mut last = range.last;
    let mut cursor = range.first;
    'run: loop {
        let next = match ranges.next_range(Some(cursor)) {
            None => return Run {
                first: range.first,
                last,
                cursor,
            },
            Some(next) => next,
        };
        if next.first - last != 1 {
            return Run {
                first: range.first,
                last,
                cursor,
            };
        }
        if !next.tag.is_due(now, rtt) {
            return Run {
                first: range.first,
                last,
                cursor,
            };
        }
        cursor = next.first;
        last = next.last;
    }
}

// the next run after a place
fn next_run(ranges: &LinkedRanges<LastReport>, from: Option<u64>, now: u64, rtt: u64) -> Option<Run>
    requires { IsCursor from ranges.now.ranges }
    ensures some { IfSome result (IsNextRun now rtt from ranges.now.ranges) }
    ensures none { IfNone result (runs_of now rtt (following from ranges.now.ranges) ≡ []) }
{
    let mut cursor = from;
    'skip: loop {
        let range = match ranges.next_range(cursor) {
            None => return None,
            Some(range) => range,
        };
        if range.tag.is_due(now, rtt) {
            return Some(run_from(ranges, range, now, rtt));
        }
        cursor = Some(range.first);
    }
}

/// Writes down the runs that are due, as many as fit into this many words, and gives the last offset
/// among them.
pub(crate) fn choose(
    ranges: &LinkedRanges<LastReport>,
    now: u64,
    rtt: u64,
    words: u32,
    into: &mut Ranges,
) -> Option<u64>
    requires empty { into.old.ranges ≡ [] }
    requires room { words ≤ into.old.words }
    ensures kept { into.new.words ≡ into.old.words }
    ensures report { into.new.ranges ≡ fitting_ranges words (runs_of now rtt ranges.now.ranges) }
    ensures none { IfNone result (into.new.ranges ≡ []) }
    ensures some { IfSome result (λ last. IsTaken now rtt last into.new.ranges ranges.now.ranges) }
{
    let mut cursor = None;
    let mut taken = None;
    let mut left = words;
    'choose: loop {
        let run = match next_run(ranges, cursor, now, rtt) {
            None => return taken,
            Some(run) => run,
        };
        let cost = words_of(run);
        if left < cost {
            return taken;
        }
        into.push(run.first, run.last);
        left -= cost;
        taken = Some(run.last);
        cursor = Some(run.cursor);
    }
}

// how many words a run takes
fn words_of(run: Run) -> u32
    ensures value { result ≡ words_of_range (ends_of_run run) }
    ensures some { 0 < result }
{
    if run.first == run.last { 1 } else { 2 }
}
