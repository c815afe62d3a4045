// The reports of ranges, renewed.

ghost use Rattle.std.specs.Prelude.{◌≡◌, map};
ghost use Rattle.udt_ranges.specs.Ranges.{IsWithin};
ghost use Rattle.udt_ranges.specs.Merging.{IsMaximal};
ghost use Rattle.udt_rcv_loss.specs.Tags.{missing_in, reported_to, same_report};

use crate::last_report::LastReport;
use udt_ranges::LinkedRanges;

// Gives all ranges that end by an offset and are due at this moment a new report, with round trips of
// this many microseconds.
pub(crate) fn report(ranges: &mut LinkedRanges<LastReport>, last: u64, now: u64, rtt: u64)
    requires { IsWithin ranges.old.window ranges.old.ranges }
    ensures kept { ranges.new.window ≡ ranges.old.window }
    ensures next { missing_in ranges.new.ranges
        ≡ missing_in (map (reported_to last now rtt) ranges.old.ranges) }
    ensures maximal { IsMaximal same_report ranges.new.ranges }
    ensures whole { IsWithin ranges.new.window ranges.new.ranges }
{
    let mut cursor = None;
    'report: loop {
        let range = match ranges.next_range(cursor) {
            None => return,
            Some(range) => range,
        };
        let tag = LastReport::renewed(range, last, now, rtt);
        cursor = ranges.retag_next(cursor, range, tag);
    }
}
