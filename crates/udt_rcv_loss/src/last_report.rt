// The last report of packets, which a range of them carries.

use udt_ranges::{Range, Tag};

/// When packets were last reported, in microseconds, and how many round trips pass from that report to
/// the next.
#[derive(Clone, Copy, Debug, PartialEq, Eq)]
pub(crate) struct LastReport {
    pub reported: u64,
    pub wait: u32,
}

impl Tag for LastReport {
    ghost use Rattle.udt_rcv_loss.specs.Tags.{same_report};
    ghost use Rattle.udt_rcv_loss.specs.SameReports.{same_report_only};

    ghost same = { same_report };

    fn is_same(self, other: LastReport) -> bool {
        self.reported == other.reported && self.wait == other.wait
    }

    ghost same_only = { same_report_only };
}

impl LastReport {
    ghost use Rattle.std.specs.Prelude.{◌≡◌};
    ghost use Rattle.udt_rcv_loss.specs.Tags.{is_due_report, next_report, new_report};

    /// Whether packets are to be reported again at this moment, with round trips of this many
    /// microseconds.
    pub fn is_due(self, now: u64, rtt: u64) -> bool
        ensures { result ≡ is_due_report now rtt self }
    {
        let since = now.saturating_sub(self.reported);
        u128::from(self.wait) * u128::from(rtt) <= u128::from(since)
    }

    // the report after this one
    fn again(self, now: u64) -> LastReport
        ensures { result ≡ next_report now self }
    {
        LastReport {
            reported: now,
            wait: self.wait.saturating_add(1),
        }
    }

    /// The last report of a range once all that is due up to an offset was reported.
    pub fn renewed(range: Range<LastReport>, last: u64, now: u64, rtt: u64) -> LastReport
        ensures { result ≡ new_report last now rtt range }
    {
        if range.last <= last && range.tag.is_due(now, rtt) {
            return range.tag.again(now);
        }
        range.tag
    }
}
