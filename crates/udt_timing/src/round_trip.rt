// The round-trip time of a path, smoothed over its samples.
ghost use Rattle.std.specs.Prelude.{◌≤◌};
ghost use Rattle.udt_model.specs.declared.limits.TheConstants.{GREATEST_RTT, SYN};

use udt_model::{FIRST_RTT, FIRST_RTT_VAR, GREATEST_RTT, SYN};

/// What is known of a path's round-trip time: its smoothed time and how far samples lie off it,
/// both in microseconds.
#[derive(Clone, Copy, Debug, PartialEq, Eq)]
pub struct Rtt {
    pub rtt: u64,
    pub var: u64,
    pub ghost rtt_within: { rtt ≤ GREATEST_RTT },
    pub ghost var_within: { var ≤ GREATEST_RTT },
}

impl Rtt {
    ghost use Rattle.std.specs.Prelude.{◌≡◌, ◌+◌, ◌*◌, ◌≤◌};
    ghost use Rattle.udt_model.specs.Timing.{unmeasured, gap, clamped, after_sample, period_of};
    ghost use Rattle.udt_timing.specs.RoundTrips.{round_trip_of, IsBetween};

    /// A tenth of a second, give or take half of that.
    pub fn new() -> Rtt
        ensures { round_trip_of result ≡ unmeasured }
    {
        Rtt {
            rtt: FIRST_RTT,
            var: FIRST_RTT_VAR,
        }
    }

    /// Takes in how long a packet and its answer took, in microseconds.
    pub fn sample(&mut self, s: u64)
        ensures next { round_trip_of self.new ≡ after_sample (round_trip_of self.old) s }
        ensures between { IsBetween self.old.rtt (clamped s) self.new.rtt }
        ensures spread { IsBetween self.old.var (gap self.old.rtt (clamped s)) self.new.var }
    {
        let sample = s.min(GREATEST_RTT);
        let var = (3 * self.var + self.rtt.abs_diff(sample)) / 4;
        let rtt = (7 * self.rtt + sample) / 8;
        *self = Rtt { rtt, var };
    }

    /// The unit of the NAK and EXP intervals, 4 RTT + RTTVar + SYN, in microseconds.
    pub fn period(&self) -> u64
        ensures value { result ≡ period_of (round_trip_of self.now) }
        ensures within { result ≤ 5 * GREATEST_RTT + SYN }
        ensures at_least { 4 * self.now.rtt + SYN ≤ result }
    {
        4 * self.rtt + self.var + SYN
    }
}
