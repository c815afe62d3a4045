// Laws of the formulas, in the subject's own words.

ghost use Rattle.udt_timing.specs.RoundTrips.{TimeIsBetween, VarianceIsBetween, StaysWithinAMinute};
ghost use Rattle.udt_timing.specs.Windows.{MedianIsNinth, NinthIsOne, KeptAreNear};

/// A smoothed time lies between the old one and the sample.
pub fn time_is_between()
    ensures { TimeIsBetween }
{}

/// A smoothed variance lies between the old one and how far the sample was off the old time.
pub fn variance_is_between()
    ensures { VarianceIsBetween }
{}

/// A time and a variance of at most a minute stay so, whatever the sample.
pub fn stays_within_a_minute()
    ensures { StaysWithinAMinute }
{}

/// Of sixteen samples, nine are at most the median and no more than eight are below it.
pub fn median_is_ninth()
    ensures { MedianIsNinth }
{}

/// No other number has these counts.
pub fn ninth_is_one()
    ensures { NinthIsOne }
{}

/// The samples that the speed keeps are within a factor of eight of the median.
pub fn kept_are_near()
    ensures { KeptAreNear }
{}
