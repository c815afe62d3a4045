// The system's clock.

ghost use Rattle.std.specs.Prelude.{◌≡◌, ◌-◌, ◌/◌, ◌^◌, min};
ghost use Rattle.std.specs.Time.{instant_nanos};

use std::rt;
use std::time::Instant;
use udt_outside::Clock;

/// A clock that shows the microseconds since it was made, by the system's monotonic clock. One got
/// by `another` has the same beginning.
#[derive(Drop)]
pub struct SystemClock<R> {
    rt: R,
    start: Instant,
}

impl<R: rt::Clock + Copy> SystemClock<R> {
    /// A clock that begins now. `None` where the system's clock can't be read.
    pub fn new(rt: R) -> Option<SystemClock<R>> {
        let start = Instant::now(&rt).ok()?;
        Some(SystemClock { rt, start })
    }
}

/// How many whole microseconds lie between two readings, and 0 where the first is the later one.
fn micros_between(start: Instant, now: Instant) -> u64
    ensures { result ≡ min ((instant_nanos now - instant_nanos start) / 1000) (2 ^ 64 - 1) }
{
    let micros = now.duration_since(start).as_micros();
    u64::try_from(micros).unwrap_or(u64::MAX)
}

impl<R: rt::Clock + Copy> Clock for SystemClock<R> {
    ghost use Rattle.std.specs.Prelude.{◌≡◌, None};

    ghost readings = { λ c. None };

    /// Where the system's clock can't be read, the clock shows 0.
    fn now(&self) -> u64 {
        match Instant::now(&self.rt) {
            Ok(now) => micros_between(self.start, now),
            Err(_) => 0,
        }
    }

    fn another(&self) -> SystemClock<R>
        ensures start { result.start ≡ self.now.start }
    {
        SystemClock {
            rt: self.rt,
            start: self.start,
        }
    }
}
