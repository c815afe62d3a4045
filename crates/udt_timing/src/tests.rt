// Worked tables, each computed by hand from the formulas.

use super::*;
use std::test::*;

#[test]
fn windows_tell_their_rates(rt: HostRuntime) -> Result<(), Fail> {
    // this many of one sample, this many of another; the speed and the capacity that they tell
    let table = [
        (16, 100, 0, 0, 10_000, 10_000),
        (9, 100, 7, 10_000, 10_000, 10_000),
        (8, 100, 8, 10_000, 0, 100),
        (15, 100, 0, 0, 0, 0),
        (16, 0, 0, 0, 0, 0),
        (16, 3_000_000, 0, 0, 0, 0),
        // the oldest sample leaves
        (1, 10_000, 16, 100, 10_000, 10_000),
        (9, 1, 8, 50, 0, 20_000),
    ];
    for (count, sample, more, other, speed, capacity) in table {
        let mut samples = Samples::new(rt.alloc())?;
        for _ in 0..count {
            samples.push(sample);
        }
        for _ in 0..more {
            samples.push(other);
        }
        assert_eq!(rt;
            samples.speed(),
            speed,
            "{count} of {sample}, {more} of {other}"
        );
        assert_eq!(rt;
            samples.capacity(),
            capacity,
            "{count} of {sample}, {more} of {other}"
        );
    }
    // 100 to 1,600: 900 is the ninth, and 100 is less than an eighth of it
    let mut samples = Samples::new(rt.alloc())?;
    for sample in 1..17u64 {
        samples.push(1_700 - 100 * sample);
    }
    assert_eq!(rt; (samples.speed(), samples.capacity()), (1_111, 1_111));
    Ok(())
}

#[test]
fn times_are_smoothed_and_acks_are_found(rt: HostRuntime) -> Result<(), Fail> {
    let mut known = Rtt::new();
    assert_eq!(rt;
        (known.rtt, known.var, known.period()),
        (100_000, 50_000, 460_000)
    );
    // a sample; the time, the variance and the period after it
    let table = [
        (20_000, 90_000, 57_500, 427_500),
        (90_003, 90_000, 43_125, 413_125),
        (100_000_000, 7_578_750, 15_009_843, 45_334_843),
        (0, 6_631_406, 13_152_069, 39_687_693),
    ];
    for (sample, time, variance, period) in table {
        known.sample(sample);
        assert_eq!(rt;
            (known.rtt, known.var, known.period()),
            (time, variance, period)
        );
    }

    let mut window = AckWindow::new(rt.alloc())?;
    for (number, ack, now) in [(1, 10, 100), (2, 20, 200), (1, 30, 300), (3, 40, 400)] {
        window.note(number, ack, now);
    }
    // the last under a number comes first, and each once
    let table = [
        (4, None),
        (1, Some((30, 300))),
        (1, Some((10, 100))),
        (1, None),
        (3, Some((40, 400))),
        (2, Some((20, 200))),
        (2, None),
    ];
    for (number, found) in table {
        assert_eq!(rt; window.take(number), found, "{number}");
    }
    for number in 0..1_025u32 {
        window.note(number, 7, 8);
    }
    let table = [
        (0, None),
        (1, Some((7, 8))),
        (1_024, Some((7, 8))),
        (700, Some((7, 8))),
        (700, None),
        (701, Some((7, 8))),
    ];
    for (number, found) in table {
        assert_eq!(rt; window.take(number), found, "{number}");
    }
    Ok(())
}
