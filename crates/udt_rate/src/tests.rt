// Values worked out by hand, and a caller that knows no more than the trait.
ghost use Rattle.std.specs.Prelude.{◌≡◌, ◌<◌, ◌≤◌, ◌^◌, ◌∷◌, []};
ghost use Rattle.udt_model.specs.Rate.{ways, after_calls, OnAck, OnNak, OnTimeout};

use super::*;

/// Tells a control of an ACK, a NAK and a timeout, as a socket does that knows no more
/// of it than the trait.
fn tells<C: Control>(control: &mut C, first: u64, sent: u64, seen: &Seen) -> (u32, u64)
    requires sent { first < sent }
    requires rate { seen.now.rate < 2 ^ 32 }
    requires capacity { seen.now.capacity < 2 ^ 32 }
    ensures next { control.new ≡ after_calls C.ways control.old
        (OnAck seen.now ∷ OnNak first sent seen.now ∷ OnTimeout seen.now ∷ []) }
    ensures window { result.0 ≡ C.ways.window_of control.new }
    ensures period { result.1 ≡ C.ways.period_of control.new }
{
    control.on_ack(seen);
    control.on_nak(first, sent, seen);
    control.on_timeout(seen);
    (control.window(), control.period())
}

#[test]
fn formulas_give_the_worked_numbers(rt: HostRuntime) {
    for (capacity, inc) in [(20_000, 1_000_000), (10_000, 666), (9_999, 666), (0, 666)] {
        assert_eq!(rt; increase(capacity, 100_000, 1500), inc, "for {capacity}");
    }
    for (period, inc, want) in [
        (100_000, 1_000_000, 99_009),
        (100_000, 0, 100_000),
        (1, 1_000_000, 1),
        (1_000_000_000, 10_000_000, 999_000),
    ] {
        assert_eq!(rt; shorter(period, inc), want, "for {period} and {inc}");
    }
}

#[test]
fn native_goes_through_its_phases(rt: HostRuntime) {
    let silent = Seen {
        newly: 4,
        rate: 0,
        capacity: 0,
        rtt: 90_000,
    };
    let told = Seen {
        newly: 4,
        rate: 10_000,
        capacity: 20_000,
        rtt: 90_000,
    };
    let mut native = Native::start(1500, 24);
    assert_eq!(rt; (native.window(), native.period()), (16, 0));
    native.on_ack(&silent);
    assert_eq!(rt; (native.window(), native.period()), (20, 0));
    native.on_ack(&silent);
    assert_eq!(rt; (native.window(), native.period()), (24, 4_166_666));
    native.on_ack(&told);
    assert_eq!(rt; (native.window(), native.period()), (1016, 2_941_176));
    // The loss at 36 is the first one past what was sent at the decrease before it.
    for (first, sent, period) in [
        (10, 36, 3_308_823),
        (35, 40, 3_308_823),
        (36, 50, 3_722_426),
    ] {
        native.on_nak(first, sent, &told);
        assert_eq!(rt; native.period(), period, "after the loss of {first}");
    }
    native.on_timeout(&told);
    assert_eq!(rt; (native.window(), native.period()), (1016, 3_722_426));

    // A loss and a timeout end slow start alike, and neither is a decrease.
    let mut native = Native::start(1500, 8192);
    assert_eq!(rt; tells(&mut native, 0, 1, &told), (20, 100_000));
    let mut steady = Steady::start(1500, 8192);
    assert_eq!(rt; tells(&mut steady, 0, 1, &told), (16, 0));
}
