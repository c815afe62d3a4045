// Values worked out by hand.
use super::*;
use udt_rate::{Control, Seen};

#[derive(Clone, Copy, Debug)]
enum Told {
    Ack(u64),
    Nak(u64, u64),
    Timeout,
}

/// Tells a control one thing, and gives its window and its period then.
fn tell<C: Control>(control: &mut C, told: Told) -> (u32, u64) {
    let mut seen = Seen {
        newly: 0,
        rate: 9000,
        capacity: 20_000,
        rtt: 100_000,
    };
    match told {
        Told::Ack(newly) => {
            seen.newly = newly;
            control.on_ack(&seen);
        }
        Told::Nak(first, sent) => {
            if first < sent {
                control.on_nak(first, sent, &seen);
            }
        }
        Told::Timeout => control.on_timeout(&seen),
    }
    (control.window(), control.period())
}

#[test]
fn controls_go_through_worked_calls(rt: HostRuntime) {
    let mut aimd = Aimd::start(1500, 8192);
    let mut fixed = Fixed::<100_000>::start(1500, 8192);
    let mut slow = Fixed::<2_000_000_000>::start(1500, 8192);
    for (told, window) in [
        (Told::Ack(4), 20),
        (Told::Nak(10, 36), 10),
        (Told::Nak(35, 40), 10),
        (Told::Ack(25), 12),
        (Told::Timeout, 2),
        (Told::Ack(3), 5),
        (Told::Ack(3), 8),
        (Told::Ack(3), 8),
    ] {
        assert_eq!(rt; tell(&mut aimd, told), (window, 0), "after {told:?}");
        assert_eq!(rt; tell(&mut fixed, told), (65_536, 100_000), "after {told:?}");
        assert_eq!(rt;
            tell(&mut slow, told),
            (65_536, 1_000_000_000),
            "after {told:?}"
        );
    }
}
