// The clock and the dice.

use crate::{SystemClock, SystemDice};
use std::thread;
use std::time::Duration;
use udt_outside::{Clock, Dice};

#[test]
fn a_clock_shows_microseconds_and_another_shows_the_same(rt: HostRuntime) {
    let Some(clock) = SystemClock::new(rt) else {
        panic!(rt; "no clock")
    };
    let before = clock.now();
    thread::sleep(&rt, Duration::from_millis(20));
    let later = clock.another().now();
    assert!(rt; before.saturating_add(20_000) <= later, "{before} {later}");
    assert!(rt; later < 50_000_000, "{later}");
}

#[test]
fn words_are_not_all_the_same(rt: HostRuntime) {
    let mut dice = SystemDice::new(rt);
    let first = dice.word();
    assert!(rt; dice.word() != first || dice.word() != first);
}
