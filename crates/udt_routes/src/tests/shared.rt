// One writer, and readers that take no lock.

use crate::{EnrolNo, ListenNo, MeetNo, RouteReader, RouteWriter, Want, share};
use std::sync::Wait;
use std::test::Fail;
use std::thread::{Threads, join};
use udt_model::{Addr, Ip};

const HERE: Addr = Addr {
    ip: Ip::V4(0x7f00_0001),
    port: 9000,
};

const THERE: Addr = Addr {
    ip: Ip::V4(0x7f00_0001),
    port: 9001,
};

#[test]
fn removals_wait_for_the_next_change(rt: HostRuntime) -> Result<(), Fail> {
    let Ok((mut writer, mut readers)) = share(&rt, rt.alloc(), 2, 2) else {
        panic!(rt; "no memory")
    };
    let (Some(mut one), Some(mut other)) = (readers.pop(), readers.pop()) else {
        panic!(rt; "two readers")
    };
    assert_eq!(rt; one.route(&rt, Want::Id(7)), None);
    assert_eq!(rt; writer.enrol(&rt, 7), Ok(()));
    assert_eq!(rt; writer.enrol(&rt, 7), Err(EnrolNo::Live));
    assert_eq!(rt; writer.enrol(&rt, 5), Ok(()));
    assert_eq!(rt; writer.enrol(&rt, 6), Err(EnrolNo::Live));
    assert_eq!(rt; writer.set_listener(&rt, 7), Ok(()));
    assert_eq!(rt; writer.set_listener(&rt, 5), Err(ListenNo::ListenTwice));
    assert_eq!(rt; writer.set_meeting(&rt, HERE, 5), Ok(()));
    assert_eq!(rt; writer.set_meeting(&rt, HERE, 7), Err(MeetNo::MeetTaken));
    assert_eq!(rt; writer.leave(6), false);
    assert_eq!(rt; writer.leave(7), true);
    assert_eq!(rt; writer.leave(7), false);
    for (want, found) in [
        (Want::Id(7), Some(7)),
        (Want::Id(5), Some(5)),
        (Want::Id(6), None),
        (Want::Listener, Some(7)),
        (Want::Meeting(HERE), Some(5)),
        (Want::Meeting(THERE), None),
    ] {
        assert_eq!(rt; one.route(&rt, want), found);
    }
    // the place is free already, and readers see both with the change that takes it
    assert_eq!(rt; writer.set_listener(&rt, 5), Ok(()));
    writer.clear_meeting(THERE, 5);
    writer.clear_meeting(HERE, 5);
    assert_eq!(rt; other.route(&rt, Want::Id(7)), None);
    assert_eq!(rt; other.route(&rt, Want::Listener), Some(5));
    assert_eq!(rt; other.route(&rt, Want::Meeting(HERE)), Some(5));
    assert_eq!(rt; writer.set_meeting(&rt, THERE, 5), Ok(()));
    writer.clear_listener(7);
    assert_eq!(rt; other.route(&rt, Want::Meeting(HERE)), None);
    assert_eq!(rt; other.route(&rt, Want::Meeting(THERE)), Some(5));
    assert_eq!(rt; other.route(&rt, Want::Listener), Some(5));
    writer.close(&rt);
    Ok(())
}

// Two changes are published in each round.
const ROUNDS: u32 = 5_000;

// In each round enrols the next ID, takes the last one out, and lets the next one listen.
fn change<R: Wait>(rt: &R, writer: &mut RouteWriter) -> bool {
    let mut fine = true;
    for id in 1..=ROUNDS {
        fine = fine && writer.enrol(rt, id).is_ok();
        writer.leave(id - 1);
        fine = fine && writer.set_listener(rt, id).is_ok();
    }
    fine
}

// Reads until the last ID listens, and counts the readings that no published table has, or that go back before the
// last one. Each table in which an ID listens has that ID, and none before it; the next one is enrolled with the next
// change, and listens with the one after it.
fn watch<R: Wait>(rt: &R, mut reader: RouteReader) -> u32 {
    let mut wrong = 0u32;
    let mut last = 0;
    for _ in rt.forever() {
        let listener = reader.route(rt, Want::Listener).unwrap_or(0);
        let before = reader.route(rt, Want::Id(listener.wrapping_sub(1)));
        let listening = reader.route(rt, Want::Id(listener));
        let after = reader.route(rt, Want::Id(listener.wrapping_add(1)));
        if listener < last || listener > ROUNDS || before.is_some() {
            wrong = wrong.wrapping_add(1);
        }
        if listener == ROUNDS {
            return wrong.wrapping_add((listening != Some(ROUNDS) || after.is_some()) as u32);
        }
        // where it is enrolled no more, the next one listens
        last = if listener > 0 && listening.is_none() {
            listener.wrapping_add(1)
        } else {
            listener
        };
    }
    unreachable!()
}

// One writer and three readers, each in a thread of its own: whether all changes were made, and the wrong readings.
fn race<R: Threads + Wait + Sync>(
    rt: &R,
    writer: &mut RouteWriter,
    one: RouteReader,
    two: RouteReader,
    three: RouteReader,
) -> (bool, u32, u32, u32) {
    let ((fine, first), (second, third)) = join(
        rt,
        move || join(rt, move || change(rt, writer), move || watch(rt, one)),
        move || join(rt, move || watch(rt, two), move || watch(rt, three)),
    );
    (fine, first, second, third)
}

#[test]
fn three_readers_never_go_back_while_one_writes(rt: HostRuntime) -> Result<(), Fail> {
    let Ok((mut writer, mut readers)) = share(&rt, rt.alloc(), 2, 3) else {
        panic!(rt; "no memory")
    };
    let (Some(one), Some(two), Some(three)) = (readers.pop(), readers.pop(), readers.pop()) else {
        panic!(rt; "three readers")
    };
    assert_eq!(rt; race(&rt, &mut writer, one, two, three), (true, 0, 0, 0));
    writer.close(&rt);
    Ok(())
}
