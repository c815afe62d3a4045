//! Look-ups in the routes of an endpoint, by readers alone and beside the writer.
ghost use Rattle.std.specs.Prelude.{◌≤◌};

use std::alloc::Global;
use std::io;
use std::rt::Clock;
use std::sync::Wait;
use std::sync::atomic::{AtomicBool, Ordering};
use std::thread::{Threads, join};
use std::time::{Duration, Instant};
use udt_routes::{RouteReader, RouteWriter, Want, share};

// This many IDs are enrolled.
const ENROLLED: u32 = 1_024;

// The look-ups of each reader, where speed is measured.
const READS: u32 = 1_000_000;

// Looks up this many IDs that are enrolled, one after the other and round again, and counts those that are found.
#[inline(never)]
fn look_up<R: Wait>(rt: &R, reader: &mut RouteReader, count: u32) -> u32 {
    let mut found = 0u32;
    for number in 0..count {
        if reader.route(rt, Want::Id(number % ENROLLED)).is_some() {
            found = found.wrapping_add(1);
        }
    }
    found
}

// Those of two readers, each in a thread of its own, and of four.
fn look_up_two<R: Threads + Wait + Sync>(rt: &R, mut readers: (RouteReader, RouteReader)) -> u32 {
    let (one, two) = &mut readers;
    let (first, second) = join(
        rt,
        move || look_up(rt, one, READS),
        move || look_up(rt, two, READS),
    );
    first.wrapping_add(second)
}

fn look_up_four<R: Threads + Wait + Sync>(
    rt: &R,
    some: (RouteReader, RouteReader),
    others: (RouteReader, RouteReader),
) -> u32 {
    let (first, second) = join(
        rt,
        move || look_up_two(rt, some),
        move || look_up_two(rt, others),
    );
    first.wrapping_add(second)
}

// Enrols one ID more and takes it out again, until it is told to stop, and counts the changes that were published.
fn change<R: Wait>(rt: &R, writer: &mut RouteWriter, stop: &AtomicBool) -> u32 {
    let mut changes = 0u32;
    for _ in rt.forever() {
        if stop.load(Ordering::SeqCst) {
            return changes;
        }
        if writer.enrol(rt, ENROLLED).is_ok() {
            changes = changes.wrapping_add(1);
        }
        writer.leave(ENROLLED);
    }
    unreachable!()
}

// One reader, or four, beside the writer: how many look-ups found their ID, and how many changes were published.
fn read_beside<R: Threads + Wait + Sync>(
    rt: &R,
    writer: &mut RouteWriter,
    mut readers: Vec<RouteReader>,
) -> (u32, u32) {
    let stop = AtomicBool::new(false);
    let told = &stop;
    join(
        rt,
        move || {
            let found = match (readers.pop(), readers.pop(), readers.pop(), readers.pop()) {
                (Some(one), Some(two), Some(three), Some(four)) => {
                    look_up_four(rt, (one, two), (three, four))
                }
                (Some(mut one), _, _, _) => look_up(rt, &mut one, READS),
                _ => 0,
            };
            told.store(true, Ordering::SeqCst);
            found
        },
        move || change(rt, writer, told),
    )
}

// Enrols all IDs.
fn enrol_all<R: Wait>(rt: &R, writer: &mut RouteWriter) -> bool {
    for id in 0..ENROLLED {
        if writer.enrol(rt, id).is_err() {
            return false;
        }
    }
    true
}

// Prints the line of one run.
fn report<R: Print>(rt: &R, readers: u32, seen: (u32, u32), took: Duration) -> io::Result<()> {
    let reads = u64::from(readers) * u64::from(READS);
    let micros = took.as_micros().max(1);
    let rate = u128::from(reads) * 1_000_000 / micros;
    let changes = u128::from(seen.1) * 1_000_000 / micros;
    let found = if u64::from(seen.0) == reads {
        "all found"
    } else {
        "some not found"
    };
    println!(rt;
        "routes, {readers} readers: {rate} look-ups a second, {found}, beside {changes} changes a second"
    )?;
    Ok(())
}

// Measures one run with this many readers.
fn measure<R: Print + Clock + Threads + Wait + Sync>(
    rt: &R,
    alloc: Global,
    readers: u32,
) -> io::Result<()>
    requires { (1 ≤ readers) × (readers ≤ 16) }
{
    let Ok((mut writer, list)) = share(rt, alloc, ENROLLED + 1, readers) else {
        return Err(io::Error::from(io::ErrorKind::OutOfMemory));
    };
    let all = enrol_all(rt, &mut writer);
    let start = Instant::now(rt);
    let seen = read_beside(rt, &mut writer, list);
    writer.close(rt);
    let took = start?.elapsed(rt)?;
    if !all {
        return Err(io::Error::from(io::ErrorKind::OutOfMemory));
    }
    report(rt, readers, seen, took)
}

/// Prints how many look-ups one reader and four make in a second beside a writer.
pub fn bench<R: Print + Clock + Threads + Wait + Sync>(rt: &R, alloc: Global) -> io::Result<()> {
    measure(rt, alloc, 1)?;
    measure(rt, alloc, 4)
}

/// Makes this many look-ups by one reader, with nobody beside it, and prints how many found their ID.
pub fn count<R: Print + Wait>(rt: &R, alloc: Global, reads: u32) -> io::Result<()> {
    let Ok((mut writer, mut list)) = share(rt, alloc, ENROLLED, 1) else {
        return Err(io::Error::from(io::ErrorKind::OutOfMemory));
    };
    let all = enrol_all(rt, &mut writer);
    let found = match list.pop() {
        Some(mut reader) => look_up(rt, &mut reader, reads),
        None => 0,
    };
    writer.close(rt);
    if !all {
        return Err(io::Error::from(io::ErrorKind::OutOfMemory));
    }
    println!(rt; "{reads} look-ups, {found} found")?;
    Ok(())
}
