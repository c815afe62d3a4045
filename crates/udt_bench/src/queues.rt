//! Entries through the outbox, beside the kit's own bounded queue of byte vectors, with one and with four producers and one taker.
ghost use Rattle.std.specs.Prelude.{◌≡◌, ◌≤◌, length};
ghost use Rattle.udt_queues.specs.Outgoing.{IsOutPassOf};

use crossbeam_queue::ArrayQueue;
use std::alloc::Global;
use std::rt::Clock;
use std::sync::Wait;
use std::thread::{Threads, join};
use std::time::{Duration, Instant};
use std::{io, thread};
use udt_model::{Addr, Ip};
use udt_queues::{MOST_BYTES, OutPass, Outbox};

// The entries of each run, all producers together.
const ENTRIES: u32 = 1_000_000;

// The buffers of the outbox and the places of the queue, where speed is measured.
const ROOM: u32 = 256;

// The bytes of an entry, of which the first four are its number among those of its producer.
const BYTES: usize = 44;

// What a taker has seen: the number of the next entry of each producer, and whether all came in order.
#[derive(Drop)]
struct Seen {
    next: [u32; 4],
    in_order: bool,
}

impl Seen {
    fn new() -> Seen {
        Seen {
            next: [0; 4],
            in_order: true,
        }
    }

    // An entry came.
    fn note(&mut self, producer: u16, bytes: &[u8]) {
        let number = match bytes {
            [a, b, c, d, ..] => u32::from_be_bytes([*a, *b, *c, *d]),
            _ => u32::MAX,
        };
        match self.next.get_mut(producer as usize) {
            Some(next) => {
                if *next != number {
                    self.in_order = false;
                }
                *next = next.wrapping_add(1);
            }
            None => self.in_order = false,
        }
    }
}

// The bytes of an entry.
fn entry_of(number: u32) -> [u8; BYTES] {
    let mut bytes = [0u8; BYTES];
    let [a, b, c, d] = number.to_be_bytes();
    bytes[0] = a;
    bytes[1] = b;
    bytes[2] = c;
    bytes[3] = d;
    bytes
}

// Puts an entry into the outbox, however long there is no spare buffer.
fn put<R: Wait>(rt: &R, outbox: &Outbox, pass: &mut OutPass, producer: u16, number: u32)
    requires { IsOutPassOf outbox.now pass.old }
    ensures { IsOutPassOf outbox.now pass.new }
{
    let to = Addr {
        ip: Ip::V4(0x7f00_0001),
        port: producer,
    };
    let bytes = entry_of(number);
    for _ in rt.forever() {
        if outbox.put(rt, pass, to, &bytes).is_ok() {
            return;
        }
        thread::yield_now();
    }
}

// One producer's entries.
fn produce<R: Wait>(rt: &R, outbox: &Outbox, mut pass: OutPass, producer: u16, entries: u32)
    requires { IsOutPassOf outbox.now pass }
{
    for number in 0..entries {
        put(rt, outbox, &mut pass, producer, number);
    }
}

// Those of two producers, each in a thread of its own.
fn produce_two<R: Threads + Wait + Sync>(
    rt: &R,
    outbox: &Outbox,
    passes: (OutPass, OutPass),
    producers: (u16, u16),
    entries: u32,
)
    requires first { IsOutPassOf outbox.now passes.0 }
    requires second { IsOutPassOf outbox.now passes.1 }
{
    let (first, second) = passes;
    join(
        rt,
        move ||
            requires { IsOutPassOf outbox.now first }
        { produce(rt, outbox, first, producers.0, entries) },
        move ||
            requires { IsOutPassOf outbox.now second }
        { produce(rt, outbox, second, producers.1, entries) },
    );
}

// Those of four producers.
fn produce_four<R: Threads + Wait + Sync>(rt: &R, outbox: &Outbox, mut pass: OutPass, entries: u32)
    requires { IsOutPassOf outbox.now pass }
{
    let (Ok(second), Ok(third), Ok(fourth)) = (
        outbox.split(&mut pass),
        outbox.split(&mut pass),
        outbox.split(&mut pass),
    ) else {
        return;
    };
    join(
        rt,
        move ||
            requires { IsOutPassOf outbox.now pass × IsOutPassOf outbox.now second }
        { produce_two(rt, outbox, (pass, second), (0, 1), entries) },
        move ||
            requires { IsOutPassOf outbox.now third × IsOutPassOf outbox.now fourth }
        { produce_two(rt, outbox, (third, fourth), (2, 3), entries) },
    );
}

// Takes one entry, however long there is none.
fn take<R: Wait>(rt: &R, outbox: &Outbox, pass: &mut OutPass, into: &mut [u8], seen: &mut Seen)
    requires own { IsOutPassOf outbox.now pass.old }
    requires room { MOST_BYTES ≤ length into.old }
    ensures { IsOutPassOf outbox.now pass.new }
{
    for _ in rt.forever() {
        if let Some((from, len)) = outbox.take(rt, pass, into) {
            seen.note(from.port, &into[..len]);
            return;
        }
        thread::yield_now();
    }
}

// Takes this number of entries.
fn consume<R: Wait>(
    rt: &R,
    outbox: &Outbox,
    mut pass: OutPass,
    mut into: Vec<u8>,
    entries: u32,
) -> Seen
    requires own { IsOutPassOf outbox.now pass }
    requires room { MOST_BYTES ≤ length into.items }
{
    let mut seen = Seen::new();
    for _ in 0..entries {
        take(rt, outbox, &mut pass, &mut into, &mut seen);
    }
    seen
}

// All entries go through an outbox of this number of buffers, from one producer or from four.
fn exchange<R: Threads + Wait + Sync>(
    rt: &R,
    alloc: Global,
    buffers: u32,
    four: bool,
) -> io::Result<Seen> {
    let into = vec![in alloc; 0u8; MOST_BYTES]?;
    let Ok((outbox, mut taker)) = Outbox::make(alloc, buffers) else {
        return Err(io::Error::from(io::ErrorKind::OutOfMemory));
    };
    let Ok(producer) = outbox.split(&mut taker) else {
        return Err(io::Error::from(io::ErrorKind::OutOfMemory));
    };
    let shared = &outbox;
    let ((), seen) = join(
        rt,
        move ||
            requires { IsOutPassOf shared.now producer }
        {
            if four {
                produce_four(rt, shared, producer, ENTRIES / 4)
            } else {
                produce(rt, shared, producer, 0, ENTRIES)
            }
        },
        move ||
            requires { IsOutPassOf shared.now taker × (MOST_BYTES ≤ length into.items) }
        { consume(rt, shared, taker, into, ENTRIES) },
    );
    Ok(seen)
}

// A vector with the bytes of an entry, and an empty one where there is no memory.
fn vector_of(alloc: Global, producer: u16, number: u32) -> Vec<u8> {
    let mut vector = Vec::new(alloc);
    let bytes = entry_of(number);
    if vector.extend_from_slice(&producer.to_be_bytes()).is_err()
        || vector.extend_from_slice(&bytes).is_err()
    {
        vector.clear();
    }
    vector
}

// One producer's entries, by the kit's queue.
fn push_all<R: Wait>(
    rt: &R,
    alloc: Global,
    queue: &ArrayQueue<Vec<u8>>,
    producer: u16,
    entries: u32,
) {
    for number in 0..entries {
        let mut entry = vector_of(alloc, producer, number);
        for _ in rt.forever() {
            match queue.push(rt, entry) {
                Ok(()) => break,
                Err(back) => entry = back,
            }
            thread::yield_now();
        }
    }
}

// Those of two producers, and of four.
fn push_two<R: Threads + Wait + Sync>(
    rt: &R,
    alloc: Global,
    queue: &ArrayQueue<Vec<u8>>,
    producers: (u16, u16),
    entries: u32,
) {
    join(
        rt,
        move || push_all(rt, alloc, queue, producers.0, entries),
        move || push_all(rt, alloc, queue, producers.1, entries),
    );
}

fn push_four<R: Threads + Wait + Sync>(
    rt: &R,
    alloc: Global,
    queue: &ArrayQueue<Vec<u8>>,
    entries: u32,
) {
    join(
        rt,
        move || push_two(rt, alloc, queue, (0, 1), entries),
        move || push_two(rt, alloc, queue, (2, 3), entries),
    );
}

// Takes this number of entries from the kit's queue.
fn pop_all<R: Wait>(rt: &R, queue: &ArrayQueue<Vec<u8>>, entries: u32) -> Seen {
    let mut seen = Seen::new();
    for _ in 0..entries {
        for _ in rt.forever() {
            if let Some(entry) = queue.pop(rt) {
                match entry.as_slice() {
                    [high, low, bytes @ ..] => {
                        seen.note(u16::from_be_bytes([*high, *low]), bytes);
                    }
                    _ => seen.note(0, &[]),
                }
                break;
            }
            thread::yield_now();
        }
    }
    seen
}

// All entries go through the kit's queue.
fn exchange_by_queue<R: Threads + Wait + Sync>(
    rt: &R,
    alloc: Global,
    four: bool,
) -> io::Result<Seen> {
    let queue = ArrayQueue::new(alloc, ROOM as usize)?;
    let shared = &queue;
    let ((), seen) = join(
        rt,
        move || {
            if four {
                push_four(rt, alloc, shared, ENTRIES / 4)
            } else {
                push_all(rt, alloc, shared, 0, ENTRIES)
            }
        },
        move || pop_all(rt, shared, ENTRIES),
    );
    Ok(seen)
}

// Whether none was lost, and each producer's came in order.
fn is_whole(seen: &Seen, four: bool) -> bool {
    let each = ENTRIES / 4;
    let next = if four { [each; 4] } else { [ENTRIES, 0, 0, 0] };
    seen.in_order && seen.next == next
}

// Prints the line of one run.
fn report<R: Print>(rt: &R, what: &str, seen: &Seen, four: bool, took: Duration) -> io::Result<()> {
    let micros = took.as_micros().max(1);
    let rate = u128::from(ENTRIES) * 1_000_000 / micros;
    let producers = if four {
        "four producers"
    } else {
        "one producer"
    };
    let found = if is_whole(seen, four) {
        "none lost, in order"
    } else {
        "lost or out of order"
    };
    println!(rt; "{what}, {producers}: {rate} entries a second, {found}")?;
    Ok(())
}

/// Prints entries a second through the outbox and through the kit's queue, and what a million entries through 16 buffers show.
pub fn bench<R: Print + Clock + Threads + Wait + Sync>(rt: &R, alloc: Global) -> io::Result<()> {
    for four in [false, true] {
        let start = Instant::now(rt)?;
        let seen = exchange(rt, alloc, ROOM, four)?;
        report(rt, "outbox of 256 buffers", &seen, four, start.elapsed(rt)?)?;
        let start = Instant::now(rt)?;
        let seen = exchange_by_queue(rt, alloc, four)?;
        report(rt, "queue of 256 vectors", &seen, four, start.elapsed(rt)?)?;
    }
    let start = Instant::now(rt)?;
    let seen = exchange(rt, alloc, 16, true)?;
    report(rt, "outbox of 16 buffers", &seen, true, start.elapsed(rt)?)
}
