//! Blocks through a sender's and a receiver's buffer, beside a plain copy of as many bytes.
ghost use Rattle.std.specs.Prelude.{◌≡◌, ◌+◌, ◌^◌, ◌<◌, ◌≤◌, OnOk};
ghost use Rattle.udt_bench.specs.declared.buffers.TheConstants.{BLOCK};

use std::alloc::Global;
use std::io;
use std::rt::Clock;
use std::time::Instant;
use udt_rcv_buffer::{Flags, Kind, RcvBuffer};
use udt_snd_buffer::SndBuffer;

// The bytes of a block.
const BLOCK: u32 = 1_456;

// This many blocks go through a ring of each size.
const MANY: u32 = 1 << 19;

// In which order blocks come: each one's place is the one before times a number, and one more number,
// round the end.
#[derive(Clone, Copy)]
struct Order {
    times: u64,
    more: u64,
}

const IN_ORDER: Order = Order { times: 1, more: 1 };

// Each place comes once, where their count is a power of two.
const MIXED: Order = Order {
    times: 1_103_515_245,
    more: 12_345,
};

// What blocks cost in nanoseconds, all together.
#[derive(Clone, Copy)]
struct Spent {
    first: u128,
    second: u128,
    third: u128,
}

// A ring of this many blocks, of which this many are in use at a time.
#[derive(Clone, Copy)]
struct Load {
    blocks: u32,
    used: u32,
}

/// Prints what a block costs in rings of 256 and of 8,192 blocks, of which 64 are in use at a time,
/// and in one of 8,192 that is filled.
pub fn bench_buffers<R: Print + Clock>(rt: &R, alloc: Global) -> io::Result<()> {
    let small = Load {
        blocks: 256,
        used: 64,
    };
    bench(rt, alloc, small)?;
    let large = Load {
        blocks: 8_192,
        ..small
    };
    bench(rt, alloc, large)?;
    let filled = Load {
        used: 8_192,
        ..large
    };
    bench(rt, alloc, filled)
}

fn bench<R: Print + Clock>(rt: &R, alloc: Global, load: Load) -> io::Result<()> {
    let len = load.used as usize * BLOCK as usize;
    let mut from = vec![in alloc; 7u8; len]?;
    let mut into = vec![in alloc; 0u8; len]?;
    let rounds = MANY / load.used.max(1);
    let plain = copy(rt, rounds, &mut from, &mut into)?;
    report(rt, "a plain copy", load, plain)?;
    if let Ok(mut ring) = SndBuffer::new(alloc, load.blocks, BLOCK, 0) {
        let spent = send(rt, rounds, &mut ring, &from)?;
        report(rt, "accept", load, spent.first)?;
        report(rt, "block", load, spent.second)?;
        report(rt, "release", load, spent.third)?;
    }
    if let Ok(mut ring) = RcvBuffer::new(alloc, Kind::Stream, load.blocks, BLOCK, 0) {
        let spent = receive(rt, rounds, &mut ring, IN_ORDER, &from, &mut into)?;
        report(rt, "place", load, spent.first)?;
        report(rt, "read", load, spent.second)?;
        let spent = receive(rt, rounds, &mut ring, MIXED, &from, &mut into)?;
        report(rt, "place out of order", load, spent.first)?;
        report(rt, "read", load, spent.second)?;
    }
    Ok(())
}

// Prints the line of one run.
fn report<R: Print>(rt: &R, what: &str, load: Load, nanos: u128) -> io::Result<()> {
    let each = nanos / u128::from(MANY);
    println!(rt;
        "{what}, {} of {} blocks: {each} ns a block",
        load.used, load.blocks
    )?;
    Ok(())
}

// All bytes are copied, in each round.
fn copy<R: Clock>(rt: &R, rounds: u32, from: &mut [u8], into: &mut [u8]) -> io::Result<u128> {
    let start = Instant::now(rt)?;
    for round in 0..rounds {
        if let Some(byte) = from.get_mut(0) {
            *byte = (round % 251) as u8;
        }
        for (a, b) in from
            .chunks(BLOCK as usize)
            .zip(into.chunks_mut(BLOCK as usize))
        {
            if a.len() == b.len() {
                b.copy_from_slice(a);
            }
        }
    }
    Ok(start.elapsed(rt)?.as_nanos())
}

// All bytes are accepted, each block is looked up, and all are released.
fn send<R: Clock>(rt: &R, rounds: u32, ring: &mut SndBuffer, from: &[u8]) -> io::Result<Spent> {
    let mut spent = Spent {
        first: 0,
        second: 0,
        third: 0,
    };
    for _ in 0..rounds {
        let (first, kept) = ring.kept();
        if first >= 1 << 60 || kept > 0 {
            return Ok(spent);
        }
        let start = Instant::now(rt)?;
        ring.accept(from, 65_536, 1, false, None);
        spent.first = spent.first.wrapping_add(start.elapsed(rt)?.as_nanos());
        let (first, kept) = ring.kept();
        let start = Instant::now(rt)?;
        let mut bytes: usize = 0;
        for offset in first..first + kept {
            if let Some(block) = ring.block(offset) {
                bytes = bytes.wrapping_add(block.bytes.len());
            }
        }
        if bytes != from.len() {
            return Ok(spent);
        }
        spent.second = spent.second.wrapping_add(start.elapsed(rt)?.as_nanos());
        let start = Instant::now(rt)?;
        ring.release_to(first + kept);
        spent.third = spent.third.wrapping_add(start.elapsed(rt)?.as_nanos());
    }
    Ok(spent)
}

const FLAGS: Flags = Flags {
    first: true,
    last: true,
    order: false,
    message: 1,
};

// All bytes are placed in blocks, in this order, and read.
fn receive<R: Clock>(
    rt: &R,
    rounds: u32,
    ring: &mut RcvBuffer,
    order: Order,
    from: &[u8],
    into: &mut [u8],
) -> io::Result<Spent>
    requires { ring.old.payload ≡ BLOCK }
    ensures { OnOk result (ring.new.payload ≡ BLOCK) }
{
    let mut spent = Spent {
        first: 0,
        second: 0,
        third: 0,
    };
    for _ in 0..rounds {
        let base = ring.base();
        let start = Instant::now(rt)?;
        place_all(ring, base, order, from);
        spent.first = spent.first.wrapping_add(start.elapsed(rt)?.as_nanos());
        let start = Instant::now(rt)?;
        if ring.read(into) != from.len() {
            return Ok(spent);
        }
        spent.second = spent.second.wrapping_add(start.elapsed(rt)?.as_nanos());
    }
    Ok(spent)
}

// The bytes are placed from an offset on, in this order.
fn place_all(ring: &mut RcvBuffer, from: u64, order: Order, bytes: &[u8])
    requires { ring.old.payload ≡ BLOCK }
    ensures { ring.new.payload ≡ BLOCK }
{
    let count = (bytes.len() / BLOCK as usize).max(1) as u64;
    let mut place: u64 = 0;
    for block in bytes.chunks(BLOCK as usize) {
        let offset = from.wrapping_add(place);
        if offset >= 1 << 61 || block.is_empty() || block.len() > BLOCK as usize {
            return;
        }
        ring.place(offset, FLAGS, block);
        place = place.wrapping_mul(order.times).wrapping_add(order.more) % count;
    }
}
