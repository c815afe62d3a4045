//! A loss report and a block that arrive again and again, in memory.
ghost use Rattle.std.specs.Prelude.{◌≡◌, ◌≤◌, ◌<◌};

use crate::socket::{HERE, THERE, Wires, call_pack, call_send, deliver, open, open_wires};
use std::alloc::{AllocError, Global};
use std::io;
use udt_core::{Outs, Socket};
use udt_rate::{Control, Native};

// The bytes of three blocks.
const THREE_BLOCKS: usize = 4_368;

// One sends three blocks, of which the second is lost. The first block stays in `there`, and the report
// that the third one draws from the other in `back`.
fn lose<C: Control>(a: &mut Socket<C>, b: &mut Socket<C>, wires: &mut Wires) {
    let Wires { there, back, again } = wires;
    call_send(a, 0, &[7; THREE_BLOCKS]);
    let _ = call_pack(a, 0, there);
    deliver(there, b, HERE, 1, back);
    let _ = call_pack(a, 0, again);
    let _ = call_pack(a, 0, again);
    deliver(again, b, HERE, 1, back);
}

// The report comes in so many times.
#[inline(never)]
fn report_again<C: Control>(a: &mut Socket<C>, report: &Outs, answers: &mut Outs, count: u32) {
    for _ in 0..count {
        deliver(report, a, THERE, 2, answers);
    }
}

// The block comes in so many times.
#[inline(never)]
fn arrive_again<C: Control>(b: &mut Socket<C>, block: &Outs, answers: &mut Outs, count: u32) {
    for _ in 0..count {
        deliver(block, b, HERE, 2, answers);
    }
}

// Floods both sockets. How many control packets one took in, and how many blocks came to the other
// that it had already.
fn flood<C: Control + Drop>(alloc: Global, count: u32) -> Result<(u64, u64), AllocError> {
    let mut wires = open_wires(alloc)?;
    let mut a = open::<C>(alloc, 1, THERE, 2)?;
    let mut b = open::<C>(alloc, 2, HERE, 1)?;
    lose(&mut a, &mut b, &mut wires);
    let Wires { there, back, again } = &mut wires;
    report_again(&mut a, back, again, count);
    arrive_again(&mut b, there, again, count);
    Ok((a.perf(3).control, b.perf(3).double))
}

/// Has so many loss reports arrive at a socket with the native control, and as many blocks that its
/// peer has already, and prints how many were taken so.
pub fn bench_flood<R: Print>(rt: &R, alloc: Global, count: u32) -> io::Result<()> {
    let (reports, blocks) = flood::<Native>(alloc, count)?;
    println!(rt; "{reports} reports, {blocks} blocks again")?;
    Ok(())
}
