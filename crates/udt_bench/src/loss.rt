//! Losses that are listed, retransmitted and reported again, in a small and in a large window.
ghost use Rattle.std.specs.Prelude.{◌≡◌, ◌+◌, ◌<◌, ◌≤◌, ◌^◌, []};

use std::alloc::Global;
use std::io;
use std::rt::Clock;
use std::time::Instant;
use udt_rcv_loss::{Ranges, RcvLoss};
use udt_snd_loss::SndLoss;

// This many words a report takes at most.
const WORDS: u32 = 364;

// This many packets each measurement goes over.
const PACKETS: u64 = 1 << 24;

// Numbers that look random.
#[derive(Drop)]
struct Draws {
    state: u64,
}

impl Draws {
    // a number below this one
    fn below(&mut self, most: u64) -> u64
        requires { 0 < most }
        ensures { result < most }
    {
        self.state = self
            .state
            .wrapping_mul(6_364_136_223_846_793_005)
            .wrapping_add(1_442_695_040_888_963_407);
        (self.state >> 33) % most
    }
}

// What is lost of one window is listed to be retransmitted, and is taken out in order.
fn resend(snd: &mut SndLoss, base: u64, window: u32, percent: u64, draws: &mut Draws) -> u64
    requires floor { snd.old.floor ≡ base }
    requires room { snd.old.window ≡ window }
    requires fits { base < 2 ^ 60 }
    requires rate { 0 < percent }
    requires most { percent ≤ 100 }
    ensures floor { snd.new.floor ≡ base }
    ensures room { snd.new.window ≡ window }
    ensures within { result < 2 ^ 35 }
{
    let end = base + u64::from(window);
    let mut offset = base;
    let mut calls = 0;
    for _lost in 0..window {
        offset += draws.below(200 / percent);
        if end <= offset {
            break;
        }
        snd.add(offset, offset);
        offset += 1;
        calls += 1;
    }
    calls + take_all(snd, window)
}

// The offsets are taken out one by one.
fn take_all(snd: &mut SndLoss, most: u32) -> u64
    ensures floor { snd.new.floor ≡ snd.old.floor }
    ensures room { snd.new.window ≡ snd.old.window }
    ensures within { result < 2 ^ 34 }
{
    let mut calls = 0;
    for _sent in 0..most {
        if snd.take_first().is_none() || snd.len() == 0 {
            return calls + 2;
        }
        calls += 2;
    }
    calls
}

// What is lost of one window is listed as missing.
fn miss(rcv: &mut RcvLoss, base: u64, window: u32, percent: u64, draws: &mut Draws) -> u64
    requires empty { rcv.old.missing ≡ [] }
    requires room { rcv.old.window ≡ window }
    requires fits { base < 2 ^ 60 }
    requires rate { 0 < percent }
    requires most { percent ≤ 100 }
    ensures room { rcv.new.window ≡ window }
    ensures within { result < 2 ^ 34 }
{
    let end = base + u64::from(window);
    let mut offset = base;
    let mut calls = 0;
    for _lost in 0..window {
        offset += draws.below(200 / percent);
        if end <= offset {
            return calls;
        }
        rcv.add(offset, offset, offset);
        offset += 1;
        calls += 1;
    }
    calls
}

// The same offsets arrive in order, but for as many of them as were lost at first.
fn arrive(
    rcv: &mut RcvLoss,
    base: u64,
    window: u32,
    percent: u64,
    draws: &mut Draws,
    again: &mut Draws,
) -> u64
    requires fits { base < 2 ^ 60 }
    requires rate { 0 < percent }
    requires most { percent ≤ 100 }
    ensures room { rcv.new.window ≡ rcv.old.window }
    ensures within { result < 2 ^ 34 }
{
    let end = base + u64::from(window);
    let mut offset = base;
    let mut calls = 0;
    for _lost in 0..window {
        offset += draws.below(200 / percent);
        if end <= offset {
            return calls;
        }
        if again.below(100) >= percent {
            rcv.remove(offset);
            calls += 1;
        }
        offset += 1;
    }
    calls
}

// The rest arrives.
fn finish(rcv: &mut RcvLoss)
    ensures empty { rcv.new.missing ≡ [] }
    ensures rcv_room { rcv.new.window ≡ rcv.old.window }
{
    'finish: loop {
        let first = match rcv.first() {
            None => return,
            Some(first) => first,
        };
        rcv.remove(first);
    }
}

// The nanoseconds that a call of the sender's list takes on average, over many windows one after
// another.
fn measure_snd<R: Clock>(
    rt: &R,
    alloc: Global,
    window: u32,
    percent: u64,
) -> io::Result<Option<u128>>
    requires rate { 0 < percent }
    requires most { percent ≤ 100 }
{
    let Ok(mut snd) = SndLoss::new(alloc, window) else {
        return Ok(None);
    };
    let mut draws = Draws { state: 1 };
    let mut calls = 0u64;
    let start = Instant::now(rt)?;
    let mut base = 0u64;
    for _round in 0..PACKETS / u64::from(window.max(1)) {
        calls += resend(&mut snd, base, window, percent, &mut draws);
        base += u64::from(window);
        snd.drop_below(base);
    }
    let took = start.elapsed(rt)?.as_nanos();
    Ok(Some(took / u128::from(calls.max(1))))
}

// The same for the receiver's list.
fn measure_rcv<R: Clock>(
    rt: &R,
    alloc: Global,
    window: u32,
    percent: u64,
) -> io::Result<Option<u128>>
    requires rate { 0 < percent }
    requires most { percent ≤ 100 }
{
    let Ok(mut rcv) = RcvLoss::new(alloc, window) else {
        return Ok(None);
    };
    let Ok(mut into) = Ranges::new(alloc, WORDS) else {
        return Ok(None);
    };
    let mut draws = Draws { state: 1 };
    let mut again = Draws { state: 2 };
    let mut calls = 0u64;
    let start = Instant::now(rt)?;
    let mut base = 0u64;
    for _round in 0..PACKETS / u64::from(window.max(1)) {
        let mut same = Draws { state: draws.state };
        calls += miss(&mut rcv, base, window, percent, &mut draws);
        calls += arrive(&mut rcv, base, window, percent, &mut same, &mut again);
        rcv.due(1 << 62, 1, WORDS, &mut into);
        finish(&mut rcv);
        base += u64::from(window);
    }
    let took = start.elapsed(rt)?.as_nanos();
    Ok(Some(took / u128::from(calls.max(1))))
}

/// Prints the nanoseconds of a call, for two rates of loss in two windows each.
pub fn bench<R: Print + Clock>(rt: &R, alloc: Global) -> io::Result<()> {
    for percent in [1u64, 10] {
        for window in [1_024u32, 65_536] {
            let snd = measure_snd(rt, alloc, window, percent)?.unwrap_or(0);
            let rcv = measure_rcv(rt, alloc, window, percent)?.unwrap_or(0);
            println!(rt;
                "loss {percent} %, window {window}: {snd} ns a call to retransmit, {rcv} ns to report"
            )?;
        }
    }
    Ok(())
}
