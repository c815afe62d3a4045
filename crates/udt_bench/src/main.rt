//! A program that measures: `udt_bench turn` counts the turns that several threads take in a second, beside a lock of the standard library, `udt_bench loss` times the calls of the loss lists, `udt_bench buffers` what a block costs in the buffers of a socket, `udt_bench queues` how many entries go through the outbox in a second, `udt_bench routes` how many look-ups readers of the routes make in a second, `udt_bench socket` and `udt_bench flood` have datagrams go between two sockets, and `udt_bench cell` measures a socket that threads share.
#![tactic(auto)]

mod buffers;
mod cell;
mod flood;
mod locks;
mod loss;
mod queues;
mod routes;
mod shares;
mod socket;
mod tally;
mod turns;

use crate::tally::Tally;
use std::alloc::Global;
use std::rt::Clock;
use std::sync::{Mutex, Wait};
use std::thread::Threads;
use std::time::{Duration, Instant};
use std::{env, io};
use udt_turn::Turn;

// This many events each thread makes.
const EVENTS: u32 = 100_000;

// This many datagrams are a flood.
const FLOOD: u32 = 1_000_000;

// 20 million bytes in blocks of 1,456 bytes.
const PACKETS: u32 = 13_737;

fn main(rt: HostRuntime) -> io::Result<()> {
    let mut words = env::args(&rt)?.skip(1);
    match words.next() {
        Some(word) if word.as_str() == "turn" => bench_turn(&rt, rt.alloc()),
        Some(word) if word.as_str() == "loss" => loss::bench(&rt, rt.alloc()),
        Some(word) if word.as_str() == "buffers" => buffers::bench_buffers(&rt, rt.alloc()),
        Some(word) if word.as_str() == "queues" => queues::bench(&rt, rt.alloc()),
        Some(word) if word.as_str() == "routes" => {
            let reads = words
                .next()
                .and_then(|word| word.as_str().parse::<u32>().ok());
            match reads {
                Some(reads) => routes::count(&rt, rt.alloc(), reads),
                None => routes::bench(&rt, rt.alloc()),
            }
        }
        Some(word) if word.as_str() == "socket" => {
            let packets = words
                .next()
                .and_then(|word| word.as_str().parse::<u32>().ok());
            socket::bench_socket(&rt, rt.alloc(), packets.unwrap_or(PACKETS))
        }
        Some(word) if word.as_str() == "cell" => match words.next() {
            Some(word) => {
                let packets = word.as_str().parse::<u32>().unwrap_or(PACKETS);
                cell::bench_cell(&rt, rt.alloc(), packets)
            }
            None => shares::bench(&rt, rt.alloc()),
        },
        Some(word) if word.as_str() == "flood" => {
            let count = words
                .next()
                .and_then(|word| word.as_str().parse::<u32>().ok());
            flood::bench_flood(&rt, rt.alloc(), count.unwrap_or(FLOOD))
        }
        _ => {
            println!(rt; "usage: udt_bench turn|loss|buffers|queues|routes|socket|flood|cell")?;
            Ok(())
        }
    }
}

// Prints the line of one run.
fn report<R: Print>(rt: &R, what: &str, threads: u32, took: Duration) -> io::Result<()> {
    let events = u64::from(threads) * u64::from(EVENTS);
    let micros = took.as_micros().max(1);
    let rate = u128::from(events) * 1_000_000 / micros;
    println!(rt; "{what}, {threads} threads: {rate} events a second")?;
    Ok(())
}

fn bench_turn<R: Print + Clock + Threads + Wait + Sync>(rt: &R, alloc: Global) -> io::Result<()> {
    if let Ok((turn, mut pass)) = Turn::make(alloc, Tally { count: 0 }) {
        let start = Instant::now(rt)?;
        if let Ok(first) = turn.split(&mut pass) {
            turns::two(rt, &turn, first, EVENTS);
        }
        report(rt, "turn", 2, start.elapsed(rt)?)?;
        let start = Instant::now(rt)?;
        if let Ok(first) = turn.split(&mut pass) {
            turns::eight(rt, &turn, first, EVENTS);
        }
        report(rt, "turn", 8, start.elapsed(rt)?)?;
        println!(rt; "counted by turns: {}", turn.look(&mut pass).count)?;
    }
    let lock = Mutex::new(Tally { count: 0 });
    let start = Instant::now(rt)?;
    locks::two(rt, &lock, EVENTS);
    report(rt, "lock", 2, start.elapsed(rt)?)?;
    let start = Instant::now(rt)?;
    locks::eight(rt, &lock, EVENTS);
    report(rt, "lock", 8, start.elapsed(rt)?)?;
    println!(rt; "counted under the lock: {}", lock.into_inner().count)?;
    Ok(())
}
