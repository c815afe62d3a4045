//! Threads that share a socket, by turns and under a lock.
ghost use Rattle.udt_turn.specs.Words.{IsPassOf};

use crate::cell::share;
use crate::locks;
use crate::locks::Eventful;
use crate::socket::{THERE, open};
use std::alloc::Global;
use std::io;
use std::rt::Clock;
use std::sync::{Mutex, Wait};
use std::thread::{Threads, join};
use std::time::{Duration, Instant};
use udt_cell::{SharedSocket, SocketPass};
use udt_core::Socket;
use udt_rate::{Control, Native};

// This many events each thread makes.
const EVENTS: u32 = 1_000_000;

// One byte is sent, which is refused once all blocks are in use. Each call is an event.
impl<C: Control> Eventful for Socket<C> {
    fn event(&mut self) {
        let _ = self.send(0, &[7]);
    }
}

// This many of the same, by one thread that shares the socket.
fn one<R: Wait, C: Control>(rt: &R, socket: &SharedSocket<C>, mut pass: SocketPass<C>, events: u32)
    requires { IsPassOf socket.now.turn pass }
{
    for _ in 0..events {
        let _ = socket.send(rt, &mut pass, 0, &[7]);
    }
}

// This many by each of two threads.
fn two<R: Threads + Wait + Sync, C: Control + Send>(
    rt: &R,
    socket: &SharedSocket<C>,
    mut pass: SocketPass<C>,
    events: u32,
)
    requires { IsPassOf socket.now.turn pass }
{
    let Ok(other) = socket.split(&mut pass) else {
        return;
    };
    join(
        rt,
        move ||
            requires { IsPassOf socket.now.turn pass }
        { one(rt, socket, pass, events) },
        move ||
            requires { IsPassOf socket.now.turn other }
        { one(rt, socket, other, events) },
    );
}

// This many by each of four threads.
fn four<R: Threads + Wait + Sync, C: Control + Send>(
    rt: &R,
    socket: &SharedSocket<C>,
    mut pass: SocketPass<C>,
    events: u32,
)
    requires { IsPassOf socket.now.turn pass }
{
    let Ok(other) = socket.split(&mut pass) else {
        return;
    };
    join(
        rt,
        move ||
            requires { IsPassOf socket.now.turn pass }
        { two(rt, socket, pass, events) },
        move ||
            requires { IsPassOf socket.now.turn other }
        { two(rt, socket, other, events) },
    );
}

// This many by each of eight threads.
fn eight<R: Threads + Wait + Sync, C: Control + Send>(
    rt: &R,
    socket: &SharedSocket<C>,
    mut pass: SocketPass<C>,
    events: u32,
)
    requires { IsPassOf socket.now.turn pass }
{
    let Ok(other) = socket.split(&mut pass) else {
        return;
    };
    join(
        rt,
        move ||
            requires { IsPassOf socket.now.turn pass }
        { four(rt, socket, pass, events) },
        move ||
            requires { IsPassOf socket.now.turn other }
        { four(rt, socket, other, events) },
    );
}

// Prints the line of one run.
fn report<R: Print>(rt: &R, what: &str, threads: u32, took: Duration) -> io::Result<()> {
    let events = u128::from(threads) * u128::from(EVENTS);
    let rate = events * 1_000_000 / took.as_micros().max(1);
    println!(rt; "{what}, {threads} threads: {rate} events a second")?;
    Ok(())
}

fn bench_turns<R: Print + Clock + Threads + Wait + Sync>(rt: &R, alloc: Global) -> io::Result<()> {
    let (socket, mut pass) = share(alloc, open::<Native>(alloc, 1, THERE, 2)?)?;
    let start = Instant::now(rt)?;
    if let Ok(first) = socket.split(&mut pass) {
        two(rt, &socket, first, EVENTS);
    }
    report(rt, "shared socket", 2, start.elapsed(rt)?)?;
    let start = Instant::now(rt)?;
    if let Ok(first) = socket.split(&mut pass) {
        eight(rt, &socket, first, EVENTS);
    }
    report(rt, "shared socket", 8, start.elapsed(rt)?)?;
    println!(rt;
        "events of the shared socket: {}",
        socket.look(&mut pass).count
    )?;
    Ok(())
}

/// Has two and then eight threads send through one shared socket, a million times each, and then
/// through a socket under a lock of the standard library. Prints the events of a second.
pub fn bench<R: Print + Clock + Threads + Wait + Sync>(rt: &R, alloc: Global) -> io::Result<()> {
    bench_turns(rt, alloc)?;
    let lock = Mutex::new(open::<Native>(alloc, 1, THERE, 2)?);
    let start = Instant::now(rt)?;
    locks::two(rt, &lock, EVENTS);
    report(rt, "socket under a lock", 2, start.elapsed(rt)?)?;
    let start = Instant::now(rt)?;
    locks::eight(rt, &lock, EVENTS);
    report(rt, "socket under a lock", 8, start.elapsed(rt)?)?;
    println!(rt; "events under the lock: {}", lock.into_inner().count())?;
    Ok(())
}
