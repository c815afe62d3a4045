//! Blocks from one socket to another, each round in the same way, first alone and then shared.
ghost use Rattle.std.specs.Prelude.{◌≡◌, IfOk};
ghost use Rattle.udt_turn.specs.Words.{IsPassOf};

use crate::socket::{
    HERE, THERE, Wires, call_pack, call_recv, call_send, call_tick, deliver, open, open_wires,
};
use std::alloc::{AllocError, Global};
use std::io;
use std::sync::Wait;
use udt_cell::{SharedSocket, SocketPass};
use udt_core::{Outs, Socket};
use udt_model::Addr;
use udt_outside::FreeGate;
use udt_rate::{Control, Native};

// The bytes of a block.
const BLOCK: usize = 1_456;

// The microseconds of a round: the time of an ACK.
const ROUND: u64 = 10_000;

// One block is sent, packed, brought to the other and received, and acknowledged. How many bytes came.
fn round<C: Control>(
    a: &mut Socket<C>,
    b: &mut Socket<C>,
    wires: &mut Wires,
    into: &mut [u8],
    now: u64,
) -> u64 {
    let Wires { there, back, again } = wires;
    call_send(a, now, &[7; BLOCK]);
    let _ = call_pack(a, now, there);
    deliver(there, b, HERE, now, back);
    let came = call_recv(b, now, into);
    call_tick(b, now, back);
    deliver(back, a, THERE, now, again);
    deliver(again, b, HERE, now, there);
    came
}

// This many rounds. How many bytes came.
fn rounds<C: Control>(
    a: &mut Socket<C>,
    b: &mut Socket<C>,
    wires: &mut Wires,
    packets: u32,
) -> u64 {
    let mut came = 0u64;
    let mut into = [0u8; BLOCK];
    for k in 0..packets {
        let more = round(a, b, wires, &mut into, ROUND * u64::from(k));
        came = came.saturating_add(more);
    }
    came
}

// Each call that is measured stands alone, so that what it takes shows under its name.

#[inline(never)]
fn shared_send<R: Wait, C: Control>(
    rt: &R,
    socket: &SharedSocket<C>,
    pass: &mut SocketPass<C>,
    now: u64,
    bytes: &[u8],
)
    requires { IsPassOf socket.now.turn pass.old }
    ensures { IsPassOf socket.now.turn pass.new }
{
    let _ = socket.send(rt, pass, now, bytes);
}

#[inline(never)]
fn shared_recv<R: Wait, C: Control>(
    rt: &R,
    socket: &SharedSocket<C>,
    pass: &mut SocketPass<C>,
    now: u64,
    into: &mut [u8],
) -> u64
    requires { IsPassOf socket.now.turn pass.old }
    ensures { IsPassOf socket.now.turn pass.new }
{
    match socket.recv(rt, pass, now, into) {
        Ok(count) => count as u64,
        Err(_) => 0,
    }
}

#[inline(never)]
fn shared_arrive<R: Wait + Copy + Send + Sync, C: Control>(
    rt: &R,
    socket: &SharedSocket<C>,
    pass: &mut SocketPass<C>,
    now: u64,
    from: Addr,
    bytes: &[u8],
    answers: &mut Outs,
)
    requires { IsPassOf socket.now.turn pass.old }
    ensures { IsPassOf socket.now.turn pass.new }
{
    let _ = socket.arrive(rt, pass, now, from, bytes, answers, &FreeGate);
}

// Gives a shared socket all datagrams that the other emitted.
fn bring<R: Wait + Copy + Send + Sync, C: Control>(
    rt: &R,
    outs: &Outs,
    socket: &SharedSocket<C>,
    pass: &mut SocketPass<C>,
    from: Addr,
    now: u64,
    answers: &mut Outs,
)
    requires { IsPassOf socket.now.turn pass.old }
    ensures { IsPassOf socket.now.turn pass.new }
{
    for i in 0..outs.len() {
        let (_, bytes) = outs.get(i);
        shared_arrive(rt, socket, pass, now, from, bytes, answers);
    }
}

// The same round between two shared sockets.
fn shared_round<R: Wait + Copy + Send + Sync, C: Control>(
    rt: &R,
    a: &SharedSocket<C>,
    first: &mut SocketPass<C>,
    b: &SharedSocket<C>,
    second: &mut SocketPass<C>,
    wires: &mut Wires,
    into: &mut [u8],
    now: u64,
) -> u64
    requires a { IsPassOf a.now.turn first.old }
    requires b { IsPassOf b.now.turn second.old }
    ensures a { IsPassOf a.now.turn first.new }
    ensures b { IsPassOf b.now.turn second.new }
{
    let Wires { there, back, again } = wires;
    shared_send(rt, a, first, now, &[7; BLOCK]);
    let _ = a.pack(rt, first, now, there, &FreeGate);
    bring(rt, there, b, second, HERE, now, back);
    let came = shared_recv(rt, b, second, now, into);
    let _ = b.tick(rt, second, now, back, &FreeGate);
    bring(rt, back, a, first, THERE, now, again);
    bring(rt, again, b, second, HERE, now, there);
    came
}

// This many rounds between them. How many bytes came.
fn shared_rounds<R: Wait + Copy + Send + Sync, C: Control>(
    rt: &R,
    a: &SharedSocket<C>,
    first: &mut SocketPass<C>,
    b: &SharedSocket<C>,
    second: &mut SocketPass<C>,
    wires: &mut Wires,
    packets: u32,
) -> u64
    requires a { IsPassOf a.now.turn first.old }
    requires b { IsPassOf b.now.turn second.old }
    ensures a { IsPassOf a.now.turn first.new }
    ensures b { IsPassOf b.now.turn second.new }
{
    let mut came = 0u64;
    let mut into = [0u8; BLOCK];
    for k in 0..packets {
        let more = shared_round(
            rt,
            a,
            first,
            b,
            second,
            wires,
            &mut into,
            ROUND * u64::from(k),
        );
        came = came.saturating_add(more);
    }
    came
}

/// A shared socket and its first pass.
pub fn share<C: Control + Drop>(
    alloc: Global,
    socket: Socket<C>,
) -> Result<(SharedSocket<C>, SocketPass<C>), AllocError>
    requires { socket.count ≡ 0 }
    ensures { IfOk result (λ r. IsPassOf r.0.turn r.1) }
{
    match SharedSocket::make(alloc, socket) {
        Ok(made) => Ok(made),
        Err(_) => Err(AllocError),
    }
}

// Between two shared sockets. How many bytes came.
fn push_shared<R: Wait + Copy + Send + Sync, C: Control + Drop>(
    rt: &R,
    alloc: Global,
    wires: &mut Wires,
    packets: u32,
) -> Result<u64, AllocError> {
    let a = open::<C>(alloc, 1, THERE, 2)?;
    let b = open::<C>(alloc, 2, HERE, 1)?;
    let (a, mut first) = share(alloc, a)?;
    let (b, mut second) = share(alloc, b)?;
    Ok(shared_rounds(rt, &a, &mut first, &b, &mut second, wires, packets))
}

// How many bytes came alone, and how many shared.
fn push_both<R: Wait + Copy + Send + Sync, C: Control + Drop>(
    rt: &R,
    alloc: Global,
    packets: u32,
) -> Result<(u64, u64), AllocError> {
    let mut wires = open_wires(alloc)?;
    let mut a = open::<C>(alloc, 1, THERE, 2)?;
    let mut b = open::<C>(alloc, 2, HERE, 1)?;
    let alone = rounds(&mut a, &mut b, &mut wires, packets);
    let shared = push_shared::<R, C>(rt, alloc, &mut wires, packets)?;
    Ok((alone, shared))
}

/// Pushes this many blocks from one socket with the native control to another, and then between two that
/// are shared, and prints how many bytes came each time.
pub fn bench_cell<R: Print + Wait + Copy + Send + Sync>(
    rt: &R,
    alloc: Global,
    packets: u32,
) -> io::Result<()> {
    let (alone, shared) = push_both::<R, Native>(rt, alloc, packets)?;
    println!(rt; "{alone} bytes received alone, {shared} shared")?;
    Ok(())
}
