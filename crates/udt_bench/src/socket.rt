//! Blocks from one socket to another, in memory.
ghost use Rattle.std.specs.Prelude.{◌≡◌, ◌≤◌, ◌<◌, IfOk};

use std::alloc::{AllocError, Global};
use std::io;
use udt_core::{Outs, Packed, Peer, Socket};
use udt_model::{Addr, Config, Ip, Kind};
use udt_rate::{Control, Native};

// The bytes of a block.
const BLOCK: u32 = 1_456;

// The blocks that a socket keeps each way.
const BLOCKS: u32 = 8_192;

// The microseconds from one packet to the next.
const STEP: u64 = 2;

// The microseconds that pass where nothing may leave: the time of an ACK.
const PAUSE: u64 = 10_000;

// This many blocks are given to a send, and as much is wanted of a receive.
const PIECE_BLOCKS: u32 = 32;

// Their bytes.
const PIECE: usize = 46_592;

/// The address of the first socket.
pub const HERE: Addr = Addr {
    ip: Ip::V4(167_772_161),
    port: 9000,
};

/// The address of the other.
pub const THERE: Addr = Addr {
    ip: Ip::V4(167_772_162),
    port: 9000,
};

/// What two sockets emit: one there, the other back, and the first one again.
#[derive(Drop)]
pub struct Wires {
    pub there: Outs,
    pub back: Outs,
    pub again: Outs,
}

// The bytes that one is given, and room for those that the other gives.
#[derive(Drop)]
struct Pieces {
    given: Vec<u8>,
    into: Vec<u8>,
}

// Two sockets, and what went from one to the other.
#[derive(Drop)]
struct Pair<C> {
    a: Socket<C>,
    b: Socket<C>,
    wires: Wires,
    pieces: Pieces,
    now: u64,
    pushed: u32,
    came: u64,
}

/// One of two sockets, the other of which has this address and ID.
#[tactic(auto, unfolding(udt_model::specs::Opening::opening))]
pub fn open<C: Control + Drop>(
    alloc: Global,
    own: u32,
    addr: Addr,
    id: u32,
) -> Result<Socket<C>, AllocError>
    ensures { IfOk result (λ socket. socket.count ≡ 0) }
{
    let config = Config {
        kind: Kind::Stream,
        payload: BLOCK,
        snd_blocks: BLOCKS,
        rcv_blocks: BLOCKS,
    };
    let peer = Peer {
        addr,
        id,
        isn: 7,
        payload: BLOCK,
        flow: BLOCKS,
    };
    match Socket::paired(alloc, own, config, peer, 0) {
        Ok(socket) => Ok(socket),
        Err(_) => Err(AllocError),
    }
}

// Room for what an event emits.
fn outs(alloc: Global) -> Result<Outs, AllocError> {
    Outs::new(alloc).map_err(|_| AllocError)
}

/// Room for what they emit.
pub fn open_wires(alloc: Global) -> Result<Wires, AllocError> {
    let there = outs(alloc)?;
    let back = outs(alloc)?;
    let again = outs(alloc)?;
    Ok(Wires { there, back, again })
}

fn open_pieces(alloc: Global) -> Result<Pieces, AllocError> {
    let given = vec![in alloc; 7; PIECE]?;
    let into = vec![in alloc; 0; PIECE]?;
    Ok(Pieces { given, into })
}

fn open_pair<C: Control + Drop>(alloc: Global) -> Result<Pair<C>, AllocError> {
    let wires = open_wires(alloc)?;
    let pieces = open_pieces(alloc)?;
    let a = open(alloc, 1, THERE, 2)?;
    let b = open(alloc, 2, HERE, 1)?;
    Ok(Pair {
        a,
        b,
        wires,
        pieces,
        now: 0,
        pushed: 0,
        came: 0,
    })
}

// Each call that is measured stands alone, so that what it takes shows under its name.

/// Gives a socket bytes.
#[inline(never)]
pub fn call_send<C: Control>(socket: &mut Socket<C>, now: u64, bytes: &[u8]) {
    let _ = socket.send(now, bytes);
}

/// Takes bytes out of a socket. How many came.
#[inline(never)]
pub fn call_recv<C: Control>(socket: &mut Socket<C>, now: u64, into: &mut [u8]) -> u64 {
    match socket.recv(now, into) {
        Ok(count) => count as u64,
        Err(_) => 0,
    }
}

/// Has a socket write its next packet.
#[inline(never)]
pub fn call_pack<C: Control>(socket: &mut Socket<C>, now: u64, outs: &mut Outs) -> Packed {
    socket.pack(now, outs)
}

#[inline(never)]
fn call_arrive<C: Control>(
    socket: &mut Socket<C>,
    now: u64,
    from: Addr,
    bytes: &[u8],
    answers: &mut Outs,
) {
    let _ = socket.arrive(now, from, bytes, answers);
}

/// Has the timers of a socket do what falls due.
#[inline(never)]
pub fn call_tick<C: Control>(socket: &mut Socket<C>, now: u64, outs: &mut Outs) {
    socket.tick(now, outs);
}

/// Gives a socket all datagrams that the other emitted.
pub fn deliver<C: Control>(
    outs: &Outs,
    to: &mut Socket<C>,
    from: Addr,
    now: u64,
    answers: &mut Outs,
) {
    for i in 0..outs.len() {
        let (_, bytes) = outs.get(i);
        call_arrive(to, now, from, bytes, answers);
    }
}

impl<C: Control> Pair<C> {
    // One is given bytes.
    fn send(&mut self) {
        call_send(&mut self.a, self.now, &self.pieces.given);
    }

    // The other gives bytes.
    fn recv(&mut self) {
        let count = call_recv(&mut self.b, self.now, &mut self.pieces.into);
        self.came = self.came.saturating_add(count);
    }

    // Takes what one emitted to the other, and what that one answers back.
    fn carry(&mut self) {
        let Wires { there, back, again } = &mut self.wires;
        deliver(there, &mut self.b, HERE, self.now, back);
        deliver(back, &mut self.a, THERE, self.now, again);
    }

    // The timers of one, and what it emits then.
    fn tick_first(&mut self) {
        let Wires { there, again, .. } = &mut self.wires;
        call_tick(&mut self.a, self.now, there);
        deliver(there, &mut self.b, HERE, self.now, again);
    }

    // The timers of the other, and the ACK2 of its ACK.
    fn tick_second(&mut self) {
        let Wires { there, back, again } = &mut self.wires;
        call_tick(&mut self.b, self.now, back);
        deliver(back, &mut self.a, THERE, self.now, there);
        deliver(there, &mut self.b, HERE, self.now, again);
    }

    // Has the next packet written, which then goes to the other. Where none may leave yet, time passes.
    fn push(&mut self) {
        match call_pack(&mut self.a, self.now, &mut self.wires.there) {
            Packed::Block(_) => {
                self.carry();
                self.pushed = self.pushed.saturating_add(1);
                self.now = self.now.saturating_add(STEP);
            }
            Packed::NotYet(until) => self.now = until,
            _ => {
                self.now = self.now.saturating_add(PAUSE);
                self.tick_first();
                self.tick_second();
            }
        }
    }

    // What is done in a turn: the calls of the applications now and then, and a packet.
    fn turn(&mut self) {
        if self.pushed % PIECE_BLOCKS == 0 {
            self.send();
            self.recv();
        }
        self.push();
    }
}

// Pushes this many blocks from one to the other.
fn run<C: Control>(pair: &mut Pair<C>, packets: u32) {
    for _ in 0..4 * packets as u64 {
        if pair.pushed == packets {
            break;
        }
        pair.turn();
    }
}

// Pushes this many blocks from one socket to another. How many left, and how many bytes came.
fn push_blocks<C: Control + Drop>(alloc: Global, packets: u32) -> Result<(u32, u64), AllocError> {
    let mut pair = open_pair::<C>(alloc)?;
    run(&mut pair, packets);
    Ok((pair.pushed, pair.came))
}

/// Pushes this many blocks from one socket with the native control to another, and prints how many
/// bytes came.
pub fn bench_socket<R: Print>(rt: &R, alloc: Global, packets: u32) -> io::Result<()> {
    let (pushed, came) = push_blocks::<Native>(alloc, packets)?;
    println!(rt; "{pushed} packets, {came} bytes received")?;
    Ok(())
}
