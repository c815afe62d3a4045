// Stories of shared sockets, with the native control. What is expected was worked out by hand.
ghost use Rattle.std.specs.Prelude.{◌<◌, ◌^◌, IfSome};
ghost use Rattle.udt_turn.specs.Words.{IsPassOf};

mod connections;

use crate::{SharedSocket, SocketPass};
use std::alloc::Global;
use std::sync::{Mutex, Wait};
use std::test::Fail;
use std::thread;
use std::thread::Threads;
use udt_core::{Outs, Socket};
use udt_model::{Addr, Config, Ip, Kind, Packed, Peer, Refusal};
use udt_outside::{FreeGate, Gate, Point};
use udt_rate::Native;

const STREAM: Config = Config {
    kind: Kind::Stream,
    payload: 4,
    snd_blocks: 8,
    rcv_blocks: 8,
};

const MESSAGES: Config = Config {
    kind: Kind::Message,
    payload: 4,
    snd_blocks: 8,
    rcv_blocks: 8,
};

// The last count, and the one before it.
const LAST: u64 = (1 << 55) - 1;

const LAST_BUT_ONE: u64 = (1 << 55) - 2;

// The address of a host.
fn addr_of(host: u32) -> Addr {
    Addr {
        ip: Ip::V4(host),
        port: 9000,
    }
}

// A shared socket of this kind with this ID, and its first pass. Its peer is on the host of this number,
// and has it as its ID. Its count begins here.
fn opened_as(
    alloc: Global,
    config: Config,
    own: u32,
    other: u32,
    count: u64,
) -> Option<(SharedSocket<Native>, SocketPass<Native>)>
    requires { count < 2 ^ 55 }
    ensures { IfSome result (λ r. IsPassOf r.0.turn r.1) }
{
    let peer = Peer {
        addr: addr_of(other),
        id: other,
        isn: 7,
        payload: 4,
        flow: 8,
    };
    let Ok(socket) = Socket::paired(alloc, own, config, peer, 0) else {
        return None;
    };
    match SharedSocket::make(alloc, socket.counted(count)) {
        Ok(made) => Some(made),
        Err(_) => None,
    }
}

// A shared socket of a stream with this ID and its first pass. Its count begins here.
fn opened(alloc: Global, own: u32, count: u64) -> Option<(SharedSocket<Native>, SocketPass<Native>)>
    requires { count < 2 ^ 55 }
    ensures { IfSome result (λ r. IsPassOf r.0.turn r.1) }
{
    opened_as(alloc, STREAM, own, 2, count)
}

// A gate that counts the calls with the turn of one socket held, and all others.
#[derive(Drop)]
struct CountGate {
    id: u32,
    held: Mutex<u32>,
    others: Mutex<u32>,
}

impl Gate for CountGate {
    fn reach<R: Wait + Copy + Send + Sync>(&self, rt: &R, point: Point) {
        if point == Point::Holding(self.id) {
            let mut held = self.held.lock(rt);
            *held = held.saturating_add(1);
        } else {
            let mut others = self.others.lock(rt);
            *others = others.saturating_add(1);
        }
    }

    fn another(&self) -> CountGate {
        CountGate {
            id: self.id,
            held: Mutex::new(0),
            others: Mutex::new(0),
        }
    }
}

#[test]
fn one_event_more_and_the_events_are_spent(rt: HostRuntime) -> Result<(), Fail> {
    let Some((socket, mut pass)) = opened(rt.alloc(), 1, LAST_BUT_ONE) else {
        panic!(rt; "no memory")
    };
    let Ok(mut outs) = Outs::new(rt.alloc()) else {
        panic!(rt; "no memory")
    };
    let mut room = [0u8; 4];
    assert!(rt; socket.send(&rt, &mut pass, 1, b"abc") == Ok(3));
    assert_eq!(rt; socket.look(&mut pass).count, LAST);
    assert!(rt; socket.send(&rt, &mut pass, 2, b"abc") == Err(Refusal::EventsSpent));
    assert!(rt; socket.recv(&rt, &mut pass, 2, &mut room) == Err(Refusal::EventsSpent));
    assert!(rt;
        socket.send_message(&rt, &mut pass, 2, None, true, b"abc") == Err(Refusal::EventsSpent)
    );
    assert!(rt; socket.recv_message(&rt, &mut pass, 2, &mut room) == Err(Refusal::EventsSpent));
    assert!(rt; socket.perf(&rt, &mut pass, 2).is_err());
    assert!(rt; socket.close(&rt, &mut pass, 2).is_err());
    assert!(rt;
        socket
            .tick(&rt, &mut pass, 2, &mut outs, &FreeGate)
            .is_err()
    );
    assert!(rt;
        socket
            .pack(&rt, &mut pass, 2, &mut outs, &FreeGate)
            .is_err()
    );
    let heard = socket.arrive(&rt, &mut pass, 2, addr_of(2), b"abc", &mut outs, &FreeGate);
    assert!(rt; heard.is_err());
    assert_eq!(rt; socket.look(&mut pass).count, LAST);
    assert_eq!(rt; socket.at(&pass), LAST);
    Ok(())
}

// Splits a pass off this many times, and says how often it went.
fn split_off(socket: &SharedSocket<Native>, pass: &mut SocketPass<Native>, times: u32) -> u32
    requires { IsPassOf socket.now.turn pass.old }
    ensures { IsPassOf socket.now.turn pass.new }
{
    let mut went = 0u32;
    for _ in 0..times {
        if socket.split(pass).is_ok() {
            went = went.wrapping_add(1);
        }
    }
    went
}

#[test]
fn a_look_shows_what_another_pass_did_until_passes_run_out(rt: HostRuntime) -> Result<(), Fail> {
    let Some((socket, mut first)) = opened(rt.alloc(), 1, 0) else {
        panic!(rt; "no memory")
    };
    let Ok(mut second) = socket.split(&mut first) else {
        panic!(rt; "no number")
    };
    assert_eq!(rt; split_off(&socket, &mut first, 65_533), 65_533);
    assert_eq!(rt; split_off(&socket, &mut first, 3), 0);
    let look = socket.look(&mut first);
    assert!(rt; look.count == 0 && look.bits == 18);
    assert!(rt; socket.send(&rt, &mut second, 5, b"abcdefgh") == Ok(8));
    assert_eq!(rt; socket.look(&mut first).count, 1);
    assert!(rt; socket.close(&rt, &mut second, 6).is_ok());
    let look = socket.look(&mut first);
    assert!(rt; look.count == 2 && look.bits == 0);
    assert!(rt; socket.at(&first) == 0 && socket.at(&second) == 2);
    socket.join(second, &mut first);
    assert_eq!(rt; socket.at(&first), 2);
    Ok(())
}

#[test]
fn a_socket_that_begins_at_the_last_count_is_spent(rt: HostRuntime) -> Result<(), Fail> {
    let Some((socket, mut pass)) = opened(rt.alloc(), 1, LAST) else {
        panic!(rt; "no memory")
    };
    assert!(rt; socket.send(&rt, &mut pass, 1, b"abc") == Err(Refusal::EventsSpent));
    assert!(rt; socket.look(&mut pass).count == LAST && socket.at(&pass) == 0);
    Ok(())
}

#[test]
fn the_gate_is_called_once_an_event_with_the_turn_held(rt: HostRuntime) -> Result<(), Fail> {
    let Some((socket, mut pass)) = opened(rt.alloc(), 5, 0) else {
        panic!(rt; "no memory")
    };
    let Ok(mut outs) = Outs::new(rt.alloc()) else {
        panic!(rt; "no memory")
    };
    let gate = CountGate {
        id: 5,
        held: Mutex::new(0),
        others: Mutex::new(0),
    };
    assert!(rt; socket.send(&rt, &mut pass, 0, b"abc") == Ok(3));
    assert!(rt; socket.next_moment(&rt, &mut pass) == Some(0));
    assert!(rt; socket.pack(&rt, &mut pass, 0, &mut outs, &gate) == Ok(Packed::Block(19)));
    assert_eq!(rt; outs.len(), 1);
    assert!(rt; socket.tick(&rt, &mut pass, 1, &mut outs, &gate).is_ok());
    let heard = socket.arrive(&rt, &mut pass, 2, addr_of(2), b"abc", &mut outs, &gate);
    assert!(rt; heard.is_ok());
    assert_eq!(rt; socket.look(&mut pass).count, 4);
    assert_eq!(rt; *gate.held.lock(&rt), 3);
    assert_eq!(rt; *gate.others.lock(&rt), 0);
    Ok(())
}

// Sends a byte a thousand times. Most are refused, since no block is free, and each is an event.
fn send_thousand<R: Wait>(
    rt: &R,
    socket: &SharedSocket<Native>,
    mut pass: SocketPass<Native>,
) -> SocketPass<Native>
    requires { IsPassOf socket.now.turn pass }
    ensures { IsPassOf socket.now.turn result }
{
    for now in 0..1000u64 {
        let _ = socket.send(rt, &mut pass, now, b"x");
    }
    pass
}

// Two threads send a thousand times each, and the second pass is joined into the first.
fn send_by_two<R: Threads + Wait + Sync>(
    rt: &R,
    socket: &SharedSocket<Native>,
    first: SocketPass<Native>,
    second: SocketPass<Native>,
) -> SocketPass<Native>
    requires first { IsPassOf socket.now.turn first }
    requires second { IsPassOf socket.now.turn second }
    ensures { IsPassOf socket.now.turn result }
{
    let (mut first, second) = thread::join(
        rt,
        move ||
            requires { IsPassOf socket.now.turn first }
            ensures { IsPassOf socket.entry.now.turn result }
        { send_thousand(rt, socket, first) },
        move ||
            requires { IsPassOf socket.now.turn second }
            ensures { IsPassOf socket.entry.now.turn result }
        { send_thousand(rt, socket, second) },
    );
    socket.join(second, &mut first);
    first
}

#[test]
fn two_threads_make_one_history(rt: HostRuntime) -> Result<(), Fail> {
    let Some((socket, mut first)) = opened(rt.alloc(), 1, 0) else {
        panic!(rt; "no memory")
    };
    let Ok(second) = socket.split(&mut first) else {
        panic!(rt; "no number")
    };
    let mut pass = send_by_two(&rt, &socket, first, second);
    assert_eq!(rt; socket.look(&mut pass).count, 2000);
    assert_eq!(rt; socket.at(&pass), 2000);
    Ok(())
}

#[test]
fn messages_go_through_shared_sockets(rt: HostRuntime) -> Result<(), Fail> {
    let Some((a, mut first)) = opened_as(rt.alloc(), MESSAGES, 1, 2, 0) else {
        panic!(rt; "no memory")
    };
    let Some((b, mut second)) = opened_as(rt.alloc(), MESSAGES, 2, 1, 0) else {
        panic!(rt; "no memory")
    };
    let (Ok(mut outs), Ok(mut answers)) = (Outs::new(rt.alloc()), Outs::new(rt.alloc())) else {
        panic!(rt; "no memory")
    };
    let mut room = [0u8; 8];
    assert!(rt; a.send(&rt, &mut first, 0, b"abc") == Err(Refusal::MessageOnly));
    assert!(rt; a.send_message(&rt, &mut first, 0, None, true, b"abcdef") == Ok(6));
    let there = carry(
        &rt,
        &a,
        &mut first,
        &b,
        &mut second,
        100,
        1,
        &mut outs,
        &mut answers,
    );
    let then = carry(
        &rt,
        &a,
        &mut first,
        &b,
        &mut second,
        200,
        1,
        &mut outs,
        &mut answers,
    );
    assert!(rt; there == (2, 1) && then == (2, 1));
    assert!(rt; b.recv_message(&rt, &mut second, 300, &mut room) == Ok(6));
    assert!(rt; room == *b"abcdef\0\0");
    assert!(rt; a.look(&mut first).count == 6 && b.look(&mut second).count == 3);
    Ok(())
}

// Gives a socket all datagrams that another emitted, which came from this address. How many there were.
fn deliver<R: Wait + Copy + Send + Sync>(
    rt: &R,
    to: &SharedSocket<Native>,
    pass: &mut SocketPass<Native>,
    now: u64,
    from: Addr,
    outs: &Outs,
    answers: &mut Outs,
) -> u64
    requires { IsPassOf to.now.turn pass.old }
    ensures { IsPassOf to.now.turn pass.new }
{
    for i in 0..outs.len() {
        let (_, bytes) = outs.get(i);
        let _ = to.arrive(rt, pass, now, from, bytes, answers, &FreeGate);
    }
    outs.len() as u64
}

// What came of the bytes of two senders. Those of each are 0, 1, 2 and so on in the low six bits, and
// those of the second have the next bit set.
#[derive(Drop)]
struct Marks {
    first: u64,
    second: u64,
    in_order: bool,
}

impl Marks {
    fn note(&mut self, byte: u8) {
        let low = u64::from(byte % 64);
        if byte < 64 {
            self.in_order = self.in_order && low == self.first % 64;
            self.first = self.first.wrapping_add(1);
        } else {
            self.in_order = self.in_order && low == self.second % 64;
            self.second = self.second.wrapping_add(1);
        }
    }
}

// Sends a thousand times a byte with this mark. How many were accepted.
fn send_marked<R: Wait>(
    rt: &R,
    socket: &SharedSocket<Native>,
    mut pass: SocketPass<Native>,
    mark: u8,
) -> (SocketPass<Native>, u64)
    requires { IsPassOf socket.now.turn pass }
    ensures { IsPassOf socket.now.turn result.0 }
{
    let mut taken = 0u64;
    for now in 0..1000u64 {
        let byte = mark | (taken % 64) as u8;
        if socket.send(rt, &mut pass, now, &[byte]).is_ok() {
            taken = taken.wrapping_add(1);
        }
    }
    (pass, taken)
}

// Receives a thousand times.
fn receive_thousand<R: Wait>(
    rt: &R,
    socket: &SharedSocket<Native>,
    mut pass: SocketPass<Native>,
) -> (SocketPass<Native>, Marks)
    requires { IsPassOf socket.now.turn pass }
    ensures { IsPassOf socket.now.turn result.0 }
{
    let mut marks = Marks {
        first: 0,
        second: 0,
        in_order: true,
    };
    let mut room = [0u8; 8];
    for now in 0..1000u64 {
        if let Ok(count) = socket.recv(rt, &mut pass, now, &mut room) {
            for &byte in &room[..count] {
                marks.note(byte);
            }
        }
    }
    (pass, marks)
}

// What the worker of both sockets gives back: its passes, and how many calls it made under each.
#[derive(Drop)]
struct Carried {
    first: SocketPass<Native>,
    second: SocketPass<Native>,
    calls: u64,
    other_calls: u64,
}

// What one socket packs and what falls due there goes to the other. How many calls both had.
fn carry<R: Wait + Copy + Send + Sync>(
    rt: &R,
    from: &SharedSocket<Native>,
    pass: &mut SocketPass<Native>,
    to: &SharedSocket<Native>,
    other: &mut SocketPass<Native>,
    now: u64,
    host: u32,
    outs: &mut Outs,
    answers: &mut Outs,
) -> (u64, u64)
    requires from { IsPassOf from.now.turn pass.old }
    requires to { IsPassOf to.now.turn other.old }
    ensures from { IsPassOf from.now.turn pass.new }
    ensures to { IsPassOf to.now.turn other.new }
{
    let _ = from.pack(rt, pass, now, outs, &FreeGate);
    let packed = deliver(rt, to, other, now, addr_of(host), outs, answers);
    let _ = from.tick(rt, pass, now, outs, &FreeGate);
    let ticked = deliver(rt, to, other, now, addr_of(host), outs, answers);
    (2, packed.wrapping_add(ticked))
}

// A thousand rounds of the worker of two sockets, each 10 milliseconds later.
fn carry_thousand<R: Wait + Copy + Send + Sync>(
    rt: &R,
    a: &SharedSocket<Native>,
    b: &SharedSocket<Native>,
    mut carried: Carried,
    mut outs: Outs,
    mut answers: Outs,
) -> Carried
    requires first { IsPassOf a.now.turn carried.first }
    requires second { IsPassOf b.now.turn carried.second }
    ensures first { IsPassOf a.now.turn result.first }
    ensures second { IsPassOf b.now.turn result.second }
{
    for round in 0..1000u64 {
        carried = carry_both(rt, a, b, carried, 10_000 * round, &mut outs, &mut answers);
    }
    carried
}

// One round of that worker.
fn carry_both<R: Wait + Copy + Send + Sync>(
    rt: &R,
    a: &SharedSocket<Native>,
    b: &SharedSocket<Native>,
    carried: Carried,
    now: u64,
    outs: &mut Outs,
    answers: &mut Outs,
) -> Carried
    requires first { IsPassOf a.now.turn carried.first }
    requires second { IsPassOf b.now.turn carried.second }
    ensures first { IsPassOf a.now.turn result.first }
    ensures second { IsPassOf b.now.turn result.second }
{
    let Carried {
        mut first,
        mut second,
        calls,
        other_calls,
    } = carried;
    let there = carry(rt, a, &mut first, b, &mut second, now, 1, outs, answers);
    let back = carry(rt, b, &mut second, a, &mut first, now, 2, outs, answers);
    Carried {
        first,
        second,
        calls: calls.wrapping_add(there.0).wrapping_add(back.1),
        other_calls: other_calls.wrapping_add(there.1).wrapping_add(back.0),
    }
}

// Two threads send. The second pass is joined into the first. How many bytes of each were accepted.
fn send_marked_by_two<R: Threads + Wait + Sync>(
    rt: &R,
    socket: &SharedSocket<Native>,
    first: SocketPass<Native>,
    second: SocketPass<Native>,
) -> (SocketPass<Native>, (u64, u64))
    requires first { IsPassOf socket.now.turn first }
    requires second { IsPassOf socket.now.turn second }
    ensures { IsPassOf socket.now.turn result.0 }
{
    let (one, other) = thread::join(
        rt,
        move ||
            requires { IsPassOf socket.now.turn first }
            ensures { IsPassOf socket.entry.now.turn result.0 }
        { send_marked(rt, socket, first, 0) },
        move ||
            requires { IsPassOf socket.now.turn second }
            ensures { IsPassOf socket.entry.now.turn result.0 }
        { send_marked(rt, socket, second, 64) },
    );
    let (mut pass, taken) = one;
    let (gone, other_taken) = other;
    socket.join(gone, &mut pass);
    (pass, (taken, other_taken))
}

// One thread receives and another is the worker. The receiver's pass is joined into the worker's.
fn receive_and_carry<R: Threads + Wait + Copy + Send + Sync>(
    rt: &R,
    a: &SharedSocket<Native>,
    b: &SharedSocket<Native>,
    receiver: SocketPass<Native>,
    carried: Carried,
    outs: Outs,
    answers: Outs,
) -> (Carried, Marks)
    requires receiver { IsPassOf b.now.turn receiver }
    requires first { IsPassOf a.now.turn carried.first }
    requires second { IsPassOf b.now.turn carried.second }
    ensures first { IsPassOf a.now.turn result.0.first }
    ensures second { IsPassOf b.now.turn result.0.second }
{
    let (received, carried) = thread::join(
        rt,
        move ||
            requires { IsPassOf b.now.turn receiver }
            ensures { IsPassOf b.entry.now.turn result.0 }
        { receive_thousand(rt, b, receiver) },
        move ||
            requires { IsPassOf a.now.turn carried.first × IsPassOf b.now.turn carried.second }
            ensures { IsPassOf a.entry.now.turn result.first × IsPassOf b.entry.now.turn result.second }
        { carry_thousand(rt, a, b, carried, outs, answers) },
    );
    let (gone, marks) = received;
    let mut carried = carried;
    b.join(gone, &mut carried.second);
    (carried, marks)
}

// What four threads did with two sockets.
#[derive(Drop)]
struct Done {
    carried: Carried,
    marks: Marks,
    taken: u64,
    other_taken: u64,
}

// Two threads send, one receives, and one is the worker. All passes are joined.
fn run_four<R: Threads + Wait + Copy + Send + Sync>(
    rt: &R,
    a: &SharedSocket<Native>,
    b: &SharedSocket<Native>,
    senders: (SocketPass<Native>, SocketPass<Native>),
    receiver: SocketPass<Native>,
    carried: Carried,
    outs: Outs,
    answers: Outs,
) -> Done
    requires sender { IsPassOf a.now.turn senders.0 }
    requires other { IsPassOf a.now.turn senders.1 }
    requires receiver { IsPassOf b.now.turn receiver }
    requires first { IsPassOf a.now.turn carried.first }
    requires second { IsPassOf b.now.turn carried.second }
    ensures first { IsPassOf a.now.turn result.carried.first }
    ensures second { IsPassOf b.now.turn result.carried.second }
{
    let (first, second) = senders;
    let (sent, rest) = thread::join(
        rt,
        move ||
            requires { IsPassOf a.now.turn first × IsPassOf a.now.turn second }
            ensures { IsPassOf a.entry.now.turn result.0 }
        { send_marked_by_two(rt, a, first, second) },
        move ||
            requires { IsPassOf b.now.turn receiver
                × (IsPassOf a.now.turn carried.first × IsPassOf b.now.turn carried.second) }
            ensures { IsPassOf a.entry.now.turn result.0.first
                × IsPassOf b.entry.now.turn result.0.second }
        { receive_and_carry(rt, a, b, receiver, carried, outs, answers) },
    );
    let (gone, (taken, other_taken)) = sent;
    let (mut carried, marks) = rest;
    a.join(gone, &mut carried.first);
    Done {
        carried,
        marks,
        taken,
        other_taken,
    }
}

#[test]
fn four_threads_make_one_whole_history(rt: HostRuntime) -> Result<(), Fail> {
    let Some((a, mut first)) = opened_as(rt.alloc(), STREAM, 1, 2, 0) else {
        panic!(rt; "no memory")
    };
    let Some((b, mut second)) = opened_as(rt.alloc(), STREAM, 2, 1, 0) else {
        panic!(rt; "no memory")
    };
    let (Ok(outs), Ok(answers)) = (Outs::new(rt.alloc()), Outs::new(rt.alloc())) else {
        panic!(rt; "no memory")
    };
    let (Ok(sender), Ok(other)) = (a.split(&mut first), a.split(&mut first)) else {
        panic!(rt; "no number")
    };
    let Ok(receiver) = b.split(&mut second) else {
        panic!(rt; "no number")
    };
    let carried = Carried {
        first,
        second,
        calls: 0,
        other_calls: 0,
    };
    let done = run_four(
        &rt,
        &a,
        &b,
        (sender, other),
        receiver,
        carried,
        outs,
        answers,
    );
    let Done {
        carried,
        marks,
        taken,
        other_taken,
    } = done;
    let Carried {
        mut first,
        mut second,
        calls,
        other_calls,
    } = carried;
    assert!(rt; marks.in_order && marks.first <= taken && marks.second <= other_taken);
    assert_eq!(rt; a.look(&mut first).count, calls.wrapping_add(2000));
    assert_eq!(rt; b.look(&mut second).count, other_calls.wrapping_add(1000));
    assert!(rt; a.is_whole(first) && b.is_whole(second));
    Ok(())
}
