ghost use Rattle.std.specs.Prelude.{◌≡◌, ◌≤◌, length, IfSome};
ghost use Rattle.udt_queues.specs.Messages.{lists_of, takes_of};
ghost use Rattle.udt_queues.specs.Outgoing.{IsOutPassOf};
ghost use Rattle.udt_queues.specs.Starting.{AreFresh};

use crate::{AttachPass, Full, MOST_BYTES, Note, OutPass, Outbox, Schedule, attach_lists};
use std::sync::Wait;
use std::test::Fail;
use std::thread;
use std::thread::Threads;
use udt_model::{Addr, Ip};

#[test]
fn a_schedule_gives_the_least_moment_and_then_the_least_id(rt: HostRuntime) -> Result<(), Fail> {
    let Ok(mut schedule) = Schedule::new(rt.alloc(), 3) else {
        panic!(rt; "no memory")
    };
    assert_eq!(rt; schedule.first(), None);
    schedule.put(7, 300);
    schedule.put(5, 300);
    schedule.put(9, 200);
    assert_eq!(rt; schedule.first(), Some((200, 9)));
    schedule.remove(9);
    assert_eq!(rt; schedule.first(), Some((300, 5)));
    schedule.put(5, 301);
    assert_eq!(rt; schedule.first(), Some((300, 7)));
    schedule.remove(7);
    schedule.remove(5);
    assert_eq!(rt; schedule.first(), None);
    Ok(())
}

// The address of a producer, by its number.
fn address(producer: u16) -> Addr {
    Addr {
        ip: Ip::V4(0x0a00_0001),
        port: producer,
    }
}

// What a taker finds: the producer's number and the entry's number.
fn taken<R: Wait>(
    rt: &R,
    outbox: &Outbox,
    pass: &mut OutPass,
    into: &mut [u8],
) -> Option<(u16, u32)>
    requires own { IsOutPassOf outbox.now pass.old }
    requires room { MOST_BYTES ≤ length into.old }
    ensures own { IsOutPassOf outbox.now pass.new }
{
    let (from, len) = outbox.take(rt, pass, into)?;
    match &into[..len] {
        [a, b, c, d] => Some((from.port, u32::from_be_bytes([*a, *b, *c, *d]))),
        _ => None,
    }
}

// Puts this number of entries in, and says how many were taken in.
fn put_some<R: Wait>(rt: &R, outbox: &Outbox, pass: &mut OutPass, from: u32, entries: u32) -> u32
    requires { IsOutPassOf outbox.now pass.old }
    ensures { IsOutPassOf outbox.now pass.new }
{
    let mut went = 0u32;
    for i in 0..entries {
        let entry = from.wrapping_add(i).to_be_bytes();
        if outbox.put(rt, pass, address(1), &entry).is_ok() {
            went = went.wrapping_add(1);
        }
    }
    went
}

// Takes this number of entries, and says whether they have the numbers from `from` on.
fn take_some<R: Wait>(
    rt: &R,
    outbox: &Outbox,
    pass: &mut OutPass,
    into: &mut [u8],
    from: u32,
    entries: u32,
) -> bool
    requires own { IsOutPassOf outbox.now pass.old }
    requires room { MOST_BYTES ≤ length into.old }
    ensures own { IsOutPassOf outbox.now pass.new }
{
    let mut right = true;
    for i in 0..entries {
        right &= taken(rt, outbox, pass, into) == Some((1, from.wrapping_add(i)));
    }
    right
}

#[test]
fn an_outbox_of_sixteen_buffers_is_full_after_sixteen(rt: HostRuntime) -> Result<(), Fail> {
    let mut into = vec![in rt.alloc(); 0u8; MOST_BYTES]?;
    let Ok((outbox, mut pass)) = Outbox::make(rt.alloc(), 16) else {
        panic!(rt; "no memory")
    };
    assert_eq!(rt; put_some(&rt, &outbox, &mut pass, 0, 16), 16);
    assert_eq!(rt; put_some(&rt, &outbox, &mut pass, 16, 1), 0);
    assert!(rt; take_some(&rt, &outbox, &mut pass, &mut into, 0, 16));
    assert_eq!(rt; taken(&rt, &outbox, &mut pass, &mut into), None);
    Ok(())
}

// So many times a producer or a taker tries again.
const TURNS: u32 = 20_000_000;

// Puts an entry in, and tries again where there was no spare buffer.
fn put_by_turns<R: Wait>(
    rt: &R,
    outbox: &Outbox,
    pass: &mut OutPass,
    producer: u16,
    entry: u32,
) -> bool
    requires { IsOutPassOf outbox.now pass.old }
    ensures { IsOutPassOf outbox.now pass.new }
{
    let bytes = entry.to_be_bytes();
    for _ in 0..TURNS {
        match outbox.put(rt, pass, address(producer), &bytes) {
            Ok(()) => return true,
            Err(Full) => thread::yield_now(),
        }
    }
    false
}

// Puts a thousand entries in.
fn produce<R: Wait>(rt: &R, outbox: &Outbox, mut pass: OutPass, producer: u16) -> Option<OutPass>
    requires { IsOutPassOf outbox.now pass }
    ensures { IfSome result (λ p. IsOutPassOf outbox.now p) }
{
    for entry in 0..1000u32 {
        if !put_by_turns(rt, outbox, &mut pass, producer, entry) {
            return None;
        }
    }
    Some(pass)
}

// Takes two thousand entries, of each of two producers in the order of their numbers.
fn take_in_order<R: Wait>(
    rt: &R,
    outbox: &Outbox,
    mut pass: OutPass,
    mut into: Vec<u8>,
) -> Option<OutPass>
    requires own { IsOutPassOf outbox.now pass }
    requires room { MOST_BYTES ≤ length into.items }
    ensures { IfSome result (λ p. IsOutPassOf outbox.now p) }
{
    let mut first = 0u32;
    let mut second = 0u32;
    for _ in 0..TURNS {
        if first == 1000 && second == 1000 {
            return Some(pass);
        }
        match taken(rt, outbox, &mut pass, &mut into) {
            None => thread::yield_now(),
            Some((1, entry)) if entry == first => first = first.wrapping_add(1),
            Some((2, entry)) if entry == second => second = second.wrapping_add(1),
            Some(_) => return None,
        }
    }
    None
}

// Two producers, each in a thread of its own.
fn produce_by_two<R: Threads + Wait + Sync>(
    rt: &R,
    outbox: &Outbox,
    first: OutPass,
    second: OutPass,
) -> Option<OutPass>
    requires first { IsOutPassOf outbox.now first }
    requires second { IsOutPassOf outbox.now second }
    ensures { IfSome result (λ p. IsOutPassOf outbox.now p) }
{
    let (first, second) = thread::join(
        rt,
        move ||
            requires { IsOutPassOf outbox.now first }
            ensures { IfSome result (λ p. IsOutPassOf outbox.entry.now p) }
        { produce(rt, outbox, first, 1) },
        move ||
            requires { IsOutPassOf outbox.now second }
            ensures { IfSome result (λ p. IsOutPassOf outbox.entry.now p) }
        { produce(rt, outbox, second, 2) },
    );
    let (Some(mut first), Some(second)) = (first, second) else {
        return None;
    };
    outbox.join(second, &mut first);
    Some(first)
}

// A taker beside the two.
fn exchange<R: Threads + Wait + Sync>(
    rt: &R,
    outbox: &Outbox,
    first: OutPass,
    second: OutPass,
    taker: OutPass,
    into: Vec<u8>,
) -> Option<OutPass>
    requires first { IsOutPassOf outbox.now first }
    requires second { IsOutPassOf outbox.now second }
    requires taker { IsOutPassOf outbox.now taker }
    requires room { MOST_BYTES ≤ length into.items }
    ensures { IfSome result (λ p. IsOutPassOf outbox.now p) }
{
    let (put, took) = thread::join(
        rt,
        move ||
            requires { IsOutPassOf outbox.now first × IsOutPassOf outbox.now second }
            ensures { IfSome result (λ p. IsOutPassOf outbox.entry.now p) }
        { produce_by_two(rt, outbox, first, second) },
        move ||
            requires { IsOutPassOf outbox.now taker × (MOST_BYTES ≤ length into.items) }
            ensures { IfSome result (λ p. IsOutPassOf outbox.entry.now p) }
        { take_in_order(rt, outbox, taker, into) },
    );
    let (Some(put), Some(mut took)) = (put, took) else {
        return None;
    };
    outbox.join(put, &mut took);
    Some(took)
}

#[test]
fn two_producers_put_a_thousand_entries_each(rt: HostRuntime) -> Result<(), Fail> {
    let into = vec![in rt.alloc(); 0u8; MOST_BYTES]?;
    let mut rest = vec![in rt.alloc(); 0u8; MOST_BYTES]?;
    let Ok((outbox, mut taker)) = Outbox::make(rt.alloc(), 16) else {
        panic!(rt; "no memory")
    };
    let Ok(first) = outbox.split(&mut taker) else {
        panic!(rt; "no memory")
    };
    let Ok(second) = outbox.split(&mut taker) else {
        panic!(rt; "no memory")
    };
    let Some(mut pass) = exchange(&rt, &outbox, first, second, taker, into) else {
        panic!(rt; "an entry is missing or out of order")
    };
    assert_eq!(rt; taken(&rt, &outbox, &mut pass, &mut rest), None);
    Ok(())
}

// A message with nothing but an ID.
#[derive(Drop)]
struct Ping {
    id: u32,
}

impl Note for Ping {
    ghost id_of = { λ p. p.id };

    fn id(&self) -> u32 {
        self.id
    }
}

// The passes of two lists.
fn two_passes(mut passes: Vec<AttachPass<Ping>>) -> Option<(AttachPass<Ping>, AttachPass<Ping>)>
    requires { AreFresh 2 2 passes.items }
    ensures { IfSome result (λ p. lists_of p.1 ≡ lists_of p.0) }
{
    let Some(second) = passes.pop() else {
        return None;
    };
    let Some(first) = passes.pop() else {
        return None;
    };
    Some((first, second))
}

// The ID of a message that was taken.
fn took_id<R: Wait>(rt: &R, pass: &mut AttachPass<Ping>) -> Option<u32>
    ensures lists { lists_of pass.new ≡ lists_of pass.old }
    ensures takes { takes_of pass.new ≡ takes_of pass.old }
{
    match pass.take(rt) {
        Some(ping) => Some(ping.id()),
        None => None,
    }
}

#[test]
fn messages_go_to_the_list_of_their_taker(rt: HostRuntime) -> Result<(), Fail> {
    let Ok(passes) = attach_lists(rt.alloc(), 2, 2) else {
        panic!(rt; "no memory")
    };
    let Some((mut first, mut second)) = two_passes(passes) else {
        panic!(rt; "no passes")
    };
    assert!(rt; first.sends_to(1) && !first.sends_to(0) && !first.sends_to(2));
    assert!(rt; second.sends_to(0) && !second.sends_to(1));
    assert!(rt; first.send(&rt, 1, Ping { id: 5 }).is_ok());
    assert!(rt; first.send(&rt, 1, Ping { id: 6 }).is_ok());
    assert!(rt; first.send(&rt, 1, Ping { id: 7 }).is_err());
    assert_eq!(rt; took_id(&rt, &mut first), None);
    assert_eq!(rt; took_id(&rt, &mut second), Some(5));
    assert!(rt; second.send(&rt, 0, Ping { id: 8 }).is_ok());
    first.join(second);
    assert!(rt; !first.sends_to(0) && !first.sends_to(1));
    assert_eq!(rt; took_id(&rt, &mut first), Some(8));
    assert_eq!(rt; took_id(&rt, &mut first), Some(6));
    assert_eq!(rt; took_id(&rt, &mut first), None);
    Ok(())
}
