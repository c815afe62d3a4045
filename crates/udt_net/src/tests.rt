ghost use Rattle.std.specs.Prelude.{◌≡◌, length};
ghost use Rattle.udt_net.specs.Ends.{SameIn, SameOut, InOf, OutOf};
ghost use Rattle.udt_net.specs.MemoryNets.{HasIn, HasOut};

use crate::{MemoryNet, Net, NetIn, NetOut, Side};
use std::sync::Wait;
use std::test::Fail;
use std::thread;
use std::thread::Threads;
use udt_model::{Addr, Family};
use udt_outside::{Heard, PortIn, PortOut, Ports};
use udt_turn::Turn;

// Says the numbers below `many` to an address, in four bytes each, and counts what was answered Ok.
fn say_numbers<R: Wait + Copy + Send + Sync>(rt: &R, end: &mut NetOut, many: u32, to: Addr) -> u32
    ensures { SameOut end.old end.new }
{
    let mut said = 0u32;
    for number in 0..many {
        if end.say(rt, &number.to_le_bytes(), to).is_ok() {
            said = said.wrapping_add(1);
        }
    }
    said
}

// Hears a number from the other end, if one waits.
fn hear_number<R: Wait + Copy + Send + Sync>(
    rt: &R,
    end: &mut NetIn,
    room: &mut [u8],
    from: Addr,
) -> Option<u32>
    requires { length room.old ≡ 65536 }
    ensures { SameIn end.old end.new }
{
    match end.hear(rt, room, 0) {
        Ok(
            Heard::Datagram {
                len: 4,
                from: sender,
            },
        ) if sender == from => { Some(u32::from_le_bytes([room[0], room[1], room[2], room[3]])) }
        _ => None,
    }
}

// Counts how many of these numbers are heard in their order.
fn hear_numbers<R: Wait + Copy + Send + Sync>(
    rt: &R,
    end: &mut NetIn,
    from: Addr,
    all: &[u32],
) -> u32
    ensures { SameIn end.old end.new }
{
    let mut room = [0u8; 65_536];
    let mut heard = 0u32;
    for number in all {
        if hear_number(rt, end, &mut room, from) == Some(*number) {
            heard = heard.wrapping_add(1);
        }
    }
    heard
}

// The draws that start from 4 double the datagram 6, put 8 before 7, and lose 18.
#[test]
fn one_draw_a_datagram_loses_repeats_and_reorders(rt: HostRuntime) -> Result<(), Fail> {
    let Ok(mut net) = MemoryNet::make(rt.alloc(), 4) else {
        panic!(rt; "no memory")
    };
    let Ok((mut first_in, mut first_out)) = net.open(7, Family::Four) else {
        panic!(rt; "no first end")
    };
    let Ok((mut second_in, _second_out)) = net.open(0, Family::Six) else {
        panic!(rt; "no second end")
    };
    assert!(rt; net.open(9_000, Family::Four).is_err());
    let (here, there) = (Side::First.address(), Side::Second.address());
    assert_eq!(rt; say_numbers(&rt, &mut first_out, 20, there), 20);
    let order = [
        0, 1, 2, 3, 4, 5, 6, 6, 8, 7, 9, 10, 11, 12, 13, 14, 15, 16, 17, 19,
    ];
    assert_eq!(rt; hear_numbers(&rt, &mut second_in, here, &order), 20);
    let mut room = [0u8; 65_536];
    assert!(rt; matches!(second_in.hear(&rt, &mut room, 0), Ok(Heard::Quiet)));
    assert!(rt; matches!(first_in.hear(&rt, &mut room, 0), Ok(Heard::Quiet)));
    net.close(first_in, first_out);
    Ok(())
}

// A datagram of 9,001 bytes and one to another port are said and lost; 4,096 wait, and no more.
#[test]
fn too_long_a_stranger_and_one_too_many_are_lost(rt: HostRuntime) -> Result<(), Fail> {
    let Ok(mut net) = MemoryNet::make(rt.alloc(), 0) else {
        panic!(rt; "no memory")
    };
    let Ok((mut port_in, mut port_out)) = net.open(0, Family::Four) else {
        panic!(rt; "no end")
    };
    let own = Side::First.address();
    let bytes = [7u8; 9_001];
    let mut room = [0u8; 65_536];
    let elsewhere = Addr {
        ip: own.ip,
        port: 1,
    };
    assert!(rt; port_out.say(&rt, &bytes, own).is_ok());
    assert!(rt; port_out.say(&rt, &bytes[..4], elsewhere).is_ok());
    assert!(rt; matches!(port_in.hear(&rt, &mut room, 0), Ok(Heard::Quiet)));
    assert!(rt; port_out.say(&rt, &bytes[..9_000], own).is_ok());
    assert!(rt;
        matches!(
            port_in.hear(&rt, &mut room, 0),
            Ok(Heard::Datagram { len: 9_000, .. })
        )
    );
    assert_eq!(rt; say_numbers(&rt, &mut port_out, 5_000, own), 5_000);
    let mut none = Vec::new(rt.alloc());
    assert_eq!(rt; hear_all(&rt, &mut port_in, own, &mut none), 4_096);
    Ok(())
}

// Hears until nothing waits, notes how often each number came, and counts all.
fn hear_all<R: Wait + Copy + Send + Sync>(
    rt: &R,
    end: &mut NetIn,
    from: Addr,
    times: &mut Vec<u8>,
) -> u32
    ensures { SameIn end.old end.new }
{
    let mut room = [0u8; 65_536];
    let mut heard = 0u32;
    for _ in 0..100_000 {
        match hear_number(rt, end, &mut room, from) {
            Some(number) => note(times, number),
            None => break,
        }
        heard = heard.wrapping_add(1);
    }
    heard
}

// Notes that a number came.
fn note(times: &mut Vec<u8>, number: u32) {
    let at = number as usize;
    if at < times.len() {
        times[at] = times[at].saturating_add(1);
    }
}

// Says ten thousand numbers, at most a thousand ahead of what it heard, and hears meanwhile. It counts both.
fn converse<R: Wait + Copy + Send + Sync>(
    rt: &R,
    port_in: &mut NetIn,
    port_out: &mut NetOut,
    times: &mut Vec<u8>,
    other: Addr,
) -> (u32, u32)
    ensures hears { SameIn port_in.old port_in.new }
    ensures says { SameOut port_out.old port_out.new }
{
    let mut room = [0u8; 65_536];
    let mut said = 0u32;
    let mut heard = 0u32;
    for _ in 0..100_000_000u32 {
        if said == 10_000 {
            break;
        }
        if said < heard.saturating_add(1_000) && say_one(rt, port_out, said, other) {
            said = said.saturating_add(1);
        }
        match hear_number(rt, port_in, &mut room, other) {
            Some(number) => {
                note(times, number);
                heard = heard.saturating_add(1);
            }
            None => thread::yield_now(),
        }
    }
    (said, heard)
}

fn say_one<R: Wait + Copy + Send + Sync>(rt: &R, end: &mut NetOut, number: u32, to: Addr) -> bool
    ensures { SameOut end.old end.new }
{
    end.say(rt, &number.to_le_bytes(), to).is_ok()
}

// What one thread did at its ends: how often it heard each number, and how many it said and heard.
#[derive(Drop)]
struct Talk {
    port_in: NetIn,
    port_out: NetOut,
    times: Vec<u8>,
    said: u32,
    heard: u32,
}

#[tactic(auto, using(crate::specs::Ends::stays_in, crate::specs::Ends::stays_out))]
fn talk_at<R: Wait + Copy + Send + Sync>(
    rt: &R,
    turn: &Turn<Net>,
    ends: (NetIn, NetOut),
    mut times: Vec<u8>,
    other: Addr,
) -> Talk
    requires { InOf turn.now ends.0 × OutOf turn.now ends.1 }
    ensures { InOf turn.now result.port_in × OutOf turn.now result.port_out }
{
    let _ = turn;
    let (mut port_in, mut port_out) = ends;
    let (said, heard) = converse(rt, &mut port_in, &mut port_out, &mut times, other);
    Talk {
        port_in,
        port_out,
        times,
        said,
        heard,
    }
}

// Two threads talk over one network.
fn talk_by_two<R: Threads + Wait + Copy + Send + Sync>(
    rt: &R,
    turn: &Turn<Net>,
    first: ((NetIn, NetOut), Vec<u8>),
    second: ((NetIn, NetOut), Vec<u8>),
) -> (Talk, Talk)
    requires first { InOf turn.now first.0.0 × OutOf turn.now first.0.1 }
    requires second { InOf turn.now second.0.0 × OutOf turn.now second.0.1 }
    ensures first { InOf turn.now result.0.port_in × OutOf turn.now result.0.port_out }
    ensures second { InOf turn.now result.1.port_in × OutOf turn.now result.1.port_out }
{
    thread::join(
        rt,
        move || -> Talk
            requires { InOf turn.now first.0.0 × OutOf turn.now first.0.1 }
            ensures { InOf turn.entry.now result.port_in × OutOf turn.entry.now result.port_out }
        { talk_at(rt, turn, first.0, first.1, Side::Second.address()) },
        move || -> Talk
            requires { InOf turn.now second.0.0 × OutOf turn.now second.0.1 }
            ensures { InOf turn.entry.now result.port_in × OutOf turn.entry.now result.port_out }
        { talk_at(rt, turn, second.0, second.1, Side::First.address()) },
    )
}

// How many of the numbers came this often.
fn times_heard(talk: &Talk, times: u8) -> usize {
    talk.times.iter().filter(|t| **t == times).count()
}

// Hears what is left.
fn drained<R: Wait + Copy + Send + Sync>(rt: &R, talk: Talk, other: Addr) -> Talk
    ensures hears { SameIn talk.port_in result.port_in }
    ensures says { result.port_out ≡ talk.port_out }
{
    let Talk {
        mut port_in,
        port_out,
        mut times,
        said,
        heard,
    } = talk;
    let more = hear_all(rt, &mut port_in, other, &mut times);
    Talk {
        port_in,
        port_out,
        times,
        said,
        heard: heard.wrapping_add(more),
    }
}

// Takes the ends of both back.
fn close_both(net: &mut MemoryNet, one: Talk, two: Talk)
    requires one { HasIn net.old one.port_in × HasOut net.old one.port_out }
    requires two { HasIn net.old two.port_in × HasOut net.old two.port_out }
{
    net.close(one.port_in, one.port_out);
    net.close(two.port_in, two.port_out);
}

// How much the network's own pass has seen, and the count after the last item of its own.
fn counts(net: &mut MemoryNet) -> (u64, u64) {
    let all = net.turn.look(&mut net.pass).count;
    (all, net.pass.last())
}

// Of the first 20,000 draws from 7 there are 321 that lose and 301 that double a datagram.
#[test]
#[tactic(auto, using(crate::specs::MemoryNets::in_stays))]
fn two_threads_hear_what_the_draws_leave(rt: HostRuntime) -> Result<(), Fail> {
    let Ok(mut net) = MemoryNet::make(rt.alloc(), 7) else {
        panic!(rt; "no memory")
    };
    let (Ok(first), Ok(second)) = (net.open(0, Family::Four), net.open(0, Family::Four)) else {
        panic!(rt; "no ends")
    };
    let first = (first, vec![in rt.alloc(); 0u8; 10_000]?);
    let second = (second, vec![in rt.alloc(); 0u8; 10_000]?);
    let (one, two) = talk_by_two(&rt, &net.turn, first, second);
    let one = drained(&rt, one, Side::Second.address());
    let two = drained(&rt, two, Side::First.address());
    assert!(rt; one.said == 10_000 && two.said == 10_000);
    assert_eq!(rt; one.heard.wrapping_add(two.heard), 20_000 - 321 + 301);
    let lost = times_heard(&one, 0).wrapping_add(times_heard(&two, 0));
    let doubled = times_heard(&one, 2).wrapping_add(times_heard(&two, 2));
    let once = times_heard(&one, 1).wrapping_add(times_heard(&two, 1));
    assert!(rt; lost == 321 && doubled == 301 && once == 20_000 - 321 - 301);
    close_both(&mut net, one, two);
    assert_eq!(rt; counts(&mut net), (39_980, 39_980));
    Ok(())
}
