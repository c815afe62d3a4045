// As many sockets as a script may have, and ten thousand forged handshakes.

use std::alloc::Global;
use std::process::Abort;
use udt_rate::Native;
use udt_world::{LineNo, World};

const FORGED: u32 = 10_000;

// The rest of an address of four bytes in a handshake.
const REST: &str = "000000000000000000000000";

fn assert_answers(
    rt: &impl Abort,
    alloc: Global,
    world: &mut World<Native>,
    line: &[u8],
    answer: Result<(), LineNo>,
    printed: &[u8],
) {
    let mut out = Vec::new(alloc);
    assert_eq!(rt; world.line(line, &mut out), answer, "{line:?}");
    assert_eq!(rt; out.as_slice(), printed, "{line:?}");
}

fn assert_prints(
    rt: &impl Abort,
    alloc: Global,
    world: &mut World<Native>,
    line: &[u8],
    printed: &[u8],
) {
    assert_answers(rt, alloc, world, line, Ok(()), printed);
}

// Sockets up to the most that there may be. A request for which there is no room gives its place back, so
// that it may come again.
#[test]
fn a_script_has_at_most_1024_sockets(rt: HostRuntime) {
    let alloc = rt.alloc();
    let mut world = World::<Native>::new(alloc);
    let mut out = Vec::new(alloc);
    for line in [
        b"host s 10.0.0.9:9000".as_slice(),
        b"host c 10.0.0.8:7000",
        b"open stream l s 4 0 4",
        b"l listen 0 1",
        b"open stream x c 4 5 4",
        b"x connect 0 10.0.0.9:9000",
        b"x tick 0",
        b"deliver 0 1000",
        b"deliver 1 2000",
    ] {
        assert_eq!(rt; world.line(line, &mut out), Ok(()), "{line:?}");
    }
    for i in 0..510u32 {
        let line = format!(in alloc; "pair stream a{i} b{i} 1 0 2").expect(&rt, "memory");
        let (first, second) = (2 * i + 3, 2 * i + 4);
        let printed = format!(in alloc; "pair a{i} {first} b{i} {second}\n").expect(&rt, "memory");
        assert_prints(&rt, alloc, &mut world, line.as_bytes(), printed.as_bytes());
    }
    let lines: [(&[u8], Result<(), LineNo>, &[u8]); 6] = [
        (b"open stream y c 4 5 4", Ok(()), b"open y 1023\n"),
        (b"pair stream p q 1 0 2", Err(LineNo::Refused), b""),
        (b"open stream z c 4 5 4", Ok(()), b"open z 1024\n"),
        (b"open stream w c 4 5 4", Err(LineNo::Refused), b""),
        (b"deliver 2 3000", Ok(()), b"l arrive request\nl withdraw\n"),
        (b"deliver 2 3100", Ok(()), b"l arrive request\nl withdraw\n"),
    ];
    for (line, answer, printed) in lines {
        assert_answers(&rt, alloc, &mut world, line, answer, printed);
    }
}

// A client that gets forged cookies asks once with each, and then no more until it is time to ask again.
#[test]
fn a_client_asks_once_with_each_cookie(rt: HostRuntime) {
    let alloc = rt.alloc();
    let mut world = World::<Native>::new(alloc);
    assert_prints(&rt, alloc, &mut world, b"host s 10.0.0.9:9000", b"host s\n");
    assert_prints(&rt, alloc, &mut world, b"host c 10.0.0.8:7000", b"host c\n");
    assert_prints(
        &rt,
        alloc,
        &mut world,
        b"open stream x c 4 5 4",
        b"open x 1\n",
    );
    assert_prints(
        &rt,
        alloc,
        &mut world,
        b"x connect 0 10.0.0.9:9000",
        b"x connect\n",
    );
    for i in 1..FORGED + 1 {
        let line = format!(in alloc;
            "raw {i} 10.0.0.9:9000 10.0.0.8:7000 8000000000000000000000000000000100000004000000010000000500000030000000040000000100000001{i:08x}0a000008{REST}"
        ).expect(&rt, "memory");
        let number = i - 1;
        let printed = format!(in alloc;
            "x arrive cookie\ndatagram {number} 10.0.0.8:7000 10.0.0.9:9000 8000000000000000{i:08x}0000000000000004000000010000000500000030000000040000000100000001{i:08x}0a000009{REST}\n"
        ).expect(&rt, "memory");
        assert_prints(&rt, alloc, &mut world, line.as_bytes(), printed.as_bytes());
    }
    assert_prints(&rt, alloc, &mut world, b"x tick 259999", b"x tick\n");
    assert_prints(
        &rt,
        alloc,
        &mut world,
        b"x tick 260000",
        b"x tick\ndatagram 10000 10.0.0.8:7000 10.0.0.9:9000 80000000000000000003f7a0000000000000000400000001\
        0000000500000030000000040000000100000001000027100a000009000000000000000000000000\n",
    );
}

// A listener answers each request without a cookie, and keeps nothing of it: its one place and the next ID
// are there for the first request that has one.
#[test]
fn a_listener_keeps_nothing_before_a_cookie(rt: HostRuntime) {
    let alloc = rt.alloc();
    let mut world = World::<Native>::new(alloc);
    assert_prints(&rt, alloc, &mut world, b"host s 10.0.0.9:9000", b"host s\n");
    assert_prints(
        &rt,
        alloc,
        &mut world,
        b"open stream l s 4 0 4",
        b"open l 1\n",
    );
    assert_prints(&rt, alloc, &mut world, b"l listen 0 1", b"l listen\n");
    for i in 1..FORGED + 1 {
        let line = format!(in alloc;
            "raw 1000 10.0.0.8:7000 10.0.0.9:9000 80000000000000000000000000000000000000040000000100000005000000300000000400000001{i:08x}000000000a000009{REST}"
        ).expect(&rt, "memory");
        let number = i - 1;
        let printed = format!(in alloc;
            "l arrive cookie\ndatagram {number} 10.0.0.9:9000 10.0.0.8:7000 8000000000000000000003e8{i:08x}000000040000000100000005000000300000000400000001{i:08x}833a0d670a000008{REST}\n"
        ).expect(&rt, "memory");
        assert_prints(&rt, alloc, &mut world, line.as_bytes(), printed.as_bytes());
    }
    assert_prints(
        &rt,
        alloc,
        &mut world,
        b"l accept 2000 y",
        b"l accept again\n",
    );
    assert_prints(
        &rt,
        alloc,
        &mut world,
        b"l perf 2000",
        b"l perf rtt 100000 var 50000 window 16 period 0 sent 0 resent 0 placed 0 double 0 below 0 above 0 \
        control 10000 stale 0 foreign 0 malformed 0 acked 0\n",
    );
    assert_prints(
        &rt,
        alloc,
        &mut world,
        b"raw 3000 10.0.0.8:7000 10.0.0.9:9000 8000000000000000000000000000000000000004000000010000000500000030\
        000000040000000100000002833a0d670a000009000000000000000000000000",
        b"l arrive request\nl offer 2\n2 arrive answered\n\
        datagram 10000 10.0.0.9:9000 10.0.0.8:7000 800000000000000000000bb800000002000000040000000100000005\
        0000003000000004ffffffff00000002000000000a000008000000000000000000000000\n",
    );
}

// A host or a socket may be named like a form. Hosts and sockets have their names in common.
#[test]
fn names_may_be_those_of_forms(rt: HostRuntime) {
    let alloc = rt.alloc();
    let mut world = World::<Native>::new(alloc);
    let lines: [(&[u8], Result<(), LineNo>, &[u8]); 6] = [
        (b"host tick 10.0.0.9:1", Ok(()), b"host tick\n"),
        (b"open stream host tick 4 5 4", Ok(()), b"open host 1\n"),
        (b"host shake 5", Ok(()), b"host shake idle\n"),
        (b"host tick 5", Ok(()), b"host tick\n"),
        (b"open stream tick tick 4 5 4", Err(LineNo::Refused), b""),
        (b"host host 10.0.0.8:1", Err(LineNo::Refused), b""),
    ];
    for (line, answer, printed) in lines {
        assert_answers(&rt, alloc, &mut world, line, answer, printed);
    }
}
