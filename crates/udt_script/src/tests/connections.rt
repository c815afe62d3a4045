// Lines of hosts, of sockets that are opened, and of the calls by which they connect.

use crate::{Call, Line, Opening, read_line};
use std::alloc::Global;
use std::process::Abort;
use udt_model::{Addr, Ip, Kind};

const SERVER: Addr = Addr {
    ip: Ip::V4(0x0a00_0009),
    port: 9000,
};

const V6_HOST: Addr = Addr {
    ip: Ip::V6(0xfe80_0000_0000_0000_0000_0000_0000_0001),
    port: 65_535,
};

fn call_at<'a>(name: &'a [u8], now: u64, call: Call) -> Line<'a> {
    Line::Call { name, now, call }
}

fn assert_reads(rt: &impl Abort, alloc: Global, text: &[u8], line: Line) {
    let read = read_line(alloc, text).expect(rt, "memory");
    assert_eq!(rt; read, Some(line), "{text:?}");
}

#[test]
fn reads_the_lines_of_connections(rt: HostRuntime) {
    let opening = Opening {
        kind: Kind::Stream,
        name: b"l",
        host: b"s",
        payload: 1,
        isn: 0,
        blocks: 2,
    };
    let widest = Opening {
        kind: Kind::Message,
        payload: 8956,
        isn: 2_147_483_647,
        blocks: 65_536,
        ..opening
    };
    let lines: [(&[u8], Line); 14] = [
        (
            b"host s 10.0.0.9:9000",
            Line::Host {
                name: b"s",
                addr: SERVER,
            },
        ),
        (
            b"host a2345678901234z6 [fe80::1]:65535",
            Line::Host {
                name: b"a2345678901234z6",
                addr: V6_HOST,
            },
        ),
        (b"open stream l s 1 0 2", Line::Open(opening)),
        (
            b"open message l s 8956 2147483647 65536",
            Line::Open(widest),
        ),
        (b"l listen 0 2", call_at(b"l", 0, Call::Listen(2))),
        (b"l listen 0 0", call_at(b"l", 0, Call::Listen(0))),
        (
            b"l listen 9007199254740991 4294967295",
            call_at(b"l", 9_007_199_254_740_991, Call::Listen(4_294_967_295)),
        ),
        (
            b"x connect 0 10.0.0.9:9000",
            call_at(b"x", 0, Call::Connect(SERVER)),
        ),
        (
            b"x connect 0 10.0.0.9:0",
            call_at(b"x", 0, Call::Connect(Addr { port: 0, ..SERVER })),
        ),
        (
            b"m meet 7 [fe80::1]:65535",
            call_at(b"m", 7, Call::Meet(V6_HOST)),
        ),
        (
            b"m meet 7 10.0.0.9:9000",
            call_at(b"m", 7, Call::Meet(SERVER)),
        ),
        (b"x shake 3000000", call_at(b"x", 3_000_000, Call::Shake)),
        (
            b"l accept 6000 y",
            Line::Accept {
                name: b"l",
                now: 6000,
                accepted: b"y",
            },
        ),
        (
            b"l accept 9007199254740991 a2345678901234z6",
            Line::Accept {
                name: b"l",
                now: 9_007_199_254_740_991,
                accepted: b"a2345678901234z6",
            },
        ),
    ];
    for (text, line) in lines {
        assert_reads(&rt, rt.alloc(), text, line);
    }
}

#[test]
fn reads_names_like_forms(rt: HostRuntime) {
    let hosts: [(&[u8], &[u8]); 6] = [
        (b"host host 10.0.0.9:9000", b"host"),
        (b"host tick 10.0.0.9:9000", b"tick"),
        (b"host shake 10.0.0.9:9000", b"shake"),
        (b"host send 10.0.0.9:9000", b"send"),
        (b"host connect 10.0.0.9:9000", b"connect"),
        (b"host accept 10.0.0.9:9000", b"accept"),
    ];
    for (text, name) in hosts {
        let line = Line::Host { name, addr: SERVER };
        assert_reads(&rt, rt.alloc(), text, line);
    }
    let opening = Opening {
        kind: Kind::Stream,
        name: b"accept",
        host: b"tick",
        payload: 4,
        isn: 5,
        blocks: 4,
    };
    let lines: [(&[u8], Line); 8] = [
        (b"open stream accept tick 4 5 4", Line::Open(opening)),
        (b"pair tick 5", call_at(b"pair", 5, Call::Tick)),
        (b"host shake 5", call_at(b"host", 5, Call::Shake)),
        (b"host listen 5 1", call_at(b"host", 5, Call::Listen(1))),
        (
            b"open meet 5 10.0.0.9:9000",
            call_at(b"open", 5, Call::Meet(SERVER)),
        ),
        (
            b"tick connect 5 10.0.0.9:9000",
            call_at(b"tick", 5, Call::Connect(SERVER)),
        ),
        (
            b"host accept 5 open",
            Line::Accept {
                name: b"host",
                now: 5,
                accepted: b"open",
            },
        ),
        (
            b"accept accept 5 accept",
            Line::Accept {
                name: b"accept",
                now: 5,
                accepted: b"accept",
            },
        ),
    ];
    for (text, line) in lines {
        assert_reads(&rt, rt.alloc(), text, line);
    }
}

#[test]
fn refuses_connections_of_no_form(rt: HostRuntime) {
    let lines: [&[u8]; 48] = [
        b"host s",
        b"host s 10.0.0.9",
        b"host s 10.0.0.9:65536",
        b"host s 10.0.0.9:09000",
        b"host s 10.0.0.256:9000",
        b"host s [::ffff:10.0.0.9]:9000",
        b"host s 10.0.0.9:9000 ",
        b"host s 10.0.0.9:9000 10.0.0.9:9000",
        b"host S 10.0.0.9:9000",
        b"host 10.0.0.9:9000 s",
        b"host tick 07",
        b"hosts s 10.0.0.9:9000",
        b"open l s 4 0 4",
        b"open streams l s 4 0 4",
        b"open stream L s 4 0 4",
        b"open stream l 1s 4 0 4",
        b"open stream l s 0 0 4",
        b"open stream l s 8957 0 4",
        b"open stream l s 4 2147483648 4",
        b"open stream l s 4 0 1",
        b"open stream l s 4 0 65537",
        b"open stream l s 4 0",
        b"open stream l s 4 0 4 0",
        b"l listen 0",
        b"l listen 0 02",
        b"l listen 0 4294967296",
        b"l listen 9007199254740992 2",
        b"l listen 0 2 2",
        b"L listen 0 2",
        b"x connect 0",
        b"x connect 10.0.0.9:9000",
        b"x connect 0 10.0.0.9",
        b"x connect 0 10.0.0.9:65536",
        b"x connect 0 s",
        b"m meet 0",
        b"m meet 0 [fe80::1%1]:5000",
        b"m meet 0 10.0.0.9:9000 1",
        b"x shake",
        b"x shake 0 0",
        b"l accept 0",
        b"l accept 0 Y",
        b"l accept 0 3",
        b"l accept 0 y z",
        b"l accept 9007199254740992 y",
        b"1 accept 0 y",
        b"l offer 0 3",
        b"l withdraw 0",
        b"l port 0",
    ];
    for text in lines {
        let read = read_line(rt.alloc(), text).expect(&rt, "memory");
        assert!(rt; read.is_none(), "{text:?}");
    }
}
