// Lines of pairs of sockets, of their calls and of arrivals.

use crate::{Call, Line, Pairing, ScriptDatagram, read_line};
use udt_model::{Addr, Ip, Kind};

#[test]
fn reads_each_form(rt: HostRuntime) {
    let alloc = rt.alloc();
    let pairing = Pairing {
        kind: Kind::Stream,
        a: b"a",
        b: b"b2",
        payload: 8956,
        isn: 2_147_483_647,
        blocks: 2,
        start: 0,
    };
    let late = Pairing {
        start: 576_460_752_303_423_488,
        ..pairing
    };
    let of_messages = Pairing {
        kind: Kind::Message,
        ..pairing
    };
    let host = Addr {
        ip: Ip::V4(0x0a00_0001),
        port: 9000,
    };
    let lines: [(&[u8], Line); 18] = [
        (b"", Line::Silent),
        (b"# pair", Line::Silent),
        (b"pair stream a b2 8956 2147483647 2", Line::Pair(pairing)),
        (
            b"pair stream a b2 8956 2147483647 2 576460752303423488",
            Line::Pair(late),
        ),
        (
            b"pair message a b2 8956 2147483647 2",
            Line::Pair(of_messages),
        ),
        (
            b"deliver 18446744073709551615 0",
            Line::Deliver {
                number: 18_446_744_073_709_551_615,
                now: 0,
            },
        ),
        (
            b"a2345678901234z6 pack 9007199254740991",
            Line::Call {
                name: b"a2345678901234z6",
                now: 9_007_199_254_740_991,
                call: Call::Pack,
            },
        ),
        (
            b"deliver pack 7",
            Line::Call {
                name: b"deliver",
                now: 7,
                call: Call::Pack,
            },
        ),
        (
            b"raw tick 500000",
            Line::Call {
                name: b"raw",
                now: 500_000,
                call: Call::Tick,
            },
        ),
        (
            b"a close 1000",
            Line::Call {
                name: b"a",
                now: 1000,
                call: Call::Close,
            },
        ),
        (
            b"raw 9007199254740991 10.0.0.1:9000 [fe80::1]:65535 -",
            Line::Raw {
                now: 9_007_199_254_740_991,
                datagram: ScriptDatagram {
                    from: host,
                    to: Addr {
                        ip: Ip::V6(0xfe80_0000_0000_0000_0000_0000_0000_0001),
                        port: 65_535,
                    },
                    bytes: Vec::new(alloc),
                },
            },
        ),
        (
            b"a recv 10 65536",
            Line::Call {
                name: b"a",
                now: 10,
                call: Call::Recv(65_536),
            },
        ),
        (
            b"a send 0 -",
            Line::Call {
                name: b"a",
                now: 0,
                call: Call::Send(Vec::new(alloc)),
            },
        ),
        (
            b"pair send 1000 00ff68656c6c6f",
            Line::Call {
                name: b"pair",
                now: 1000,
                call: Call::Send(Vec::from_slice(alloc, b"\x00\xffhello").expect(&rt, "memory")),
            },
        ),
        (
            b"a sendmsg 7 - 0 68656c6c6f",
            Line::Call {
                name: b"a",
                now: 7,
                call: Call::SendMessage {
                    ttl: None,
                    order: false,
                    bytes: Vec::from_slice(alloc, b"hello").expect(&rt, "memory"),
                },
            },
        ),
        (
            b"a sendmsg 7 9007199254740991 1 -",
            Line::Call {
                name: b"a",
                now: 7,
                call: Call::SendMessage {
                    ttl: Some(9_007_199_254_740_991),
                    order: true,
                    bytes: Vec::new(alloc),
                },
            },
        ),
        (
            b"message sendmsg 0 0 0 -",
            Line::Call {
                name: b"message",
                now: 0,
                call: Call::SendMessage {
                    ttl: Some(0),
                    order: false,
                    bytes: Vec::new(alloc),
                },
            },
        ),
        (
            b"a recvmsg 10 65536",
            Line::Call {
                name: b"a",
                now: 10,
                call: Call::RecvMessage(65_536),
            },
        ),
    ];
    for (text, line) in lines {
        let read = read_line(alloc, text).expect(&rt, "memory");
        assert_eq!(rt; read, Some(line), "{text:?}");
    }
}

#[test]
fn refuses_what_is_of_no_form(rt: HostRuntime) {
    let lines: [&[u8]; 41] = [
        b" ",
        b"a",
        b"a  pack 7",
        b"a pack 7 ",
        b"a pack 07",
        b"a pack +7",
        b"a pack -7",
        b"a pack",
        b"a pack 9007199254740992",
        b"a pack 99999999999999999999999",
        b"A pack 7",
        b"1a pack 7",
        b"abcdefghijklmnopq pack 7",
        b"a recv 7 65537",
        b"a send 7 fF",
        b"a send 7 fff",
        b"a send 7 fg",
        b"a send 7 ",
        b"deliver 18446744073709551616 7",
        b"a tick",
        b"a close 7 7",
        b"raw 7 10.0.0.1:9000 10.0.0.2:9000",
        b"raw 7 10.0.0.1 10.0.0.2:9000 00",
        b"raw 7 10.0.0.1:9000 10.0.0.2:65536 00",
        b"pair stream a b 0 5 4",
        b"pair stream a b 8957 5 4",
        b"pair stream a b 4 2147483648 4",
        b"pair stream a b 4 5 1",
        b"pair stream a b 4 5 65537",
        b"pair stream a b 4 5 4 576460752303423489",
        b"pair messages a b 4 5 4",
        b"pair Message a b 4 5 4",
        b"pair a b 4 5 4",
        b"a sendmsg 7 - 2 00",
        b"a sendmsg 7 - 01 00",
        b"a sendmsg 7 9007199254740992 0 00",
        b"a sendmsg 7 -- 0 00",
        b"a sendmsg 7 - 00",
        b"a sendmsg 7 - 0",
        b"a sendmsg 9007199254740992 - 0 00",
        b"a recvmsg 7 65537",
    ];
    for text in lines {
        let read = read_line(rt.alloc(), text).expect(&rt, "memory");
        assert!(rt; read.is_none(), "{text:?}");
    }
}
