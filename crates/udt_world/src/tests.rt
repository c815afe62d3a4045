// One world and a line of each form, and what becomes of bytes that no socket sent.

use crate::{LineNo, World, generate};
use udt_model::Summary;
use udt_rate::Native;

#[test]
fn plays_a_line_of_each_form(rt: HostRuntime) {
    let mut world = World::<Native>::new(rt.alloc());
    let mut out = Vec::new(rt.alloc());
    let lines: [(&[u8], Result<(), LineNo>, &[u8]); 33] = [
        (b"pair stream a b 4 5 4", Ok(()), b"pair a 1 b 2\n"),
        (b"a send 1000 68656c6c6f", Ok(()), b"a send 5\n"),
        (
            b"a pack 1000",
            Ok(()),
            b"a pack data\n\
            datagram 0 10.0.0.1:9000 10.0.0.2:9000 0000000580000001000003e80000000268656c6c\n",
        ),
        (b"deliver 1 2000", Err(LineNo::Refused), b""),
        (b"deliver 0 2000", Ok(()), b"b arrive placed\n"),
        (b"pair stream b c 4 5 4", Err(LineNo::Refused), b""),
        (b"# b has four bytes", Ok(()), b""),
        (b"b recv 3000 10", Ok(()), b"b recv 68656c6c\n"),
        (b"b recv 3000 10", Ok(()), b"b recv again\n"),
        (
            b"b perf 3000",
            Ok(()),
            b"b perf rtt 100000 var 50000 window 16 period 0 sent 0 resent 0 placed 1 double 0 below 0 \
            above 0 control 0 stale 0 foreign 0 malformed 0 acked 0\n",
        ),
        (
            b"raw 3000 10.0.0.1:9000 10.0.0.2:9000 80010000000000000000000000000002",
            Ok(()),
            b"b arrive alive\n",
        ),
        (b"a close 4000", Ok(()), b"a close\n"),
        (
            b"a tick 4000",
            Ok(()),
            b"a tick\ndatagram 1 10.0.0.1:9000 10.0.0.2:9000 800500000000000000000fa000000002\n",
        ),
        (
            b"raw 5000 10.0.0.2:9000 10.0.0.1:9000 80010000000000000000000000000001",
            Ok(()),
            b"dropped id\n",
        ),
        (
            b"raw 5000 10.0.0.2:9000 10.0.0.3:9000 80010000000000000000000000000001",
            Ok(()),
            b"dropped host\n",
        ),
        (
            b"raw 5000 10.0.0.2:9000 10.0.0.1 -",
            Err(LineNo::Refused),
            b"",
        ),
        (b"pair message m n 4 5 4", Ok(()), b"pair m 3 n 4\n"),
        (b"m sendmsg 6000 - 1 6869", Ok(()), b"m sendmsg 2\n"),
        (
            b"m pack 6000",
            Ok(()),
            b"m pack data\n\
            datagram 2 10.0.0.1:9000 10.0.0.2:9000 00000005e000000100001770000000046869\n",
        ),
        (b"deliver 2 7000", Ok(()), b"n arrive placed\n"),
        (b"n recvmsg 7000 1", Ok(()), b"n recvmsg refused 5012\n"),
        (b"n recvmsg 7000 10", Ok(()), b"n recvmsg 6869\n"),
        (b"n recv 7000 10", Ok(()), b"n recv refused 5010\n"),
        (
            b"b sendmsg 7000 - 0 01",
            Ok(()),
            b"b sendmsg refused 5009\n",
        ),
        (b"host h 10.0.0.7:80", Ok(()), b"host h\n"),
        (b"host h 10.0.0.6:80", Err(LineNo::Refused), b""),
        (b"open stream s h 4 0 4", Ok(()), b"open s 5\n"),
        (b"s listen 0 1", Ok(()), b"s listen\n"),
        (b"s accept 0 z", Ok(()), b"s accept again\n"),
        (
            b"s connect 0 10.0.0.9:1",
            Ok(()),
            b"s connect refused 5002\n",
        ),
        (b"s shake 0", Ok(()), b"s shake idle\n"),
        (b"open stream t h 4 0 4", Ok(()), b"open t 6\n"),
        (b"t meet 0 10.0.0.9:1", Ok(()), b"t meet\n"),
    ];
    for (line, answer, printed) in lines {
        let before = out.len();
        assert_eq!(rt; world.line(line, &mut out), answer, "{line:?}");
        assert_eq!(rt; out.as_slice().get(before..), Some(printed), "{line:?}");
    }
}

#[test]
fn answers_bytes_that_no_socket_sent(rt: HostRuntime) {
    let arrivals: [(&[u8], &[u8]); 22] = [
        (
            b"raw 2000 10.0.0.1:9000 10.0.0.2:9000 8000000000000000000000000000000200000004000000010000000500000030000000040000000100000009000000000a000009000000000000000000000000",
            b"b arrive stale\n",
        ),
        (
            b"raw 2000 10.0.0.1:9000 10.0.0.2:9000 00000005800000010000000000000002",
            b"b arrive badlength\n",
        ),
        (
            b"raw 2000 10.0.0.1:9000 10.0.0.2:9000 000000058000000100000000000000020102030405",
            b"b arrive badlength\n",
        ),
        (
            b"raw 2000 10.0.0.1:9000 10.0.0.2:9000 00000009c0000001000000000000000201",
            b"b arrive above\n",
        ),
        (
            b"raw 2000 10.0.0.1:9000 10.0.0.2:9000 00000004c0000001000000000000000201",
            b"b arrive above\n",
        ),
        (
            b"raw 2000 10.0.0.1:9000 10.0.0.2:9000 00000007c0000001000000000000000201",
            b"b arrive placed\n\
            datagram 2 10.0.0.2:9000 10.0.0.1:9000 8003000000000000000007d0000000018000000500000006\n",
        ),
        (
            b"raw 2000 10.0.0.2:9000 10.0.0.1:9000 8002000000000001000000000000000100000006000186a00000c35000000004",
            b"a arrive ack\n\
            datagram 2 10.0.0.1:9000 10.0.0.2:9000 8006000000000001000007d000000002\n",
        ),
        (
            b"raw 2000 10.0.0.2:9000 10.0.0.1:9000 800300000000000000000000000000018000000500000006",
            b"a arrive nak\n",
        ),
        (
            b"raw 2000 10.0.0.2:9000 10.0.0.1:9000 800300000000000000000000000000018000000500000007",
            b"a arrive stale\n",
        ),
        (
            b"raw 2000 10.0.0.2:9000 10.0.0.1:9000 800300000000000000000000000000018000000600000005",
            b"a arrive malformed 4\n",
        ),
        (
            b"raw 2000 10.0.0.2:9000 10.0.0.1:9000 80020000000000010000000000000001000000",
            b"a arrive malformed 6\n",
        ),
        (
            b"raw 2000 10.0.0.1:9000 10.0.0.2:9000 800700000000000100000000000000020000000500000006",
            b"b arrive stale\n",
        ),
        (
            b"raw 2000 10.0.0.1:9000 10.0.0.2:9000 ffff0000000000000000000000000002",
            b"b arrive malformed 2\n",
        ),
        (
            b"raw 2000 10.0.0.1:9000 10.0.0.2:9000 80060000000000090000000000000002",
            b"b arrive stale\n",
        ),
        (
            b"raw 2000 10.0.0.1:9000 10.0.0.2:9000 80040000000000000000000000000002",
            b"b arrive malformed 2\n",
        ),
        (
            b"raw 2000 10.0.0.1:9000 10.0.0.2:9000 80010000000000000000000000000007",
            b"dropped id\n",
        ),
        (
            b"raw 2000 10.0.0.3:9000 10.0.0.2:9000 80010000000000000000000000000002",
            b"b arrive foreign\n",
        ),
        (
            b"raw 2000 10.0.0.1:9000 10.0.0.3:9000 80010000000000000000000000000002",
            b"dropped host\n",
        ),
        (
            b"raw 2000 10.0.0.1:9000 10.0.0.2:9000 80010000000000000000000000000002",
            b"b arrive alive\n",
        ),
        (
            b"raw 2000 10.0.0.1:9000 10.0.0.2:9000 8001000000000000000000000000000200000000",
            b"b arrive alive\n",
        ),
        (
            b"raw 2000 10.0.0.1:9000 10.0.0.2:9000 800100000000000000000000000000",
            b"dropped short\n",
        ),
        (
            b"raw 2000 10.0.0.1:9000 10.0.0.2:9000 80010000000000000000000000000000",
            b"dropped shake\n",
        ),
    ];
    for (line, printed) in arrivals {
        let mut world = World::<Native>::new(rt.alloc());
        let mut out = Vec::new(rt.alloc());
        for before in [
            b"pair stream a b 4 5 4".as_slice(),
            b"a send 1000 68656c6c6f",
            b"a pack 1000",
            b"a pack 1000",
        ] {
            assert_eq!(rt; world.line(before, &mut out), Ok(()));
        }
        out.clear();
        assert_eq!(rt; world.line(line, &mut out), Ok(()), "{line:?}");
        assert_eq!(rt; out.as_slice(), printed, "{line:?}");
    }
}

fn summary(accepted: u64, delivered: u64, acked: u64, datagrams: u64) -> Summary {
    Summary {
        accepted,
        delivered,
        acked,
        datagrams,
    }
}

#[test]
fn generates_runs(rt: HostRuntime) {
    let runs: [(u64, u64, Summary); 3] = [
        (7, 0, summary(0, 0, 0, 0)),
        (7, 1, summary(0, 0, 0, 0)),
        (7, 200, summary(45_617, 12_148, 0, 18)),
    ];
    for (n, turns, told) in runs {
        assert_eq!(rt; generate::<Native>(rt.alloc(), n, turns), Ok(told));
    }
}
