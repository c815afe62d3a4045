// Scripts whose sockets find each other by handshakes.

use super::{WHOLE, assert_runs};
use crate::DONE;

// A listener, a client, and a request that comes again, also once both have closed.
#[test]
fn a_client_finds_a_listener(rt: HostRuntime) {
    let script: &[u8] = b"host s 10.0.0.9:9000\n\
        host c 10.0.0.8:7000\n\
        open stream l s 4 0 4\n\
        l listen 0 2\n\
        open stream x c 4 5 4\n\
        x connect 0 10.0.0.9:9000\n\
        x tick 0\n\
        deliver 0 1000\n\
        deliver 1 2000\n\
        deliver 2 3000\n\
        deliver 3 4000\n\
        deliver 2 5000\n\
        l accept 6000 y\n\
        y close 7000\n\
        y tick 7000\n\
        x close 7000\n\
        x tick 7000\n\
        deliver 2 8000\n";
    let printed: &[u8] = b"host s\n\
        host c\n\
        open l 1\n\
        l listen\n\
        open x 2\n\
        x connect\n\
        x tick\n\
        datagram 0 10.0.0.8:7000 10.0.0.9:9000 800000000000000000000000000000000000000400000001000000050\
        0000030000000040000000100000002000000000a000009000000000000000000000000\n\
        l arrive cookie\n\
        datagram 1 10.0.0.9:9000 10.0.0.8:7000 8000000000000000000003e8000000020000000400000001000000050\
        0000030000000040000000100000002833a0d670a000008000000000000000000000000\n\
        x arrive cookie\n\
        datagram 2 10.0.0.8:7000 10.0.0.9:9000 8000000000000000000007d0000000000000000400000001000000050\
        0000030000000040000000100000002833a0d670a000009000000000000000000000000\n\
        l arrive request\n\
        l offer 3\n\
        3 arrive answered\n\
        datagram 3 10.0.0.9:9000 10.0.0.8:7000 800000000000000000000bb8000000020000000400000001000000050\
        000003000000004ffffffff00000003000000000a000008000000000000000000000000\n\
        x arrive connected\n\
        3 arrive answered\n\
        datagram 4 10.0.0.9:9000 10.0.0.8:7000 800000000000000000001388000000020000000400000001000000050\
        000003000000004ffffffff00000003000000000a000008000000000000000000000000\n\
        l accept y 3\n\
        y close\n\
        y tick\n\
        datagram 5 10.0.0.9:9000 10.0.0.8:7000 800500000000000000001b5800000002\n\
        x close\n\
        x tick\n\
        datagram 6 10.0.0.8:7000 10.0.0.9:9000 800500000000000000001b5800000003\n\
        dropped stale\n";
    assert_runs(
        &rt,
        rt.alloc(),
        WHOLE,
        &["replay"],
        &[script],
        &[printed],
        DONE,
    );
}

// Two sockets meet, of which one never hears the other ask.
#[test]
fn two_sockets_meet(rt: HostRuntime) {
    let script: &[u8] = b"host p 10.0.0.1:5000\n\
        host q 10.0.0.2:5000\n\
        open stream m p 4 5 4\n\
        open stream n q 4 9 4\n\
        m meet 0 10.0.0.2:5000\n\
        n meet 0 10.0.0.1:5000\n\
        m tick 0\n\
        n tick 0\n\
        deliver 0 1000\n\
        deliver 2 2000\n\
        deliver 3 3000\n\
        host r 10.0.0.3:5000\n\
        open stream o r 4 7 4\n\
        o listen 3000 1\n\
        raw 4000 10.0.0.2:5000 10.0.0.3:5000 80000000000000000000000000000000000000040000000100000009000\
        00030000000040000000000000002000000000a000003000000000000000000000000\n";
    let printed: &[u8] = b"host p\n\
        host q\n\
        open m 1\n\
        open n 2\n\
        m meet\n\
        n meet\n\
        m tick\n\
        datagram 0 10.0.0.1:5000 10.0.0.2:5000 800000000000000000000000000000000000000400000001000000050\
        0000030000000040000000000000001000000000a000002000000000000000000000000\n\
        n tick\n\
        datagram 1 10.0.0.2:5000 10.0.0.1:5000 800000000000000000000000000000000000000400000001000000090\
        0000030000000040000000000000002000000000a000001000000000000000000000000\n\
        n arrive adopted\n\
        datagram 2 10.0.0.2:5000 10.0.0.1:5000 8000000000000000000003e8000000010000000400000001000000090\
        000003000000004ffffffff00000002000000000a000001000000000000000000000000\n\
        m arrive connected\n\
        datagram 3 10.0.0.1:5000 10.0.0.2:5000 8000000000000000000007d0000000020000000400000001000000050\
        000003000000004fffffffe00000001000000000a000002000000000000000000000000\n\
        n arrive connected\n\
        host r\n\
        open o 3\n\
        o listen\n\
        dropped shake\n";
    assert_runs(
        &rt,
        rt.alloc(),
        WHOLE,
        &["replay"],
        &[script],
        &[printed],
        DONE,
    );
}

// What sockets without a connection refuse, and the places of their host.
#[test]
fn sockets_without_a_connection_refuse(rt: HostRuntime) {
    let script: &[u8] = b"host h 10.0.0.7:80\n\
        open stream s h 4 0 4\n\
        s send 0 01\n\
        s sendmsg 0 - 0 01\n\
        s accept 0 z\n\
        s listen 0 0\n\
        s listen 0 1\n\
        s connect 0 10.0.0.9:1\n\
        s accept 0 z\n\
        open stream t h 4 0 4\n\
        open stream u h 4 0 4\n\
        t listen 0 1\n\
        t meet 0 10.0.0.9:1\n\
        u meet 0 10.0.0.9:1\n";
    let printed: &[u8] = b"host h\n\
        open s 1\n\
        s send refused 2002\n\
        s sendmsg refused 5009\n\
        s accept refused 5006\n\
        s listen refused 5003\n\
        s listen\n\
        s connect refused 5002\n\
        s accept again\n\
        open t 2\n\
        open u 3\n\
        t listen refused 5011\n\
        t meet\n\
        u meet refused 5007\n";
    assert_runs(
        &rt,
        rt.alloc(),
        WHOLE,
        &["replay"],
        &[script],
        &[printed],
        DONE,
    );
}

// A client that nobody answers, and one that asks for another kind of socket.
#[test]
fn a_client_fails(rt: HostRuntime) {
    let waits: &[u8] = b"host s 10.0.0.9:9000\n\
        host c 10.0.0.8:7000\n\
        open stream l s 4 0 4\n\
        l listen 0 2\n\
        open stream x c 4 5 4\n\
        x connect 0 10.0.0.9:9000\n\
        x tick 0\n\
        x tick 2999999\n\
        x tick 3000000\n\
        x shake 3000000\n";
    let waited: &[u8] = b"host s\n\
        host c\n\
        open l 1\n\
        l listen\n\
        open x 2\n\
        x connect\n\
        x tick\n\
        datagram 0 10.0.0.8:7000 10.0.0.9:9000 800000000000000000000000000000000000000400000001000000050\
        0000030000000040000000100000002000000000a000009000000000000000000000000\n\
        x tick\n\
        datagram 1 10.0.0.8:7000 10.0.0.9:9000 8000000000000000002dc6bf000000000000000400000001000000050\
        0000030000000040000000100000002000000000a000009000000000000000000000000\n\
        x tick\n\
        x shake refused 1001\n";
    let differs: &[u8] = b"host s 10.0.0.9:9000\n\
        host c 10.0.0.8:7000\n\
        open message l s 4 0 4\n\
        l listen 0 2\n\
        open stream x c 4 5 4\n\
        x connect 0 10.0.0.9:9000\n\
        x tick 0\n\
        deliver 0 1000\n\
        deliver 1 2000\n\
        deliver 2 3000\n\
        deliver 3 4000\n\
        x shake 4000\n";
    let rejected: &[u8] = b"host s\n\
        host c\n\
        open l 1\n\
        l listen\n\
        open x 2\n\
        x connect\n\
        x tick\n\
        datagram 0 10.0.0.8:7000 10.0.0.9:9000 800000000000000000000000000000000000000400000001000000050\
        0000030000000040000000100000002000000000a000009000000000000000000000000\n\
        l arrive cookie\n\
        datagram 1 10.0.0.9:9000 10.0.0.8:7000 8000000000000000000003e8000000020000000400000001000000050\
        0000030000000040000000100000002833a0d670a000008000000000000000000000000\n\
        x arrive cookie\n\
        datagram 2 10.0.0.8:7000 10.0.0.9:9000 8000000000000000000007d0000000000000000400000001000000050\
        0000030000000040000000100000002833a0d670a000009000000000000000000000000\n\
        l arrive reject\n\
        datagram 3 10.0.0.9:9000 10.0.0.8:7000 800000000000000000000bb8000000020000000400000001000000050\
        000003000000004000003ea00000002833a0d670a000008000000000000000000000000\n\
        x arrive rejected\n\
        x shake refused 1002\n";
    for (script, printed) in [(waits, waited), (differs, rejected)] {
        assert_runs(
            &rt,
            rt.alloc(),
            WHOLE,
            &["replay"],
            &[script],
            &[printed],
            DONE,
        );
    }
}

// Addresses of IPv6, in either case.
#[test]
fn hosts_have_ipv6_addresses(rt: HostRuntime) {
    let script: &[u8] = b"host s [FD00::9]:9000\n\
        host c [fd00::8]:7000\n\
        open stream x c 4 5 4\n\
        x connect 0 [fd00::9]:9000\n\
        x tick 0\n";
    let printed: &[u8] = b"host s\n\
        host c\n\
        open x 1\n\
        x connect\n\
        x tick\n\
        datagram 0 [fd00:0:0:0:0:0:0:8]:7000 [fd00:0:0:0:0:0:0:9]:9000 800000000000000000000000000000000\
        000000400000001000000050000003000000004000000010000000100000000fd000000000000000000000000000009\n";
    assert_runs(
        &rt,
        rt.alloc(),
        WHOLE,
        &["replay"],
        &[script],
        &[printed],
        DONE,
    );
}

// Bytes that no socket sent, each alone after two blocks were sent.
#[test]
fn hostile_datagrams_change_no_connection(rt: HostRuntime) {
    let sends: &[u8] = b"pair stream a b 4 5 4\n\
        a send 1000 68656c6c6f\n\
        a pack 1000\n\
        a pack 1000\n";
    let sent: &[u8] = b"pair a 1 b 2\n\
        a send 5\n\
        a pack data\n\
        datagram 0 10.0.0.1:9000 10.0.0.2:9000 0000000580000001000003e80000000268656c6c\n\
        a pack data\n\
        datagram 1 10.0.0.1:9000 10.0.0.2:9000 0000000640000001000003e8000000026f\n";
    let arrivals: [(&[u8], &[u8]); 12] = [
        (
            b"raw 2000 10.0.0.1:9000 10.0.0.2:9000 00000005800000010000000000000002",
            b"b arrive badlength\n",
        ),
        (
            b"raw 2000 10.0.0.1:9000 10.0.0.2:9000 000000058000000100000000000000020102030405",
            b"b arrive badlength\n",
        ),
        (
            b"raw 2000 10.0.0.1:9000 10.0.0.2:9000 00000009c0000001000000000000000201",
            b"b arrive above\n",
        ),
        (
            b"raw 2000 10.0.0.1:9000 10.0.0.2:9000 00000004c0000001000000000000000201",
            b"b arrive above\n",
        ),
        (
            b"raw 2000 10.0.0.2:9000 10.0.0.1:9000 800300000000000000000000000000018000000500000006",
            b"a arrive nak\n",
        ),
        (
            b"raw 2000 10.0.0.2:9000 10.0.0.1:9000 800300000000000000000000000000018000000500000007",
            b"a arrive stale\n",
        ),
        (
            b"raw 2000 10.0.0.2:9000 10.0.0.1:9000 800300000000000000000000000000018000000600000005",
            b"a arrive malformed 4\n",
        ),
        (
            b"raw 2000 10.0.0.2:9000 10.0.0.1:9000 80020000000000010000000000000001000000",
            b"a arrive malformed 6\n",
        ),
        (
            b"raw 2000 10.0.0.1:9000 10.0.0.2:9000 800700000000000100000000000000020000000500000006",
            b"b arrive stale\n",
        ),
        (
            b"raw 2000 10.0.0.1:9000 10.0.0.2:9000 ffff0000000000000000000000000002",
            b"b arrive malformed 2\n",
        ),
        (
            b"raw 2000 10.0.0.1:9000 10.0.0.2:9000 80060000000000090000000000000002",
            b"b arrive stale\n",
        ),
        (
            b"raw 2000 10.0.0.1:9000 10.0.0.2:9000 80000000000000000000000000000002000000040000000100000\
            00500000030000000040000000100000009000000000a000009000000000000000000000000",
            b"b arrive stale\n",
        ),
    ];
    for (arrival, heard) in arrivals {
        assert_runs(
            &rt,
            rt.alloc(),
            WHOLE,
            &["replay"],
            &[sends, arrival],
            &[sent, heard],
            DONE,
        );
    }
}
