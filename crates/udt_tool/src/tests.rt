// Scripts and what they print, over inputs and outputs in memory.

mod connections;
mod many;

use crate::{DONE, NO_COMMAND, REFUSED, SINK_FAILED, SOURCE_FAILED, run_plain};
use std::alloc::{AllocError, Global};
use std::process::Abort;
use udt_outside::{MemorySink, MemorySource};

/// How many bytes a call moves at most, and the numbers of the calls that fail.
#[derive(Clone, Copy)]
struct Outside<'a> {
    read_piece: usize,
    write_piece: usize,
    failing_reads: &'a [u64],
    failing_writes: &'a [u64],
}

const WHOLE: Outside<'static> = Outside {
    read_piece: 4096,
    write_piece: 4096,
    failing_reads: &[],
    failing_writes: &[],
};

fn joined(alloc: Global, parts: &[&[u8]]) -> Result<Vec<u8>, AllocError> {
    let mut whole = Vec::new(alloc);
    for part in parts {
        whole.extend_from_slice(part)?;
    }
    Ok(whole)
}

fn words_of(alloc: Global, words: &[&str]) -> Result<Vec<String>, AllocError> {
    let mut owned = Vec::new(alloc);
    for word in words {
        owned.push(String::from_str(alloc, word)?)?;
    }
    Ok(owned)
}

fn assert_runs(
    rt: &impl Abort,
    alloc: Global,
    outside: Outside,
    words: &[&str],
    script: &[&[u8]],
    printed: &[&[u8]],
    status: u8,
) {
    let Outside {
        read_piece,
        write_piece,
        failing_reads,
        failing_writes,
    } = outside;
    assert!(rt; read_piece > 0 && write_piece > 0);
    let words = words_of(alloc, words).expect(rt, "memory");
    let script = joined(alloc, script).expect(rt, "memory");
    let printed = joined(alloc, printed).expect(rt, "memory");
    let failing = Vec::from_slice(alloc, failing_reads).expect(rt, "memory");
    let mut input = MemorySource::new(script, read_piece, failing);
    let failing = Vec::from_slice(alloc, failing_writes).expect(rt, "memory");
    let mut out = MemorySink::new(alloc, 4096, write_piece, failing).expect(rt, "memory");
    assert_eq!(rt; run_plain(alloc, &words, &mut input, &mut out), status);
    assert_eq!(rt; out.taken(), printed.as_slice());
}

#[test]
fn replays_scripts(rt: HostRuntime) {
    let pair: &[u8] = b"pair stream a b 4 5 4\n";
    let paired: &[u8] = b"pair a 1 b 2\n";
    let hello: &[u8] = b"a send 1000 68656c6c6f\na pack 1000\na pack 1000\n";
    let packed: &[u8] = b"a send 5\n\
        a pack data\n\
        datagram 0 10.0.0.1:9000 10.0.0.2:9000 0000000580000001000003e80000000268656c6c\n\
        a pack data\n\
        datagram 1 10.0.0.1:9000 10.0.0.2:9000 0000000640000001000003e8000000026f\n";
    let wrapped: &[u8] = b"a send 5\n\
        a pack data\n\
        datagram 0 10.0.0.1:9000 10.0.0.2:9000 0000000480000001000003e80000000268656c6c\n\
        a pack data\n\
        datagram 1 10.0.0.1:9000 10.0.0.2:9000 0000000540000001000003e8000000026f\n";
    let stories: [([&[u8]; 3], [&[u8]; 3], u8); 7] = [
        ([b"", b"", b""], [b"", b"", b""], DONE),
        ([pair, hello, b""], [paired, packed, b""], DONE),
        (
            [
                pair,
                hello,
                b"deliver 1 2000\nb recv 2000 10\ndeliver 0 3000\nb recv 3000 10\n",
            ],
            [
                paired,
                packed,
                b"b arrive placed\n\
                    datagram 2 10.0.0.2:9000 10.0.0.1:9000 8003000000000000000007d00000000100000005\n\
                    b recv again\nb arrive placed\nb recv 68656c6c6f\n",
            ],
            DONE,
        ),
        (
            [
                pair,
                hello,
                b"deliver 0 2000\ndeliver 0 2100\nb recv 2200 4\ndeliver 0 2300",
            ],
            [
                paired,
                packed,
                b"b arrive placed\nb arrive double\nb recv 68656c6c\nb arrive below\n",
            ],
            DONE,
        ),
        (
            [
                b"pair stream a b 4 5 2\n",
                b"a send 0 00010203040506070809\na send 0 01\n",
                b"a send 0 -\n",
            ],
            [paired, b"a send 8\na send again\n", b"a send 0\n"],
            DONE,
        ),
        (
            [pair, b"a jump 5\n", hello],
            [paired, b"line 2 refused\n", b""],
            REFUSED,
        ),
        (
            [
                b"pair stream a b 4 5 4 2147483647\n",
                hello,
                b"deliver 0 3000\ndeliver 1 3100\nb recv 3200 10\n",
            ],
            [
                paired,
                wrapped,
                b"b arrive placed\nb arrive placed\nb recv 68656c6c6f\n",
            ],
            DONE,
        ),
    ];
    let in_pieces = Outside {
        read_piece: 3,
        write_piece: 5,
        ..WHOLE
    };
    for (script, printed, status) in &stories {
        for outside in [WHOLE, in_pieces] {
            assert_runs(
                &rt,
                rt.alloc(),
                outside,
                &["replay"],
                script,
                printed,
                *status,
            );
        }
    }
}

#[test]
fn replays_acknowledgement_silence_and_closing(rt: HostRuntime) {
    let pair: &[u8] = b"pair stream a b 4 5 4\n";
    let paired: &[u8] = b"pair a 1 b 2\n";
    let hello: &[u8] = b"a send 1000 68656c6c6f\na pack 1000\na pack 1000\n";
    let packed: &[u8] = b"a send 5\n\
        a pack data\n\
        datagram 0 10.0.0.1:9000 10.0.0.2:9000 0000000580000001000003e80000000268656c6c\n\
        a pack data\n\
        datagram 1 10.0.0.1:9000 10.0.0.2:9000 0000000640000001000003e8000000026f\n";
    let acknowledges: &[u8] = b"deliver 0 2000\n\
        deliver 1 3000\n\
        b tick 10000\n\
        deliver 2 20000\n\
        deliver 3 30000\n\
        b perf 30000\n\
        raw 21000 10.0.0.2:9000 10.0.0.1:9000 8002000000000000000052080000000100000009\n\
        raw 21000 10.0.0.2:9000 10.0.0.1:9000 8002000000000000000052080000000100000005\n\
        b recv 21000 10\n";
    let acknowledged: &[u8] = b"b arrive placed\n\
        b arrive placed\n\
        b tick\n\
        datagram 2 10.0.0.2:9000 10.0.0.1:9000 8002000000000001000027100000000100000007000186a00000c350000000020000000000000000\n\
        a arrive ack\n\
        datagram 3 10.0.0.1:9000 10.0.0.2:9000 800600000000000100004e2000000002\n\
        b arrive ack2\n\
        b perf rtt 90000 var 57500 window 16 period 0 sent 0 resent 0 placed 2 double 0 below 0 above 0 control 1 stale 0 foreign 0 malformed 0 acked 0\n\
        a arrive stale\n\
        a arrive stale\n\
        b recv 68656c6c6f\n";
    let retransmits: &[u8] = b"a tick 499999\n\
        a pack 499999\n\
        a tick 500000\n\
        a pack 500000\n";
    let retransmitted: &[u8] = b"a tick\n\
        a pack nothing\n\
        a tick\n\
        a pack data\n\
        datagram 2 10.0.0.1:9000 10.0.0.2:9000 00000005800000010007a1200000000268656c6c\n";
    let closes: &[u8] = b"a send 0 010203\n\
        a pack 0\n\
        deliver 0 0\n\
        a close 1000\n\
        a send 1000 04\n\
        a tick 1000\n\
        deliver 1 2000\n\
        b recv 3000 10\n\
        b recv 3000 10\n";
    let closed: &[u8] = b"a send 3\n\
        a pack data\n\
        datagram 0 10.0.0.1:9000 10.0.0.2:9000 00000005c00000010000000000000002010203\n\
        b arrive placed\n\
        a close\n\
        a send refused 2002\n\
        a tick\n\
        datagram 1 10.0.0.1:9000 10.0.0.2:9000 8005000000000000000003e800000002\n\
        b arrive shutdown\n\
        b recv 010203\n\
        b recv refused 2001 shutdown\n";
    let near: &[u8] = b"pair stream a b 1 0 4 2147483658\n\
        raw 1 10.0.0.1:9000 10.0.0.2:9000 00000009c0000001000000000000000200\n\
        raw 1 10.0.0.1:9000 10.0.0.2:9000 40000009c0000001000000000000000200\n\
        raw 1 10.0.0.1:9000 10.0.0.2:9000 4000000ac0000001000000000000000200\n\
        raw 1 10.0.0.1:9000 10.0.0.2:9000 4000000bc0000001000000000000000200\n\
        raw 1 10.0.0.1:9000 10.0.0.2:9000 0000000ac0000001000000000000000200\n";
    let read_near: &[u8] = b"pair a 1 b 2\n\
        b arrive below\n\
        b arrive above\n\
        b arrive above\n\
        b arrive below\n\
        b arrive placed\n";
    let wraps: &[u8] = b"pair stream a b 1 2147483647 4\n\
        a send 0 010203\n\
        a pack 0\n\
        a pack 0\n\
        a pack 0\n\
        deliver 2 100\n";
    let wrapped: &[u8] = b"pair a 1 b 2\n\
        a send 3\n\
        a pack data\n\
        datagram 0 10.0.0.1:9000 10.0.0.2:9000 7fffffff80000001000000000000000201\n\
        a pack data\n\
        datagram 1 10.0.0.1:9000 10.0.0.2:9000 0000000000000001000000000000000202\n\
        a pack data\n\
        datagram 2 10.0.0.1:9000 10.0.0.2:9000 0000000140000001000000000000000203\n\
        b arrive placed\n\
        datagram 3 10.0.0.2:9000 10.0.0.1:9000 80030000000000000000006400000001ffffffff00000000\n";
    let waits: &[u8] = b"pair stream a b 4 5 4\n\
        a tick 500000\n\
        a tick 1420000\n\
        a tick 2800000\n\
        a tick 4640000\n\
        a tick 6940000\n\
        a tick 9700000\n\
        a tick 12920000\n\
        a tick 16600000\n\
        a tick 20740000\n\
        a tick 25340000\n\
        a tick 30400000\n\
        a tick 35920000\n\
        a tick 41900000\n\
        a tick 48340000\n\
        a tick 55240000\n\
        a tick 62600000\n\
        a tick 70419999\n\
        a tick 70420000\n\
        a recv 70420000 1\n\
        a send 70420000 00\n";
    let waited: &[u8] = b"pair a 1 b 2\n\
        a tick\n\
        datagram 0 10.0.0.1:9000 10.0.0.2:9000 80010000000000000007a12000000002\n\
        a tick\n\
        datagram 1 10.0.0.1:9000 10.0.0.2:9000 80010000000000000015aae000000002\n\
        a tick\n\
        datagram 2 10.0.0.1:9000 10.0.0.2:9000 8001000000000000002ab98000000002\n\
        a tick\n\
        datagram 3 10.0.0.1:9000 10.0.0.2:9000 80010000000000000046cd0000000002\n\
        a tick\n\
        datagram 4 10.0.0.1:9000 10.0.0.2:9000 80010000000000000069e56000000002\n\
        a tick\n\
        datagram 5 10.0.0.1:9000 10.0.0.2:9000 8001000000000000009402a000000002\n\
        a tick\n\
        datagram 6 10.0.0.1:9000 10.0.0.2:9000 800100000000000000c524c000000002\n\
        a tick\n\
        datagram 7 10.0.0.1:9000 10.0.0.2:9000 800100000000000000fd4bc000000002\n\
        a tick\n\
        datagram 8 10.0.0.1:9000 10.0.0.2:9000 8001000000000000013c77a000000002\n\
        a tick\n\
        datagram 9 10.0.0.1:9000 10.0.0.2:9000 80010000000000000182a86000000002\n\
        a tick\n\
        datagram 10 10.0.0.1:9000 10.0.0.2:9000 800100000000000001cfde0000000002\n\
        a tick\n\
        datagram 11 10.0.0.1:9000 10.0.0.2:9000 80010000000000000224188000000002\n\
        a tick\n\
        datagram 12 10.0.0.1:9000 10.0.0.2:9000 8001000000000000027f57e000000002\n\
        a tick\n\
        datagram 13 10.0.0.1:9000 10.0.0.2:9000 800100000000000002e19c2000000002\n\
        a tick\n\
        datagram 14 10.0.0.1:9000 10.0.0.2:9000 8001000000000000034ae54000000002\n\
        a tick\n\
        datagram 15 10.0.0.1:9000 10.0.0.2:9000 800100000000000003bb334000000002\n\
        a tick\n\
        a tick\n\
        a recv refused 2001 expired\n\
        a send refused 2001 expired\n";
    let stories: [([&[u8]; 3], [&[u8]; 3]); 6] = [
        ([pair, hello, acknowledges], [paired, packed, acknowledged]),
        ([pair, hello, retransmits], [paired, packed, retransmitted]),
        ([pair, closes, b""], [paired, closed, b""]),
        ([near, b"", b""], [read_near, b"", b""]),
        ([wraps, b"", b""], [wrapped, b"", b""]),
        ([waits, b"", b""], [waited, b"", b""]),
    ];
    for (script, printed) in &stories {
        assert_runs(&rt, rt.alloc(), WHOLE, &["replay"], script, printed, DONE);
    }
}

// A message that expires is dropped whole, and one that is too large is never taken or given.
#[test]
fn replays_messages(rt: HostRuntime) {
    let expires: &[u8] = b"pair message a b 4 5 8\n\
        a sendmsg 0 50000 1 000102030405060708090a0b\n\
        a pack 0\n\
        a pack 0\n\
        a pack 0\n\
        deliver 0 1000\n\
        deliver 2 1000\n\
        deliver 3 2000\n\
        a pack 60000\n\
        a sendmsg 60000 - 1 6d32\n\
        a pack 60000\n\
        deliver 4 61000\n\
        deliver 5 61000\n\
        b recvmsg 61000 100\n\
        b recvmsg 61000 100\n";
    let expired: &[u8] = b"pair a 1 b 2\n\
        a sendmsg 12\n\
        a pack data\n\
        datagram 0 10.0.0.1:9000 10.0.0.2:9000 00000005a0000001000000000000000200010203\n\
        a pack data\n\
        datagram 1 10.0.0.1:9000 10.0.0.2:9000 0000000620000001000000000000000204050607\n\
        a pack data\n\
        datagram 2 10.0.0.1:9000 10.0.0.2:9000 0000000760000001000000000000000208090a0b\n\
        b arrive placed\n\
        b arrive placed\n\
        datagram 3 10.0.0.2:9000 10.0.0.1:9000 8003000000000000000003e80000000100000006\n\
        a arrive nak\n\
        a pack drop\n\
        datagram 4 10.0.0.1:9000 10.0.0.2:9000 80070000000000010000ea60000000020000000500000007\n\
        a sendmsg 2\n\
        a pack data\n\
        datagram 5 10.0.0.1:9000 10.0.0.2:9000 00000008e00000020000ea60000000026d32\n\
        b arrive dropped\n\
        b arrive placed\n\
        b recvmsg 6d32\n\
        b recvmsg again\n";
    let fills: &[u8] = b"pair message a b 4 5 2\n\
        a sendmsg 0 - 0 000102030405060708\n\
        a sendmsg 0 - 0 0001020304050607\n\
        a sendmsg 0 - 0 08\n\
        a send 0 01\n\
        a pack 0\n\
        deliver 0 0\n\
        b recvmsg 0 8\n\
        a pack 0\n\
        deliver 1 0\n\
        b recvmsg 0 7\n\
        b recvmsg 0 8\n";
    let filled: &[u8] = b"pair a 1 b 2\n\
        a sendmsg refused 5012\n\
        a sendmsg 8\n\
        a sendmsg again\n\
        a send refused 5010\n\
        a pack data\n\
        datagram 0 10.0.0.1:9000 10.0.0.2:9000 0000000580000001000000000000000200010203\n\
        b arrive placed\n\
        b recvmsg again\n\
        a pack data\n\
        datagram 1 10.0.0.1:9000 10.0.0.2:9000 0000000640000001000000000000000204050607\n\
        b arrive placed\n\
        b recvmsg refused 5012\n\
        b recvmsg 0001020304050607\n";
    for (script, printed) in [(expires, expired), (fills, filled)] {
        assert_runs(
            &rt,
            rt.alloc(),
            WHOLE,
            &["replay"],
            &[script],
            &[printed],
            DONE,
        );
    }
}

// Plays to where the controls part: the fixed one keeps a tenth of a millisecond between packets,
// and after an acknowledgement the native one has a period and the other none.
#[test]
fn replays_under_each_control(rt: HostRuntime) {
    let begun: &[u8] = b"pair stream a b 4 5 4\na send 1000 68656c6c6f\na pack 1000\na pack 1000\n\
        a pack 1100\n";
    let answered: &[u8] = b"deliver 0 2000\ndeliver 1 3000\nb tick 10000\ndeliver 2 20000\n";
    let again: &[u8] = b"a send 21000 01\na send 21000 02\na pack 21000\na pack 21000\n";
    let first: &[u8] = b"pair a 1 b 2\na send 5\na pack data\n\
        datagram 0 10.0.0.1:9000 10.0.0.2:9000 0000000580000001000003e80000000268656c6c\n";
    let both: &[u8] = b"a pack data\n\
        datagram 1 10.0.0.1:9000 10.0.0.2:9000 0000000640000001000003e8000000026f\n\
        a pack nothing\n";
    let apart: &[u8] = b"a pack notyet 1100\na pack data\n\
        datagram 1 10.0.0.1:9000 10.0.0.2:9000 00000006400000010000044c000000026f\n";
    let heard: &[u8] = b"b arrive placed\nb arrive placed\nb tick\n\
        datagram 2 10.0.0.2:9000 10.0.0.1:9000 8002000000000001000027100000000100000007000186a00000c350000000020000000000000000\n\
        a arrive ack\n\
        datagram 3 10.0.0.1:9000 10.0.0.2:9000 800600000000000100004e2000000002\n\
        a send 1\na send 1\na pack data\n\
        datagram 4 10.0.0.1:9000 10.0.0.2:9000 00000007c0000002000052080000000201\n";
    let last: &[u8] = b"a pack data\n\
        datagram 5 10.0.0.1:9000 10.0.0.2:9000 00000008c0000003000052080000000202\n";
    let stories: [(&[&str], [&[u8]; 4]); 4] = [
        (&["replay"], [first, both, heard, b"a pack notyet 27112\n"]),
        (
            &["replay", "native"],
            [first, both, heard, b"a pack notyet 27112\n"],
        ),
        (
            &["replay", "fixed"],
            [first, apart, heard, b"a pack notyet 21100\n"],
        ),
        (&["replay", "aimd"], [first, both, heard, last]),
    ];
    for (words, printed) in stories {
        assert_runs(
            &rt,
            rt.alloc(),
            WHOLE,
            words,
            &[begun, answered, again],
            &printed,
            DONE,
        );
    }
    let spaced: &[u8] = b"pair stream a b 4 5 4\na send 0 0102030405060708\n\
        a pack 0\na pack 0\na pack 100\n";
    let packed: &[u8] = b"pair a 1 b 2\na send 8\na pack data\n\
        datagram 0 10.0.0.1:9000 10.0.0.2:9000 0000000580000001000000000000000201020304\n\
        a pack notyet 100\na pack data\n\
        datagram 1 10.0.0.1:9000 10.0.0.2:9000 0000000640000001000000640000000205060708\n";
    let words: &[&str] = &["replay", "fixed"];
    assert_runs(&rt, rt.alloc(), WHOLE, words, &[spaced], &[packed], DONE);
}

#[test]
fn tells_generated_runs(rt: HostRuntime) {
    let runs: [(&[&str], &[u8]); 5] = [
        (
            &["world", "7", "0"],
            b"world 7 turns 0 accepted 0 delivered 0 acked 0 datagrams 0\n",
        ),
        (
            &["world", "7", "1"],
            b"world 7 turns 1 accepted 0 delivered 0 acked 0 datagrams 0\n",
        ),
        (
            &["world", "7", "200", "native"],
            b"world 7 turns 200 accepted 45617 delivered 12148 acked 0 datagrams 18\n",
        ),
        (
            &["world", "7", "200", "fixed"],
            b"world 7 turns 200 accepted 45617 delivered 20471 acked 0 datagrams 45\n",
        ),
        (
            &["world", "7", "200", "aimd"],
            b"world 7 turns 200 accepted 45617 delivered 12148 acked 0 datagrams 31\n",
        ),
    ];
    for (words, printed) in runs {
        assert_runs(
            &rt,
            rt.alloc(),
            WHOLE,
            words,
            &[b"no line\n"],
            &[printed],
            DONE,
        );
    }
}

#[test]
fn ends_early_by_faults_and_words(rt: HostRuntime) {
    let usage: &[u8] = b"usage: udt replay [CONTROL] | world N TURNS [CONTROL] \
        | pair SIZE COUNT N | recv PORT FILE COUNT | recv6 PORT FILE COUNT \
        | send FILE ADDR PORT | record TURNS N | check\n";
    let refused: &[u8] = b"line 1 refused\n";
    let told: &[u8] = b"world 7 turns 0 accepted 0 delivered 0 acked 0 datagrams 0\n";
    let runs: [(&[&str], &[u64], &[u64], &[u8], u8); 16] = [
        (&[], &[], &[], usage, NO_COMMAND),
        (&["other"], &[], &[], usage, NO_COMMAND),
        (&["check"], &[], &[], usage, NO_COMMAND),
        (&["replay", "reno"], &[], &[], usage, NO_COMMAND),
        (&["replay", "aimd", "aimd"], &[], &[], usage, NO_COMMAND),
        (&["world"], &[], &[], usage, NO_COMMAND),
        (&["world", "7"], &[], &[], usage, NO_COMMAND),
        (&["world", "7", "400001"], &[], &[], usage, NO_COMMAND),
        (&["world", "7", "0", "-"], &[], &[], usage, NO_COMMAND),
        (&["replay"], &[1], &[], b"", SOURCE_FAILED),
        (&["replay", "fixed"], &[2], &[], b"", SOURCE_FAILED),
        (&["replay"], &[], &[1], b"", SINK_FAILED),
        (&["world"], &[], &[2], &usage[..5], SINK_FAILED),
        (&["world", "7", "0"], &[1], &[2], &told[..5], SINK_FAILED),
        (&["world", "7", "0"], &[1], &[], told, DONE),
        (&["replay", "aimd"], &[], &[2], &refused[..5], SINK_FAILED),
    ];
    for (words, failing_reads, failing_writes, printed, status) in runs {
        let outside = Outside {
            read_piece: 3,
            write_piece: 5,
            failing_reads,
            failing_writes,
        };
        assert_runs(
            &rt,
            rt.alloc(),
            outside,
            words,
            &[b"jump\n"],
            &[printed],
            status,
        );
    }
}
