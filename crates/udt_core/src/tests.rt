// Stories of sockets. What is expected was computed by hand from the protocol's definitions, and
// the longer ones by the second player (`tests/play.py`).

ghost use Rattle.std.specs.Prelude.{◌≡◌, ◌^◌, ◌<◌};
ghost use Rattle.udt_model.specs.declared.packets.Kind.TheVariants.{Stream};

mod connections;

use super::*;
use std::alloc::Global;
use std::process::Abort;
use std::test::*;
use udt_model::{Addr, Config, Ip, Kind, Malformed};
use udt_rate::{Control, Native};

const STREAM: Config = Config {
    kind: Kind::Stream,
    payload: 4,
    snd_blocks: 8,
    rcv_blocks: 8,
};

const HERE: Peer = Peer {
    addr: Addr {
        ip: Ip::V4(0x0a00_0001),
        port: 9000,
    },
    id: 1,
    isn: 2_147_483_647,
    payload: 4,
    flow: 8,
};

const THERE: Peer = Peer {
    addr: Addr {
        ip: Ip::V4(0x0a00_0002),
        port: 9000,
    },
    id: 2,
    isn: 2_147_483_647,
    payload: 4,
    flow: 8,
};

// What happens to a socket, and what it answers, or what it is ready for. A tick may emit more than one
// datagram.
#[derive(Drop)]
enum Deed<'a> {
    Sends(&'a [u8], Result<usize, Refusal>),
    Reads(usize, Result<&'a [u8], Refusal>),
    Packs(Packed),
    Arrives(&'a [u8], Heard),
    Ticks,
    Closes,
    Is(u8),
    IsNext(Option<u64>),
    Measures(Perf),
    Counts(u64),
    TicksOften(&'a [&'a [u8]]),
}

// Whether these datagrams, and no other, were emitted to this address.
fn are_emitted(outs: &Outs, to: Addr, wanted: &[&[u8]]) -> bool {
    if outs.len() != wanted.len() {
        return false;
    }
    for i in 0..outs.len() {
        if outs.get(i) != (to, wanted[i]) {
            return false;
        }
    }
    true
}

// Does each deed at its moment. Following it stands the datagram that it emits.
fn play<C: Control>(
    rt: &impl Abort,
    socket: &mut Socket<C>,
    peer: Addr,
    outs: &mut Outs,
    story: &[(u64, Deed, Option<&[u8]>)],
) {
    for (now, deed, emitted) in story {
        outs.clear();
        match deed {
            Deed::Sends(bytes, taken) => {
                assert_eq!(rt; socket.send(*now, bytes), *taken, "of {bytes:?}")
            }
            Deed::Reads(room, received) => {
                let mut into = [0xaa; 8];
                assert!(rt; *room <= 8);
                match socket.recv(*now, &mut into[..*room]) {
                    Ok(count) => assert_eq!(rt; Ok(&into[..count]), *received, "at {now}"),
                    Err(why) => assert_eq!(rt; Err(why), *received, "at {now}"),
                }
            }
            Deed::Packs(packed) => assert_eq!(rt; socket.pack(*now, outs), *packed, "at {now}"),
            Deed::Arrives(bytes, heard) => {
                assert_eq!(rt; socket.arrive(*now, peer, bytes, outs), *heard, "{bytes:?}")
            }
            Deed::Ticks => socket.tick(*now, outs),
            Deed::Closes => socket.close(*now),
            Deed::Is(bits) => assert_eq!(rt; socket.bits(), *bits, "at {now}"),
            Deed::IsNext(moment) => assert_eq!(rt; socket.next_moment(), *moment, "at {now}"),
            Deed::Measures(perf) => assert_eq!(rt; socket.perf(*now), *perf),
            Deed::Counts(count) => assert_eq!(rt; socket.count(), *count),
            Deed::TicksOften(all) => {
                socket.tick(*now, outs);
                assert!(rt; are_emitted(outs, peer, all), "at {now}");
                outs.clear();
            }
        }
        match emitted {
            Some(bytes) => assert!(rt; are_emitted(outs, peer, &[*bytes]), "at {now}"),
            None => assert_eq!(rt; outs.len(), 0, "at {now}"),
        }
    }
}

// Opens a socket to this peer, and does each deed. (The control is a parameter, so that no proof looks
// into one.)
fn tell<C: Control + Drop>(
    rt: &impl Abort,
    alloc: Global,
    config: Config,
    peer: Peer,
    begins: (u64, u64),
    story: &[(u64, Deed, Option<&[u8]>)],
) -> Result<(), Fail>
    requires stream { config.kind ≡ Stream }
    requires number { peer.isn < 2 ^ 31 }
{
    let (now, start) = begins;
    let mut outs = Outs::new(alloc)?;
    let mut socket: Socket<C> = Socket::paired_at(
        alloc,
        3 - peer.id.min(3),
        config,
        peer,
        now,
        start,
    )?;
    play(rt, &mut socket, peer.addr, &mut outs, story);
    Ok(())
}

#[test]
fn bytes_go_over_in_any_order_and_once(rt: HostRuntime) -> Result<(), Fail> {
    // where the directions begin, the two datagrams of "hello", and the NAK of the first
    let stories: [(u64, &[u8], &[u8], &[u8]); 2] = [
        (
            0,
            b"\x7f\xff\xff\xff\x80\x00\x00\x01\x00\x00\x03\xe8\x00\x00\x00\x02hell",
            b"\x00\x00\x00\x00\x40\x00\x00\x01\x00\x00\x03\xe8\x00\x00\x00\x02o",
            b"\x80\x03\x00\x00\x00\x00\x00\x00\x00\x00\x05\xdc\x00\x00\x00\x01\x7f\xff\xff\xff",
        ),
        (
            2_147_483_649,
            b"\x00\x00\x00\x00\x80\x00\x00\x01\x00\x00\x03\xe8\x00\x00\x00\x02hell",
            b"\x00\x00\x00\x01\x40\x00\x00\x01\x00\x00\x03\xe8\x00\x00\x00\x02o",
            b"\x80\x03\x00\x00\x00\x00\x00\x00\x00\x00\x05\xdc\x00\x00\x00\x01\x00\x00\x00\x00",
        ),
    ];
    let again = Refusal::AgainRecv;
    for (start, hell, o, nak) in stories {
        // a moment before the last one counts as the last one
        let sends = [
            (1_500, Deed::Sends(b"hello", Ok(5)), None),
            (0, Deed::Packs(Packed::Block(20)), Some(hell)),
            (0, Deed::Packs(Packed::Block(17)), Some(o)),
            (1_500, Deed::Packs(Packed::Nothing), None),
        ];
        tell::<Native>(&rt, rt.alloc(), STREAM, THERE, (500, start), &sends)?;
        let arrivals = [
            (2_000, Deed::Arrives(o, Heard::Placed), Some(nak)),
            (2_000, Deed::Reads(8, Err(again)), None),
            (2_000, Deed::Arrives(o, Heard::Double), None),
            (2_000, Deed::Reads(0, Ok(b"")), None),
            (2_000, Deed::Arrives(hell, Heard::Placed), None),
            (2_000, Deed::Reads(3, Ok(b"hel")), None),
            (2_000, Deed::Arrives(hell, Heard::Double), None),
            (2_000, Deed::Reads(8, Ok(b"lo")), None),
            (2_000, Deed::Arrives(hell, Heard::Below), None),
            (2_000, Deed::Arrives(o, Heard::Below), None),
            (2_000, Deed::Reads(8, Err(again)), None),
        ];
        tell::<Native>(&rt, rt.alloc(), STREAM, HERE, (500, start), &arrivals)?;
    }
    Ok(())
}

const HELL: &[u8] = b"\x00\x00\x00\x05\x80\x00\x00\x01\x00\x00\x03\xe8\x00\x00\x00\x02hell";

const O: &[u8] = b"\x00\x00\x00\x06\x40\x00\x00\x01\x00\x00\x03\xe8\x00\x00\x00\x02o";

const HELL_AGAIN: &[u8] = b"\x00\x00\x00\x05\x80\x00\x00\x01\x00\x07\xa1\x20\x00\x00\x00\x02hell";

// ACKs of the first two blocks: two of four blocks are free
const ACK: &[u8] =
    b"\x80\x02\x00\x00\x00\x00\x00\x01\x00\x00\x27\x10\x00\x00\x00\x01\x00\x00\x00\x07\x00\x01\x86\xa0\x00\x00\xc3\x50\x00\x00\x00\x02\x00\x00\x00\x00\x00\x00\x00\x00";

const ACK_AGAIN: &[u8] =
    b"\x80\x02\x00\x00\x00\x00\x00\x02\x00\x03\x5b\x5f\x00\x00\x00\x01\x00\x00\x00\x07\x00\x01\x86\xa0\x00\x00\xc3\x50\x00\x00\x00\x02\x00\x00\x00\x00\x00\x00\x00\x00";

// a light ACK of a third block, which was never sent
const ACK_ABOVE: &[u8] =
    b"\x80\x02\x00\x00\x00\x00\x00\x03\x00\x00\x27\x10\x00\x00\x00\x01\x00\x00\x00\x08";

// what answers the first of them
const ACK2: &[u8] = b"\x80\x06\x00\x00\x00\x00\x00\x01\x00\x09\x27\xc0\x00\x00\x00\x02";

const SHUTDOWN: &[u8] = b"\x80\x05\x00\x00\x00\x00\x00\x00\x00\x0a\xae\x60\x00\x00\x00\x02";

#[test]
fn what_is_not_acknowledged_goes_again_until_the_end(rt: HostRuntime) -> Result<(), Fail> {
    let config = Config {
        snd_blocks: 4,
        rcv_blocks: 4,
        ..STREAM
    };
    let sends = [
        (1_000, Deed::Sends(b"hello", Ok(5)), None),
        (1_000, Deed::Packs(Packed::Block(20)), Some(HELL)),
        (1_000, Deed::Packs(Packed::Block(17)), Some(O)),
        // when the EXP timer fires, all that was sent counts as lost
        (499_999, Deed::Ticks, None),
        (499_999, Deed::Packs(Packed::Nothing), None),
        (500_000, Deed::Ticks, None),
        (500_000, Deed::Packs(Packed::Block(20)), Some(HELL_AGAIN)),
        // an ACK releases the other block before it is retransmitted
        (600_000, Deed::Arrives(ACK_ABOVE, Heard::Stale), None),
        (600_000, Deed::Arrives(ACK, Heard::Ack), Some(ACK2)),
        (600_000, Deed::Packs(Packed::Nothing), None),
        // one shutdown is sent
        (700_000, Deed::Closes, None),
        (700_000, Deed::Is(0), None),
        (700_000, Deed::IsNext(Some(700_000)), None),
        (700_000, Deed::Sends(b"x", Err(Refusal::NotConnected)), None),
        (700_000, Deed::Ticks, Some(SHUTDOWN)),
        (700_000, Deed::Ticks, None),
        (700_000, Deed::Arrives(ACK, Heard::Stale), None),
        (700_000, Deed::Is(36), None),
        (700_000, Deed::IsNext(None), None),
        (700_000, Deed::Counts(15), None),
    ];
    let there = Peer { isn: 5, ..THERE };
    tell::<Native>(&rt, rt.alloc(), config, there, (0, 0), &sends)?;

    let lost = Refusal::ConnLost(Cause::PeerShutdown);
    let arrivals = [
        (2_000, Deed::Arrives(HELL, Heard::Placed), None),
        (3_000, Deed::Arrives(O, Heard::Placed), None),
        (9_999, Deed::Ticks, None),
        (10_000, Deed::Ticks, Some(ACK)),
        // the same offset isn't named again for two round trips
        (20_000, Deed::Ticks, None),
        (209_999, Deed::Ticks, None),
        (219_998, Deed::Ticks, None),
        (219_999, Deed::Ticks, Some(ACK_AGAIN)),
        // what waits is given once the peer has ended
        (300_000, Deed::Arrives(SHUTDOWN, Heard::Shutdown), None),
        (300_000, Deed::Is(5), None),
        (300_000, Deed::Reads(8, Ok(b"hello")), None),
        (300_000, Deed::Is(4), None),
        (300_000, Deed::Reads(8, Err(lost)), None),
        (9_000_000, Deed::Ticks, None),
        (9_000_000, Deed::Packs(Packed::Nothing), None),
        (9_000_000, Deed::Closes, None),
        (9_000_000, Deed::Reads(8, Err(Refusal::NotConnected)), None),
    ];
    let here = Peer { isn: 5, ..HERE };
    tell::<Native>(&rt, rt.alloc(), config, here, (0, 0), &arrivals)
}

#[test]
fn a_lost_block_is_reported_and_sent_again(rt: HostRuntime) -> Result<(), Fail> {
    let first = b"\x00\x00\x00\x05\x80\x00\x00\x01\x00\x00\x00\x00\x00\x00\x00\x02abcd";
    let second = b"\x00\x00\x00\x06\x00\x00\x00\x01\x00\x00\x00\x00\x00\x00\x00\x02efgh";
    let third = b"\x00\x00\x00\x07\x40\x00\x00\x01\x00\x00\x00\x00\x00\x00\x00\x02ijkl";
    let nak = b"\x80\x03\x00\x00\x00\x00\x00\x00\x00\x00\x07\xd0\x00\x00\x00\x01\x00\x00\x00\x06";
    let ack =
        b"\x80\x02\x00\x00\x00\x00\x00\x01\x00\x00\x27\x10\x00\x00\x00\x01\x00\x00\x00\x06\x00\x01\x86\xa0\x00\x00\xc3\x50\x00\x00\x00\x07\x00\x00\x00\x00\x00\x00\x00\x00";
    let again = b"\x00\x00\x00\x06\x00\x00\x00\x01\x00\x00\x4e\x20\x00\x00\x00\x02efgh";
    let ack2 = b"\x80\x06\x00\x00\x00\x00\x00\x01\x00\x00\x75\x30\x00\x00\x00\x02";
    // an ACK of the first block alone, which needs no answer
    let light = b"\x80\x02\x00\x00\x00\x00\x00\x00\x00\x00\x27\x10\x00\x00\x00\x01\x00\x00\x00\x06";
    let zero = Perf {
        rtt: 100_000,
        var: 50_000,
        window: 16,
        period: 0,
        sent: 0,
        resent: 0,
        placed: 0,
        double: 0,
        below: 0,
        above: 0,
        control: 0,
        stale: 0,
        foreign: 0,
        malformed: 0,
        acked: 0,
    };
    let sends: [(u64, Deed, Option<&[u8]>); 16] = [
        (0, Deed::Sends(b"abcdefghijkl", Ok(12)), None),
        (0, Deed::Packs(Packed::Block(20)), Some(first)),
        (0, Deed::Packs(Packed::Block(20)), Some(second)),
        (0, Deed::Packs(Packed::Block(20)), Some(third)),
        (0, Deed::IsNext(Some(10_000)), None),
        // the NAK ends slow start: a block leaves each 6,875 microseconds from now on
        (20_000, Deed::Arrives(nak, Heard::Nak), None),
        (20_000, Deed::Packs(Packed::Block(20)), Some(again)),
        (20_000, Deed::Sends(b"m", Ok(1)), None),
        (20_000, Deed::Packs(Packed::NotYet(26_875)), None),
        (20_000, Deed::Ticks, None),
        (20_000, Deed::IsNext(Some(26_875)), None),
        (30_000, Deed::Arrives(ack, Heard::Ack), Some(ack2)),
        (30_000, Deed::Arrives(light, Heard::Ack), None),
        (30_000, Deed::Arrives(nak, Heard::Nak), None),
        (
            30_000,
            Deed::Measures(Perf {
                var: 37_500,
                period: 7_625_162,
                sent: 3,
                resent: 1,
                control: 4,
                acked: 1,
                ..zero
            }),
            None,
        ),
        (30_000, Deed::Is(18), None),
    ];
    let there = Peer { isn: 5, ..THERE };
    tell::<Native>(&rt, rt.alloc(), STREAM, there, (0, 0), &sends)?;

    // the ACK, the NAK and the keep-alive of one tick
    let due: [&[u8]; 3] = [
        b"\x80\x02\x00\x00\x00\x00\x00\x02\x00\x09\x27\xc0\x00\x00\x00\x01\x00\x00\x00\x06\x00\x01\x86\xa0\x00\x00\xc3\x50\x00\x00\x00\x07\x00\x00\x00\x00\x00\x00\x00\x00",
        b"\x80\x03\x00\x00\x00\x00\x00\x00\x00\x09\x27\xc0\x00\x00\x00\x01\x00\x00\x00\x06",
        b"\x80\x01\x00\x00\x00\x00\x00\x00\x00\x09\x27\xc0\x00\x00\x00\x01",
    ];
    let found = b"\x80\x06\x00\x00\x00\x00\x00\x02\x00\x00\x00\x00\x00\x00\x00\x02";
    let arrivals: [(u64, Deed, Option<&[u8]>); 11] = [
        (1_000, Deed::Arrives(first, Heard::Placed), None),
        (2_000, Deed::Arrives(third, Heard::Placed), Some(nak)),
        (2_000, Deed::IsNext(Some(10_000)), None),
        (10_000, Deed::Ticks, Some(ack)),
        (10_000, Deed::IsNext(Some(20_000)), None),
        (600_000, Deed::TicksOften(&due), None),
        (640_000, Deed::Arrives(found, Heard::Ack2), None),
        (640_000, Deed::Arrives(found, Heard::Stale), None),
        (650_000, Deed::Arrives(again, Heard::Placed), None),
        (650_000, Deed::Reads(8, Ok(b"abcdefgh")), None),
        (
            650_000,
            Deed::Measures(Perf {
                rtt: 92_500,
                var: 52_500,
                placed: 3,
                control: 1,
                stale: 1,
                ..zero
            }),
            None,
        ),
    ];
    let here = Peer { isn: 5, ..HERE };
    tell::<Native>(&rt, rt.alloc(), STREAM, here, (0, 0), &arrivals)
}

#[test]
fn the_64th_block_is_acknowledged_at_once(rt: HostRuntime) -> Result<(), Fail> {
    arrive_64_times::<Native>(&rt, rt.alloc())
}

fn arrive_64_times<C: Control + Drop>(rt: &impl Abort, alloc: Global) -> Result<(), Fail> {
    let config = Config {
        rcv_blocks: 128,
        ..STREAM
    };
    // the 64th block to arrive shows a gap: the NAK goes first
    let wanted: [&[u8]; 2] = [
        b"\x80\x03\x00\x00\x00\x00\x00\x00\x00\x00\x00\x64\x00\x00\x00\x01\x00\x00\x00\x44",
        b"\x80\x02\x00\x00\x00\x00\x00\x00\x00\x00\x00\x64\x00\x00\x00\x01\x00\x00\x00\x44",
    ];
    let mut outs = Outs::new(alloc)?;
    let mut there: Socket<C> = Socket::paired(alloc, 2, config, Peer { isn: 5, ..HERE }, 0)?;
    let mut block = *b"\x00\x00\x00\x00\xc0\x00\x00\x01\x00\x00\x00\x00\x00\x00\x00\x02x";
    for number in 5..68u8 {
        block[3] = number;
        assert_eq!(rt;
            there.arrive(100, HERE.addr, &block, &mut outs),
            Heard::Placed
        );
        assert_eq!(rt; outs.len(), 0, "of {number}");
    }
    block[3] = 69;
    assert_eq!(rt;
        there.arrive(100, HERE.addr, &block, &mut outs),
        Heard::Placed
    );
    assert!(rt; are_emitted(&outs, HERE.addr, &wanted));
    block[3] = 68;
    assert_eq!(rt;
        there.arrive(100, HERE.addr, &block, &mut outs),
        Heard::Placed
    );
    assert_eq!(rt; outs.len(), 0);
    Ok(())
}

#[test]
fn values_out_of_range_open_nothing(rt: HostRuntime) {
    let bad = Some(OpenNo::BadParameter);
    // the two payloads, the blocks each way, where the directions begin, and why nothing is opened
    let openings = [
        (1, 1, 2, 2, 576_460_752_303_423_488, None),
        (8_956, 4_294_967_295, 2, 2, 0, None),
        (0, 4, 8, 8, 0, bad),
        (4, 0, 8, 8, 0, bad),
        (8_957, 4, 8, 8, 0, bad),
        (4, 4, 1, 8, 0, bad),
        (4, 4, 65_537, 8, 0, bad),
        (4, 4, 8, 1, 0, bad),
        (4, 4, 8, 65_537, 0, bad),
        (4, 4, 8, 8, 576_460_752_303_423_489, bad),
    ];
    for (payload, peer_payload, snd_blocks, rcv_blocks, start, why) in openings {
        let config = Config {
            kind: Kind::Stream,
            payload,
            snd_blocks,
            rcv_blocks,
        };
        let peer = Peer {
            payload: peer_payload,
            ..THERE
        };
        let refused = refusal::<Native>(rt.alloc(), config, peer, start);
        assert_eq!(rt; refused, why, "{config:?} {peer:?} {start}");
    }
}

// Why a socket isn't opened with these values.
fn refusal<C: Control + Drop>(
    alloc: Global,
    config: Config,
    peer: Peer,
    start: u64,
) -> Option<OpenNo>
    requires stream { config.kind ≡ Stream }
    requires number { peer.isn < 2 ^ 31 }
{
    let opened: Result<Socket<C>, OpenNo> = Socket::paired_at(alloc, 1, config, peer, 0, start);
    opened.err()
}
