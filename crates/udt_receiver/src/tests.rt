// Stories worked by hand from the protocol's rules.
ghost use Rattle.std.specs.Prelude.{◌≡◌, ◌≤◌, IfOk};
ghost use Rattle.udt_receiver.specs.Kept.{KeepsTerms};

use super::*;
use std::alloc::Global;
use std::test::*;
use udt_model::Kind;

const FLAGS: Flags = Flags {
    first: true,
    last: true,
    order: true,
    message: 1,
};

// room for this many blocks of four bytes, with a connection from moment 0 on
fn half_of(alloc: Global, blocks: u32, isn: u32) -> Result<Receiver, OutOfMemory>
    ensures { IfOk result (λ half. half.payload ≡ 4) }
{
    let config = Config {
        kind: Kind::Stream,
        payload: 4,
        snd_blocks: 2,
        rcv_blocks: blocks,
    };
    let mut half = Receiver::new(alloc, &config, 0)?;
    half.link(0, isn, 4, &Rtt::new());
    Ok(half)
}

// a data packet with four bytes arrives
fn arrive(half: &mut Receiver, now: u64, seq: u32) -> Arrived
    requires { half.old.payload ≡ 4 }
    ensures { half.new.payload ≡ 4 }
{
    half.on_block(now, seq, FLAGS, b"data")
}

// what is answered of a block
fn answer(placed: Placed, gap: Option<(u64, u64)>) -> Arrived {
    Arrived {
        placed,
        gap,
        light: false,
    }
}

#[test]
fn blocks_are_placed_by_their_numbers_and_gaps_are_told_at_once(
    rt: HostRuntime,
) -> Result<(), Fail> {
    // the numbers of the offsets from 0 on are 2147483646, 2147483647, 0, 1, 2 ..
    let mut half = half_of(rt.alloc(), 8, 2_147_483_646)?;
    let rows = [
        (2_147_483_646, Placed::New, None, 1),
        (2_147_483_646, Placed::Double, None, 1),
        (1, Placed::New, Some((1, 2)), 1),
        (4, Placed::New, Some((4, 5)), 1),
        (2_147_483_647, Placed::New, None, 2),
        (1, Placed::Double, None, 2),
        (0, Placed::New, None, 4),
        // offset 8 has no room, and there is no such number as 2^31
        (6, Placed::Above, None, 4),
        (2_147_483_648, Placed::Above, None, 4),
        (5, Placed::New, None, 4),
        (3, Placed::New, None, 4),
        (2, Placed::New, None, 8),
    ];
    for (seq, placed, gap, ack) in rows {
        assert_eq!(rt;
            arrive(&mut half, 0, seq),
            answer(placed, gap),
            "block {seq}"
        );
        assert_eq!(rt; half.ack_offset(), ack, "after block {seq}");
    }
    Ok(())
}

#[test]
fn bytes_are_received_up_to_the_first_gap(rt: HostRuntime) -> Result<(), Fail> {
    let mut half = half_of(rt.alloc(), 2, 7)?;
    for (seq, waiting) in [(8, 0), (7, 8), (9, 8)] {
        arrive(&mut half, 0, seq);
        assert_eq!(rt; half.waiting(), waiting, "after block {seq}");
    }
    // a part of a block, and the rest of it with a part of the next
    for (bytes, base, waiting) in [(*b"dat", 0, 5), (*b"ada", 1, 2)] {
        let mut into = [0; 3];
        half.recv(&mut into);
        assert_eq!(rt; (into, half.base(), half.waiting()), (bytes, base, waiting));
    }
    // there is room for a block again, and none comes twice
    for (seq, placed) in [(9, Placed::New), (7, Placed::Below)] {
        assert_eq!(rt;
            arrive(&mut half, 0, seq),
            answer(placed, None),
            "block {seq}"
        );
    }
    Ok(())
}

#[test]
fn drop_requests_take_offsets_that_have_room(rt: HostRuntime) -> Result<(), Fail> {
    let mut half = half_of(rt.alloc(), 4, 10)?;
    arrive(&mut half, 0, 10);
    arrive(&mut half, 0, 12);
    // a message is read, the other one waits for offset 1, and there is room for the offsets 1 to 4
    assert_eq!(rt; half.recv_message(&mut [0; 4]), Got::Whole(4));
    let rows = [
        // below the base, up to an offset that has no room, and from the last to the first
        (10, 10, Dropped::Stale, false, 1),
        (14, 15, Dropped::Stale, false, 1),
        (12, 11, Dropped::Stale, false, 1),
        // offset 4 shows that 3 is missing
        (14, 14, Dropped::Taken { gap: Some((3, 3)) }, false, 1),
        // offset 1 needn't come, so the message behind it can be read
        (11, 11, Dropped::Taken { gap: None }, true, 3),
        (11, 11, Dropped::Stale, true, 3),
    ];
    for (first, last, dropped, readable, ack) in rows {
        assert_eq!(rt; half.on_drop(0, first, last), dropped, "{first} to {last}");
        assert_eq!(rt;
            (half.readable(), half.ack_offset()),
            (readable, ack),
            "after {first} to {last}"
        );
    }
    assert_eq!(rt; read(&mut half, 8), (Got::Whole(4), *b"data\0\0\0\0"));
    assert_eq!(rt; half.base(), 3);
    Ok(())
}

// the message that is read into so much room, with its bytes
fn read(half: &mut Receiver, room: usize) -> (Got, [u8; 8])
    requires { room ≤ 8 }
    ensures { KeepsTerms half.old half.new }
{
    let mut into = [0; 8];
    let got = half.recv_message(&mut into[..room]);
    (got, into)
}

#[test]
fn messages_are_received_whole(rt: HostRuntime) -> Result<(), Fail> {
    let mut half = half_of(rt.alloc(), 4, 0)?;
    let rows = [
        // the second block of the first message has not arrived yet
        (0, true, false, *b"data", 8, Got::Nothing, [0; 8]),
        // a message that has no room stays
        (1, false, true, *b"ends", 7, Got::TooLarge(8), [0; 8]),
        (2, true, true, *b"more", 8, Got::Whole(8), *b"dataends"),
        // nothing new arrives
        (2, true, true, *b"more", 4, Got::Whole(4), *b"more\0\0\0\0"),
        (2, true, true, *b"more", 8, Got::Nothing, [0; 8]),
    ];
    for (seq, first, last, bytes, room, got, into) in rows {
        let flags = Flags {
            first,
            last,
            order: true,
            message: 1,
        };
        half.on_block(0, seq, flags, &bytes);
        assert_eq!(rt; read(&mut half, room), (got, into), "after block {seq}");
    }
    Ok(())
}

#[test]
fn each_64th_block_asks_for_a_light_ack(rt: HostRuntime) -> Result<(), Fail> {
    let mut half = half_of(rt.alloc(), 256, 100)?;
    for seq in 100..163u32 {
        assert!(rt; !arrive(&mut half, 0, seq).light, "block {seq}");
    }
    assert!(rt; arrive(&mut half, 0, 163).light);
    assert_eq!(rt; half.light_ack(), AckBody::Light { ack: 164 });
    // it counts from 0 again, and after a full ACK as well
    for seq in 164..227u32 {
        assert!(rt; !arrive(&mut half, 0, seq).light, "block {seq}");
    }
    assert!(rt; half.tick_ack(10_000, &Rtt::new()).is_some());
    assert!(rt; !arrive(&mut half, 0, 227).light);
    Ok(())
}

// a full ACK while no rates are known
fn full(ack: u32, rtt: u32, var: u32, buffer: u32) -> AckBody {
    AckBody::Full {
        ack,
        rtt,
        var,
        buffer,
        rate: 0,
        capacity: 0,
    }
}

#[test]
fn acks_are_emitted_until_one_is_confirmed(rt: HostRuntime) -> Result<(), Fail> {
    let mut half = half_of(rt.alloc(), 8, 5)?;
    let mut known = Rtt::new();
    // nothing has arrived
    assert_eq!(rt; half.tick_ack(10_000, &known), None);
    arrive(&mut half, 11_000, 5);
    arrive(&mut half, 12_000, 8);
    // the ACK of the offset 1 with seven free places comes again after two round trips, and not before
    let rows = [
        (19_999, None),
        (20_000, Some((1, full(6, 100_000, 50_000, 7)))),
        (219_999, None),
        (229_999, Some((2, full(6, 100_000, 50_000, 7)))),
    ];
    for (now, ack) in rows {
        assert_eq!(rt; half.tick_ack(now, &known), ack, "at {now}");
    }
    // the sample is 10,001
    let rows = [
        (3, false, 100_000, 50_000),
        (2, true, 88_750, 59_999),
        (2, false, 88_750, 59_999),
    ];
    for (number, found, time, variance) in rows {
        assert_eq!(rt; half.on_ack2(240_000, number, &mut known), found);
        assert_eq!(rt; (known.rtt, known.var), (time, variance));
    }
    // what is confirmed is not acknowledged again
    assert_eq!(rt; half.tick_ack(900_000, &known), None);
    // the gap is filled, and two of the four blocks are received
    arrive(&mut half, 900_000, 6);
    arrive(&mut half, 900_000, 7);
    assert_eq!(rt; half.recv(&mut [0; 8]), 8);
    let third = Some((3, full(9, 88_750, 59_999, 6)));
    assert_eq!(rt; half.tick_ack(910_000, &known), third);
    // an older one comes late: the offset stays, and 980,000 is the sample
    assert!(rt; half.on_ack2(1_000_000, 1, &mut known));
    assert_eq!(rt; (known.rtt, known.var), (200_156, 267_811));
    Ok(())
}

// what the timer reports at a moment with this round-trip time, where it is one range or none
fn reported(half: &mut Receiver, now: u64, rtt: u64, into: &mut Ranges) -> Option<(u64, u64)>
    requires moment { now ≤ 1000000 }
    requires rtt { rtt ≤ 1000000 }
    requires payload { half.old.payload ≡ 4 }
    requires words { into.old.words ≡ 2 }
    ensures payload { half.new.payload ≡ 4 }
    ensures words { into.new.words ≡ 2 }
{
    half.tick_nak(now, &Rtt { rtt, var: 0 }, into);
    if into.len() == 1 {
        Some(into.get(0))
    } else {
        None
    }
}

#[test]
fn losses_are_reported_again_ever_later(rt: HostRuntime) -> Result<(), Fail> {
    let mut half = half_of(rt.alloc(), 8, 0)?;
    let mut into = Ranges::new(rt.alloc(), 2)?;
    arrive(&mut half, 0, 0);
    assert_eq!(rt;
        arrive(&mut half, 455_000, 3),
        answer(Placed::New, Some((1, 2)))
    );
    assert_eq!(rt; half.nak_due(), 460_000);
    // a moment, a round trip, and what is reported; the timer is due again after four round trips and 10,000
    let rows = [
        (459_999, 0, None),
        // two round trips are more than 5,000
        (460_000, 2_501, None),
        (480_003, 2_500, None),
        (480_004, 5_000, Some((1, 2))),
        // the report before is ignored until the timer is due
        (510_003, 1, None),
        // three round trips are more than 30,000
        (510_004, 10_003, None),
        (560_016, 26_670, Some((1, 2))),
    ];
    for (now, rtt, ranges) in rows {
        assert_eq!(rt;
            reported(&mut half, now, rtt, &mut into),
            ranges,
            "at {now}"
        );
    }
    Ok(())
}

#[test]
fn packet_pairs_measure_the_link(rt: HostRuntime) -> Result<(), Fail> {
    let mut half = half_of(rt.alloc(), 512, 0)?;
    // a block each 1,000 microseconds, and the second of a pair after 100
    for seq in 0..258u32 {
        let now = if seq % 16 == 1 {
            1_000 * u64::from(seq) - 900
        } else {
            1_000 * u64::from(seq)
        };
        arrive(&mut half, now, seq);
        // the sixteenth pair ends with block 241
        if seq == 240 {
            assert_eq!(rt; rates(&mut half, 500_000), Some((943, 0)));
        }
    }
    // fifteen intervals of the last sixteen are near the median and take 15,900
    assert_eq!(rt; rates(&mut half, 600_000), Some((943, 10_000)));
    Ok(())
}

// the rate and the capacity that an ACK tells
fn rates(half: &mut Receiver, now: u64) -> Option<(u32, u32)>
    requires { now ≤ 1000000 }
    ensures { KeepsTerms half.old half.new }
{
    match half.tick_ack(now, &Rtt::new()) {
        Some((_, AckBody::Full { rate, capacity, .. })) => Some((rate, capacity)),
        _ => None,
    }
}
