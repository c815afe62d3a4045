// Values worked by hand.

ghost use Rattle.std.specs.Prelude.{◌≡◌, ◌≤◌};
ghost use Rattle.udt_model.specs.declared.limits.TheConstants.{LAST_MOMENT};

use super::*;
use std::test::*;
use udt_packet::NakRanges;
use udt_rate::{Control, Native, Steady};
use udt_timing::Rtt;

const NOTHING: (Packed, u32) = (Packed::Nothing, u32::MAX);

fn config(payload: u32, snd_blocks: u32) -> Config
    ensures payload { result.payload ≡ payload }
    ensures snd_blocks { result.snd_blocks ≡ snd_blocks }
{
    Config {
        kind: Kind::Stream,
        payload,
        snd_blocks,
        rcv_blocks: 2,
    }
}

// What packing at this moment answers, and the first word of the packet that left, or all ones.
fn packed<C: Control>(sender: &mut Sender<C>, now: u64) -> (Packed, u32)
    requires room { sender.old.blocks.room ≤ 8 }
    requires moment { now ≤ LAST_MOMENT }
    ensures { sender.new.blocks ≡ sender.old.blocks }
{
    let mut into = [255; 24];
    let answer = sender.pack(now, 9, 7, &mut into);
    (
        answer,
        u32::from_be_bytes([into[0], into[1], into[2], into[3]]),
    )
}

// Whether full blocks of four bytes with these sequence numbers leave one after the other, and
// then nothing.
fn leave<C: Control>(sender: &mut Sender<C>, numbers: &[u32]) -> bool
    requires room { sender.old.blocks.room ≤ 8 }
    ensures { sender.new.blocks ≡ sender.old.blocks }
{
    for number in numbers {
        if packed(sender, 0) != (Packed::Block(20), *number) {
            return false;
        }
    }
    packed(sender, 0) == NOTHING
}

#[test]
fn bytes_are_cut_and_written(rt: HostRuntime) -> Result<(), Fail> {
    let mut sender: Sender<Steady> = Sender::new(rt.alloc(), &config(4, 8), 0)?;
    sender.link(0x7fff_ffff, 3, 8);
    assert_eq!(rt; sender.send(0, b""), Ok(0));
    assert_eq!(rt; sender.send(0, b"hello"), Ok(5));
    assert_eq!(rt; sender.send(1, b"you"), Ok(3));
    assert_eq!(rt; (sender.acked(), sender.next(), sender.free()), (0, 0, 5));
    let mut into = [b'.'; 24];
    assert_eq!(rt;
        sender.pack(2, 0x0102_0304, 7, &mut into),
        Packed::Block(19)
    );
    assert_eq!(rt;
        into,
        *b"\x7f\xff\xff\xff\x80\x00\x00\x01\x01\x02\x03\x04\x00\x00\x00\x07hel....."
    );
    assert_eq!(rt;
        sender.pack(2, 0x0102_0304, 7, &mut into),
        Packed::Block(18)
    );
    assert_eq!(rt;
        into,
        *b"\x00\x00\x00\x00\x40\x00\x00\x01\x01\x02\x03\x04\x00\x00\x00\x07lol....."
    );
    assert_eq!(rt;
        sender.pack(2, 0x0102_0304, 7, &mut into),
        Packed::Block(19)
    );
    assert_eq!(rt;
        into,
        *b"\x00\x00\x00\x01\xc0\x00\x00\x02\x01\x02\x03\x04\x00\x00\x00\x07you....."
    );
    Ok(())
}

#[test]
fn lost_blocks_go_first(rt: HostRuntime) -> Result<(), Fail> {
    let mut rtt = Rtt::new();
    let mut sender: Sender<Steady> = Sender::new(rt.alloc(), &config(4, 8), 0)?;
    sender.link(0x7fff_fffe, 4, 4);
    assert_eq!(rt; sender.send(0, &[1; 24]), Ok(24));
    assert!(rt; leave(&mut sender, &[0x7fff_fffe, 0x7fff_ffff, 0, 1]));
    assert_eq!(rt; sender.pack_moment(), None);
    let light = AckBody::Light { ack: 0x7fff_ffff };
    assert!(rt; sender.on_ack(&light, &mut rtt));
    assert_eq!(rt; (sender.acked(), sender.next(), sender.free()), (1, 4, 3));
    // From an acknowledged block to the third one, and then the one that was never sent.
    let field = b"\xff\xff\xff\xfe\x00\x00\x00\x00\x00\x00\x00\x02";
    let ranges = NakRanges::over(field).expect(&rt, "three words");
    assert!(rt; sender.on_nak(ranges, &rtt));
    assert_eq!(rt; sender.pack_moment(), Some(0));
    assert!(rt; leave(&mut sender, &[0x7fff_ffff, 0]));
    let ranges = NakRanges::over(b"\x00\x00\x00\x02").expect(&rt, "one word");
    assert!(rt; !sender.on_nak(ranges, &rtt));
    assert!(rt; leave(&mut sender, &[]));
    Ok(())
}

#[test]
fn acks_release_blocks_and_open_windows(rt: HostRuntime) -> Result<(), Fail> {
    let mut rtt = Rtt::new();
    let mut sender: Sender<Steady> = Sender::new(rt.alloc(), &config(4, 8), 0)?;
    sender.link(14, 4, 6);
    assert_eq!(rt; sender.send(0, &[1; 32]), Ok(32));
    assert!(rt; leave(&mut sender, &[14, 15, 16, 17, 18, 19]));
    assert!(rt; sender.on_timeout(&rtt));
    let buffer = AckBody::Buffer {
        ack: 17,
        rtt: 20_000,
        var: 1,
        buffer: 1,
    };
    assert!(rt; sender.on_ack(&buffer, &mut rtt));
    assert_eq!(rt; (rtt.rtt, rtt.var), (90_000, 57_500));
    assert!(rt; leave(&mut sender, &[17, 18, 19]));
    // Below the acknowledged ones, and above all that was sent.
    for ack in [16, 21] {
        assert!(rt; !sender.on_ack(&AckBody::Light { ack }, &mut rtt));
    }
    assert!(rt; sender.on_ack(&AckBody::Light { ack: 19 }, &mut rtt));
    assert!(rt; leave(&mut sender, &[20]));
    assert!(rt; sender.on_ack(&AckBody::Light { ack: 21 }, &mut rtt));
    assert!(rt; !sender.on_timeout(&rtt));
    assert_eq!(rt; sender.send(0, &[2; 100]), Ok(28));
    assert_eq!(rt; sender.send(0, &[2; 100]), Err(SendNo::Again));
    assert_eq!(rt; (sender.acked(), sender.next(), sender.free()), (7, 7, 0));
    Ok(())
}

#[test]
fn a_period_holds_packets_back(rt: HostRuntime) -> Result<(), Fail> {
    let mut rtt = Rtt::new();
    let mut sender: Sender<Native> = Sender::new(rt.alloc(), &config(4, 64), 0)?;
    assert_eq!(rt; (sender.window(), sender.period()), (16, 0));
    sender.link(30, 4, 40);
    assert_eq!(rt; sender.send(0, &[1; 40]), Ok(40));
    assert_eq!(rt; packed(&mut sender, 0), (Packed::Block(20), 30));
    // The end of slow start: a round trip and a SYN are 110,000 microseconds for 16 packets.
    assert!(rt; sender.on_timeout(&rtt));
    assert_eq!(rt; (sender.window(), sender.period()), (16, 6_875_000));
    let table = [
        (0, (Packed::Block(20), 30)),
        (6874, (Packed::NotYet(6875), u32::MAX)),
        (6875, (Packed::Block(20), 31)),
        (13_750, (Packed::Block(20), 32)),
        // It makes a packet pair with the one before.
        (13_750, (Packed::Block(20), 33)),
        (13_750, (Packed::NotYet(20_625), u32::MAX)),
    ];
    for (now, answer) in table {
        assert_eq!(rt; packed(&mut sender, now), answer, "at {now}");
    }
    assert_eq!(rt; sender.pack_moment(), Some(20_625));
    // The receiving rate is 800, and then 900 by the average, and the window follows from it.
    for (ack, rate, window, period) in [(32, 800, 104, 6_777_921), (33, 1600, 115, 6_683_546)] {
        let full = AckBody::Full {
            ack,
            rtt: 100_000,
            var: 1,
            buffer: 40,
            rate,
            capacity: 0,
        };
        assert!(rt; sender.on_ack(&full, &mut rtt));
        assert_eq!(rt; (sender.window(), sender.period()), (window, period));
    }
    Ok(())
}

#[test]
fn no_block_is_taken_past_the_limit(rt: HostRuntime) -> Result<(), Fail> {
    let mut sender: Sender<Steady> = Sender::new(rt.alloc(), &config(4, 8), 1 << 60)?;
    assert_eq!(rt; sender.send(0, b"x"), Err(SendNo::Spent));
    Ok(())
}

#[test]
fn messages_are_taken_whole_and_dropped_once_expired(rt: HostRuntime) -> Result<(), Fail> {
    let rtt = Rtt::new();
    let mut sender: Sender<Steady> = Sender::new(rt.alloc(), &config(4, 4), 0)?;
    sender.link(0x7fff_ffff, 4, 8);
    // There is room for four blocks. The third message has two of them, and the fourth would have three.
    let calls: [(&[u8], Option<u64>, Result<usize, SendNo>); 5] = [
        (&[0; 17], None, Err(SendNo::TooLarge)),
        (b"", Some(0), Ok(0)),
        (b"hello", Some(50), Ok(5)),
        (&[0; 9], None, Err(SendNo::Again)),
        (b"you", None, Ok(3)),
    ];
    for (bytes, ttl, answer) in calls {
        assert_eq!(rt; sender.send_message(10, ttl, true, bytes), answer);
    }
    let mut into = [b'.'; 24];
    assert_eq!(rt; sender.pack(10, 9, 7, &mut into), Packed::Block(20));
    assert_eq!(rt;
        into,
        *b"\x7f\xff\xff\xff\xa0\x00\x00\x01\x00\x00\x00\x09\x00\x00\x00\x07hell...."
    );
    // It lives up to the moment 60. Its second block was never sent, and never is.
    assert!(rt; sender.on_timeout(&rtt));
    assert_eq!(rt; packed(&mut sender, 60), (Packed::Block(20), 0x7fff_ffff));
    assert!(rt; sender.on_timeout(&rtt));
    assert_eq!(rt; sender.pack_moment(), Some(60));
    assert_eq!(rt; sender.pack(61, 9, 7, &mut into), Packed::DropAsk(24));
    assert_eq!(rt;
        into,
        *b"\x80\x07\x00\x00\x00\x00\x00\x01\x00\x00\x00\x09\x00\x00\x00\x07\x7f\xff\xff\xff\x00\x00\x00\x00"
    );
    assert_eq!(rt; packed(&mut sender, 61), (Packed::Block(19), 1));
    assert_eq!(rt; packed(&mut sender, 61), NOTHING);
    assert_eq!(rt; (sender.acked(), sender.next(), sender.free()), (0, 3, 1));
    Ok(())
}
