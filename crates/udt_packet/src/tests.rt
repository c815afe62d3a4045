use super::*;
use std::alloc::{AllocError, Global};
use std::process::Abort;
use std::test::*;

// Each isn, offset and sequence number.
const SEQUENCE_NUMBERS: [(u32, u64, u32); 4] = [
    (5, 0, 5),
    (2_147_483_647, 1, 0),
    (5, 2_147_483_658, 15),
    (4_294_967_295, 18_446_744_073_709_551_615, 2_147_483_646),
];

// Each isn, base and sequence number, and the offset near the base.
const NEAR: [(u32, u64, u32, Option<u64>); 14] = [
    (5, 0, 5, Some(0)),
    (5, 0, 4, None),
    (5, 0, 1_073_741_828, Some(1_073_741_823)),
    (5, 0, 1_073_741_829, None),
    (5, 0, 2_147_483_648, None),
    (5, 2_147_483_658, 15, Some(2_147_483_658)),
    (5, 2_147_483_658, 14, Some(2_147_483_657)),
    (5, 2_147_483_658, 4, Some(2_147_483_647)),
    (5, 2_147_483_658, 1_073_741_840, Some(1_073_741_835)),
    (5, 2_147_483_658, 1_073_741_839, None),
    (2_147_483_647, 2_147_483_647, 4, Some(2_147_483_653)),
    (4_294_967_295, 1, 0, Some(1)),
    (4_294_967_295, 1, 2_147_483_647, Some(0)),
    (
        0,
        9_223_372_036_854_775_807,
        0,
        Some(9_223_372_036_854_775_808),
    ),
];

#[test]
fn sequence_numbers_name_the_offsets_near_the_base(rt: HostRuntime) {
    for (isn, offset, number) in SEQUENCE_NUMBERS {
        assert_eq!(rt; seq_of(isn, offset), number, "at {offset}");
    }
    for (isn, base, number, offset) in NEAR {
        assert!(rt; base < 9_223_372_036_854_775_808);
        assert_eq!(rt; near(isn, base, number), offset, "{number} near {base}");
    }
}

// Packets, each as it is written: blocks; a handshake that asks, and one that answers; a
// keep-alive; a light ACK, one with the buffer, and a full one; lost numbers; a
// shutdown; a ACK2; and a request to drop a message.
const WRITTEN: [&[u8]; 14] = [
    b"00000005 80000001 000003e8 00000002 68656c6c",
    b"00000006 40000001 000003e8 00000002 6f",
    b"00000008 e0000002 0000ea60 00000002 6d32",
    b"80000000 00000000 00000000 00000000 00000004 00000001 00000005 00000030 00000004 00000001 00000002 00000000 0a000009 00000000 00000000 00000000",
    b"80000000 00000000 00000bb8 00000002 00000004 00000001 00000005 00000030 00000004 ffffffff 00000003 00000000 0a000008 00000000 00000000 00000000",
    b"80010000 00000000 00000000 00000002",
    b"80020000 00000000 00000040 00000001 00000040",
    b"80020000 00000003 00000000 00000001 00000007 000186a0 0000c350 00000002",
    b"80020000 00000001 00002710 00000001 00000007 000186a0 0000c350 00000002 00000000 00000000",
    b"80030000 00000000 00000000 00000001 00000002 80000006 0000000b 0000000e",
    b"80030000 00000000 00000000 00000001 ffffffff 00000000 80000000 3fffffff",
    b"80050000 00000000 000003e8 00000002",
    b"80060000 00000001 00004e20 00000002",
    b"80070000 00000001 0000ea60 00000002 00000005 00000007",
];

// Other spellings, and what is written of the same packets: reserved bits and words without a
// meaning, bytes after, ACKs of 15, 23 and 25 bytes, first bits of packet numbers, a
// long message number, a range with equal ends, ranges in another order.
const LENIENT: [(&[u8], &[u8]); 11] = [
    (
        b"80010000 00000000 00000000 00000002 00",
        b"80010000 00000000 00000000 00000002",
    ),
    (
        b"8001ffff 00000009 00000000 00000002",
        b"80010000 00000000 00000000 00000002",
    ),
    (
        b"8005abcd 00000009 000003e8 00000002 0102",
        b"80050000 00000000 000003e8 00000002",
    ),
    (
        b"80060001 00000001 00004e20 00000002 ff",
        b"80060000 00000001 00004e20 00000002",
    ),
    (
        b"80000001 00000009 00000000 00000000 00000004 00000001 80000005 00000030 00000004 00000001 00000002 00000000 0a000009 00000000 00000000 00000000 07",
        b"80000000 00000000 00000000 00000000 00000004 00000001 00000005 00000030 00000004 00000001 00000002 00000000 0a000009 00000000 00000000 00000000",
    ),
    (
        b"80020000 00000001 00002710 00000001 80000007 000186a0 0000c350 000000",
        b"80020000 00000001 00002710 00000001 00000007",
    ),
    (
        b"80020000 00000001 00002710 00000001 80000007 000186a0 0000c350 00000002 00000000 000000",
        b"80020000 00000001 00002710 00000001 00000007 000186a0 0000c350 00000002",
    ),
    (
        b"80020000 00000001 00002710 00000001 80000007 000186a0 0000c350 00000002 00000000 00000000 00",
        b"80020000 00000001 00002710 00000001 00000007 000186a0 0000c350 00000002 00000000 00000000",
    ),
    (
        b"80070000 20000001 0000ea60 00000002 80000005 80000007 00",
        b"80070000 00000001 0000ea60 00000002 00000005 00000007",
    ),
    (
        b"80030000 00000009 00000000 00000001 80000006 00000006",
        b"80030000 00000000 00000000 00000001 00000006",
    ),
    (
        b"80030000 00000000 00000000 00000001 0000000e 80000006 0000000b 0000000e",
        b"80030000 00000000 00000000 00000001 0000000e 80000006 0000000b 0000000e",
    ),
];

// Bytes that are no packet, and why.
const REFUSED: [(&[u8], Malformed); 15] = [
    (b"", Malformed::TooShort),
    (b"80010000 00000000 00000000 000000", Malformed::TooShort),
    (
        b"80040000 00000000 00000000 00000002",
        Malformed::UnknownType,
    ),
    (
        b"80080000 00000000 00000000 00000002",
        Malformed::UnknownType,
    ),
    (
        b"ffff0000 00000000 00000000 00000002",
        Malformed::UnknownType,
    ),
    (
        b"80000000 00000000 00000000 00000000 00000004 00000001 00000005 00000030 00000004 00000001 00000002 00000000 0a000009 00000000 00000000 000000",
        Malformed::BadHandshakeLength,
    ),
    (
        b"80030000 00000000 00000000 00000001",
        Malformed::BadNakRange,
    ),
    (
        b"80030000 00000000 00000000 00000001 00000002 00",
        Malformed::BadNakRange,
    ),
    (
        b"80030000 00000000 00000000 00000001 00000002 80000006",
        Malformed::BadNakRange,
    ),
    (
        b"80030000 00000000 00000000 00000001 80000006 8000000b",
        Malformed::BadNakRange,
    ),
    (
        b"80030000 00000000 00000000 00000001 80000000 40000000",
        Malformed::BadNakRange,
    ),
    (
        b"80030000 00000000 00000000 00000001 80000006 00000005",
        Malformed::BadNakRange,
    ),
    (
        b"80070000 00000001 00000000 00000002 00000005 000000",
        Malformed::BadDropLength,
    ),
    (
        b"80020000 00000001 00000000 00000001 000000",
        Malformed::BadAckLength,
    ),
    (
        b"80020000 00000001 00000000 00000001",
        Malformed::BadAckLength,
    ),
];

// The bytes of hexadecimal digits, in pairs.
fn bytes_of(alloc: Global, text: &[u8]) -> Result<Vec<u8>, AllocError> {
    let mut bytes = Vec::new(alloc);
    let mut high: Option<u8> = None;
    for c in text {
        let digit = match *c {
            b'0'..=b'9' => *c - b'0',
            b'a'..=b'f' => *c - b'a' + 10,
            _ => continue,
        };
        match high {
            None => high = Some(digit << 4),
            Some(half) => {
                bytes.push(half | digit)?;
                high = None;
            }
        }
    }
    Ok(bytes)
}

// The bytes are read, and the packet is written at the front of other bytes. A block is also read and
// written as one.
fn is_written_as(rt: &impl Abort, bytes: &[u8], spelling: &[u8]) -> Result<(), Fail> {
    assert_eq!(rt; target(bytes), target(spelling));
    let packet = read(bytes).ok().ok_or("no packet")?;
    assert_eq!(rt; size(&packet), spelling.len());
    let mut into = [0xaa; 96];
    assert!(rt; size(&packet) < into.len());
    let end = write(&packet, &mut into);
    assert_eq!(rt; &into[..end], spelling);
    assert_eq!(rt; into[end], 0xaa);
    if let Some(block) = read_block(bytes) {
        let mut again = [0xaa; 96];
        assert!(rt; block.seq < 1 << 31 && block.flags.message < 1 << 29);
        assert!(rt; 16 + block.bytes.len() <= again.len());
        let BlockPacket {
            seq,
            flags,
            stamp,
            dest,
            bytes,
        } = block;
        let end = write_block(seq, flags, stamp, dest, bytes, &mut again);
        assert_eq!(rt; &again[..end], spelling);
    }
    Ok(())
}

#[test]
fn packets_are_read_and_written(rt: HostRuntime) -> Result<(), Fail> {
    for text in WRITTEN {
        let bytes = bytes_of(rt.alloc(), text)?;
        is_written_as(&rt, &bytes, &bytes)?;
    }
    for (text, written) in LENIENT {
        let bytes = bytes_of(rt.alloc(), text)?;
        let spelling = bytes_of(rt.alloc(), written)?;
        is_written_as(&rt, &bytes, &spelling)?;
    }
    for (text, why) in REFUSED {
        let bytes = bytes_of(rt.alloc(), text)?;
        assert_eq!(rt; read(&bytes).err(), Some(why));
    }
    Ok(())
}

#[test]
fn lost_numbers_are_taken_in_their_order(rt: HostRuntime) -> Result<(), Fail> {
    let mut field = [0; 16];
    let place = put_range(2, 2, &mut field, 0);
    let place = put_range(6, 11, &mut field, place);
    let place = put_range(14, 14, &mut field, place);
    assert_eq!(rt; place, 16);
    let mut ranges = NakRanges::over(&field).ok_or("no ranges")?;
    assert_eq!(rt; ranges.next(), Some((2, 2)));
    assert_eq!(rt; ranges.next(), Some((6, 11)));
    assert_eq!(rt; ranges.next(), Some((14, 14)));
    assert_eq!(rt; ranges.next(), None);
    assert!(rt; NakRanges::over(&field[..8]).is_none());
    Ok(())
}

#[test]
fn a_nak_is_written_range_by_range(rt: HostRuntime) -> Result<(), Fail> {
    let mut into = [b'.'; 30];
    let place = put_nak_header(9, 7, &mut into);
    let place = put_range(5, 5, &mut into, place);
    let end = put_range(0x7fff_ffff, 1, &mut into, place);
    assert_eq!(rt; end, 28);
    assert_eq!(rt;
        into,
        *b"\x80\x03\x00\x00\x00\x00\x00\x00\x00\x00\x00\x09\x00\x00\x00\x07\x00\x00\x00\x05\xff\xff\xff\xff\x00\x00\x00\x01.."
    );
    Ok(())
}
