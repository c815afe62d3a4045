// Frames worked by hand, and one stream in every cut.

ghost use Rattle.std.specs.Prelude.{◌≤◌, length};

use crate::{BadFrame, FrameReader, header};
use std::alloc::AllocError;
use std::process::Abort;
use std::test::Fail;

// the header of a file of 28 bytes, and the file
const STREAM: [u8; 40] = [
    0x55, 0x44, 0x54, 0x46, 0, 0, 0, 0, 0, 0, 0, 28, 1, 2, 3, 4, 5, 6, 7, 8, 9, 10, 11, 12, 13, 14,
    15, 16, 17, 18, 19, 20, 21, 22, 23, 24, 25, 26, 27, 0x55,
];

// whether the reader takes a piece and finds these bytes of the file in it
fn finds(reader: &mut FrameReader, piece: &[u8], bytes: &[u8]) -> bool {
    match reader.feed(piece) {
        Ok(found) => found == bytes,
        Err(BadFrame) => false,
    }
}

// whether the reader refuses a piece
fn refuses(reader: &mut FrameReader, piece: &[u8]) -> bool {
    reader.feed(piece).is_err()
}

#[test]
fn reads_a_frame_of_two_bytes_in_three_pieces(rt: HostRuntime) {
    let mut reader = FrameReader::new();
    assert_eq!(rt; reader.length(), None);
    assert!(rt; finds(&mut reader, &[0x55, 0x44], &[]));
    let second = [0x54, 0x46, 0, 0, 0, 0, 0, 0, 0, 2, 0x41];
    assert!(rt; finds(&mut reader, &second, &[0x41]));
    assert_eq!(rt; reader.length(), Some(2));
    assert!(rt; !reader.whole());
    assert!(rt; finds(&mut reader, &[0x42], &[0x42]));
    assert!(rt; reader.whole());
    assert!(rt; finds(&mut reader, &[], &[]));
    assert!(rt; refuses(&mut reader, &[0x43]));
    assert!(rt; refuses(&mut reader, &[]));
    assert!(rt; !reader.whole());
    assert_eq!(rt; reader.length(), Some(2));
    let mut other = FrameReader::new();
    assert!(rt; refuses(&mut other, &[0x58]));
    assert!(rt; refuses(&mut other, &STREAM));
    assert_eq!(rt; other.length(), None);
}

#[test]
fn takes_the_least_and_the_greatest_length(rt: HostRuntime) {
    assert_eq!(rt; header(0), [0x55, 0x44, 0x54, 0x46, 0, 0, 0, 0, 0, 0, 0, 0]);
    assert_eq!(rt;
        header(0x0102),
        [0x55, 0x44, 0x54, 0x46, 0, 0, 0, 0, 0, 0, 1, 2]
    );
    let most = [
        0x55, 0x44, 0x54, 0x46, 255, 255, 255, 255, 255, 255, 255, 255,
    ];
    assert_eq!(rt; header(u64::MAX), most);
    let mut empty = FrameReader::new();
    assert!(rt; finds(&mut empty, &header(0), &[]));
    assert!(rt; empty.whole());
    assert!(rt; refuses(&mut empty, &[0]));
    let mut long = FrameReader::new();
    assert!(rt; finds(&mut long, &most, &[]));
    assert_eq!(rt; long.length(), Some(u64::MAX));
    assert!(rt; finds(&mut long, &STREAM, &STREAM));
    assert!(rt; !long.whole());
}

// the file's bytes of a stream that is fed in three pieces, of which some may be empty
fn fed_in_three(
    rt: &impl Abort,
    out: &mut Vec<u8>,
    stream: &[u8],
    i: usize,
    j: usize,
) -> Result<(), AllocError>
    requires order { i ≤ j }
    requires within { j ≤ length stream.now }
{
    let mut reader = FrameReader::new();
    for piece in [&stream[..i], &stream[i..j], &stream[j..]] {
        out.extend_from_slice(reader.feed(piece).expect(rt, "a piece of a frame"))?;
    }
    assert!(rt; reader.whole(), "cut at {i} and {j}");
    Ok(())
}

#[test]
fn reads_a_frame_in_every_cut(rt: HostRuntime) -> Result<(), Fail> {
    for i in 0..=STREAM.len() {
        for j in i..=STREAM.len() {
            let mut out = Vec::new(rt.alloc());
            fed_in_three(&rt, &mut out, &STREAM, i, j)?;
            assert_eq!(rt; out.as_slice(), &STREAM[12..], "cut at {i} and {j}");
        }
    }
    Ok(())
}
