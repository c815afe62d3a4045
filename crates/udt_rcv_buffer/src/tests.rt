// The ring beside a plain list, and stories worked by hand.

mod plain;

use super::*;
use plain::Plain;
use std::test::*;

// the next number of a fixed sequence
fn draw(state: &mut u64) -> u64 {
    *state = state
        .wrapping_mul(6_364_136_223_846_793_005)
        .wrapping_add(1_442_695_040_888_963_407);
    *state >> 33
}

#[test]
fn a_ring_has_what_a_plain_list_has(rt: HostRuntime) -> Result<(), Fail> {
    let start = 1 << 59;
    let mut ring = RcvBuffer::new(rt.alloc(), Kind::Message, 6, 3, start)?;
    let mut plain = Plain::new(rt.alloc(), 6, start);
    let mut state = 11;
    for step in 0..800u32 {
        let base = ring.base();
        assert!(rt; base < 1 << 60);
        let room = ring.free(base);
        assert_eq!(rt; room, 6);
        let what = draw(&mut state) % 16;
        let mut into = [0; 12];
        let cap = (draw(&mut state) % 13) as usize;
        if what < 10 {
            let bits = draw(&mut state);
            let offset = (base + bits / 256 % 9).saturating_sub(1);
            assert!(rt; offset < 1 << 61);
            // messages of three blocks, of which some lack a flag or have one more
            let flags = Flags {
                first: offset % 3 == 0 || bits % 5 == 0,
                last: offset % 3 == 2 || bits % 7 == 0,
                order: bits / 4 % 3 == 0,
                message: (offset / 3 % 8) as u32,
            };
            let bytes = [(step % 251) as u8, 1, 2];
            let some = &bytes[..1 + (bits / 64 % 3) as usize];
            let placed = ring.place(offset, flags, some);
            assert_eq!(rt;
                placed,
                plain.place(rt.alloc(), offset, flags, some)?,
                "step {step}"
            );
        } else if what == 10 {
            let count = ring.read(&mut into[..cap]);
            assert_eq!(rt;
                &into[..count.min(12)],
                plain.read(rt.alloc(), cap)?.as_slice()
            );
        } else if what < 15 {
            let got = ring.read_message(&mut into[..cap]);
            let (as_plain, bytes) = plain.read_message(rt.alloc(), cap)?;
            assert_eq!(rt; got, as_plain, "step {step}");
            assert_eq!(rt;
                &into[..bytes.len().min(12)],
                bytes.as_slice(),
                "step {step}"
            );
        } else {
            let first = base + draw(&mut state) % 4;
            let last = (first + draw(&mut state) % 3)
                .saturating_sub(1)
                .min(base + 5);
            ring.skip(first, last);
            plain.skip(rt.alloc(), first, last)?;
        }
        assert_eq!(rt; ring.base(), plain.base(), "step {step}");
        assert_eq!(rt; ring.waiting(), plain.waiting(), "step {step}");
        assert_eq!(rt;
            ring.readable(),
            plain.next_message().is_some(),
            "step {step}"
        );
    }
    Ok(())
}

#[test]
fn messages_are_shown_whole_and_bytes_in_order(rt: HostRuntime) -> Result<(), Fail> {
    // offset; first, last, order, message; the bytes; what the next message is then, in four bytes
    let table: [(u64, (bool, bool, bool, u32), &[u8], Got); 7] = [
        (103, (false, true, false, 1), b"d", Got::Nothing),
        (105, (true, true, true, 2), b"in order", Got::Nothing),
        (102, (true, false, false, 1), b"abc", Got::Whole(4)),
        (101, (true, true, false, 3), b"12345", Got::TooLarge(5)),
        (100, (false, true, false, 9), b"no first", Got::TooLarge(5)),
        (104, (false, false, false, 9), b"xy", Got::TooLarge(5)),
        (106, (true, true, false, 5), b"z", Got::TooLarge(5)),
    ];
    let mut buffer = RcvBuffer::new(rt.alloc(), Kind::Message, 8, 9, 100)?;
    for (offset, (first, last, order, message), bytes, got) in table {
        let base = buffer.base();
        assert!(rt; buffer.free(base) == 8 && bytes.len() <= 9 && !bytes.is_empty());
        let flags = Flags {
            first,
            last,
            order,
            message,
        };
        assert_eq!(rt; buffer.place(offset, flags, bytes), Placed::New, "{offset}");
        assert_eq!(rt;
            buffer.place(offset, flags, bytes),
            Placed::Double,
            "{offset}"
        );
        assert_eq!(rt; buffer.readable(), got != Got::Nothing, "{offset}");
        assert_eq!(rt; buffer.read_message(&mut [0; 4]), got, "{offset}");
    }
    // the two blocks of the first message are consumed, the others wait
    assert_eq!(rt; (buffer.base(), buffer.waiting()), (100, 24));
    let mut into = [0; 7];
    assert_eq!(rt; buffer.read(&mut into), 7);
    assert_eq!(rt; &into[..7], b"no firs".as_slice());
    // an offset that is skipped takes what was left of its block
    let base = buffer.base();
    assert!(rt; base == 100 && buffer.free(base) == 8);
    buffer.skip(99, 100);
    assert_eq!(rt; (buffer.base(), buffer.waiting()), (101, 16));
    Ok(())
}
