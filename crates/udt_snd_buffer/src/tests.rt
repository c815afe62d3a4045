// The ring beside a plain list, and a table worked by hand.

mod plain;

use super::*;
use plain::Plain;
use std::collections::VecDeque;
use std::test::*;

// the next number of a fixed sequence
fn draw(state: &mut u64) -> u64 {
    *state = state
        .wrapping_mul(6_364_136_223_846_793_005)
        .wrapping_add(1_442_695_040_888_963_407);
    *state >> 33
}

#[test]
fn a_ring_keeps_what_a_plain_list_keeps(rt: HostRuntime) -> Result<(), Fail> {
    let start = 1 << 59;
    let mut ring = SndBuffer::new(rt.alloc(), 5, 4, start)?;
    let mut plain = Plain {
        blocks: 5,
        payload: 4,
        first: start,
        kept: VecDeque::new(rt.alloc()),
    };
    let bytes = [
        0, 1, 2, 3, 4, 5, 6, 7, 8, 9, 10, 11, 12, 13, 14, 15, 16, 17, 18, 19, 20, 21, 22, 23,
    ];
    let mut state = 7;
    for step in 0..400u32 {
        let (first, kept) = ring.kept();
        assert!(rt; first < 1 << 60 && kept <= 5);
        if draw(&mut state) % 3 == 0 {
            let offset = first + draw(&mut state) % (kept + 1);
            ring.release_to(offset);
            plain.release_to(offset);
        } else {
            let from = (draw(&mut state) % 25) as usize;
            let most = draw(&mut state) % 7;
            let order = most == 3;
            let expires = order.then_some(first);
            let taken = ring.accept(&bytes[from..], most, step, order, expires);
            let as_plain = plain.accept(rt.alloc(), &bytes[from..], most, step, order, expires)?;
            assert_eq!(rt; taken, as_plain, "step {step}");
        }
        assert_eq!(rt; ring.free(), plain.free(), "step {step}");
        for offset in first.saturating_sub(1)..first.saturating_add(11) {
            assert_eq!(rt;
                ring.block(offset),
                plain.block(offset),
                "step {step}, offset {offset}"
            );
            assert_eq!(rt;
                ring.message_of(offset),
                plain.message_of(offset),
                "step {step}"
            );
        }
    }
    Ok(())
}

#[test]
fn a_message_is_cut_and_its_ends_are_remembered(rt: HostRuntime) -> Result<(), Fail> {
    let mut buffer = SndBuffer::new(rt.alloc(), 4, 9, 100)?;
    buffer.set_payload(4);
    assert_eq!(rt; buffer.blocks(), 4);
    for (len, blocks) in [(0, 0), (8, 2), (9, 3)] {
        assert_eq!(rt; buffer.blocks_for(len), blocks);
    }
    let calls: [(&[u8], u64, usize); 3] = [(b"", 9, 0), (b"zz", 0, 0), (b"hello, you", 9, 10)];
    for (bytes, most, taken) in calls {
        let (first, kept) = buffer.kept();
        assert!(rt; first == 100 && kept == 0);
        assert_eq!(rt; buffer.accept(bytes, most, 7, true, Some(50)), taken);
    }
    // three blocks of which the first is released
    let (first, kept) = buffer.kept();
    assert_eq!(rt; (first, kept), (100, 3));
    buffer.release_to(101);
    let table: [(u64, &[u8], bool); 2] = [(101, b"o, y", false), (102, b"ou", true)];
    for (offset, bytes, last) in table {
        let flags = Flags {
            first: false,
            last,
            order: true,
            message: 7,
        };
        let expires = Some(50);
        let block = Block {
            bytes,
            flags,
            expires,
        };
        assert_eq!(rt; buffer.block(offset), Some(block));
        assert_eq!(rt; buffer.message_of(offset), Some((100, 102)));
    }
    assert_eq!(rt; buffer.block(100), None);
    assert_eq!(rt; buffer.message_of(103), None);
    assert_eq!(rt; buffer.free(), 2);
    Ok(())
}
