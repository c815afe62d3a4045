// Examples worked by hand, and the linked ranges beside the plain vector.

ghost use Rattle.std.specs.Prelude.{◌≡◌, ◌≤◌, ◌^◌};

use super::*;
use crate::plain::PlainSndLoss;
use std::test::*;

#[test]
fn ranges_grow_split_and_give_their_offsets_in_order(rt: HostRuntime) -> Result<(), Fail> {
    let mut list = SndLoss::new(rt.alloc(), 16)?;
    assert_eq!(rt; list.take_first(), None);
    list.add(6, 11);
    list.add(2, 2);
    assert_eq!(rt; (list.len(), list.ranges()), (7, 2));
    assert_eq!(rt; list.take_first(), Some(2));
    list.drop_below(10);
    assert_eq!(rt; list.len(), 2);

    let mut list = SndLoss::new(rt.alloc(), 16)?;
    list.add(2, 2);
    list.add(6, 11);
    list.add(12, 14);
    assert_eq!(rt; (list.len(), list.ranges()), (10, 2));
    list.remove(8, 9);
    assert_eq!(rt; (list.len(), list.ranges()), (8, 3));
    // the offset between two ranges joins them
    list.add(3, 5);
    assert_eq!(rt; (list.len(), list.ranges()), (11, 2));
    for n in [2, 3, 4, 5, 6, 7, 10, 11, 12, 13, 14] {
        assert_eq!(rt; list.take_first(), Some(n));
    }
    assert_eq!(rt; (list.len(), list.ranges()), (0, 0));
    Ok(())
}

// Both lists, in a window of 64, and the offset of their last drop.
#[derive(Drop)]
struct Both {
    linked: SndLoss,
    plain: PlainSndLoss,
    floor: u64,
    ghost linked_is: { linked.floor ≡ floor },
    ghost plain_is: { plain.floor ≡ floor },
    ghost linked_room: { linked.window ≡ 64 },
    ghost plain_room: { plain.window ≡ 64 },
    ghost within: { floor ≤ 2 ^ 32 },
}

impl Both {
    // one call on each
    fn step(&mut self, word: u64) -> Result<(), Fail> {
        let from = self.floor + word / 8 % 64;
        let to = (from + word / 512 % 8).min(self.floor + 63);
        if word % 8 < 4 {
            self.plain.add(from, to)?;
            self.linked.add(from, to);
        } else if word % 8 < 6 {
            self.plain.remove(from, to)?;
            self.linked.remove(from, to);
        } else if self.floor < 1 << 31 {
            let floor = self.floor + word / 8 % 4;
            self.plain.drop_below(floor)?;
            self.linked.drop_below(floor);
            self.floor = floor;
        }
        Ok(())
    }

    // the least offset of each
    fn take(&mut self) -> (Option<u64>, Option<u64>) {
        let linked = self.linked.take_first();
        let plain = self.plain.take_first();
        (linked, plain)
    }
}

#[test]
fn linked_ranges_hold_what_a_plain_vector_does(rt: HostRuntime) -> Result<(), Fail> {
    let linked = SndLoss::new(rt.alloc(), 64)?;
    let plain = PlainSndLoss::new(rt.alloc(), 64);
    let mut both = Both {
        linked,
        plain,
        floor: 0,
    };
    let mut word = 1u64;
    for _ in 0..4_000u32 {
        word = word
            .wrapping_mul(6_364_136_223_846_793_005)
            .wrapping_add(1_442_695_040_888_963_407);
        both.step(word >> 33)?;
        assert_eq!(rt; both.linked.len(), both.plain.len());
        assert_eq!(rt; both.linked.ranges(), both.plain.ranges());
        if word >> 60 == 0 {
            let (linked, plain) = both.take();
            assert_eq!(rt; linked, plain);
        }
    }
    for _ in 0..both.plain.len() {
        let (linked, plain) = both.take();
        assert_eq!(rt; linked, plain);
    }
    assert_eq!(rt; both.take(), (None, None));
    Ok(())
}
