// Examples worked by hand, and the linked ranges beside the plain vector.
ghost use Rattle.std.specs.Prelude.{◌≡◌, ◌+◌, ◌<◌, ◌≤◌, ◌^◌};

use super::*;
use crate::plain::PlainRcvLoss;
use std::marker::Model;
use std::test::*;

// what is due at a moment, with round trips of 100
fn due_at(list: &mut RcvLoss, into: &mut Ranges, now: u64) -> Option<(u64, u64)>
    requires { 2 ≤ into.old.words }
    ensures words { into.new.words ≡ into.old.words }
    ensures room { list.new.window ≡ list.old.window }
{
    list.due(now, 100, 2, into);
    if into.len() == 1 {
        Some(into.get(0))
    } else {
        None
    }
}

#[test]
fn losses_are_reported_again_ever_later(rt: HostRuntime) -> Result<(), Fail> {
    let mut list = RcvLoss::new(rt.alloc(), 16)?;
    let mut into = Ranges::new(rt.alloc(), 4)?;
    list.add(3, 5, 0);
    for (now, due) in [
        (199, None),
        (200, Some((3, 5))),
        (499, None),
        (500, Some((3, 5))),
    ] {
        assert_eq!(rt; due_at(&mut list, &mut into, now), due, "at {now}");
    }

    let mut list = RcvLoss::new(rt.alloc(), 16)?;
    assert_eq!(rt; (list.first(), list.ranges()), (None, 0));
    list.add(3, 5, 0);
    list.add(8, 9, 0);
    list.add(10, 10, 7);
    assert_eq!(rt; (list.first(), list.ranges()), (Some(3), 3));
    assert_eq!(rt; list.remove(4), true);
    assert_eq!(rt; list.remove(4), false);
    assert_eq!(rt; list.ranges(), 4);
    // one run over two reports, in two words; the next one does not fit
    list.remove_range(0, 5);
    list.due(207, 100, 2, &mut into);
    assert_eq!(rt; into.len(), 1);
    assert_eq!(rt; into.get(0), (8, 10));
    assert_eq!(rt; (list.first(), list.ranges()), (Some(8), 1));
    Ok(())
}

// Both lists, room for a report, and the bounds of the offsets that may be listed.
#[derive(Drop)]
struct Both {
    linked: RcvLoss,
    plain: PlainRcvLoss,
    into: Ranges,
    base: u64,
    next: u64,
}

impl Model for Both {
    ghost use Rattle.std.specs.Prelude.{◌≡◌, ◌≤◌, ◌^◌, ℕ};
    ghost use Rattle.udt_rcv_loss.specs.Absent.{AllBelow, AllFrom};

    ghost Value = { ℕ };

    ghost view = { λ b. b.next };

    ghost invariant = { λ b. (AllBelow b.next b.linked.missing) × (AllFrom b.base b.linked.missing)
        × (b.linked.window ≡ 64) × (b.into.words ≡ 64) × (b.base ≤ b.next) × (b.next ≤ 2 ^ 40) };
}

impl Both {
    fn add(&mut self, gap: u64, more: u64, now: u64) -> Result<(), Fail>
        requires gap { gap < 8 }
        requires more { more < 8 }
    {
        let from = self.next + gap;
        let to = from + more;
        if to < self.base + 64 && to < 1 << 40 {
            self.plain.add(from, to, now)?;
            self.linked.add(from, to, now);
            self.next = to + 1;
        }
        Ok(())
    }

    // whether both say the same of an offset
    fn remove(&mut self, by: u64) -> Result<bool, Fail>
        requires { by < 64 }
    {
        let n = self.base + by;
        let plain = self.plain.remove(n)?;
        let linked = self.linked.remove(n);
        Ok(plain == linked)
    }

    fn remove_range(&mut self, by: u64, more: u64) -> Result<(), Fail>
        requires by { by < 64 }
        requires more { more < 8 }
    {
        let from = self.base + by;
        let to = from + more;
        self.plain.remove_range(from, to)?;
        self.linked.remove_range(from, to);
        Ok(())
    }

    // whether both report the same
    fn due(&mut self, now: u64, rtt: u64, words: u32) -> Result<bool, Fail>
        requires { words ≤ 64 }
    {
        let plain = self.plain.due(now, rtt, words)?;
        self.linked.due(now, rtt, words, &mut self.into);
        let mut same = self.into.len() == plain.len();
        for (i, run) in plain.iter().enumerate() {
            same = same && i < self.into.len() && self.into.get(i) == (run.first, run.last);
        }
        Ok(same)
    }

    // whether both have the same first offset, above which others may be listed
    fn first(&mut self) -> bool {
        let plain = self.plain.first();
        let first = match self.linked.first() {
            None => {
                self.base = self.next;
                return plain.is_none();
            }
            Some(first) => first,
        };
        self.base = first;
        plain == Some(first)
    }

    fn ranges(&self) -> (u64, u64) {
        (self.linked.ranges(), self.plain.ranges())
    }
}

#[test]
fn linked_ranges_hold_what_a_plain_vector_does(rt: HostRuntime) -> Result<(), Fail> {
    let mut both = Both {
        linked: RcvLoss::new(rt.alloc(), 64)?,
        plain: PlainRcvLoss::new(rt.alloc(), 64),
        into: Ranges::new(rt.alloc(), 64)?,
        base: 0,
        next: 0,
    };
    let mut word = 1u64;
    for i in 0..4_000u64 {
        word = word
            .wrapping_mul(6_364_136_223_846_793_005)
            .wrapping_add(1_442_695_040_888_963_407);
        let draw = word >> 33;
        match draw % 8 {
            0..=2 => both.add(draw / 8 % 3, draw / 32 % 4, i)?,
            3 | 4 => {
                let same = both.remove(draw / 8 % 64)?;
                assert_eq!(rt; same, true, "removed at {i}");
            }
            5 => {
                both.remove_range(draw / 8 % 64, draw / 512 % 8)?;
            }
            _ => {
                let same = both.due(i, draw / 8 % 8, (draw / 64 % 24) as u32)?;
                assert_eq!(rt; same, true, "due at {i}");
            }
        }
        assert_eq!(rt; both.first(), true, "first at {i}");
        let (linked, plain) = both.ranges();
        assert_eq!(rt; linked, plain, "ranges at {i}");
    }
    Ok(())
}
