// Ranges that are put in, cut and given other tags, worked out by hand.

ghost use Rattle.std.specs.Prelude.{◌<◌, ◌≤◌};

use super::*;
use std::marker::Model;
use std::test::*;

// A colour as a tag.
#[derive(Clone, Copy, Debug, PartialEq, Eq)]
struct Colour {
    hue: char,
}

impl Tag for Colour {
    ghost use Rattle.std.specs.Prelude.{◌≡◌, ◌==◌};
    ghost use Rattle.std.proofs.Common.{ap};
    ghost use Rattle.std.proofs.lemmas.Bool.{eqb-true};

    ghost same = { λ a b. a.hue == b.hue };

    fn is_same(self, other: Colour) -> bool {
        self.hue == other.hue
    }

    ghost same_only = { λ a b h. ap (λ hue. record { hue = hue }) (eqb-true a.hue b.hue h) };
}

// Ranges among eight offsets from 10 on, so that the end of the ring lies among them.
#[derive(Drop)]
struct Eight {
    ranges: LinkedRanges<Colour>,
}

impl Model for Eight {
    ghost use Rattle.std.specs.Prelude.{◌≡◌};
    ghost use Rattle.std.specs.Prelude.{ℕ};
    ghost use Rattle.udt_ranges.specs.Ranges.{Rises};
    ghost use Rattle.udt_ranges.specs.Merging.{IsMaximal};

    ghost Value = { ℕ };

    ghost view = { λ e. e.ranges.window };

    ghost invariant = { λ e. (e.ranges.window ≡ 8)
        × IsMaximal ⟦<Colour as Tag>⟧.same e.ranges.ranges × Rises 10 18 e.ranges.ranges };
}

impl Eight {
    fn put(&mut self, first: u64, last: u64, hue: char) -> u64
        requires first { 10 ≤ first }
        requires order { first ≤ last }
        requires last { last < 18 }
    {
        let tag = Colour { hue };
        self.ranges.insert(Range { first, last, tag })
    }

    fn cut(&mut self, from: u64, to: u64) -> u64
        requires { from ≤ to }
    {
        self.ranges.cut(from, to)
    }
}

#[test]
fn ranges_join_divide_and_are_retagged(rt: HostRuntime) -> Result<(), Fail> {
    let blank = Colour { hue: '-' };
    let mut eight = Eight {
        ranges: LinkedRanges::new(rt.alloc(), 8, blank)?,
    };
    assert_eq!(rt; (eight.ranges.first(), eight.ranges.count()), (None, 0));
    // what is put in; how many of its offsets were there, and how many ranges there are then
    for (first, last, hue, there, count) in [
        (12, 12, 'r', 0, 1),
        (14, 17, 'r', 0, 2),
        (13, 13, 'r', 0, 1),
        (10, 10, 'r', 0, 2),
        (15, 15, 'g', 1, 4),
    ] {
        assert!(rt; 10 <= first && first <= last && last < 18);
        assert_eq!(rt; eight.put(first, last, hue), there, "{first}");
        assert_eq!(rt; eight.ranges.count(), count, "{first}");
    }
    assert_eq!(rt; eight.cut(16, 16), 1);
    assert_eq!(rt; eight.cut(16, 16), 0);
    let mut ranges = eight.ranges;
    assert_eq!(rt; ranges.count(), 4);
    // the tags of the ranges in order, and the first offset of the range that each is part of then
    let mut cursor = None;
    for (hue, at) in [('r', 10), ('g', 12), ('g', 12), ('r', 17)] {
        if let Some(range) = ranges.next_range(cursor) {
            cursor = ranges.retag_next(cursor, range, Colour { hue });
        }
        assert_eq!(rt; cursor, Some(at), "{hue}");
    }
    for (first, last, hue) in [(10, 10, 'r'), (12, 15, 'g'), (17, 17, 'r')] {
        assert!(rt; first <= last);
        let tag = Colour { hue };
        let range = Range { first, last, tag };
        assert_eq!(rt; ranges.next_range(None), Some(range));
        assert_eq!(rt; ranges.cut(first, last), last - first + 1);
    }
    assert_eq!(rt; ranges.next_range(None), None);
    Ok(())
}
