// Ranges put in and taken out.

ghost use Rattle.std.specs.Prelude.{◌≡◌, ◌<◌};
ghost use Rattle.udt_ranges.specs.Merging.{joins as joins_of};

use crate::links::LinkedRanges;
use crate::range::{Range, Tag};

impl<T: Tag> LinkedRanges<T> {
    ghost use Rattle.std.specs.Prelude.{◌≡◌, ◌++◌, ◌∷◌, ◌+◌, ◌<◌, ◌≤◌, ◌^◌, [], true, length, drop, Some, IsSome};
    ghost use Rattle.udt_ranges.specs.Ranges.{IsWithin, IsBelow, IsFrom, EndsBelow, IsNear, KeepsBounds};
    ghost use Rattle.udt_ranges.specs.Ranges.{KeepsBoundsWith, items_of, items_of_range, items_before, items_after};
    ghost use Rattle.udt_ranges.specs.Ranges.{with_items, without_items, count_of, trimmed, trimmed_off};
    ghost use Rattle.udt_ranges.specs.Merging.{IsMaximal, AreMaximal, pushed, absorbed, unabsorbed};
    ghost use Rattle.udt_ranges.specs.Cursors.{IsCursor, before, following, begins_at, ahead, through};
    ghost use Rattle.udt_ranges.specs.Cursors.{beyond, first_of, head_of, with_range_at, with_range};

    // puts a range after a place
    fn link(&mut self, cursor: Option<u64>, range: Range<T>)
        requires cursor { IsCursor cursor self.old.ranges }
        requires room { IsWithin self.old.window (with_range_at cursor range self.old.ranges) }
        ensures kept { self.new.window ≡ self.old.window }
        ensures cursor { IsCursor cursor self.new.ranges }
        ensures before { before cursor self.new.ranges ≡ before cursor self.old.ranges }
        ensures following { following cursor self.new.ranges ≡ range ∷ following cursor self.old.ranges }
    {
        match cursor {
            None => self.link_front(range),
            Some(at) => self.link_after(at, range),
        }
    }

    // takes out the range after a place
    fn unlink(&mut self, cursor: Option<u64>)
        requires cursor { IsCursor cursor self.old.ranges }
        requires some { IsSome (first_of (following cursor self.old.ranges)) }
        requires within { IsWithin self.old.window self.old.ranges }
        ensures kept { self.new.window ≡ self.old.window }
        ensures cursor { IsCursor cursor self.new.ranges }
        ensures before { before cursor self.new.ranges ≡ before cursor self.old.ranges }
        ensures following { following cursor self.new.ranges ≡ drop 1 (following cursor self.old.ranges) }
    {
        match cursor {
            None => self.unlink_front(),
            Some(at) => self.unlink_after(at),
        }
    }

    // gives the range that begins at an offset another end and another tag
    fn replace(&mut self, range: Range<T>)
        requires cursor { begins_at range.first self.old.ranges ≡ true }
        requires room { IsWithin self.old.window (with_range range self.old.ranges) }
        ensures kept { self.new.window ≡ self.old.window }
        ensures cursor { begins_at range.first self.new.ranges ≡ true }
        ensures before { through range.first self.new.ranges
            ≡ ahead range.first self.old.ranges ++ range ∷ [] }
        ensures following { beyond range.first self.new.ranges ≡ beyond range.first self.old.ranges }
    {
        self.rewrite(range);
    }

    /// The range after a place in the list: at its front, or after the one that begins at an offset.
    pub fn next_range(&self, cursor: Option<u64>) -> Option<Range<T>>
        requires { IsCursor cursor self.now.ranges }
        ensures value { result ≡ head_of (following cursor self.now.ranges) }
        ensures within { IsWithin self.now.window self.now.ranges }
        ensures room { self.now.window < 2 ^ 64 }
    {
        let next = self.next_of(cursor)?;
        Some(self.read(next))
    }

    // divides the range at a place before this offset, where it goes on to it
    fn divide(&mut self, cursor: Option<u64>, from: u64)
        requires cursor { IsCursor cursor self.old.ranges }
        requires within { IsWithin self.old.window self.old.ranges }
        requires before { IsBelow from (before cursor self.old.ranges) }
        requires following { IsFrom from (following cursor self.old.ranges) }
        ensures kept { self.new.window ≡ self.old.window }
        ensures within { IsWithin self.new.window self.new.ranges }
        ensures bounds { KeepsBounds self.old.ranges self.new.ranges }
        ensures cursor { IsCursor cursor self.new.ranges }
        ensures before { EndsBelow from (before cursor self.new.ranges) }
        ensures following { IsFrom from (following cursor self.new.ranges) }
        ensures items { items_of self.new.ranges ≡ items_of self.old.ranges }
        ensures maximal { IsMaximal T.same self.old.ranges → AreMaximal T.same cursor self.new.ranges }
    {
        let at = match cursor {
            None => return,
            Some(at) => at,
        };
        let range = self.read(at);
        if range.last < from {
            return;
        }
        self.replace(Range {
            last: from - 1,
            ..range
        });
        self.link(
            cursor,
            Range {
                first: from,
                ..range
            },
        );
    }

    // takes out what the range after a place has up to an offset, and says how many offsets
    fn trim_next(&mut self, cursor: Option<u64>, to: u64) -> u64
        requires cursor { IsCursor cursor self.old.ranges }
        ensures kept { self.new.window ≡ self.old.window }
        ensures room { self.old.window < 2 ^ 64 }
        ensures was_within { IsWithin self.old.window self.old.ranges }
        ensures within { IsWithin self.new.window self.new.ranges }
        ensures cursor { IsCursor cursor self.new.ranges }
        ensures before { before cursor self.new.ranges ≡ before cursor self.old.ranges }
        ensures following { following cursor self.new.ranges ≡ trimmed to (following cursor self.old.ranges) }
        ensures value { result ≡ trimmed_off to (following cursor self.old.ranges) }
    {
        let range = match self.next_range(cursor) {
            None => return 0,
            Some(range) => range,
        };
        if to < range.first {
            return 0;
        }
        self.unlink(cursor);
        if to < range.last {
            self.link(
                cursor,
                Range {
                    first: to + 1,
                    ..range
                },
            );
            return to + 1 - range.first;
        }
        range.last - range.first + 1
    }

    // takes out all offsets after a place up to this one, and says how many
    fn clear(&mut self, cursor: Option<u64>, to: u64) -> u64
        requires cursor { IsCursor cursor self.old.ranges }
        requires within { IsWithin self.old.window self.old.ranges }
        ensures kept { self.new.window ≡ self.old.window }
        ensures within { IsWithin self.new.window self.new.ranges }
        ensures bounds { KeepsBounds (following cursor self.old.ranges)
            (following cursor self.new.ranges) }
        ensures cursor { IsCursor cursor self.new.ranges }
        ensures before { before cursor self.new.ranges ≡ before cursor self.old.ranges }
        ensures following { IsFrom (to + 1) (following cursor self.new.ranges) }
        ensures items { items_of (following cursor self.new.ranges)
            ≡ items_after to (items_of (following cursor self.old.ranges)) }
        ensures maximal { IsMaximal T.same (following cursor self.old.ranges)
            → IsMaximal T.same (following cursor self.new.ranges) }
        ensures value { result + count_of (following cursor self.new.ranges)
            ≡ count_of (following cursor self.old.ranges) }
    {
        let mut removed = 0;
        'clear: loop {
            let count = self.trim_next(cursor, to);
            if count == 0 {
                return removed;
            }
            removed += count;
        }
    }

    // takes out the range after a place where it goes on from this one, which is given with it
    fn absorb(&mut self, cursor: Option<u64>, range: Range<T>) -> Range<T>
        requires cursor { IsCursor cursor self.old.ranges }
        requires following { IsFrom (range.last + 1) (following cursor self.old.ranges) }
        ensures kept { self.new.window ≡ self.old.window }
        ensures cursor { IsCursor cursor self.new.ranges }
        ensures before { before cursor self.new.ranges ≡ before cursor self.old.ranges }
        ensures following { following cursor self.new.ranges
            ≡ unabsorbed T.same range (following cursor self.old.ranges) }
        ensures value { result ≡ absorbed T.same range (following cursor self.old.ranges) }
    {
        let next = match self.next_range(cursor) {
            None => return range,
            Some(next) => next,
        };
        if !joins(range, next) {
            return range;
        }
        self.unlink(cursor);
        Range {
            last: next.last,
            ..range
        }
    }

    // puts a range after a place, and says after which one the place after it lies
    fn settle(&mut self, cursor: Option<u64>, range: Range<T>) -> Option<u64>
        requires cursor { IsCursor cursor self.old.ranges }
        requires before { EndsBelow range.first (before cursor self.old.ranges) }
        requires room { IsWithin self.old.window (with_range_at cursor range self.old.ranges) }
        ensures kept { self.new.window ≡ self.old.window }
        ensures cursor { IsCursor result self.new.ranges }
        ensures before { before result self.new.ranges ≡ pushed T.same (before cursor self.old.ranges) range }
        ensures following { following result self.new.ranges ≡ following cursor self.old.ranges }
    {
        let at = match cursor {
            None => {
                self.link(None, range);
                return Some(range.first);
            }
            Some(at) => at,
        };
        let last = self.read(at);
        if joins(last, range) {
            self.replace(Range {
                last: range.last,
                ..last
            });
            return cursor;
        }
        self.link(cursor, range);
        Some(range.first)
    }

    // takes out the offsets from one to another, and says after which range their place lies and how
    // many there were
    fn make_room(&mut self, from: u64, to: u64) -> (Option<u64>, u64)
        requires { from ≤ to }
        ensures kept { self.new.window ≡ self.old.window }
        ensures within { IsWithin self.new.window self.new.ranges }
        ensures bounds { KeepsBounds self.old.ranges self.new.ranges }
        ensures cursor { IsCursor result.0 self.new.ranges }
        ensures before { EndsBelow from (before result.0 self.new.ranges) }
        ensures following { IsFrom (to + 1) (following result.0 self.new.ranges) }
        ensures next { items_of self.new.ranges ≡ without_items from to (items_of self.old.ranges) }
        ensures low { items_of (before result.0 self.new.ranges)
            ≡ items_before from (items_of self.old.ranges) }
        ensures high { items_of (following result.0 self.new.ranges)
            ≡ items_after to (items_of self.old.ranges) }
        ensures count { result.1 + count_of self.new.ranges ≡ count_of self.old.ranges }
        ensures maximal { IsMaximal T.same self.old.ranges → AreMaximal T.same result.0 self.new.ranges }
        ensures fits { self.old.window < 2 ^ 64 }
    {
        let cursor = self.seek(from);
        self.divide(cursor, from);
        let removed = self.clear(cursor, to);
        (cursor, removed)
    }

    // puts a range at a place between the ranges below it and those above it, as part of them where it
    // goes on from one or one from it
    fn put(&mut self, cursor: Option<u64>, range: Range<T>)
        requires cursor { IsCursor cursor self.old.ranges }
        requires order { range.first ≤ range.last }
        requires before { EndsBelow range.first (before cursor self.old.ranges) }
        requires following { IsFrom (range.last + 1) (following cursor self.old.ranges) }
        requires room { IsWithin self.old.window (with_range_at cursor range self.old.ranges) }
        ensures kept { self.new.window ≡ self.old.window }
        ensures within { IsWithin self.new.window self.new.ranges }
        ensures bounds { KeepsBounds (with_range_at cursor range self.old.ranges) self.new.ranges }
        ensures next { items_of self.new.ranges ≡ items_of (with_range_at cursor range self.old.ranges) }
        ensures maximal { AreMaximal T.same cursor self.old.ranges → IsMaximal T.same self.new.ranges }
    {
        let range = self.absorb(cursor, range);
        self.settle(cursor, range);
    }

    /// Takes out all offsets of a range, and says how many were taken out.
    pub fn cut(&mut self, from: u64, to: u64) -> u64
        requires { from ≤ to }
        ensures kept { self.new.window ≡ self.old.window }
        ensures next { items_of self.new.ranges ≡ without_items from to (items_of self.old.ranges) }
        ensures count { result + count_of self.new.ranges ≡ count_of self.old.ranges }
        ensures within { KeepsBounds self.old.ranges self.new.ranges }
        ensures maximal { IsMaximal T.same self.old.ranges → IsMaximal T.same self.new.ranges }
        ensures whole { IsWithin self.new.window self.new.ranges }
    {
        let (_, removed) = self.make_room(from, to);
        removed
    }

    /// Puts in a range in place of all that was listed of its offsets, and says how many were.
    pub fn insert(&mut self, range: Range<T>) -> u64
        requires order { range.first ≤ range.last }
        requires room { range.last < range.first + self.old.window }
        requires near { IsNear self.old.window range self.old.ranges }
        requires maximal { IsMaximal T.same self.old.ranges }
        ensures kept { self.new.window ≡ self.old.window }
        ensures next { items_of self.new.ranges ≡ with_items range (items_of self.old.ranges) }
        ensures count { result + count_of self.new.ranges
            ≡ count_of self.old.ranges + length (items_of_range range) }
        ensures most { result ≤ count_of self.old.ranges }
        ensures within { KeepsBoundsWith range self.old.ranges self.new.ranges }
        ensures maximal { IsMaximal T.same self.new.ranges }
        ensures whole { IsWithin self.new.window self.new.ranges }
        ensures fits { self.old.window < 2 ^ 64 }
    {
        let (cursor, removed) = self.make_room(range.first, range.last);
        self.put(cursor, range);
        removed
    }

    /// Gives the range after a place another tag, as part of the range before it where that goes on, and
    /// says after which range the place after it lies.
    pub fn retag_next(&mut self, cursor: Option<u64>, range: Range<T>, tag: T) -> Option<u64>
        requires cursor { IsCursor cursor self.old.ranges }
        requires range { Some range ≡ head_of (following cursor self.old.ranges) }
        requires within { IsWithin self.old.window self.old.ranges }
        ensures kept { self.new.window ≡ self.old.window }
        ensures within { IsWithin self.new.window self.new.ranges }
        ensures cursor { IsCursor result self.new.ranges }
        ensures before { before result self.new.ranges
            ≡ pushed T.same (before cursor self.old.ranges) (record range { tag = tag }) }
        ensures following { following result self.new.ranges ≡ drop 1 (following cursor self.old.ranges) }
    {
        self.unlink(cursor);
        self.settle(cursor, Range { tag, ..range })
    }
}

// whether one range goes on where the other ends, with the same tag
fn joins<T: Tag>(range: Range<T>, next: Range<T>) -> bool
    requires { range.last < next.first }
    ensures { result ≡ joins_of T.same range next }
{
    next.first - range.last == 1 && range.tag.is_same(next.tag)
}
