// The ring of places, and the steps on its links.
// A range lies at the place of its first offset modulo the number of places.

ghost use Rattle.std.specs.Prelude.{◌≡◌, ◌%◌, ◌<◌, ◌==◌, if◌then◌else◌};

use crate::OutOfMemory;
use crate::range::Range;
use std::alloc::Global;
use std::marker::Model;

// What a place keeps of the range that lies there, and the first offset of the next range.
#[derive(Clone, Copy)]
struct Place<T> {
    last: u64,
    next: u64,
    tag: T,
}

/// Rising ranges of offsets, all within a window.
#[derive(Drop)]
pub struct LinkedRanges<T> {
    places: Vec<Place<T>>,
    // the tag of places where no range was put yet
    blank: T,
    // the first offsets of the first and of the last range, and of the one that was sought last
    head: u64,
    tail: u64,
    hint: u64,
    // how many ranges there are
    count: u64,
}

impl<T> Model for LinkedRanges<T> {
    ghost use Rattle.udt_ranges.specs.Ranges.{Linked, linked_code};

    ghost Value = { Linked T };

    ghost coded = { linked_code T.code };

    ghost use Rattle.udt_ranges.specs.Chains.{seen, is_chained};

    ghost view = { seen };

    ghost invariant = { is_chained };
}

impl<T: Copy> LinkedRanges<T> {
    ghost use Rattle.std.specs.Prelude.{◌≡◌, ◌++◌, ◌∷◌, ◌<◌, ◌^◌, [], true, length, drop, Some, IfOk, IsSome};
    ghost use Rattle.udt_ranges.specs.Ranges.{IsWithin, IsBelow, IsFrom};
    ghost use Rattle.udt_ranges.specs.Cursors.{IsCursor, before, following, begins_at, ahead, through, beyond, first_of, with_range_at, with_range, without_next};

    /// No ranges, with the memory that the list will ever have. Places where no range was put yet have
    /// the tag that is given.
    pub fn new(alloc: Global, window: u32, blank: T) -> Result<LinkedRanges<T>, OutOfMemory>
        ensures { IfOk result (λ l. l ≡ record { window = window; ranges = [] }) }
    {
        let place = Place {
            last: 0,
            next: 0,
            tag: blank,
        };
        let mut places = Vec::new(alloc);
        places.resize(window as usize, place)?;
        Ok(LinkedRanges {
            places,
            blank,
            head: 0,
            tail: 0,
            hint: 0,
            count: 0,
        })
    }

    /// How many ranges there are.
    pub fn count(&self) -> u64
        ensures value { result ≡ length self.now.ranges }
        ensures within { IsWithin self.now.window self.now.ranges }
    {
        self.count
    }

    /// The first offset of all.
    pub fn first(&self) -> Option<u64>
        ensures value { result ≡ first_of self.now.ranges }
        ensures within { IsWithin self.now.window self.now.ranges }
        ensures room { self.now.window < 2 ^ 64 }
    {
        if self.count == 0 {
            return None;
        }
        Some(self.head)
    }

    // puts a range before all others
    pub(crate) fn link_front(&mut self, range: Range<T>)
        requires { IsWithin self.old.window (range ∷ self.old.ranges) }
        ensures { self.new ≡ record self.old { ranges = range ∷ self.old.ranges } }
    {
        let slot = slot_of(range.first, self.places.len());
        self.places[slot] = Place {
            last: range.last,
            next: self.head,
            tag: range.tag,
        };
        self.tail = if self.count == 0 {
            range.first
        } else {
            self.tail
        };
        self.head = range.first;
        self.hint = range.first;
        self.count += 1;
    }

    // puts a range after the one that begins at an offset
    pub(crate) fn link_after(&mut self, at: u64, range: Range<T>)
        requires cursor { begins_at at self.old.ranges ≡ true }
        requires room { IsWithin self.old.window (with_range_at (Some at) range self.old.ranges) }
        ensures { self.new ≡ record self.old { ranges = with_range_at (Some at) range self.old.ranges } }
    {
        let slot = slot_of(range.first, self.places.len());
        let earlier = slot_of(at, self.places.len());
        let place = self.places[earlier];
        self.places[slot] = Place {
            last: range.last,
            next: place.next,
            tag: range.tag,
        };
        self.places[earlier] = Place {
            last: place.last,
            next: range.first,
            tag: place.tag,
        };
        self.tail = moved(self.tail, at, range.first);
        self.count += 1;
    }

    // takes out the first range
    pub(crate) fn unlink_front(&mut self)
        requires { IsSome (first_of self.old.ranges) }
        ensures { self.new ≡ record self.old { ranges = drop 1 self.old.ranges } }
    {
        let slot = slot_of(self.head, self.places.len());
        let next = self.places[slot].next;
        self.hint = moved(self.hint, self.head, next);
        self.head = next;
        self.count -= 1;
    }

    // takes out the range after the one that begins at an offset
    pub(crate) fn unlink_after(&mut self, at: u64)
        requires cursor { begins_at at self.old.ranges ≡ true }
        requires some { IsSome (first_of (beyond at self.old.ranges)) }
        ensures { self.new ≡ record self.old { ranges = without_next at self.old.ranges } }
    {
        let earlier = slot_of(at, self.places.len());
        let place = self.places[earlier];
        let next = place.next;
        let slot = slot_of(next, self.places.len());
        self.places[earlier] = Place {
            last: place.last,
            next: self.places[slot].next,
            tag: place.tag,
        };
        self.tail = moved(self.tail, next, at);
        self.hint = at;
        self.count -= 1;
    }

    // gives the range that begins at an offset another end and another tag
    pub(crate) fn rewrite(&mut self, range: Range<T>)
        requires cursor { begins_at range.first self.old.ranges ≡ true }
        requires room { IsWithin self.old.window (with_range range self.old.ranges) }
        ensures { self.new ≡ record self.old { ranges = with_range range self.old.ranges } }
    {
        let slot = slot_of(range.first, self.places.len());
        let next = self.places[slot].next;
        self.places[slot] = Place {
            last: range.last,
            next,
            tag: range.tag,
        };
    }

    // the range that begins at an offset
    pub(crate) fn read(&self, at: u64) -> Range<T>
        requires { begins_at at self.now.ranges ≡ true }
        ensures value { through at self.now.ranges ≡ ahead at self.now.ranges ++ result ∷ [] }
        ensures first { result.first ≡ at }
    {
        let slot = slot_of(at, self.places.len());
        let place = self.places[slot];
        Range {
            first: at,
            last: place.last,
            tag: place.tag,
        }
    }

    // the first offset of the range after a place
    pub(crate) fn next_of(&self, cursor: Option<u64>) -> Option<u64>
        requires { IsCursor cursor self.now.ranges }
        ensures value { result ≡ first_of (following cursor self.now.ranges) }
        ensures within { IsWithin self.now.window self.now.ranges }
        ensures room { self.now.window < 2 ^ 64 }
    {
        let Some(at) = cursor else {
            return self.first();
        };
        if at == self.tail {
            return None;
        }
        let slot = slot_of(at, self.places.len());
        Some(self.places[slot].next)
    }

    // the last range that begins before an offset, which the next search begins with
    pub(crate) fn seek(&mut self, offset: u64) -> Option<u64>
        ensures kept { self.new ≡ self.old }
        ensures cursor { IsCursor result self.old.ranges }
        ensures before { IsBelow offset (before result self.old.ranges) }
        ensures following { IsFrom offset (following result self.old.ranges) }
        ensures within { IsWithin self.old.window self.old.ranges }
        ensures room { self.old.window < 2 ^ 64 }
    {
        if self.count == 0 {
            return None;
        }
        if offset <= self.head {
            return None;
        }
        if self.tail < offset {
            return Some(self.tail);
        }
        let mut at = if self.hint < offset {
            self.hint
        } else {
            self.head
        };
        let mut next = self.places[slot_of(at, self.places.len())].next;
        while next < offset {
            at = next;
            next = self.places[slot_of(at, self.places.len())].next;
        }
        self.hint = at;
        Some(at)
    }
}

// the place of an offset in a ring of this many
fn slot_of(offset: u64, places: usize) -> usize
    requires { 0 < places }
    ensures value { result ≡ offset % places }
    ensures within { result < places }
{
    (offset % places as u64) as usize
}

// an offset, or another one in its place
fn moved(offset: u64, from: u64, to: u64) -> u64
    ensures { result ≡ (if offset == from then to else offset) }
{
    if offset == from { to } else { offset }
}
