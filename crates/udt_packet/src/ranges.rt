// The ranges of lost numbers in a NAK, and the words that spell them.

ghost use Rattle.std.specs.Prelude.{◌≡◌, ◌+◌, ◌%◌, ◌^◌, ◌<◌, ◌≤◌, ◌++◌, [], ◌∷◌, length, take, drop, All, IfSome, IfNone};
ghost use Rattle.std.specs.Option.{is_some};
ghost use Rattle.udt_model.specs.Wire as wire;
ghost use Rattle.udt_model.specs.Wire.{IsRange, ranges_bytes};
ghost use Rattle.udt_packet.specs.Ranges.{range_from, range_spelling, with_between, GoesOn, IsBroken};

use crate::words::{following, put, two, word_at};
use std::marker::Model;

/// The first bit of a word that begins a range.
const BEGINS: u32 = 1 << 31;

/// How many packet numbers there are, before they begin again.
const NUMBERS: u64 = 1 << 31;

/// The end of a range lies less far ahead of its start.
const NEAR: u64 = 1 << 30;

/// Ranges of lost numbers, each from its first to its last. `next` takes them in their order.
#[derive(Debug, Drop)]
pub struct NakRanges<'a> {
    // The words of the ranges that are left.
    rest: &'a [u8],
}

impl<'a> Model for NakRanges<'a> {
    ghost use Rattle.std.specs.Prelude.{List};
    ghost use Rattle.udt_model.specs.Wire.{WireRange};

    ghost Value = { List WireRange };

    ghost use Rattle.udt_packet.specs.Ranges.{ranges_in, AreRanges};

    ghost view = { λ a. ranges_in a.rest.now };

    ghost invariant = { λ a. AreRanges a.rest.now };
}

/// How far the second number lies ahead of the first, round the end of the numbers if need be.
fn reach(first: u32, last: u32) -> u64
    requires { first < 2 ^ 31 }
    ensures { result ≡ wire.reach first last }
{
    (last as u64 + NUMBERS - first as u64) % NUMBERS
}

/// The start of the range that has begun after this word, if one has. None where the word doesn't
/// end the range that had begun before it.
fn after_word(begun: Option<u32>, word: u32) -> Option<Option<u32>>
    requires { IfSome begun (λ first. first < 2 ^ 31) }
    ensures some { IfSome result (GoesOn begun word) }
    ensures none { IfNone result (IsBroken begun word) }
    ensures within { IfSome result (λ left. IfSome left (λ first. first < 2 ^ 31)) }
{
    match begun {
        None => {
            if word < BEGINS {
                return Some(None);
            }
            Some(Some(word - BEGINS))
        }
        Some(first) => {
            if word >= BEGINS {
                return None;
            }
            if reach(first, word) >= NEAR {
                return None;
            }
            Some(None)
        }
    }
}

/// Whether these words spell ranges, each of which has an end.
fn are_ranges(field: &[u8]) -> bool
    requires { length field.now % 4 ≡ 0 }
    ensures { result ≡ is_some (wire.ranges_from None (wire.words_of field.now)) }
{
    let mut begun: Option<u32> = None;
    let mut place = 0;
    while place < field.len() {
        match after_word(begun, word_at(field, place)) {
            Some(left) => begun = left,
            None => return false,
        }
        place += 4;
    }
    begun.is_none()
}

/// The words of a range, of which `size_of_range` says how many bytes count.
fn range_words(first: u32, last: u32) -> [u8; 8]
    requires { first < 2 ^ 31 }
    ensures { take (length (range_spelling first last)) result ≡ range_spelling first last }
{
    if first == last {
        return two(first, 0);
    }
    two(BEGINS + first, last)
}

/// How many bytes spell a range: one word where its ends are equal, and otherwise two.
fn size_of_range(first: u32, last: u32) -> usize
    ensures value { result ≡ length (range_spelling first last) }
    ensures bound { result ≤ 8 }
{
    if first == last { 4 } else { 8 }
}

/// Writes the words of a range at this place, and answers the place after them.
pub fn put_range(first: u32, last: u32, into: &mut [u8], place: usize) -> usize
    requires room { place + length (range_spelling first last) ≤ length into.old }
    requires in_range { first < 2 ^ 31 }
    ensures value { result ≡ place + length (range_spelling first last) }
    ensures after { into.new ≡ with_between place result (range_spelling first last) into.old }
{
    let size = size_of_range(first, last);
    put(into, place, &range_words(first, last)[..size])
}

impl<'a> NakRanges<'a> {
    /// The ranges that the field of a packet spells. None where nothing stands there, where it
    /// isn't made of whole words, where a range has no end, and where an end has its first bit set
    /// or lies 2^30 or more ahead of its start.
    pub fn over(field: &'a [u8]) -> Option<NakRanges<'a>>
        ensures value { result ≡ wire.ranges_of field.now }
        ensures some { IfSome result (λ ranges. 0 < length ranges) }
        ensures in_range { IfSome result (λ ranges. All IsRange ranges) }
    {
        if field.len() == 0 {
            return None;
        }
        if field.len() % 4 != 0 {
            return None;
        }
        if are_ranges(field) {
            Some(NakRanges { rest: field })
        } else {
            None
        }
    }

    /// The first range that is left: its first and its last number.
    pub fn next(&mut self) -> Option<(u32, u32)>
        ensures some { IfSome result (λ ends. self.old ≡ range_from ends ∷ self.new) }
        ensures none { IfNone result ((self.old ≡ []) × (self.new ≡ [])) }
        ensures in_range { IfSome result (λ ends. IsRange (range_from ends)) }
    {
        if self.rest.len() == 0 {
            return None;
        }
        let word = word_at(self.rest, 0);
        if word < BEGINS {
            self.rest = following(self.rest, 4);
            return Some((word, word));
        }
        let last = word_at(self.rest, 4);
        self.rest = following(self.rest, 8);
        Some((word - BEGINS, last))
    }

    // The same ranges, to be taken once more.
    fn again(&self) -> NakRanges<'a>
        ensures value { result ≡ self.now }
        ensures bound { length (ranges_bytes result) < 2 ^ 63 }
    {
        NakRanges { rest: self.rest }
    }

    /// How many bytes spell the ranges that are left.
    pub(crate) fn size(&self) -> usize
        ensures value { result ≡ length (ranges_bytes self.now) }
        ensures bound { result < 2 ^ 63 }
    {
        let mut left = self.again();
        let mut size = 0;
        while let Some((first, last)) = left.next() {
            size += size_of_range(first, last);
        }
        size
    }

    /// Writes the words of the ranges that are left at this place, and answers the place after
    /// them.
    pub(crate) fn put(&self, into: &mut [u8], place: usize) -> usize
        requires { place + length (ranges_bytes self.now) ≤ length into.old }
        ensures value { result ≡ place + length (ranges_bytes self.now) }
        ensures after { into.new ≡ with_between place result (ranges_bytes self.now) into.old }
    {
        let mut left = self.again();
        let mut end = place;
        while let Some((first, last)) = left.next() {
            end = put_range(first, last, into, end);
        }
        end
    }
}
