// One piece of memory in equal slots, and places that follow one another as a ring.
// The part that is first stands at some place, and after the last place comes the first one again.
// The bytes of a part lie in the slot of its place. A part that gets bytes where it had none takes a
// slot that was emptied lately, which the processor still has at hand.

ghost use Rattle.std.specs.Prelude.{◌≡◌, ◌+◌, ◌*◌, ◌^◌, ◌<◌, ◌≤◌, ◌++◌, length, take, drop, slice_get, replicate, Some, IfOk};
ghost use Rattle.udt_ring.specs.Rings.{following, KeepsParts, Empties};

use std::alloc::{AllocError, Global};
use std::marker::Model;

// What is known of a part, how many bytes it has, and in which slot they lie.
#[derive(Clone, Copy)]
struct Place<H> {
    head: H,
    len: u32,
    slot: u32,
}

/// Parts with room for this many bytes each. Contracts see the list of the parts from the first one
/// on. Only `new` takes memory.
#[derive(Drop)]
pub struct Ring<H> {
    memory: Vec<u8>,
    places: Vec<Place<H>>,
    room: usize,
    first: usize,
    // a place that was emptied lately, if any was
    hot: usize,
}

impl<H> Model for Ring<H> {
    ghost use Rattle.udt_ring.specs.Parts.{Parts, parts_code};

    ghost Value = { Parts H };

    ghost coded = { parts_code H.code };

    ghost use Rattle.udt_ring.specs.Rings.{parts_of, IsRing};

    ghost view = { parts_of };

    ghost invariant = { IsRing };
}

/// Writes the bytes at a place of the memory.
pub fn write(memory: &mut [u8], at: usize, bytes: &[u8])
    requires { at + length bytes.now ≤ length memory.old }
    ensures { memory.new
        ≡ take at memory.old ++ bytes.now ++ drop (at + length bytes.now) memory.old }
{
    let end = at + bytes.len();
    memory[at..end].copy_from_slice(bytes);
}

// This many bytes of the memory, from a place on.
fn bytes_at(memory: &[u8], at: usize, len: usize) -> &[u8]
    requires { at + len ≤ length memory.now }
    ensures { result.now ≡ take len (drop at memory.now) }
{
    &memory[at..at + len]
}

// Lets a place without bytes have the slot of the hinted place, where that has none either, and its
// own slot goes there. The result is the next hint.
fn take_slot<H: Copy>(places: &mut [Place<H>], at: usize, hot: usize) -> usize
    requires at { at < length places.old }
    requires hot { hot < length places.old }
    ensures kept { KeepsParts places.old places.new }
    ensures hint { result < length places.old }
{
    let place = places[at];
    if place.len > 0 {
        return hot;
    }
    let hinted = places[hot];
    if hinted.len == 0 {
        places[at].slot = hinted.slot;
        places[hot].slot = place.slot;
    }
    previous_place(hot, places.len())
}

// Empties the parts of this many places from the first one on, which then have this head. The result
// is the place after the last of them.
fn empty<H: Copy>(places: &mut [Place<H>], first: usize, by: usize, head: H) -> usize
    requires first { first < length places.old }
    requires by { by ≤ length places.old }
    ensures { Empties by head first result places.old places.new }
{
    let mut at = first;
    for passed in 0..by {
        let slot = places[at].slot;
        places[at] = Place { head, len: 0, slot };
        at = next_place(at, places.len());
    }
    at
}

// The place after this one, of this many.
fn next_place(place: usize, places: usize) -> usize
    requires { place < places }
    ensures { result ≡ following place 1 places }
{
    let next = place + 1;
    if next < places { next } else { 0 }
}

// The place before this one, of this many.
fn previous_place(place: usize, places: usize) -> usize
    requires { place < places }
    ensures { result < places }
{
    if place == 0 { places - 1 } else { place - 1 }
}

impl<H: Copy> Ring<H> {
    ghost use Rattle.udt_ring.specs.Parts.{empty_part, joined, with_part, turned_by};

    /// This many parts with room for this many bytes each, of which each has this head and no bytes yet.
    pub fn new(alloc: Global, count: u32, room: u32, head: H) -> Result<Ring<H>, AllocError>
        ensures room { IfOk result (λ ring. ring.room ≡ room) }
        ensures list { IfOk result (λ ring. ring.list ≡ replicate count (empty_part head)) }
    {
        let memory = vec![in alloc; 0u8; count as usize * room as usize]?;
        let mut places = Vec::with_capacity(alloc, count as usize)?;
        for slot in 0..count {
            places.push(Place { head, len: 0, slot })?;
        }
        Ok(Ring {
            memory,
            places,
            room: room as usize,
            first: 0,
            hot: 0,
        })
    }

    /// How many bytes a part has room for.
    pub fn room(&self) -> usize
        ensures value { result ≡ self.now.room }
        ensures few { result < 2 ^ 32 }
    {
        self.room
    }

    /// How many parts there are.
    pub fn count(&self) -> usize
        ensures value { result ≡ length self.now.list }
        ensures few { result ≤ 2 ^ 32 }
    {
        self.places.len()
    }

    /// A part: its head and its bytes.
    pub fn part(&self, i: usize) -> (H, &[u8])
        requires { i < length self.now.list }
        ensures value { slice_get self.now.list i
            ≡ Some (record { head = result.0; bytes = result.1.now }) }
        ensures room { length result.1.now ≤ self.now.room }
        ensures fits { length (joined self.now.list) < 2 ^ 64 }
    {
        let at = Self::place_after(self.first, i, self.places.len());
        let place = self.places[at];
        let from = place.slot as usize * self.room;
        (place.head, bytes_at(&self.memory, from, place.len as usize))
    }

    /// Gives a part this head and these bytes.
    pub fn put(&mut self, i: usize, head: H, bytes: &[u8])
        requires within { i < length self.old.list }
        requires room { length bytes.now ≤ self.old.room }
        ensures next { self.new ≡ with_part self.old i head bytes.now }
        ensures fits { length (joined self.new.list) < 2 ^ 64 }
    {
        let at = Self::place_after(self.first, i, self.places.len());
        self.hot = take_slot(&mut self.places, at, self.hot);
        let slot = self.places[at].slot;
        let len = bytes.len() as u32;
        self.places[at] = Place { head, len, slot };
        write(&mut self.memory, slot as usize * self.room, bytes);
    }

    /// Lets the ring begin this many parts later: those before come after all others, with this head
    /// and no bytes.
    pub fn turn(&mut self, by: usize, head: H)
        requires { by ≤ length self.old.list }
        ensures { self.new ≡ turned_by by head self.old }
    {
        if by == 0 {
            return;
        }
        let next = empty(&mut self.places, self.first, by, head);
        self.hot = previous_place(next, self.places.len());
        self.first = next;
    }

    // The place that is this many after this one, of this many.
    fn place_after(place: usize, by: usize, places: usize) -> usize
        requires place { place < places }
        requires by { by ≤ places }
        requires few { places ≤ 2 ^ 32 }
        ensures value { result ≡ following place by places }
        ensures within { result < places }
    {
        let place = place + by;
        if place < places {
            place
        } else {
            place - places
        }
    }
}
