// The message that is read next, where it is kept in mind.

ghost use Rattle.std.specs.Prelude.{◌≡◌, ℕ, ◌+◌, ◌^◌, ◌<◌, ◌≤◌, length, nat_le, IfSome, IfNone, None, true, false};
ghost use Rattle.udt_model.specs.ReceiveBlocks.{message_from};
ghost use Rattle.udt_rcv_buffer.specs.PlacedParts.{placed_from};
ghost use Rattle.udt_rcv_buffer.specs.Marked.{IsMarked, EndsRun};
ghost use Rattle.udt_rcv_buffer.specs.Messages.{IsFound};
ghost use Rattle.udt_rcv_buffer.specs.Walked.{IsNext, StartsAt};
ghost use Rattle.udt_rcv_buffer.specs.Walks.{WasNext, WasConsumed, KnowsNext, end_of as end_of_found};

use crate::head::Head;
use crate::marks::Marks;
use crate::messages::{Found, Stop, Walk, start_of, stops, walk_from};
use udt_ring::Ring;

/// The message that is read next, where it is kept in mind: a buffer for messages keeps it, one for
/// a stream doesn't.
#[derive(Clone, Copy)]
pub struct Next {
    pub kept: bool,
    pub found: Option<Found>,
}

// The message that is read next, by a walk from a part on.
#[inline(never)]
fn search(ring: &Ring<Head>, marks: &Marks, from: usize) -> Option<Found>
    requires start { StartsAt from (nat_le from marks.now.run) ring.now.list }
    requires within { from ≤ marks.now.top }
    requires marked { IsMarked marks.now ring.now.list }
    ensures { IsNext result ring.now.list }
{
    let never = Stop { from: 0, below: 0 };
    match walk_from(ring, from, from <= marks.run, marks.top, never) {
        Walk::Whole(found) => Some(found),
        Walk::Stopped(_) | Walk::Over => None,
    }
}

impl Next {
    /// The message that is read next.
    pub fn find(&self, ring: &Ring<Head>, marks: &Marks) -> Option<Found>
        requires known { KnowsNext self.now ring.now.list }
        requires marked { IsMarked marks.now ring.now.list }
        ensures some { IfSome result (λ found. IsFound found marks.now.top ring.now.list) }
        ensures none { IfNone result
            ((base : ℕ) → message_from base true (placed_from base ring.now.list) ≡ None) }
    {
        if self.kept {
            self.found
        } else {
            search(ring, marks, 0)
        }
    }

    /// Looks for the message that is read next, from the first part on.
    #[inline(always)]
    pub fn renew(&mut self, ring: &Ring<Head>, marks: &Marks)
        requires { IsMarked marks.now ring.now.list }
        ensures { KnowsNext self.new ring.now.list }
    {
        if self.kept {
            self.found = search(ring, marks, 0);
        }
    }

    /// Takes in that so many parts from a place on were consumed, and whether the base has moved.
    #[inline(always)]
    pub fn consume(
        &mut self,
        ring: &Ring<Head>,
        marks: &Marks,
        place: usize,
        count: usize,
        moved: bool,
    )
        requires was { self.old.kept ≡ true → moved ≡ false
            → WasConsumed self.old.found place count ring.now.list }
        requires within { moved ≡ false → place + count ≤ marks.now.top }
        requires marked { IsMarked marks.now ring.now.list }
        requires run { EndsRun marks.now.run ring.now.list }
        ensures { KnowsNext self.new ring.now.list }
    {
        if self.kept {
            self.found = if moved {
                search(ring, marks, 0)
            } else {
                pass(self.found, ring, marks, place, count)
            };
        }
    }

    /// Takes in that a block was placed in a part that wasn't used.
    #[inline(always)]
    pub fn add(&mut self, ring: &Ring<Head>, marks: &Marks, place: usize)
        requires was { self.old.kept ≡ true → WasNext self.old.found place marks.now.run ring.now.list }
        requires marked { IsMarked marks.now ring.now.list }
        requires run { EndsRun marks.now.run ring.now.list }
        requires within { place < marks.now.top }
        ensures { KnowsNext self.new ring.now.list }
    {
        if self.kept {
            self.found = look(self.found, ring, marks, place);
        }
    }
}

// The message that is read next once parts were consumed: none begins before their end but one that
// ends before them.
#[inline(never)]
fn pass(
    found: Option<Found>,
    ring: &Ring<Head>,
    marks: &Marks,
    place: usize,
    count: usize,
) -> Option<Found>
    requires was { WasConsumed found place count ring.now.list }
    requires within { place + count ≤ marks.now.top }
    requires marked { IsMarked marks.now ring.now.list }
    requires run { EndsRun marks.now.run ring.now.list }
    ensures { IsNext result ring.now.list }
{
    if end_of(found, ring.count()) <= place {
        return found;
    }
    search(ring, marks, place + count)
}

// Where a message ends, or else so many parts.
fn end_of(found: Option<Found>, parts: usize) -> usize
    requires within { end_of_found found parts ≤ parts }
    requires few { parts ≤ 2 ^ 32 }
    ensures { result ≡ end_of_found found parts }
{
    match found {
        Some(found) => found.first + found.count,
        None => parts,
    }
}

// The message that is read next once a block was placed: only the messages around it, and those
// that need no longer wait for an offset before them, are looked at.
#[inline(never)]
fn look(found: Option<Found>, ring: &Ring<Head>, marks: &Marks, place: usize) -> Option<Found>
    requires was { WasNext found place marks.now.run ring.now.list }
    requires marked { IsMarked marks.now ring.now.list }
    requires run { EndsRun marks.now.run ring.now.list }
    requires within { place < marks.now.top }
    ensures { IsNext result ring.now.list }
{
    let below = end_of(found, ring.count());
    if below <= place {
        return found;
    }
    let stop = Stop {
        from: marks.run.max(place + 1),
        below,
    };
    let (head, _) = ring.part(place);
    if !head.flags.last && stops(ring, stop, place + 1) {
        return found;
    }
    let (from, begins) = start_of(ring, place);
    if !begins && marks.run <= place && place + 1 < below {
        return found;
    }
    match walk_from(ring, from, from <= marks.run, marks.top, stop) {
        Walk::Whole(whole) => Some(whole),
        Walk::Stopped(_) => found,
        Walk::Over => None,
    }
}
