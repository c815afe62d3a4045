// Finding whole messages: a walk over the parts, from one on up to the highest used.

ghost use Rattle.std.specs.Prelude.{◌≡◌, ◌+◌, ◌^◌, ◌<◌, ◌≤◌, length, drop, All, IsTrue, IfSome, None, false, if◌then◌else◌};
ghost use Rattle.udt_rcv_buffer.specs.PlacedParts.{IsUnused};
ghost use Rattle.udt_rcv_buffer.specs.Messages.{begins, begun_then};
ghost use Rattle.udt_rcv_buffer.specs.Walked.{goes_over as goes_over_of, Breaks, NoneBegins, StartsAt};
ghost use Rattle.udt_rcv_buffer.specs.Walks.{StopsAt, IsWalk};

use crate::head::Head;
use udt_ring::Ring;

/// A message of which all blocks so far stand one after another: the part of its first block, its
/// number, and its bytes.
#[derive(Clone, Copy)]
pub struct Begun {
    pub first: usize,
    pub number: u32,
    pub len: usize,
}

/// A message that is whole: the part of its first block, its blocks, and its bytes.
#[derive(Clone, Copy)]
pub struct Found {
    pub first: usize,
    pub count: usize,
    pub len: usize,
}

// The message that begins with a block, where one may be shown that does.
fn begin(head: Head, place: usize, len: usize, gapless: bool) -> Option<Begun>
    ensures { result ≡ begins head place len gapless }
{
    let begins = head.used && !head.consumed && head.flags.first;
    if begins && (!head.flags.order || gapless) {
        return Some(Begun {
            first: place,
            number: head.flags.message,
            len,
        });
    }
    None
}

// The message that goes on or begins with a block.
fn go_on(begun: Option<Begun>, head: Head, place: usize, len: usize, gapless: bool) -> Option<Begun>
    requires { IfSome begun (λ b. b.len + len < 2 ^ 64) }
    ensures { result ≡ begun_then begun head place len gapless }
{
    match begun {
        Some(b) if head.used && !head.consumed && head.flags.message == b.number => Some(Begun {
            first: b.first,
            number: b.number,
            len: b.len + len,
        }),
        _ => begin(head, place, len, gapless),
    }
}

// The message that ends with a block.
fn ended(begun: Option<Begun>, head: Head) -> Option<Begun>
    ensures { result ≡ (if head.flags.last then begun else None) }
{
    if head.flags.last { begun } else { None }
}

// Whether a message that has a block with the first head goes on with one with the second.
fn goes_over(before: Head, head: Head) -> bool
    ensures { result ≡ goes_over_of before head }
{
    let ends = !before.used || before.consumed || before.flags.last;
    !ends && head.used && !head.consumed && head.flags.message == before.flags.message
}

// Whether no message goes on from the part before this one to it.
fn breaks(ring: &Ring<Head>, place: usize) -> bool
    ensures { IsTrue result → Breaks place ring.now.list }
{
    if place == 0 || place >= ring.count() {
        return true;
    }
    let (before, _) = ring.part(place - 1);
    let (head, _) = ring.part(place);
    !goes_over(before, head)
}

/// Where the blocks begin that may be of one message with that of a part, and whether one of them up
/// to that part may be its first.
pub fn start_of(ring: &Ring<Head>, place: usize) -> (usize, bool)
    requires { place < length ring.now.list }
    ensures breaks { Breaks result.0 ring.now.list }
    ensures before { result.0 ≤ place }
    ensures none { result.1 ≡ false → NoneBegins result.0 place ring.now.list }
{
    let (head, _) = ring.part(place);
    let mut begins = head.flags.first;
    let mut start = place;
    while start > 0 {
        if breaks(ring, start) {
            break;
        }
        start -= 1;
        let (earlier, _) = ring.part(start);
        begins |= earlier.flags.first;
    }
    (start, begins)
}

/// Where a walk may stop: at a place from this one on and below that one, to which no message goes on.
#[derive(Clone, Copy)]
pub struct Stop {
    pub from: usize,
    pub below: usize,
}

/// Whether a walk may stop at a place.
pub fn stops(ring: &Ring<Head>, stop: Stop, place: usize) -> bool
    ensures { IsTrue result → StopsAt stop place ring.now.list }
{
    stop.from <= place && place < stop.below && breaks(ring, place)
}

/// What a walk over the parts came to: a whole message, a place where it stopped, or the end.
#[derive(Clone, Copy)]
pub enum Walk {
    Whole(Found),
    Stopped(usize),
    Over,
}

/// Walks over the parts from one on, with which no message goes on that begins before it.
pub fn walk_from(ring: &Ring<Head>, from: usize, gapless: bool, top: usize, stop: Stop) -> Walk
    requires start { StartsAt from gapless ring.now.list }
    requires from { from ≤ top }
    requires top { top ≤ length ring.now.list }
    requires unused { All IsUnused (drop top ring.now.list) }
    ensures { IsWalk stop ring.now.list result }
{
    let mut begun = None;
    let mut gapless = gapless;
    for i in from..top {
        if stops(ring, stop, i) {
            return Walk::Stopped(i);
        }
        let (head, bytes) = ring.part(i);
        gapless &= head.used;
        begun = go_on(begun, head, i, bytes.len(), gapless);
        if let Some(b) = ended(begun, head) {
            return Walk::Whole(Found {
                first: b.first,
                count: i + 1 - b.first,
                len: b.len,
            });
        }
    }
    Walk::Over
}
