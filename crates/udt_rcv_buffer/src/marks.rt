// What is kept in mind of a ring's parts, so that no call has to look for it.

ghost use Rattle.std.specs.Prelude.{◌≤◌, length};
ghost use Rattle.udt_rcv_buffer.specs.PlacedParts.{ArePassed};

use crate::head::{CONSUMED, Head, MISSING};
use udt_ring::Ring;

/// How many bytes of the first part's block were given; how many parts from the first on are used,
/// without a gap, and their bytes; and the place of the highest part that is used, plus one.
#[derive(Clone, Copy)]
pub struct Marks {
    pub given: usize,
    pub run: usize,
    pub bytes: usize,
    pub top: usize,
}

// How many of the first parts, within the run, have all their bytes among these many that were given,
// and how many of the given ones are left then.
fn passed(ring: &Ring<Head>, run: usize, given: usize) -> (usize, usize)
    requires { run ≤ length ring.now.list }
    ensures { ArePassed run given result.0 result.1 ring.now.list }
{
    let mut left = given;
    for count in 0..run {
        let (_, bytes) = ring.part(count);
        if bytes.len() > left {
            return (count, left);
        }
        left -= bytes.len();
    }
    (run, left)
}

impl Marks {
    ghost use Rattle.std.specs.Prelude.{◌≡◌, ◌≢◌, ◌+◌, ◌^◌, ◌<◌, ◌≤◌, max, length, if◌then◌else◌, nat_eq};
    ghost use Rattle.udt_model.specs.ReceiveBlocks.{beginning};
    ghost use Rattle.udt_rcv_buffer.specs.PlacedParts.{placed_from, consume_parts, IsSettled};
    ghost use Rattle.udt_rcv_buffer.specs.Marked.{IsMarked, EndsRun, HasBlock};
    ghost use Rattle.udt_ring.specs.Parts.{joined};

    /// Takes in that the part at this place, which wasn't used, has a block of this many bytes now. Where
    /// it follows the run, as most do, it is counted without another look at it.
    pub fn add(&mut self, ring: &Ring<Head>, place: usize, len: usize)
        requires marked { IsMarked (record self.old { top = max self.old.top (place + 1) }) ring.now.list }
        requires block { HasBlock place len ring.now.list }
        requires run { self.old.run ≢ place → EndsRun self.old.run ring.now.list }
        requires few { length ring.now.list ≤ 2 ^ 32 }
        requires fits { length (joined ring.now.list) < 2 ^ 64 }
        ensures marked { IsMarked self.new ring.now.list }
        ensures run { EndsRun self.new.run ring.now.list }
        ensures given { self.new.given ≡ self.old.given }
        ensures top { self.new.top ≡ max self.old.top (place + 1) }
        ensures later { self.old.run ≤ self.new.run }
    {
        self.top = self.top.max(place + 1);
        if self.run == place {
            self.run += 1;
            self.bytes += len;
            self.extend(ring);
        }
    }

    /// Goes on with the run, where it has become longer.
    pub fn extend(&mut self, ring: &Ring<Head>)
        requires { IsMarked self.old ring.now.list }
        ensures marked { IsMarked self.new ring.now.list }
        ensures run { EndsRun self.new.run ring.now.list }
        ensures given { self.new.given ≡ self.old.given }
        ensures top { self.new.top ≡ self.old.top }
        ensures later { self.old.run ≤ self.new.run }
    {
        while self.run < self.top {
            let (head, bytes) = ring.part(self.run);
            if !head.used {
                break;
            }
            self.run += 1;
            self.bytes += bytes.len();
        }
    }

    /// Consumes this many parts from a place on.
    pub fn consume(&mut self, ring: &mut Ring<Head>, at: usize, count: usize)
        requires marked { IsMarked self.old ring.old.list }
        requires within { at + count ≤ length ring.old.list }
        requires few { length ring.old.list ≤ 2 ^ 32 }
        ensures list { ring.new.list ≡ consume_parts at count ring.old.list }
        ensures room { ring.new.room ≡ ring.old.room }
        ensures marked { IsMarked self.new ring.new.list }
        ensures given { self.new.given ≡ (if nat_eq at 0 then 0 else self.old.given) }
        ensures top { self.new.top ≡ max self.old.top (at + count) }
    {
        self.top = self.top.max(at + count);
        for i in 0..count {
            let place = at + i;
            let (_, bytes) = ring.part(place);
            if place < self.run {
                self.bytes -= bytes.len();
            }
            ring.put(place, CONSUMED, &[]);
        }
        if at == 0 {
            self.given = 0;
        }
    }

    /// Frees the first parts, as far as all their bytes were given, and counts the base on.
    pub fn settle(&mut self, ring: &mut Ring<Head>, base: &mut u64)
        requires marked { IsMarked self.old ring.old.list }
        requires run { EndsRun self.old.run ring.old.list }
        requires given { self.old.given ≤ self.old.bytes }
        requires limit { base.old + self.old.top ≤ 2 ^ 62 }
        ensures front { beginning base.old self.old.given (placed_from base.old ring.old.list)
            ≡ record {
              base = base.new;
              given = self.new.given;
              placed = placed_from base.new ring.new.list;
            } }
        ensures marked { IsMarked self.new ring.new.list }
        ensures run { EndsRun self.new.run ring.new.list }
        ensures settled { IsSettled self.new.given ring.new.list }
        ensures limit { base.new + self.new.top ≤ 2 ^ 62 }
        ensures top { base.new + self.new.top ≡ base.old + self.old.top }
        ensures same { base.new ≤ base.old → ring.new.list ≡ ring.old.list }
        ensures len { length ring.new.list ≡ length ring.old.list }
        ensures room { ring.new.room ≡ ring.old.room }
    {
        let (count, left) = passed(ring, self.run, self.given);
        ring.turn(count, MISSING);
        *base += count as u64;
        self.run -= count;
        self.bytes -= self.given - left;
        self.top -= count;
        self.given = left;
    }
}
