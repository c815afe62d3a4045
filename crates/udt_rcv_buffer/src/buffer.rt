// The blocks that were received, and what is done with them.

ghost use Rattle.std.specs.Prelude.{◌≡◌, ◌↔◌, ◌+◌, ◌-◌, ◌^◌, ◌<◌, ◌≤◌, min, true, [], ◌++◌, length, take, drop, IsTrue, IsSome, IfOk};
ghost use Rattle.udt_model.specs.ReceiveBlocks.{is_taken, placing_of, after_place, waiting_of, after_bytes, after_skip, next_message as next_of, after_read_message};

use crate::OutOfMemory;
use crate::answers::Got;
use crate::copies::copy_out;
use crate::head::{Head, MISSING};
use crate::marks::Marks;
use crate::next::Next;
use std::alloc::Global;
use std::marker::Model;
use udt_model::{Flags, Kind, Placed};
use udt_ring::Ring;

/// The blocks of a receiver, from their arrival until their bytes are read. It takes all its memory
/// at once, and a block stays where it is until it is consumed.
///
/// A stream's bytes are given by `read`, messages by `read_message`; `skip` passes over offsets
/// that needn't come any more.
#[derive(Drop)]
pub struct RcvBuffer {
    ring: Ring<Head>,
    base: u64,
    marks: Marks,
    next: Next,
}

impl Model for RcvBuffer {
    ghost use Rattle.udt_model.specs.ReceiveBlocks.{ReceiveBlocks};

    ghost Value = { ReceiveBlocks };

    ghost use Rattle.udt_rcv_buffer.specs.Buffers.{received_of, IsReceived};

    ghost view = { received_of };

    ghost invariant = { IsReceived };
}

impl RcvBuffer {
    ghost use Rattle.udt_rcv_buffer.specs.Answers.{got_of, shown_in};
    ghost use Rattle.udt_rcv_buffer.specs.Moves.{BaseMoves, none, range_of};
    ghost use Rattle.udt_rcv_buffer.specs.Room.{KeepsRoom};

    /// Takes the memory of this many blocks with this many bytes each, of a stream or of messages.
    /// `start` is the first offset.
    pub fn new(
        alloc: Global,
        kind: Kind,
        blocks: u32,
        payload: u32,
        start: u64,
    ) -> Result<RcvBuffer, OutOfMemory>
        requires { start ≤ 2 ^ 60 }
        ensures { IfOk result (λ buffer. buffer ≡ record {
          payload = payload;
          capacity = blocks;
          base = start;
          given = 0;
          placed = [];
        }) }
    {
        let ring = Ring::new(alloc, blocks, payload, MISSING)?;
        let marks = Marks {
            given: 0,
            run: 0,
            bytes: 0,
            top: 0,
        };
        let next = Next {
            kept: kind == Kind::Message,
            found: None,
        };
        Ok(RcvBuffer {
            ring,
            base: start,
            marks,
            next,
        })
    }

    /// Places a block at its offset, where there is none yet and there is room for it.
    #[inline(always)]
    pub fn place(&mut self, offset: u64, flags: Flags, bytes: &[u8]) -> Placed
        requires some { 0 < length bytes.now }
        requires short { length bytes.now ≤ self.old.payload }
        requires limit { offset < 2 ^ 62 }
        ensures value { result ≡ placing_of self.old offset }
        ensures next { self.new ≡ after_place self.old offset flags bytes.now }
        ensures base { BaseMoves none self.old self.new }
        ensures kept { KeepsRoom self.old self.new }
    {
        if offset < self.base {
            return Placed::Below;
        }
        if offset - self.base >= self.ring.count() as u64 {
            return Placed::Above;
        }
        let place = (offset - self.base) as usize;
        let (head, _) = self.ring.part(place);
        if head.used {
            return Placed::Double;
        }
        let head = Head {
            used: true,
            consumed: false,
            flags,
        };
        self.ring.put(place, head, bytes);
        self.marks.add(&self.ring, place, bytes.len());
        self.next.add(&self.ring, &self.marks, place);
        Placed::New
    }

    /// Gives the bytes that follow one another from the base on, as far as there is room, and
    /// answers how many.
    pub fn read(&mut self, into: &mut [u8]) -> usize
        ensures value { result ≡ min (length into.old) (length (waiting_of self.old)) }
        ensures into { into.new ≡ take result (waiting_of self.old) ++ drop result into.old }
        ensures next { self.new ≡ after_bytes self.old result }
        ensures rest { waiting_of self.new ≡ drop result (waiting_of self.old) }
        ensures nothing { result ≡ 0 → self.new ≡ self.old }
        ensures base { BaseMoves none self.old self.new }
        ensures kept { KeepsRoom self.old self.new }
    {
        let count = into.len().min(self.marks.bytes - self.marks.given);
        copy_out(&self.ring, 0, self.marks.given, count, into);
        self.marks.given += count;
        self.marks.settle(&mut self.ring, &mut self.base);
        self.next.renew(&self.ring, &self.marks);
        count
    }

    /// Gives the next message that can be read, where there is room for it.
    pub fn read_message(&mut self, into: &mut [u8]) -> Got
        ensures value { result ≡ got_of (length into.old) (next_of self.old) }
        ensures into { into.new ≡ shown_in into.old (next_of self.old) }
        ensures next { self.new ≡ after_read_message self.old (length into.old) }
        ensures base { BaseMoves none self.old self.new }
        ensures kept { KeepsRoom self.old self.new }
    {
        let Some(found) = self.next.find(&self.ring, &self.marks) else {
            return Got::Nothing;
        };
        if found.len > into.len() {
            return Got::TooLarge(found.len);
        }
        copy_out(&self.ring, found.first, 0, found.len, into);
        let base = self.base;
        self.marks.consume(&mut self.ring, found.first, found.count);
        self.marks.extend(&self.ring);
        self.marks.settle(&mut self.ring, &mut self.base);
        let moved = self.base > base;
        self.next
            .consume(&self.ring, &self.marks, found.first, found.count, moved);
        Got::Whole(found.len)
    }

    /// Consumes all offsets of a range, whether a block was placed there or not.
    pub fn skip(&mut self, first: u64, last: u64)
        requires within { last < self.old.base + self.old.capacity }
        requires limit { last < 2 ^ 62 }
        ensures next { self.new ≡ after_skip self.old first last }
        ensures base { BaseMoves (range_of first last) self.old self.new }
        ensures kept { KeepsRoom self.old self.new }
    {
        let from = first.max(self.base);
        if last < from {
            return;
        }
        let place = (from - self.base) as usize;
        let count = (last - from) as usize + 1;
        let base = self.base;
        self.marks.consume(&mut self.ring, place, count);
        self.marks.extend(&self.ring);
        self.marks.settle(&mut self.ring, &mut self.base);
        let moved = self.base > base;
        self.next
            .consume(&self.ring, &self.marks, place, count, moved);
    }

    /// How many bytes wait to be read.
    pub fn waiting(&self) -> u64
        ensures { result ≡ length (waiting_of self.now) }
    {
        (self.marks.bytes - self.marks.given) as u64
    }

    /// Whether a message can be read.
    pub fn readable(&self) -> bool
        ensures { IsTrue result ↔ IsSome (next_of self.now) }
    {
        self.next.find(&self.ring, &self.marks).is_some()
    }

    /// The first offset that isn't consumed.
    pub fn base(&self) -> u64
        ensures value { result ≡ self.now.base }
        ensures limit { result ≤ 2 ^ 62 }
    {
        self.base
    }

    /// How many offsets from the base on there is room for.
    pub fn capacity(&self) -> u64
        ensures { result ≡ self.now.capacity }
    {
        self.ring.count() as u64
    }

    /// How many offsets from this one on there is room for.
    pub fn free(&self, ack: u64) -> u64
        requires from { self.now.base ≤ ack }
        requires to { ack ≤ self.now.base + self.now.capacity }
        ensures { result ≡ self.now.capacity - (ack - self.now.base) }
    {
        self.ring.count() as u64 - (ack - self.base)
    }
}
