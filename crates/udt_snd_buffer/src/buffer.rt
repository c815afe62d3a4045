// The blocks that are kept, and what is done with them.

ghost use Rattle.std.specs.Prelude.{◌≡◌, ◌+◌, ◌^◌, ◌<◌, ◌≤◌, [], ◌++◌, length, take, map, option_map, IfOk, IfSome, MatchOption, Some, None};
ghost use Rattle.udt_model.specs.SendBlocks.{kept_bytes, end_of, free_of, accepted_of, count_for, after_accept, kept_at, message_at, after_release, blocks_of};
ghost use Rattle.udt_snd_buffer.specs.KeptParts.{kept_block_of, message_of_head};

use crate::OutOfMemory;
use crate::head::{Head, NO_HEAD};
use std::alloc::Global;
use std::marker::Model;
use udt_model::Flags;
use udt_ring::Ring;

/// A kept block: its bytes, its flags, and the moment after which its message isn't retransmitted, in
/// microseconds.
#[derive(Clone, Copy, Debug, PartialEq, Eq)]
pub struct Block<'a> {
    pub bytes: &'a [u8],
    pub flags: Flags,
    pub expires: Option<u64>,
}

/// The blocks of a sender, from the call that gives their bytes until they are acknowledged. It
/// takes all its memory at once, and a block stays where it is until it is released. The memory of
/// the blocks that were released last is used first.
#[derive(Drop)]
pub struct SndBuffer {
    ring: Ring<Head>,
    payload: usize,
    first: u64,
    kept: usize,
}

impl Model for SndBuffer {
    ghost use Rattle.udt_model.specs.SendBlocks.{SendBlocks};

    ghost Value = { SendBlocks };

    ghost use Rattle.udt_snd_buffer.specs.Buffers.{send_blocks_of, IsBuffer};

    ghost view = { send_blocks_of };

    ghost invariant = { IsBuffer };
}

// Keeps this many blocks of a message after those that are kept: the next bytes in each, as many as
// there are up to the payload. The head is that of the message's middle blocks.
fn keep(
    ring: &mut Ring<Head>,
    kept: usize,
    count: usize,
    offset: u64,
    payload: usize,
    head: Head,
    bytes: &[u8],
)
    requires room { payload ≤ ring.old.room }
    requires free { kept + count ≤ length ring.old.list }
    requires few { length ring.old.list ≤ 2 ^ 32 }
    requires offsets { offset + count < 2 ^ 64 }
    ensures kept { map kept_block_of (take (kept + count) ring.new.list)
        ≡ map kept_block_of (take kept ring.old.list)
        ++ blocks_of (message_of_head head) payload offset count bytes.now }
    ensures len { length ring.new.list ≡ length ring.old.list }
    ensures same { ring.new.room ≡ ring.old.room }
{
    let mut rest = bytes;
    for i in 0..count {
        let (piece, others) = rest.split_at(payload.min(rest.len()));
        let at = offset + i as u64;
        let flags = Flags {
            first: at == head.first,
            last: at == head.last,
            ..head.flags
        };
        ring.put(kept + i, Head { flags, ..head }, piece);
        rest = others;
    }
}

impl SndBuffer {
    ghost use Rattle.udt_snd_buffer.specs.Shown.{shown, shown_of};

    /// Takes the memory of this many blocks with this many bytes each. The first block that is accepted
    /// has the offset `start`.
    pub fn new(
        alloc: Global,
        blocks: u32,
        payload: u32,
        start: u64,
    ) -> Result<SndBuffer, OutOfMemory>
        requires { 0 < payload }
        ensures { IfOk result (λ buffer. buffer ≡ record {
          blocks = blocks;
          room = payload;
          payload = payload;
          first = start;
          kept = [];
        }) }
    {
        let ring = Ring::new(alloc, blocks, payload, NO_HEAD)?;
        Ok(SndBuffer {
            ring,
            payload: payload as usize,
            first: start,
            kept: 0,
        })
    }

    /// From now on blocks have at most this many bytes.
    pub fn set_payload(&mut self, payload: u32)
        requires nothing_kept { self.old.kept ≡ [] }
        requires some { 0 < payload }
        requires room { payload ≤ self.old.room }
        ensures { self.new ≡ record self.old { payload = payload } }
    {
        self.payload = payload as usize;
    }

    /// Cuts the bytes into blocks of one message, takes as many as fit into the free blocks and no
    /// more than `most`, and answers how many bytes it took.
    pub fn accept(
        &mut self,
        bytes: &[u8],
        most: u64,
        message: u32,
        order: bool,
        expires: Option<u64>,
    ) -> usize
        requires { end_of self.old + most < 2 ^ 64 }
        ensures value { result ≡ accepted_of self.old (length bytes.now) most }
        ensures next { self.new ≡ after_accept self.old bytes.now most message order expires }
        ensures bytes { kept_bytes self.new ≡ kept_bytes self.old ++ take result bytes.now }
    {
        let blocks = self.free().min(most) as usize;
        let taken = bytes.len().min(blocks * self.payload);
        let count = taken.div_ceil(self.payload);
        let end = self.first + self.kept as u64;
        let head = Head {
            flags: Flags {
                first: false,
                last: false,
                order,
                message,
            },
            expires,
            first: end,
            last: (end + count as u64).saturating_sub(1),
        };
        keep(
            &mut self.ring,
            self.kept,
            count,
            end,
            self.payload,
            head,
            &bytes[..taken],
        );
        self.kept += count;
        taken
    }

    /// The kept block of an offset.
    pub fn block(&self, offset: u64) -> Option<Block<'_>>
        ensures value { option_map shown result ≡ option_map shown_of (kept_at self.now offset) }
        ensures some { IfSome result (λ block. 0 < length block.bytes.now) }
        ensures short { IfSome result (λ block. length block.bytes.now ≤ self.now.payload) }
    {
        let (head, bytes) = self.part(offset)?;
        Some(Block {
            bytes,
            flags: head.flags,
            expires: head.expires,
        })
    }

    /// The offsets of the first and the last block of the message to which the kept block of an
    /// offset belongs. They may be released by now.
    pub fn message_of(&self, offset: u64) -> Option<(u64, u64)>
        ensures { result ≡ message_at self.now offset }
    {
        let (head, _) = self.part(offset)?;
        Some((head.first, head.last))
    }

    /// Releases all blocks below an offset. No byte moves.
    pub fn release_to(&mut self, offset: u64)
        requires from { self.old.first ≤ offset }
        requires to { offset ≤ end_of self.old }
        ensures { self.new ≡ after_release self.old offset }
    {
        let count = (offset - self.first) as usize;
        self.ring.turn(count, NO_HEAD);
        self.first = offset;
        self.kept -= count;
    }

    /// How many blocks may be kept.
    pub fn blocks(&self) -> u64
        ensures { result ≡ self.now.blocks }
    {
        self.ring.count() as u64
    }

    /// How many bytes a block has room for.
    pub fn room(&self) -> usize
        ensures value { result ≡ self.now.room }
        ensures few { result < 2 ^ 32 }
    {
        self.ring.room()
    }

    /// How many blocks this many bytes fill.
    pub fn blocks_for(&self, len: usize) -> u64
        ensures { result ≡ count_for len self.now.payload }
    {
        len.div_ceil(self.payload) as u64
    }

    /// How many more blocks there is room for.
    pub fn free(&self) -> u64
        ensures { result ≡ free_of self.now }
    {
        (self.ring.count() - self.kept) as u64
    }

    /// The offset of the first kept block, and how many are kept.
    pub fn kept(&self) -> (u64, u64)
        ensures value { result ≡ (self.now.first, length self.now.kept) }
        ensures fits { self.now.first + length self.now.kept < 2 ^ 64 }
    {
        (self.first, self.kept as u64)
    }

    // The head and the bytes of the kept block of an offset.
    fn part(&self, offset: u64) -> Option<(Head, &[u8])>
        ensures value { MatchOption result (kept_at self.now offset ≡ None)
            (λ p. kept_at self.now offset
            ≡ Some (kept_block_of (record { head = p.0; bytes = p.1.now }))) }
        ensures some { IfSome result (λ p. 0 < length p.1.now) }
        ensures short { IfSome result (λ p. length p.1.now ≤ self.now.payload) }
    {
        if offset < self.first || offset - self.first >= self.kept as u64 {
            return None;
        }
        Some(self.ring.part((offset - self.first) as usize))
    }
}
