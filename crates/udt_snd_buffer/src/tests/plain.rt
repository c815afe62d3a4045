// What is kept, written plainly: a list of blocks with a vector of bytes each.

use crate::Block;
use std::alloc::{AllocError, Global};
use std::collections::VecDeque;
use udt_model::Flags;

#[derive(Drop)]
pub struct PlainBlock {
    bytes: Vec<u8>,
    flags: Flags,
    expires: Option<u64>,
    message: (u64, u64),
}

#[derive(Drop)]
pub struct Plain {
    pub blocks: u64,
    pub payload: usize,
    pub first: u64,
    pub kept: VecDeque<PlainBlock>,
}

impl Plain {
    pub fn accept(
        &mut self,
        alloc: Global,
        bytes: &[u8],
        most: u64,
        message: u32,
        order: bool,
        expires: Option<u64>,
    ) -> Result<usize, AllocError> {
        let mut pieces = Vec::new(alloc);
        for piece in bytes.chunks(self.payload.max(1)) {
            let room = (pieces.len() as u64) < most && self.free() > pieces.len() as u64;
            if room {
                pieces.push(piece)?;
            }
        }
        let count = pieces.len();
        let from = self.first.wrapping_add(self.kept.len() as u64);
        let to = from.wrapping_add(count as u64).wrapping_sub(1);
        let mut taken: usize = 0;
        for (i, piece) in pieces.iter().enumerate() {
            let flags = Flags {
                first: i == 0,
                last: i.wrapping_add(1) == count,
                order,
                message,
            };
            self.kept.push_back(PlainBlock {
                bytes: piece.to_vec(alloc)?,
                flags,
                expires,
                message: (from, to),
            })?;
            taken = taken.wrapping_add(piece.len());
        }
        Ok(taken)
    }

    pub fn block(&self, offset: u64) -> Option<Block<'_>> {
        let block = self.at(offset)?;
        Some(Block {
            bytes: &block.bytes,
            flags: block.flags,
            expires: block.expires,
        })
    }

    pub fn message_of(&self, offset: u64) -> Option<(u64, u64)> {
        Some(self.at(offset)?.message)
    }

    pub fn release_to(&mut self, offset: u64) {
        for _ in self.first..offset {
            let _ = self.kept.pop_front();
        }
        self.first = offset;
    }

    pub fn free(&self) -> u64 {
        self.blocks.saturating_sub(self.kept.len() as u64)
    }

    fn at(&self, offset: u64) -> Option<&PlainBlock> {
        if offset < self.first {
            return None;
        }
        self.kept.get((offset - self.first) as usize)
    }
}
