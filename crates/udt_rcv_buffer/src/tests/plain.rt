// What was received, written plainly: a list of blocks in no order, which is searched for each
// offset.

use crate::{Got, Placed};
use std::alloc::{AllocError, Global};
use udt_model::Flags;

#[derive(Drop)]
struct PlainBlock {
    offset: u64,
    flags: Flags,
    bytes: Vec<u8>,
    consumed: bool,
}

#[derive(Drop)]
pub struct Plain {
    capacity: u64,
    base: u64,
    given: usize,
    blocks: Vec<PlainBlock>,
}

impl Plain {
    pub fn new(alloc: Global, capacity: u64, base: u64) -> Plain {
        Plain {
            capacity,
            base,
            given: 0,
            blocks: Vec::new(alloc),
        }
    }

    pub fn place(
        &mut self,
        alloc: Global,
        offset: u64,
        flags: Flags,
        bytes: &[u8],
    ) -> Result<Placed, AllocError> {
        if offset < self.base {
            return Ok(Placed::Below);
        }
        if offset >= self.base.saturating_add(self.capacity) {
            return Ok(Placed::Above);
        }
        if self.at(offset).is_some() {
            return Ok(Placed::Double);
        }
        self.blocks.push(PlainBlock {
            offset,
            flags,
            bytes: bytes.to_vec(alloc)?,
            consumed: false,
        })?;
        Ok(Placed::New)
    }

    // one byte after the other
    pub fn read(&mut self, alloc: Global, room: usize) -> Result<Vec<u8>, AllocError> {
        let mut bytes = Vec::new(alloc);
        for _ in 0..room {
            if let Some(block) = self.at(self.base) {
                if let Some(byte) = block.bytes.get(self.given) {
                    bytes.push(*byte)?;
                    self.given = self.given.wrapping_add(1);
                    self.settle();
                }
            }
        }
        Ok(bytes)
    }

    // the offsets of the next message that can be read
    pub fn next_message(&self) -> Option<(u64, u64)> {
        let end = self.base.saturating_add(self.capacity);
        for first in self.base..end {
            if let Some(last) = self.message_from(first, end) {
                return Some((first, last));
            }
        }
        None
    }

    fn message_from(&self, first: u64, end: u64) -> Option<u64> {
        let block = self.at(first)?;
        let blocked = block.flags.order && (self.base..first).any(|n| self.at(n).is_none());
        if !block.flags.first || blocked {
            return None;
        }
        for offset in first..end {
            let next = self.at(offset)?;
            if next.consumed || next.flags.message != block.flags.message {
                return None;
            }
            if next.flags.last {
                return Some(offset);
            }
        }
        None
    }

    pub fn read_message(
        &mut self,
        alloc: Global,
        room: usize,
    ) -> Result<(Got, Vec<u8>), AllocError> {
        let mut bytes = Vec::new(alloc);
        let Some((first, last)) = self.next_message() else {
            return Ok((Got::Nothing, bytes));
        };
        for offset in first..last.saturating_add(1) {
            if let Some(block) = self.at(offset) {
                bytes.extend_from_slice(&block.bytes)?;
            }
        }
        let len = bytes.len();
        if len > room {
            return Ok((Got::TooLarge(len), Vec::new(alloc)));
        }
        self.skip(alloc, first, last)?;
        Ok((Got::Whole(len), bytes))
    }

    pub fn skip(&mut self, alloc: Global, first: u64, last: u64) -> Result<(), AllocError> {
        for offset in first.max(self.base)..last.saturating_add(1) {
            self.blocks.retain(|block| block.offset != offset);
            let flags = Flags {
                first: false,
                last: false,
                order: false,
                message: 0,
            };
            self.blocks.push(PlainBlock {
                offset,
                flags,
                bytes: Vec::new(alloc),
                consumed: true,
            })?;
            if offset == self.base {
                self.given = 0;
            }
        }
        self.settle();
        Ok(())
    }

    pub fn waiting(&self) -> u64 {
        let mut waiting: usize = 0;
        for offset in self.base..self.base.saturating_add(self.capacity) {
            let Some(block) = self.at(offset) else {
                break;
            };
            waiting = waiting.wrapping_add(block.bytes.len());
        }
        waiting.wrapping_sub(self.given) as u64
    }

    pub fn base(&self) -> u64 {
        self.base
    }

    fn at(&self, offset: u64) -> Option<&PlainBlock> {
        self.blocks.iter().find(|block| block.offset == offset)
    }

    // passes over the blocks at the base of which no byte is left
    fn settle(&mut self) {
        for _ in 0..self.capacity {
            let Some(block) = self.at(self.base) else {
                return;
            };
            if self.given < block.bytes.len() {
                return;
            }
            let base = self.base;
            self.blocks.retain(|block| block.offset != base);
            self.base = base.wrapping_add(1);
            self.given = 0;
        }
    }
}
