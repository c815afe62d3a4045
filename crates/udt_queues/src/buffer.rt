// A datagram in a piece of memory that is taken once.

ghost use Rattle.std.specs.Prelude.{◌≡◌, ◌≤◌, length, take, drop, IfOk};
ghost use Rattle.udt_model.specs.State.{Datagram};

use crate::memory::OutOfMemory;
use std::alloc::Global;
use std::marker::Model;
use udt_model::{Addr, Ip};

/// The bytes of a datagram at most.
pub const MOST_BYTES: usize = 9000;

/// Room for one datagram, and the datagram that was written there last. Contracts see that datagram.
#[derive(Drop)]
pub struct Buffer {
    to: Addr,
    memory: Vec<u8>,
    len: usize,
}

impl Model for Buffer {
    ghost use Rattle.udt_model.specs.State.{Datagram};

    ghost Value = { Datagram };

    ghost use Rattle.udt_queues.specs.Buffers.{datagram_of, IsBuffer};

    ghost view = { datagram_of };

    ghost invariant = { IsBuffer };
}

// Writes the bytes at the beginning of the memory.
fn copy_in(memory: &mut [u8], bytes: &[u8])
    requires { length bytes.now ≤ length memory.old }
    ensures bytes { take (length bytes.now) memory.new ≡ bytes.now }
    ensures rest { drop (length bytes.now) memory.new ≡ drop (length bytes.now) memory.old }
{
    let len = bytes.len();
    memory[..len].copy_from_slice(bytes);
}

impl Buffer {
    // A buffer with an empty datagram in it.
    pub(crate) fn new(alloc: Global) -> Result<Buffer, OutOfMemory> {
        let memory = vec![in alloc; 0u8; MOST_BYTES]?;
        let to = Addr {
            ip: Ip::V4(0),
            port: 0,
        };
        Ok(Buffer { to, memory, len: 0 })
    }

    // Writes a datagram into the buffer.
    pub(crate) fn fill(&mut self, to: Addr, bytes: &[u8])
        requires { length bytes.now ≤ MOST_BYTES }
        ensures { self.new ≡ record { addr = to; bytes = bytes.now } }
    {
        self.to = to;
        self.len = bytes.len();
        copy_in(&mut self.memory, bytes);
    }

    // Copies the datagram out.
    pub(crate) fn copy_out(&self, into: &mut [u8]) -> (Addr, usize)
        requires { MOST_BYTES ≤ length into.old }
        ensures value { self.now ≡ record { addr = result.0; bytes = take result.1 into.new } }
        ensures len { result.1 ≤ MOST_BYTES }
        ensures rest { drop result.1 into.new ≡ drop result.1 into.old }
    {
        copy_in(into, &self.memory[..self.len]);
        (self.to, self.len)
    }
}
