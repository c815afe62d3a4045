// Datagrams that wait, in buffers that were made with the network.

use std::alloc::{AllocError, Global};
use std::marker::Model;
use udt_model::Addr;

/// No longer datagram reaches an end, in bytes.
pub const MOST_BYTES: usize = 9_000;

/// A datagram in a buffer with room for the longest one. Contracts see it with its sender.
#[derive(Drop)]
pub(crate) struct Stored {
    from: Addr,
    bytes: Vec<u8>,
}

impl Model for Stored {
    ghost use Rattle.std.specs.Prelude.{◌≤◌, vec_len, vec_capacity};
    ghost use Rattle.udt_model.specs.State.{Datagram};
    ghost use Rattle.udt_net.specs.Networks.{most_bytes};

    ghost Value = { Datagram };

    ghost view = { λ s. record { addr = s.from; bytes = s.bytes.items } };

    ghost invariant = { λ s. (vec_len s.bytes ≤ most_bytes) × (most_bytes ≤ vec_capacity s.bytes) };
}

impl Stored {
    ghost use Rattle.std.specs.Prelude.{◌≡◌, ◌≤◌, length, take};
    ghost use Rattle.udt_net.specs.Networks.{most_bytes};

    // An empty buffer.
    pub(crate) fn new(alloc: Global, from: Addr) -> Result<Stored, AllocError> {
        let bytes = Vec::with_capacity(alloc, MOST_BYTES)?;
        Ok(Stored { from, bytes })
    }

    // Puts another datagram in its place.
    pub(crate) fn fill(&mut self, from: Addr, bytes: &[u8])
        requires { length bytes.now ≤ most_bytes }
        ensures { self.new ≡ record { addr = from; bytes = bytes.now } }
    {
        self.from = from;
        self.bytes.clear();
        match self.bytes.extend_from_slice(bytes) {
            Ok(()) => {}
            Err(_) => unreachable!(),
        }
    }

    // Copies the bytes to the start of the buffer, and answers how many they are, and from whom.
    pub(crate) fn copy_to(&self, into: &mut [u8]) -> (usize, Addr)
        requires { most_bytes ≤ length into.old }
        ensures within { result.0 ≤ most_bytes }
        ensures bytes { take result.0 into.new ≡ self.now.bytes }
        ensures from { result.1 ≡ self.now.addr }
    {
        let len = self.bytes.len();
        into[..len].copy_from_slice(&self.bytes);
        (len, self.from)
    }
}
