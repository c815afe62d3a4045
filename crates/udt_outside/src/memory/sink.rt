// An output in memory.

use crate::failed::{Failed, OutOfMemory};
use crate::memory::calls::Calls;
use crate::sink::Sink;
use std::alloc::Global;
use std::marker::Model;

/// An output in memory, with room reserved when it is made, of which a call takes a piece at most.
/// Some calls fail as a list says, and each that finds no room left.
#[derive(Drop)]
pub struct MemorySink {
    bytes: Vec<u8>,
    room: usize,
    piece: usize,
    calls: Calls,
    refused: u64,
}

impl Model for MemorySink {
    ghost use Rattle.std.specs.Prelude.{◌≤◌, ◌<◌, vec_len, vec_capacity};
    ghost use Rattle.udt_outside.specs.Memory.{Output};

    ghost Value = { Output };

    ghost view = { λ s. record {
      taken = s.bytes.items;
      room = s.room;
      piece = s.piece;
      calls = s.calls;
      refused = s.refused;
    } };

    ghost invariant = { λ s. (vec_len s.bytes ≤ s.room)
        × (s.room ≤ vec_capacity s.bytes)
        × (0 < s.piece) };
}

impl MemorySink {
    ghost use Rattle.std.specs.Prelude.{◌≡◌, ◌<◌, [], IfOk};
    ghost use Rattle.udt_outside.specs.Memory.{IsFreshOutput, write_faults};

    /// An empty output, which takes `room` bytes in all and at most `piece` bytes a call, and whose
    /// calls with the numbers in `failing` fail. The first call is number 1.
    pub fn new(
        alloc: Global,
        room: usize,
        piece: usize,
        failing: Vec<u64>,
    ) -> Result<MemorySink, OutOfMemory>
        requires { 0 < piece }
        ensures ok { IfOk result (λ sink. IsFreshOutput sink room piece failing.items) }
    {
        let Ok(bytes) = Vec::with_capacity(alloc, room) else {
            return Err(OutOfMemory);
        };
        Ok(MemorySink {
            bytes,
            room,
            piece,
            calls: Calls::new(failing),
            refused: 0,
        })
    }

    /// The bytes taken so far.
    pub fn taken(&self) -> &[u8]
        ensures { result.now ≡ self.now.taken }
    {
        self.bytes.as_slice()
    }

    /// The bytes taken so far, out of their output.
    pub fn into_bytes(self) -> Vec<u8>
        ensures { result.items ≡ self.taken }
    {
        self.bytes
    }

    /// How many calls failed.
    pub fn failed(&self) -> u64
        ensures { result ≡ write_faults self.now }
    {
        self.calls.failed().saturating_add(self.refused)
    }
}

impl Sink for MemorySink {
    ghost use Rattle.std.specs.Prelude.{◌≡◌, ◌≤◌, ◌<◌, length, is_err, OnErr, OnOk, IfOk};
    ghost use Rattle.udt_outside.specs.Faults.{Rose};
    ghost use Rattle.udt_outside.specs.Streams.{Takes};
    ghost use Rattle.udt_outside.specs.Memory.{took, write_faults, write_fails, taken_of, after_taking, after_failing};

    ghost faults = { write_faults };

    ghost taken = { took };

    fn write(&mut self, bytes: &[u8]) -> Result<usize, Failed>
        ensures faults_stay { write_faults self.old ≤ write_faults self.new }
        ensures faults_kept { OnOk result (write_faults self.new ≡ write_faults self.old) }
        ensures failed { OnErr result (Rose (write_faults self.old) (write_faults self.new)) }
        ensures within { IfOk result (λ n. n ≤ length bytes.now) }
        ensures some { IfOk result (λ n. 0 < length bytes.now → 0 < n) }
        ensures ok { IfOk result (λ n. Takes (took self.old) (took self.new) bytes.now n) }
        ensures err { OnErr result (took self.new ≡ took self.old) }
        ensures fails { is_err result ≡ write_fails self.old bytes.now }
        ensures value { IfOk result (λ n. n ≡ taken_of self.old bytes.now) }
        ensures next { IfOk result (λ n. self.new ≡ after_taking self.old bytes.now n) }
        ensures kept { OnErr result (self.new ≡ after_failing self.old) }
    {
        if self.calls.count() {
            return Err(Failed);
        }
        let space = self.room - self.bytes.len();
        if space == 0 && !bytes.is_empty() {
            self.refused = self.refused.saturating_add(1);
            return Err(Failed);
        }
        let n = self.piece.min(bytes.len()).min(space);
        let _ = self.bytes.extend_from_slice(&bytes[..n]);
        Ok(n)
    }
}
