// An input in memory.

use crate::failed::Failed;
use crate::memory::calls::Calls;
use crate::source::Source;
use std::marker::Model;

/// An input in memory, of which a call gives a piece at most, and some calls fail as a list says.
#[derive(Drop)]
pub struct MemorySource {
    bytes: Vec<u8>,
    at: usize,
    piece: usize,
    calls: Calls,
}

impl Model for MemorySource {
    ghost use Rattle.std.specs.Prelude.{◌≤◌, ◌<◌, drop, vec_len};
    ghost use Rattle.udt_outside.specs.Memory.{Input};

    ghost Value = { Input };

    ghost view = { λ s. record {
      left = drop s.at s.bytes.items;
      piece = s.piece;
      calls = s.calls;
    } };

    ghost invariant = { λ s. (s.at ≤ vec_len s.bytes) × (0 < s.piece) };
}

impl MemorySource {
    ghost use Rattle.std.specs.Prelude.{◌≡◌, ◌<◌};
    ghost use Rattle.udt_outside.specs.Memory.{read_faults};

    /// An input of these bytes, which gives at most `piece` bytes a call, and whose calls with the
    /// numbers in `failing` fail. The first call is number 1.
    pub fn new(bytes: Vec<u8>, piece: usize, failing: Vec<u64>) -> MemorySource
        requires { 0 < piece }
        ensures left { result.left ≡ bytes.items }
        ensures piece { result.piece ≡ piece }
        ensures failing { result.calls.failing ≡ failing.items }
        ensures none_made { result.calls.made ≡ 0 }
    {
        MemorySource {
            bytes,
            at: 0,
            piece,
            calls: Calls::new(failing),
        }
    }

    /// How many calls failed.
    pub fn failed(&self) -> u64
        ensures { result ≡ read_faults self.now }
    {
        self.calls.failed()
    }
}

impl Source for MemorySource {
    ghost use Rattle.std.specs.Prelude.{◌≡◌, ◌≤◌, length, take, is_err, OnErr, OnOk, IfOk};
    ghost use Rattle.udt_outside.specs.Faults.{Rose};
    ghost use Rattle.udt_outside.specs.Streams.{Gives, EndsOnlyWhenEmpty};
    ghost use Rattle.udt_outside.specs.Calls.{fails_next};
    ghost use Rattle.udt_outside.specs.Memory.{to_give, read_faults, given_of, after_giving};

    ghost faults = { read_faults };

    ghost left = { to_give };

    fn read(&mut self, into: &mut [u8]) -> Result<usize, Failed>
        ensures faults_stay { read_faults self.old ≤ read_faults self.new }
        ensures faults_kept { OnOk result (read_faults self.new ≡ read_faults self.old) }
        ensures failed { OnErr result (Rose (read_faults self.old) (read_faults self.new)) }
        ensures within { IfOk result (λ n. n ≤ length into.old) }
        ensures ok { IfOk result (λ n. Gives (to_give self.old) (to_give self.new) into.new n) }
        ensures end { IfOk result (λ n. EndsOnlyWhenEmpty (to_give self.old) (length into.old) n) }
        ensures err { OnErr result (to_give self.new ≡ to_give self.old) }
        ensures fails_by_list { is_err result ≡ fails_next self.old.calls }
        ensures value { IfOk result (λ n. n ≡ given_of self.old (length into.old)) }
        ensures next { IfOk result (λ n. self.new ≡ after_giving self.old n) }
        ensures kept { OnErr result (self.new ≡ after_giving self.old 0) }
    {
        if self.calls.count() {
            return Err(Failed);
        }
        let rest = &self.bytes[self.at..];
        let n = self.piece.min(into.len()).min(rest.len());
        into[..n].copy_from_slice(&rest[..n]);
        self.at += n;
        Ok(n)
    }
}
