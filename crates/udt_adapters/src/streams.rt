// Inputs and outputs over readers and writers, which count their faults and tell nothing of their bytes.

ghost use Rattle.std.specs.Prelude.{◌≡◌, ◌≤◌, ◌<◌, length, None, OnErr, OnOk, IfOk};
ghost use Rattle.std.specs.Io.KnownBytes.{ReadConsumes, WriteAppends};
ghost use Rattle.udt_adapters.specs.Counts.{one_more};

use std::io::{Read, Write};
use udt_outside::{Failed, Sink, Source};

/// An input over a reader. Its count of faults ends at 2^64 - 1.
#[derive(Drop)]
pub struct Input<R> {
    reader: R,
    failed: u64,
}

impl<R> Input<R> {
    /// An input that has not failed.
    pub fn new(reader: R) -> Input<R>
        ensures reader { result.reader ≡ reader }
        ensures failed { result.failed ≡ 0 }
    {
        Input { reader, failed: 0 }
    }

    /// How many reads failed.
    pub fn failed(&self) -> u64
        ensures { result ≡ self.now.failed }
    {
        self.failed
    }
}

impl<R: Read> Source for Input<R> {
    ghost faults = { λ s. s.failed };

    ghost left = { λ s. None };

    fn read(&mut self, into: &mut [u8]) -> Result<usize, Failed>
        ensures faults_stay { self.old.failed ≤ self.new.failed }
        ensures faults_kept { OnOk result (self.new.failed ≡ self.old.failed) }
        ensures failed { OnErr result (self.new.failed ≡ one_more self.old.failed) }
        ensures within { IfOk result (λ n. n ≤ length into.old) }
        ensures known { ReadConsumes
            (R.remaining self.old.reader) (R.remaining self.new.reader) result into.new }
    {
        match self.reader.read(into) {
            Ok(n) => Ok(n),
            Err(_) => {
                self.failed = self.failed.saturating_add(1);
                Err(Failed)
            }
        }
    }
}

/// An output over a writer that keeps no bytes back. Its count of faults ends at 2^64 - 1.
#[derive(Drop)]
pub struct Output<W> {
    writer: W,
    failed: u64,
}

impl<W> Output<W> {
    /// An output that has not failed.
    pub fn new(writer: W) -> Output<W>
        ensures writer { result.writer ≡ writer }
        ensures failed { result.failed ≡ 0 }
    {
        Output { writer, failed: 0 }
    }

    /// How many writes failed.
    pub fn failed(&self) -> u64
        ensures { result ≡ self.now.failed }
    {
        self.failed
    }

    /// The writer.
    pub fn writer(&self) -> &W
        ensures { result.now ≡ self.now.writer }
    {
        &self.writer
    }
}

impl<W: Write> Sink for Output<W> {
    ghost faults = { λ s. s.failed };

    ghost taken = { λ s. None };

    /// A writer that takes no byte of some has failed.
    fn write(&mut self, bytes: &[u8]) -> Result<usize, Failed>
        ensures faults_stay { self.old.failed ≤ self.new.failed }
        ensures faults_kept { OnOk result (self.new.failed ≡ self.old.failed) }
        ensures failed { OnErr result (self.new.failed ≡ one_more self.old.failed) }
        ensures within { IfOk result (λ n. n ≤ length bytes.now) }
        ensures some { IfOk result (λ n. 0 < length bytes.now → 0 < n) }
        ensures known { WriteAppends
            (W.contents self.old.writer) (W.contents self.new.writer) result bytes.now }
    {
        match self.writer.write(bytes) {
            Ok(n) if n > 0 || bytes.is_empty() => Ok(n),
            _ => {
                self.failed = self.failed.saturating_add(1);
                Err(Failed)
            }
        }
    }
}
