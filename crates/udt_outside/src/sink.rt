// Where output goes.

ghost use Rattle.std.specs.Prelude.{◌≡◌, ℕ, ◌≤◌, ◌<◌, List, Option, length, OnErr, OnOk, IfOk};
ghost use Rattle.udt_outside.specs.Faults.{Rose};
ghost use Rattle.udt_outside.specs.Streams.{Takes};

use crate::failed::Failed;

/// An output that is written piece by piece.
pub trait Sink {
    ghost faults: { Self → ℕ };

    ghost taken: { Self → Option (List ℕ) };

    /// Takes bytes from the front of `bytes`, and answers how many.
    fn write(&mut self, bytes: &[u8]) -> Result<usize, Failed>
        ensures faults_stay { faults self.old ≤ faults self.new }
        ensures faults_kept { OnOk result (faults self.new ≡ faults self.old) }
        ensures failed { OnErr result (Rose (faults self.old) (faults self.new)) }
        ensures within { IfOk result (λ n. n ≤ length bytes.now) }
        ensures some { IfOk result (λ n. 0 < length bytes.now → 0 < n) }
        ensures ok { IfOk result (λ n. Takes (taken self.old) (taken self.new) bytes.now n) }
        ensures err { OnErr result (taken self.new ≡ taken self.old) };
}
