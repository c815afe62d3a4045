// Where input comes from.

ghost use Rattle.std.specs.Prelude.{◌≡◌, ℕ, ◌≤◌, List, Option, length, OnErr, OnOk, IfOk};
ghost use Rattle.udt_outside.specs.Faults.{Rose};
ghost use Rattle.udt_outside.specs.Streams.{Gives, EndsOnlyWhenEmpty};

use crate::failed::Failed;

/// An input that is read piece by piece. `Ok(0)` for a non-empty `into` is its end.
pub trait Source {
    ghost faults: { Self → ℕ };

    ghost left: { Self → Option (List ℕ) };

    /// Moves the next bytes of the input to the front of `into`, and answers how many.
    fn read(&mut self, into: &mut [u8]) -> Result<usize, Failed>
        ensures faults_stay { faults self.old ≤ faults self.new }
        ensures faults_kept { OnOk result (faults self.new ≡ faults self.old) }
        ensures failed { OnErr result (Rose (faults self.old) (faults self.new)) }
        ensures within { IfOk result (λ n. n ≤ length into.old) }
        ensures ok { IfOk result (λ n. Gives (left self.old) (left self.new) into.new n) }
        ensures end { IfOk result (λ n. EndsOnlyWhenEmpty (left self.old) (length into.old) n) }
        ensures err { OnErr result (left self.new ≡ left self.old) };
}
