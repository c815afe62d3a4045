// Where files are read and written by name.

use crate::failed::Failed;
use crate::sink::Sink;
use crate::source::Source;

/// What became of the wish to make a file.
#[derive(Clone, Copy, Debug, Drop)]
pub enum Create<O> {
    /// The end that writes the new file.
    Made(O),
    /// There is something of that name.
    Exists,
}

/// A folder of files. The ends that it gives are taken back by `done` and `keep`.
pub trait Folder {
    ghost use Rattle.std.specs.Prelude.{◌≡◌, ℕ, ◌≤◌, List, Option, OnErr, OnOk, IfOk};
    ghost use Rattle.udt_outside.specs.Faults.{Rose, with_faults};
    ghost use Rattle.udt_outside.specs.Options.{HasNone, Tells};
    ghost use Rattle.udt_outside.specs.Folders.{Files, Opens, IsNewName, IfMade, OnExists, Keeps};

    type In: Source;

    type Out: Sink;

    ghost faults: { Self → ℕ };

    // how many answers were Exists
    ghost met: { Self → ℕ };

    ghost files: { Self → Option Files };

    // the number that the last Ok of `open_read` gave
    ghost told: { Self → Option ℕ };

    // what the end that `done` last took back had left
    ghost unread: { Self → Option (List ℕ) };

    /// Opens a file for reading, and answers its length in bytes.
    fn open_read(&mut self, name: &str) -> Result<(u64, Self::In), Failed>
        ensures faults_stay { faults self.old ≤ faults self.new }
        ensures faults_kept { OnOk result (faults self.new ≡ faults self.old) }
        ensures failed { OnErr result (Rose (faults self.old) (faults self.new)) }
        ensures met_stay { met self.old ≤ met self.new }
        ensures ok { IfOk result (λ r. Opens (files self.old) name.now r.0 (Self.In.left r.1)) }
        ensures no_faults { IfOk result (λ r. Self.In.faults r.1 ≡ 0) }
        ensures files_kept { files self.new ≡ files self.old }
        ensures told { IfOk result (λ r. Tells (told self.new) r.0) }
        ensures told_kept { OnErr result (told self.new ≡ told self.old) }
        ensures unread_kept { unread self.new ≡ unread self.old };

    /// Makes an end that writes a new file, which has its name once the end is kept.
    fn create(&mut self, name: &str) -> Result<Create<Self::Out>, Failed>
        ensures faults_stay { faults self.old ≤ faults self.new }
        ensures faults_kept { OnOk result (faults self.new ≡ faults self.old) }
        ensures failed { OnErr result (Rose (faults self.old) (faults self.new)) }
        ensures met_stay { met self.old ≤ met self.new }
        ensures exists { IfOk result (λ c. OnExists c (Rose (met self.old) (met self.new))) }
        ensures made { IfOk result (λ c. IfMade c (λ out. IsNewName (files self.old) name.now)) }
        ensures no_faults { IfOk result (λ c. IfMade c (λ out. Self.Out.faults out ≡ 0)) }
        ensures none_taken { IfOk result (λ c. IfMade c (λ out. HasNone (Self.Out.taken out))) }
        ensures files_kept { files self.new ≡ files self.old }
        ensures told_kept { told self.new ≡ told self.old }
        ensures unread_kept { unread self.new ≡ unread self.old };

    /// Takes an end back, and makes what it took the file of this name.
    fn keep(&mut self, name: &str, file: Self::Out)
        ensures faults_stay { faults self.old ≤ faults self.new }
        ensures included { with_faults (faults self.old) (Self.Out.faults file) ≤ faults self.new }
        ensures met_stay { met self.old ≤ met self.new }
        ensures files { Keeps (files self.old) (files self.new) name.now (Self.Out.taken file) }
        ensures told_kept { told self.new ≡ told self.old }
        ensures unread_kept { unread self.new ≡ unread self.old };

    /// Takes an end back that was read.
    fn done(&mut self, file: Self::In)
        ensures faults_stay { faults self.old ≤ faults self.new }
        ensures included { with_faults (faults self.old) (Self.In.faults file) ≤ faults self.new }
        ensures met_stay { met self.old ≤ met self.new }
        ensures files_kept { files self.new ≡ files self.old }
        ensures told_kept { told self.new ≡ told self.old }
        ensures unread { unread self.new ≡ Self.In.left file };
}
