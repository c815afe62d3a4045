// Files of the system.

ghost use Rattle.std.specs.Prelude.{◌≡◌};

use crate::streams::{Input, Output};
use std::fs::{File, OpenFile};
use std::io::ErrorKind;
use std::{io, rt};
use udt_outside::{Create, Failed, Folder};

/// The files of the system, by their paths. Its counts of faults and of names met end at 2^64 - 1.
#[derive(Drop)]
pub struct Files<R> {
    rt: R,
    failed: u64,
    met: u64,
    // the length that the last opening gave
    told: Option<u64>,
}

impl<R: rt::Files> Files<R> {
    ghost use Rattle.std.specs.Prelude.{◌≡◌, None, IfOk};

    /// A folder of which no call has failed and no name was met.
    pub fn new(rt: R) -> Files<R>
        ensures failed { result.failed ≡ 0 }
        ensures met { result.met ≡ 0 }
        ensures told { result.told ≡ None }
    {
        Files {
            rt,
            failed: 0,
            met: 0,
            told: None,
        }
    }

    fn open(&self, name: &str) -> io::Result<(u64, Input<R::File>)>
        ensures { IfOk result (λ r. r.1.failed ≡ 0) }
    {
        let file = File::open(&self.rt, name)?;
        let len = file.metadata()?.len();
        Ok((len, Input::new(file)))
    }
}

impl<R: rt::Files> Folder for Files<R> {
    ghost use Rattle.std.specs.Prelude.{◌≡◌, ◌≤◌, None, OnErr, OnOk, IfOk};
    ghost use Rattle.udt_outside.specs.Faults.{with_faults};
    ghost use Rattle.udt_outside.specs.Options.{Tells};
    ghost use Rattle.udt_outside.specs.Folders.{IfMade};
    ghost use Rattle.udt_adapters.specs.Counts.{one_more, met_after};

    type In = Input<R::File>;

    type Out = Output<R::File>;

    ghost faults = { λ s. s.failed };

    ghost met = { λ s. s.met };

    ghost files = { λ s. None };

    ghost told = { λ s. s.told };

    ghost unread = { λ s. None };

    fn open_read(&mut self, name: &str) -> Result<(u64, Input<R::File>), Failed>
        ensures faults_stay { self.old.failed ≤ self.new.failed }
        ensures faults_kept { OnOk result (self.new.failed ≡ self.old.failed) }
        ensures failed { OnErr result (self.new.failed ≡ one_more self.old.failed) }
        ensures met_kept { self.new.met ≡ self.old.met }
        ensures no_faults { IfOk result (λ r. r.1.failed ≡ 0) }
        ensures told { IfOk result (λ r. Tells self.new.told r.0) }
        ensures told_kept { OnErr result (self.new.told ≡ self.old.told) }
    {
        match self.open(name) {
            Ok((len, input)) => {
                self.told = Some(len);
                Ok((len, input))
            }
            Err(_) => {
                self.failed = self.failed.saturating_add(1);
                Err(Failed)
            }
        }
    }

    /// The file has its name at once, and grows as it is written.
    fn create(&mut self, name: &str) -> Result<Create<Output<R::File>>, Failed>
        ensures faults_stay { self.old.failed ≤ self.new.failed }
        ensures faults_kept { OnOk result (self.new.failed ≡ self.old.failed) }
        ensures failed { OnErr result (self.new.failed ≡ one_more self.old.failed) }
        ensures met_stay { self.old.met ≤ self.new.met }
        ensures exists { IfOk result (λ c. self.new.met ≡ met_after self.old.met c) }
        ensures met_kept { OnErr result (self.new.met ≡ self.old.met) }
        ensures no_faults { IfOk result (λ c. IfMade c (λ out. out.failed ≡ 0)) }
        ensures told_kept { self.new.told ≡ self.old.told }
    {
        match File::create_new(&self.rt, name) {
            Ok(file) => Ok(Create::Made(Output::new(file))),
            Err(error) if error.kind() == ErrorKind::AlreadyExists => {
                self.met = self.met.saturating_add(1);
                Ok(Create::Exists)
            }
            Err(_) => {
                self.failed = self.failed.saturating_add(1);
                Err(Failed)
            }
        }
    }

    /// Has the system store the file, and counts a fault where it doesn't. The name is the one that
    /// the file was made with.
    fn keep(&mut self, _name: &str, file: Output<R::File>)
        ensures faults_stay { self.old.failed ≤ self.new.failed }
        ensures included { with_faults self.old.failed file.failed ≤ self.new.failed }
        ensures met_kept { self.new.met ≡ self.old.met }
        ensures told_kept { self.new.told ≡ self.old.told }
    {
        let unstored = file.writer().sync_all().is_err();
        let faults = file.failed().saturating_add(u64::from(unstored));
        self.failed = self.failed.saturating_add(faults);
    }

    fn done(&mut self, file: Input<R::File>)
        ensures faults_stay { self.old.failed ≤ self.new.failed }
        ensures included { self.new.failed ≡ with_faults self.old.failed file.failed }
        ensures met_kept { self.new.met ≡ self.old.met }
        ensures told_kept { self.new.told ≡ self.old.told }
    {
        self.failed = self.failed.saturating_add(file.failed());
    }
}
