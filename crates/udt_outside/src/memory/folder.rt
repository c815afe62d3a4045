// A folder in memory.

ghost use Rattle.std.specs.Prelude.{◌≡◌, option_map};
ghost use Rattle.std.specs.List.{find};
ghost use Rattle.udt_outside.specs.MemoryFolders.{has_name};

use crate::failed::{Failed, OutOfMemory};
use crate::folder::{Create, Folder};
use crate::memory::calls::Calls;
use crate::memory::sink::MemorySink;
use crate::memory::source::MemorySource;
use std::alloc::Global;
use std::collections::VecDeque;
use std::marker::Model;

#[derive(Drop)]
struct StoredFile {
    name: Vec<u8>,
    bytes: Vec<u8>,
}

impl Model for StoredFile {
    ghost use Rattle.udt_outside.specs.MemoryFolders.{File};

    ghost Value = { File };

    ghost view = { λ f. record { name = f.name.items; bytes = f.bytes.items } };
}

/// Files in memory, of which some calls fail as a list says, and each that finds no memory or no
/// file to open. Once memory ran out while a file was kept, it tells its files no more.
#[derive(Drop)]
pub struct MemoryFolder {
    alloc: Global,
    files: VecDeque<StoredFile>,
    lost: bool,
    piece: usize,
    room: usize,
    read_failing: Vec<u64>,
    write_failing: Vec<u64>,
    calls: Calls,
    more_faults: u64,
    met: u64,
    told: Option<u64>,
    back: Option<MemorySource>,
}

impl Model for MemoryFolder {
    ghost use Rattle.std.specs.Prelude.{◌<◌};
    ghost use Rattle.udt_outside.specs.MemoryFolders.{FileStore};

    ghost Value = { FileStore };

    ghost view = { λ s. record {
      files = s.files.items;
      lost = s.lost;
      piece = s.piece;
      room = s.room;
      read_failing = s.read_failing.items;
      write_failing = s.write_failing.items;
      calls = s.calls;
      more_faults = s.more_faults;
      met = s.met;
      told = s.told;
      back = s.back;
    } };

    ghost invariant = { λ s. 0 < s.piece };
}

impl MemoryFolder {
    ghost use Rattle.std.specs.Prelude.{◌≡◌, ◌<◌, ◌≤◌, Some, None, IfSome, IsNone, IsTrue, not, OnOk, OnErr, length};
    ghost use Rattle.udt_outside.specs.Memory.{IsFreshInput};
    ghost use Rattle.udt_outside.specs.MemoryFolders.{empty_store, file_of, with_file, IsEmptyEnd};

    /// An empty folder, whose calls with the numbers in `failing` fail. The first call is number 1.
    /// An end moves at most `piece` bytes a call, one that writes takes `room` bytes in all, and its
    /// calls with the numbers in `read_failing` or `write_failing` fail.
    pub fn new(
        alloc: Global,
        piece: usize,
        room: usize,
        failing: Vec<u64>,
        read_failing: Vec<u64>,
        write_failing: Vec<u64>,
    ) -> MemoryFolder
        requires { 0 < piece }
        ensures { result ≡ empty_store piece room failing.items read_failing.items write_failing.items }
    {
        MemoryFolder {
            alloc,
            files: VecDeque::new(alloc),
            lost: false,
            piece,
            room,
            read_failing,
            write_failing,
            calls: Calls::new(failing),
            more_faults: 0,
            met: 0,
            told: None,
            back: None,
        }
    }

    /// Puts a file into the folder, or replaces the one of that name.
    pub fn add(&mut self, name: &str, bytes: &[u8]) -> Result<(), OutOfMemory>
        ensures ok { OnOk result (self.new ≡ with_file self.old name.now bytes.now) }
        ensures err { OnErr result (self.new ≡ self.old) }
    {
        let Ok(bytes) = Vec::from_slice(self.alloc, bytes) else {
            return Err(OutOfMemory);
        };
        if self.store(name, bytes) {
            Ok(())
        } else {
            Err(OutOfMemory)
        }
    }

    /// The bytes of the file of this name.
    pub fn file(&self, name: &str) -> Option<&[u8]>
        ensures some { IfSome result (λ bytes. file_of self.now.files name.now ≡ Some bytes.now) }
        ensures none { IsNone result → file_of self.now.files name.now ≡ None }
    {
        match find_file(&self.files, name.as_bytes()) {
            Some(file) => Some(file.bytes.as_slice()),
            None => None,
        }
    }

    fn store(&mut self, name: &str, bytes: Vec<u8>) -> bool
        ensures stored { IsTrue result → self.new ≡ with_file self.old name.now bytes.items }
        ensures kept { IsTrue (not result) → self.new ≡ self.old }
    {
        match Vec::from_slice(self.alloc, name.as_bytes()) {
            Ok(name) => self.files.push_front(StoredFile { name, bytes }).is_ok(),
            Err(_) => false,
        }
    }

    fn source_of(&self, name: &str) -> Option<(u64, MemorySource)>
        ensures there { IfSome result (λ r. file_of self.now.files name.now ≡ Some r.1.left) }
        ensures length_is { IfSome result (λ r. r.0 ≡ length r.1.left) }
        ensures fresh { IfSome result (λ r. IsFreshInput r.1 self.now.piece self.now.read_failing) }
    {
        let bytes = Vec::from_slice(self.alloc, self.file(name)?).ok()?;
        let failing = Vec::from_slice(self.alloc, self.read_failing.as_slice()).ok()?;
        let len = bytes.len() as u64;
        Some((len, MemorySource::new(bytes, self.piece, failing)))
    }

    fn empty_sink(&self) -> Option<MemorySink>
        ensures { IfSome result (λ out. IsEmptyEnd self.now out) }
    {
        let failing = Vec::from_slice(self.alloc, self.write_failing.as_slice()).ok()?;
        MemorySink::new(self.alloc, self.room, self.piece, failing).ok()
    }
}

fn find_file<'a>(files: &'a VecDeque<StoredFile>, name: &[u8]) -> Option<&'a StoredFile>
    ensures { option_map (λ file. file.now) result ≡ find (has_name name.now) files.now.items }
{
    files.iter().find(
        |file: &&StoredFile| -> bool
            ensures { result ≡ has_name name.entry.now file.now.now }
        { file.name.as_slice() == name },
    )
}

impl Folder for MemoryFolder {
    ghost use Rattle.std.specs.Prelude.{◌≡◌, ◌≤◌, Some, None, is_err, OnErr, OnOk, IfOk, IsTrue, IsErr};
    ghost use Rattle.udt_outside.specs.Faults.{Rose, with_faults};
    ghost use Rattle.udt_outside.specs.Options.{HasNone, Tells};
    ghost use Rattle.udt_outside.specs.Folders.{Opens, IsNewName, IfMade, IsMade, OnExists, Keeps};
    ghost use Rattle.udt_outside.specs.Calls.{fails_next};
    ghost use Rattle.udt_outside.specs.Memory.{read_faults, write_faults, to_give, took, IsFreshInput};
    ghost use Rattle.udt_outside.specs.MemoryFolders.{all_faults, files_of, unread_of, file_of, after_opening, after_creating, after_fault, after_done, IsEmptyEnd, IsAfterKeeping};

    type In = MemorySource;

    type Out = MemorySink;

    ghost faults = { all_faults };

    ghost met = { λ s. s.met };

    ghost files = { files_of };

    ghost told = { λ s. s.told };

    ghost unread = { unread_of };

    fn open_read(&mut self, name: &str) -> Result<(u64, MemorySource), Failed>
        ensures faults_stay { all_faults self.old ≤ all_faults self.new }
        ensures faults_kept { OnOk result (all_faults self.new ≡ all_faults self.old) }
        ensures failed { OnErr result (Rose (all_faults self.old) (all_faults self.new)) }
        ensures met_stay { self.old.met ≤ self.new.met }
        ensures ok { IfOk result (λ r. Opens (files_of self.old) name.now r.0 (to_give r.1)) }
        ensures no_faults { IfOk result (λ r. read_faults r.1 ≡ 0) }
        ensures files_kept { files_of self.new ≡ files_of self.old }
        ensures told { IfOk result (λ r. Tells self.new.told r.0) }
        ensures told_kept { OnErr result (self.new.told ≡ self.old.told) }
        ensures unread_kept { unread_of self.new ≡ unread_of self.old }
        ensures fails_by_list { IsTrue (fails_next self.old.calls) → IsErr result }
        ensures absent { file_of self.old.files name.now ≡ None → IsErr result }
        ensures value { IfOk result (λ r. IsFreshInput r.1 self.old.piece self.old.read_failing) }
        ensures next { IfOk result (λ r. self.new ≡ after_opening self.old r.0) }
        ensures kept { OnErr result (self.new ≡ after_fault self.old) }
    {
        if self.calls.count() {
            return Err(Failed);
        }
        match self.source_of(name) {
            Some((len, source)) => {
                self.told = Some(len);
                Ok((len, source))
            }
            None => {
                self.more_faults = self.more_faults.saturating_add(1);
                Err(Failed)
            }
        }
    }

    fn create(&mut self, name: &str) -> Result<Create<MemorySink>, Failed>
        ensures faults_stay { all_faults self.old ≤ all_faults self.new }
        ensures faults_kept { OnOk result (all_faults self.new ≡ all_faults self.old) }
        ensures failed { OnErr result (Rose (all_faults self.old) (all_faults self.new)) }
        ensures met_stay { self.old.met ≤ self.new.met }
        ensures exists { IfOk result (λ c. OnExists c (Rose self.old.met self.new.met)) }
        ensures made { IfOk result (λ c. IfMade c (λ out. IsNewName (files_of self.old) name.now)) }
        ensures no_faults { IfOk result (λ c. IfMade c (λ out. write_faults out ≡ 0)) }
        ensures none_taken { IfOk result (λ c. IfMade c (λ out. HasNone (took out))) }
        ensures files_kept { files_of self.new ≡ files_of self.old }
        ensures told_kept { self.new.told ≡ self.old.told }
        ensures unread_kept { unread_of self.new ≡ unread_of self.old }
        ensures fails_by_list { IsTrue (fails_next self.old.calls) → IsErr result }
        ensures absent { file_of self.old.files name.now ≡ None → IfOk result IsMade }
        ensures value { IfOk result (λ c. IfMade c (λ out. IsEmptyEnd self.old out)) }
        ensures next { IfOk result (λ c. self.new ≡ after_creating self.old c) }
        ensures kept { OnErr result (self.new ≡ after_fault self.old) }
    {
        if self.calls.count() {
            return Err(Failed);
        }
        if self.file(name).is_some() {
            self.met = self.met.saturating_add(1);
            return Ok(Create::Exists);
        }
        match self.empty_sink() {
            Some(out) => Ok(Create::Made(out)),
            None => {
                self.more_faults = self.more_faults.saturating_add(1);
                Err(Failed)
            }
        }
    }

    fn keep(&mut self, name: &str, file: MemorySink)
        ensures faults_stay { all_faults self.old ≤ all_faults self.new }
        ensures included { with_faults (all_faults self.old) (write_faults file) ≤ all_faults self.new }
        ensures met_stay { self.old.met ≤ self.new.met }
        ensures files { Keeps (files_of self.old) (files_of self.new) name.now (took file) }
        ensures told_kept { self.new.told ≡ self.old.told }
        ensures unread_kept { unread_of self.new ≡ unread_of self.old }
        ensures next { IsAfterKeeping self.old self.new name.now file }
    {
        self.more_faults = self.more_faults.saturating_add(file.failed());
        if !self.store(name, file.into_bytes()) {
            self.lost = true;
            self.more_faults = self.more_faults.saturating_add(1);
        }
    }

    fn done(&mut self, file: MemorySource)
        ensures faults_stay { all_faults self.old ≤ all_faults self.new }
        ensures included { with_faults (all_faults self.old) (read_faults file) ≤ all_faults self.new }
        ensures met_stay { self.old.met ≤ self.new.met }
        ensures files_kept { files_of self.new ≡ files_of self.old }
        ensures told_kept { self.new.told ≡ self.old.told }
        ensures unread { unread_of self.new ≡ to_give file }
        ensures next { self.new ≡ after_done self.old file }
    {
        self.more_faults = self.more_faults.saturating_add(file.failed());
        self.back = Some(file);
    }
}
