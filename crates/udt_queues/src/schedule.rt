//! Moments under IDs, with the least first.
ghost use Rattle.std.specs.Prelude.{◌≡◌, ◌+◌, ◌==◌, ◌<◌, ℕ, [], length, if◌then◌else◌, Some, None, IfOk, IfSome, IfNone};
ghost use Rattle.udt_queues.specs.Listings.{moment_of, IsFirst, place, without};

use crate::memory::OutOfMemory;
use crate::tree::{Fork, Listing, Tree, insert, remove};
use std::alloc::Global;
use std::marker::Model;
use std::mem;

/// A moment for each of up to `live` IDs. Contracts see a finite map from IDs to moments, as the list of its
/// pairs in rising order of the IDs. Only `new` takes memory.
#[derive(Drop)]
pub struct Schedule {
    tree: Tree,
    stock: Vec<Box<Fork>>,
}

impl Model for Schedule {
    ghost use Rattle.udt_queues.specs.Timetable.{Timetable};

    ghost Value = { Timetable };

    ghost use Rattle.udt_queues.specs.Schedules.{timetable_of, IsSchedule};

    ghost view = { timetable_of };

    ghost invariant = { IsSchedule };
}

impl Schedule {
    /// A schedule with nothing listed, and room for this number of IDs.
    pub fn new(alloc: Global, live: u32) -> Result<Schedule, OutOfMemory>
        ensures live { IfOk result (λ s. s.live ≡ live) }
        ensures empty { IfOk result (λ s. s.listings ≡ []) }
    {
        let mut stock = Vec::with_capacity(alloc, live as usize)?;
        for _i in 0..live {
            match Box::new(alloc, Fork::unused()) {
                Ok(fork) => stock.push_reserved(fork),
                Err(_) => return Err(OutOfMemory),
            }
        }
        Ok(Schedule {
            tree: Tree::tip(),
            stock,
        })
    }

    /// Lists a moment under an ID, in place of the one that was there.
    pub fn put(&mut self, id: u32, at: u64)
        requires { moment_of id self.old.listings ≡ None → length self.old.listings < self.old.live }
        ensures moments { (q : ℕ) → moment_of q self.new.listings
            ≡ (if id == q then Some at else moment_of q self.old.listings) }
        ensures listings { self.new.listings ≡ place (record { at = at; id = id }) self.old.listings }
        ensures live { self.new.live ≡ self.old.live }
    {
        let tree = mem::replace(&mut self.tree, Tree::tip());
        self.tree = insert(tree, Listing { at, id }, &mut self.stock);
    }

    /// Lists nothing under an ID.
    pub fn remove(&mut self, id: u32)
        ensures moments { (q : ℕ) → moment_of q self.new.listings
            ≡ (if id == q then None else moment_of q self.old.listings) }
        ensures listings { self.new.listings ≡ without id self.old.listings }
        ensures live { self.new.live ≡ self.old.live }
    {
        let tree = mem::replace(&mut self.tree, Tree::tip());
        self.tree = remove(tree, id, &mut self.stock);
    }

    /// The least moment and its ID, and of the IDs with that moment the least. None comes exactly where
    /// nothing is listed.
    pub fn first(&self) -> Option<(u64, u32)>
        ensures some { IfSome result (λ m. IsFirst m self.now.listings) }
        ensures none { IfNone result (self.now.listings ≡ []) }
    {
        match self.tree.least() {
            None => None,
            Some(least) => Some((least.at, least.id)),
        }
    }
}
