// How lists of messages are made: list by list, each with its rights for all passes.

ghost use Rattle.std.specs.Prelude.{◌≡◌, ◌+◌, ◌<◌, ◌≤◌, [], ◌∷◌, ◌++◌, length, max, IfOk};
ghost use Rattle.udt_queues.specs.Passing.{newcomer};
ghost use Rattle.udt_queues.specs.Lists.{view_of, list_of, KeepsList};
ghost use Rattle.udt_queues.specs.Starting.{taker_view, ArePutters, IsColumn, HandsOut, AreBuilt, AreEmpty, AreFresh};

use crate::attach::{AttachPass, Note};
use crate::lane::Lane;
use crate::memory::OutOfMemory;
use std::alloc::Global;

// Rights to put into a list, one for each pass.
fn putters<M: Note>(
    alloc: Global,
    owner: &mut Lane<M>,
    takers: u32,
) -> Result<Vec<Lane<M>>, OutOfMemory>
    requires { view_of owner.old ≡ newcomer }
    ensures kept { KeepsList owner.old owner.new }
    ensures view { IfOk result (λ _. view_of owner.new ≡ taker_view takers) }
    ensures len { IfOk result (λ c. length c.items ≡ takers) }
    ensures putters { IfOk result (λ c. ArePutters (list_of owner.old) c.items) }
{
    let mut lanes = Vec::new(alloc);
    for _j in 0..takers {
        let lane = owner.putter()?;
        match lanes.push(lane) {
            Ok(()) => (),
            Err(_) => return Err(OutOfMemory),
        }
    }
    Ok(lanes)
}

// A list, as the rights of all passes to it: the one at `own` may take.
fn column<M: Note>(
    alloc: Global,
    takers: u32,
    places: usize,
    own: u32,
) -> Result<Vec<Lane<M>>, OutOfMemory>
    requires own { own < takers }
    requires places { 0 < places }
    ensures { IfOk result (λ c. IsColumn takers places own c.items) }
{
    let mut owner = Lane::new(alloc, places)?;
    let mut lanes = putters(alloc, &mut owner, takers)?;
    lanes[own as usize].absorb(owner);
    Ok(lanes)
}

impl<M: Note> AttachPass<M> {
    // Adds a right to one list more.
    fn add(&mut self, lane: Lane<M>) -> Result<(), OutOfMemory>
        ensures { IfOk result (λ _. self.new.lanes.items ≡ self.old.lanes.items ++ lane ∷ []) }
    {
        match self.lanes.push(lane) {
            Ok(()) => Ok(()),
            Err(_) => Err(OutOfMemory),
        }
    }
}

// Gives each pass its right to a list.
fn hand_out<M: Note>(
    passes: &mut Vec<AttachPass<M>>,
    column: Vec<Lane<M>>,
) -> Result<(), OutOfMemory>
    requires { length column.items ≡ length passes.old.items }
    ensures { IfOk result (λ _. HandsOut passes.old.items column.items passes.new.items) }
{
    let mut left = column;
    while let Some(lane) = left.pop() {
        let at = left.len();
        passes[at].add(lane)?;
    }
    Ok(())
}

// Passes of no lists.
fn empty_passes<M: Note>(alloc: Global, takers: u32) -> Result<Vec<AttachPass<M>>, OutOfMemory>
    ensures { IfOk result (λ passes. AreEmpty takers passes.items) }
{
    let mut passes = Vec::new(alloc);
    for _j in 0..takers {
        let lanes = Vec::new(alloc);
        match passes.push(AttachPass { lanes }) {
            Ok(()) => (),
            Err(_) => return Err(OutOfMemory),
        }
    }
    Ok(passes)
}

/// One list of this number of places for each taker, and one pass for each: the one at place i takes from
/// list i and sends to the others.
pub fn attach_lists<M: Note>(
    alloc: Global,
    takers: u32,
    places: u32,
) -> Result<Vec<AttachPass<M>>, OutOfMemory>
    requires least { 2 ≤ takers }
    requires most { takers ≤ 18 }
    ensures { IfOk result (λ passes. AreFresh takers (max places 1) passes.items) }
{
    let places = (places as usize).max(1);
    let mut passes = empty_passes(alloc, takers)?;
    for i in 0..takers {
        let column = column(alloc, takers, places, i)?;
        hand_out(&mut passes, column)?;
    }
    Ok(passes)
}
