//! Datagrams on their way out: filled buffers in one queue, spare ones in another.
ghost use Rattle.std.specs.Prelude.{◌≡◌, ◌≤◌, ◌∷◌, [], length, take, drop, max, IfOk, IfErr, IfSome, IfNone, IsOk};
ghost use Rattle.crossbeam_queue.specs.Passes.{IsPassOf, ruled_capacity, view};
ghost use Rattle.udt_model.specs.State.{Datagram};
ghost use Rattle.udt_queues.specs.Passing.{newcomer, both_of, IsParted};
ghost use Rattle.udt_queues.specs.Told.{Told, Emptied, WasEmpty};
ghost use Rattle.udt_queues.specs.Outgoing.{IsOutPassOf, filled_of, spare_of, room_of, PutsOut, TakesOut, KeepsNames, KeepsNoBuffer, HadNoSpare, Stocked};

use crate::buffer::{Buffer, MOST_BYTES};
use crate::line::{Line, LinePass, join_in, make_line, offer, part, put_again, put_in, take_out};
use crate::memory::{Full, OutOfMemory};
use std::alloc::Global;
use std::sync::Wait;
use udt_model::Addr;

/// A bounded queue of datagrams, each copied once in and once out, with any number of producers and takers.
/// Only `make` takes memory.
#[derive(Drop)]
pub struct Outbox {
    pub(crate) filled: Line<Buffer>,
    pub(crate) spare: Line<Buffer>,
}

/// The right to put into an outbox and to take from it, and what its holder knows of both.
#[derive(Drop)]
pub struct OutPass {
    pub(crate) filled: LinePass<Buffer>,
    pub(crate) spare: LinePass<Buffer>,
}

// Puts this number of new buffers into the line.
fn stock(
    alloc: Global,
    line: &Line<Buffer>,
    pass: &mut LinePass<Buffer>,
    buffers: u32,
) -> Result<(), OutOfMemory>
    requires own { IsPassOf line.now pass.old }
    requires first { view pass.old ≡ newcomer }
    ensures own { IsPassOf line.now pass.new }
    ensures ok { IfOk result (λ _. Stocked buffers (view pass.new)) }
{
    for _i in 0..buffers {
        let buffer = Buffer::new(alloc)?;
        if offer(line, pass, buffer).is_err() {
            return Err(OutOfMemory);
        }
    }
    Ok(())
}

impl Outbox {
    /// An outbox with this number of buffers, and its first pass.
    pub fn make(alloc: Global, buffers: u32) -> Result<(Outbox, OutPass), OutOfMemory>
        ensures own { IfOk result (λ r. IsOutPassOf r.0 r.1) }
        ensures first { IfOk result (λ r. filled_of r.1 ≡ newcomer) }
        ensures buffers { IfOk result (λ r. Stocked buffers (spare_of r.1)) }
        ensures room { IfOk result (λ r. room_of r.0 ≡ max buffers 1) }
    {
        let places = (buffers as usize).max(1);
        let (filled, own) = make_line(alloc, places)?;
        let (spare, mut stocked) = make_line(alloc, places)?;
        stock(alloc, &spare, &mut stocked, buffers)?;
        let outbox = Outbox { filled, spare };
        let pass = OutPass {
            filled: own,
            spare: stocked,
        };
        Ok((outbox, pass))
    }

    /// A pass with a name of its own, which has put and taken nothing.
    pub fn split(&self, pass: &mut OutPass) -> Result<OutPass, OutOfMemory>
        requires { IsOutPassOf self.now pass.old }
        ensures own { IsOutPassOf self.now pass.new }
        ensures new_own { IfOk result (λ r. IsOutPassOf self.now r) }
        ensures succeeds { IsOk result }
        ensures filled { IfOk result (λ r. IsParted (filled_of pass.old) (filled_of pass.new) (filled_of r)) }
        ensures spare { IfOk result (λ r. IsParted (spare_of pass.old) (spare_of pass.new) (spare_of r)) }
    {
        let filled = part(&self.filled, &mut pass.filled);
        let spare = part(&self.spare, &mut pass.spare);
        Ok(OutPass { filled, spare })
    }

    /// Joins a pass into another, which then has the hands of both, and tells what holds between them. It
    /// waits for nobody.
    pub fn join(&self, gone: OutPass, into: &mut OutPass)
        requires own { IsOutPassOf self.now into.old }
        requires gone { IsOutPassOf self.now gone }
        ensures own { IsOutPassOf self.now into.new }
        ensures filled { filled_of into.new ≡ both_of (filled_of into.old) (filled_of gone) }
        ensures spare { spare_of into.new ≡ both_of (spare_of into.old) (spare_of gone) }
        ensures told { Told (filled_of into.new) }
    {
        let OutPass { filled, spare } = gone;
        join_in(&self.filled, filled, &mut into.filled);
        join_in(&self.spare, spare, &mut into.spare);
    }

    /// Puts a datagram in. Full comes only where no spare buffer was there at a step of this call.
    pub fn put<R: Wait>(
        &self,
        rt: &R,
        pass: &mut OutPass,
        to: Addr,
        bytes: &[u8],
    ) -> Result<(), Full>
        requires own { IsOutPassOf self.now pass.old }
        requires fits { length bytes.now ≤ MOST_BYTES }
        ensures own { IsOutPassOf self.now pass.new }
        ensures ok { IfOk result (λ _. PutsOut to bytes.now pass.old pass.new) }
        ensures err { IfErr result (λ _. filled_of pass.new ≡ filled_of pass.old) }
        ensures full { IfErr result (λ _. HadNoSpare self.now pass.old) }
        ensures names { KeepsNames pass.old pass.new }
        ensures buffers { KeepsNoBuffer pass.old pass.new }
    {
        let Some(mut buffer) = take_out(rt, &self.spare, &mut pass.spare) else {
            return Err(Full);
        };
        buffer.fill(to, bytes);
        match put_in(rt, &self.filled, &mut pass.filled, buffer) {
            Ok(()) => Ok(()),
            Err(buffer) => {
                put_again(rt, &self.spare, &mut pass.spare, buffer);
                Err(Full)
            }
        }
    }

    /// Takes the datagram that was put first: where it goes, and the number of bytes that it wrote into
    /// `into`. None comes only where there was no datagram at a step of this call.
    pub fn take<R: Wait>(
        &self,
        rt: &R,
        pass: &mut OutPass,
        into: &mut [u8],
    ) -> Option<(Addr, usize)>
        requires own { IsOutPassOf self.now pass.old }
        requires room { MOST_BYTES ≤ length into.old }
        ensures own { IsOutPassOf self.now pass.new }
        ensures some { IfSome result (λ r. TakesOut r.0 (take r.1 into.new) pass.old pass.new) }
        ensures len { IfSome result (λ r. r.1 ≤ MOST_BYTES) }
        ensures rest { IfSome result (λ r. drop r.1 into.new ≡ drop r.1 into.old) }
        ensures none { IfNone result (WasEmpty (filled_of pass.old)) }
        ensures kept { IfNone result (filled_of pass.new ≡ filled_of pass.old) }
        ensures untouched { IfNone result (into.new ≡ into.old) }
        ensures told { IfNone result (Told (filled_of pass.new)) }
        ensures emptied { IfNone result (Emptied (filled_of pass.new)) }
        ensures names { KeepsNames pass.old pass.new }
        ensures buffers { KeepsNoBuffer pass.old pass.new }
    {
        let Some(filled) = take_out(rt, &self.filled, &mut pass.filled) else {
            return None;
        };
        let taken = filled.copy_out(into);
        put_again(rt, &self.spare, &mut pass.spare, filled);
        Some(taken)
    }
}
