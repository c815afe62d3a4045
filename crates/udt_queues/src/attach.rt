//! Lists of messages between workers: one list for each taker, and one pass for each.
ghost use Rattle.std.specs.Prelude.{◌≡◌, ◌+◌, ◌≤◌, [], ◌∷◌, ◌++◌, ℕ, length, slice_get, false, Some, IfOk, IfErr, IfSome, IfNone, IsTrue, ◌↔◌};
ghost use Rattle.udt_queues.specs.Lists.{view_of, list_of, IsFoundEmpty};
ghost use Rattle.udt_queues.specs.Messages.{views_of, takes_of, lists_of, SendsTo, TakesFrom, WasFullAt, FoundNone, Joins};

use crate::lane::Lane;
use crate::memory::OutOfMemory;
use std::alloc::Global;
use std::sync::Wait;

/// A message that a worker sends to another.
pub trait Note: Drop {
    // The ID that the message names.
    ghost id_of: { Self → ℕ };

    /// The ID of the socket that the message is about.
    fn id(&self) -> u32
        ensures { result ≡ id_of self.now };
}

/// The right to send to each of some lists, and to take from its own and from those of the passes that
/// were joined into it.
#[derive(Drop)]
pub struct AttachPass<M> {
    pub(crate) lanes: Vec<Lane<M>>,
}

impl<M: Note> AttachPass<M> {
    /// Whether this is the place of another taker.
    pub fn sends_to(&self, to: u32) -> bool
        ensures { IsTrue result ↔ slice_get (takes_of self.now) to ≡ Some false }
    {
        match self.lanes.get(to as usize) {
            Some(lane) => !lane.takes,
            None => false,
        }
    }

    /// Sends a message to the list of another taker. It comes back only where that list was full at a step
    /// of this call.
    pub fn send<R: Wait>(&mut self, rt: &R, to: u32, message: M) -> Result<(), M>
        requires { slice_get (takes_of self.old) to ≡ Some false }
        ensures ok { IfOk result (λ _. SendsTo to message self.old self.new) }
        ensures back { IfErr result (λ x. x ≡ message) }
        ensures err { IfErr result (λ _. views_of self.new ≡ views_of self.old) }
        ensures full { IfErr result (λ _. WasFullAt to self.old) }
        ensures lists { lists_of self.new ≡ lists_of self.old }
        ensures takes { takes_of self.new ≡ takes_of self.old }
    {
        match self.lanes[to as usize].put(rt, message) {
            Ok(()) => Ok(()),
            Err(back) => Err(back),
        }
    }

    /// Takes a message from one of its lists. None comes only where each of them was empty at a step of this
    /// call.
    pub fn take<R: Wait>(&mut self, rt: &R) -> Option<M>
        ensures some { IfSome result (λ x. TakesFrom x self.old self.new) }
        ensures none { IfNone result (FoundNone self.old) }
        ensures kept { IfNone result (views_of self.new ≡ views_of self.old) }
        ensures lists { lists_of self.new ≡ lists_of self.old }
        ensures takes { takes_of self.new ≡ takes_of self.old }
    {
        for i in 0..self.lanes.len() {
            match self.lanes[i].take(rt) {
                Some(message) => return Some(message),
                None => (),
            }
        }
        None
    }

    /// Joins a pass of the same lists into this one, which then knows what both sent and took, and takes from
    /// the lists of both.
    pub fn join(&mut self, gone: AttachPass<M>)
        requires { lists_of gone ≡ lists_of self.old }
        ensures lists { lists_of self.new ≡ lists_of self.old }
        ensures joins { Joins self.old gone self.new }
    {
        let AttachPass { mut lanes } = gone;
        while let Some(lane) = lanes.pop() {
            let at = lanes.len();
            self.lanes[at].absorb(lane);
        }
    }
}
