// What a pass does at one list of messages.

ghost use Rattle.std.specs.Prelude.{◌≡◌, ◌<◌, ◌∷◌, [], true, false, IfOk, IfErr, IfSome, IfNone};
ghost use Rattle.udt_queues.specs.Lines.{Puts, Takes};
ghost use Rattle.udt_queues.specs.Passing.{newcomer, served, putter_of};
ghost use Rattle.udt_queues.specs.Told.{WasFull};
ghost use Rattle.udt_queues.specs.Lists.{view_of, list_of, room_at, KeepsList, Absorbs, IsFoundEmpty};

use crate::lane::Lane;
use crate::line::{join_in, make_line, part_putter, put_in, take_out};
use std::alloc::{AllocError, Global};
use std::mem;
use std::sync::{Arc, Wait};

impl<M: Drop> Lane<M> {
    /// A new list with this number of places, and the right to take from it.
    pub(crate) fn new(alloc: Global, places: usize) -> Result<Lane<M>, AllocError>
        requires { 0 < places }
        ensures view { IfOk result (λ l. view_of l ≡ newcomer) }
        ensures takes { IfOk result (λ l. l.takes ≡ true) }
        ensures room { IfOk result (λ l. room_at l ≡ places) }
    {
        let (line, pass) = make_line(alloc, places)?;
        let line = Arc::new(alloc, line)?;
        Ok(Lane {
            line,
            pass,
            takes: true,
        })
    }

    /// Another right to the same list, which isn't to take.
    pub(crate) fn putter(&mut self) -> Result<Lane<M>, AllocError>
        ensures kept { KeepsList self.old self.new }
        ensures view { IfOk result (λ _. view_of self.new ≡ served (view_of self.old)) }
        ensures new { IfOk result (λ l. view_of l ≡ putter_of (view_of self.old)) }
        ensures list { IfOk result (λ l. list_of l ≡ list_of self.old) }
        ensures takes { IfOk result (λ l. l.takes ≡ false) }
    {
        let line = Arc::try_clone(&self.line)?;
        let pass = part_putter(&self.line, &mut self.pass);
        Ok(Lane {
            line,
            pass,
            takes: false,
        })
    }

    /// Puts a message in. It comes back only where the list was full at a step of this call.
    pub(crate) fn put<R: Wait>(&mut self, rt: &R, message: M) -> Result<(), M>
        ensures kept { KeepsList self.old self.new }
        ensures ok { IfOk result (λ _. Puts (view_of self.old) message (view_of self.new)) }
        ensures back { IfErr result (λ x. x ≡ message) }
        ensures err { IfErr result (λ _. view_of self.new ≡ view_of self.old) }
        ensures full { IfErr result (λ _. WasFull (room_at self.old) (view_of self.old)) }
    {
        put_in(rt, &self.line, &mut self.pass, message)
    }

    /// Takes the message that was put first, where it may take. None comes only where the list was empty at a
    /// step of this call.
    pub(crate) fn take<R: Wait>(&mut self, rt: &R) -> Option<M>
        ensures kept { KeepsList self.old self.new }
        ensures may { IfSome result (λ _. self.old.takes ≡ true) }
        ensures some { IfSome result (λ x. Takes (view_of self.old) x (view_of self.new)) }
        ensures same { IfNone result (view_of self.new ≡ view_of self.old) }
        ensures none { IfNone result (self.old.takes ≡ true → IsFoundEmpty (view_of self.old)) }
    {
        if !self.takes {
            return None;
        }
        match take_out(rt, &self.line, &mut self.pass) {
            Some(message) => Some(message),
            None => None,
        }
    }

    /// Joins another right to the same list into this one.
    pub(crate) fn absorb(&mut self, gone: Lane<M>)
        requires { list_of gone ≡ list_of self.old }
        ensures { Absorbs self.old gone self.new }
    {
        let Lane { line, pass, takes } = gone;
        drop(line);
        let mut other = pass;
        if takes {
            mem::swap(&mut self.pass, &mut other);
            self.takes = true;
        }
        join_in(&self.line, other, &mut self.pass);
    }
}
