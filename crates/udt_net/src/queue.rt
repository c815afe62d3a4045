// What waits at an end.

use crate::stored::Stored;
use std::alloc::{AllocError, Global};
use std::collections::VecDeque;
use std::marker::Model;

/// No more datagrams wait at an end.
pub const MOST_WAITING: usize = 4_096;

/// The datagrams that wait at an end, the first one first, with room for as many as may wait.
#[derive(Drop)]
pub(crate) struct Queue {
    waiting: VecDeque<Stored>,
}

impl Model for Queue {
    ghost use Rattle.std.specs.Prelude.{◌≤◌, List};
    ghost use Rattle.std.specs.VecDeque.{deque_len, deque_capacity};
    ghost use Rattle.udt_model.specs.State.{Datagram};
    ghost use Rattle.udt_net.specs.Networks.{most_waiting};

    ghost Value = { List Datagram };

    ghost view = { λ q. q.waiting.items };

    ghost invariant = { λ q. (deque_len q.waiting ≤ most_waiting) × (most_waiting ≤ deque_capacity q.waiting) };
}

impl Queue {
    ghost use Rattle.std.specs.Prelude.{◌≡◌, ◌<◌, ◌≤◌, [], length, insert, drop, slice_get, IfOk, IsTrue, ◌↔◌};
    ghost use Rattle.udt_net.specs.Networks.{most_waiting};

    pub(crate) fn new(alloc: Global) -> Result<Queue, AllocError>
        ensures { IfOk result (λ q. q ≡ []) }
    {
        let waiting = VecDeque::with_capacity(alloc, MOST_WAITING)?;
        Ok(Queue { waiting })
    }

    // Whether as many wait as may.
    pub(crate) fn is_full(&self) -> bool
        ensures full { IsTrue result ↔ (length self.now ≡ most_waiting) }
        ensures within { length self.now ≤ most_waiting }
    {
        self.waiting.len() == MOST_WAITING
    }

    // How many wait.
    pub(crate) fn len(&self) -> usize
        ensures { result ≡ length self.now }
    {
        self.waiting.len()
    }

    // Puts a datagram at a place among those that wait.
    pub(crate) fn put_at(&mut self, place: usize, stored: Stored)
        requires place { place ≤ length self.old }
        requires room { length self.old < most_waiting }
        ensures { self.new ≡ insert self.old place stored }
    {
        match self.waiting.insert(place, stored) {
            Ok(()) => {}
            Err(_) => unreachable!(),
        }
    }

    // Takes the first one that waits.
    pub(crate) fn take_first(&mut self) -> Option<Stored>
        ensures value { result ≡ slice_get self.old 0 }
        ensures next { self.new ≡ drop 1 self.old }
    {
        self.waiting.pop_front()
    }
}
