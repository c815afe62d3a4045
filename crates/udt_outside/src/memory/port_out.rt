// The end of a port in memory that keeps the datagrams that are said.

ghost use Rattle.std.specs.Prelude.{◌≡◌, ◌≤◌, IfSome, replicate};
ghost use Rattle.std.specs.VecDeque.{deque_len};

use crate::failed::{Failed, OutOfMemory};
use crate::memory::calls::Calls;
use crate::memory::datagram::ListDatagram;
use crate::ports::PortOut;
use std::alloc::Global;
use std::collections::VecDeque;
use std::marker::Model;
use std::sync::Wait;
use udt_model::Addr;

// Room for one datagram. A contract sees how many bytes fit.
#[derive(Drop)]
struct Place {
    bytes: Vec<u8>,
    room: usize,
}

impl Model for Place {
    ghost use Rattle.std.specs.Prelude.{◌≡◌, ◌≤◌, ℕ, vec_len, vec_capacity};

    ghost Value = { ℕ };

    ghost view = { λ p. p.room };

    ghost invariant = { λ p. (vec_len p.bytes ≡ 0)
        × (p.room ≤ vec_capacity p.bytes)
        × (p.room ≤ 65536) };
}

impl Place {
    ghost use Rattle.std.specs.Prelude.{◌≡◌, ◌≤◌, IfSome, length};

    fn new(alloc: Global, room: usize) -> Option<Place>
        requires { room ≤ 65536 }
        ensures { IfSome result (λ place. place ≡ room) }
    {
        let bytes = Vec::with_capacity(alloc, room).ok()?;
        Some(Place { bytes, room })
    }

    fn room(&self) -> usize
        ensures { result ≡ self.now }
    {
        self.room
    }

    fn fill(self, bytes: &[u8], to: Addr) -> ListDatagram
        requires { length bytes.now ≤ self }
        ensures { result ≡ record { addr = to; bytes = bytes.now } }
    {
        let Place {
            bytes: mut place,
            ..
        } = self;
        let _ = place.extend_from_slice(bytes);
        ListDatagram::new(to, place)
    }
}

/// The end that keeps the datagrams that are said, in places that were reserved when it was made.
#[derive(Drop)]
pub struct ListOut {
    said: Vec<ListDatagram>,
    places: VecDeque<Place>,
    calls: Calls,
    refused: u64,
}

impl Model for ListOut {
    ghost use Rattle.std.specs.Prelude.{◌+◌, ◌≤◌, vec_len, vec_capacity};
    ghost use Rattle.std.specs.VecDeque.{deque_len};
    ghost use Rattle.udt_outside.specs.ListPorts.{Saying};

    ghost Value = { Saying };

    ghost view = { λ e. record {
      said = e.said.items;
      places = e.places.items;
      calls = e.calls;
      refused = e.refused;
    } };

    ghost invariant = { λ e. vec_len e.said + deque_len e.places ≤ vec_capacity e.said };
}

impl ListOut {
    ghost use Rattle.std.specs.Prelude.{◌≡◌, ◌≤◌, IfOk, IsTrue, not, length, replicate};
    ghost use Rattle.udt_outside.specs.ListPorts.{fresh_out, fits, after_adding};

    /// An end with `most` places, each for a datagram of at most `longest` bytes, and whose calls
    /// with the numbers in `failing` fail. The first call is number 1.
    pub fn new(
        alloc: Global,
        most: usize,
        longest: usize,
        failing: Vec<u64>,
    ) -> Result<ListOut, OutOfMemory>
        requires { longest ≤ 65536 }
        ensures { IfOk result (λ end. end ≡ fresh_out (replicate most longest) failing.items) }
    {
        let Ok(said) = Vec::with_capacity(alloc, most) else {
            return Err(OutOfMemory);
        };
        let Some(places) = places_for(alloc, most, longest) else {
            return Err(OutOfMemory);
        };
        Ok(ListOut {
            said,
            places,
            calls: Calls::new(failing),
            refused: 0,
        })
    }

    /// The datagrams said so far, each with its receiver.
    pub fn said(&self) -> &[ListDatagram]
        ensures { result.now ≡ self.now.said }
    {
        self.said.as_slice()
    }

    fn add(&mut self, bytes: &[u8], to: Addr) -> bool
        ensures value { result ≡ fits self.old bytes.now }
        ensures added { IsTrue result → self.new ≡ after_adding self.old to bytes.now }
        ensures kept { IsTrue (not result) → self.new ≡ self.old }
    {
        let fits = match self.places.front() {
            Some(place) => bytes.len() <= place.room(),
            None => false,
        };
        if !fits {
            return false;
        }
        match self.places.pop_front() {
            Some(place) => {
                let _ = self.said.push(place.fill(bytes, to));
                true
            }
            None => false,
        }
    }
}

fn places_for(alloc: Global, most: usize, longest: usize) -> Option<VecDeque<Place>>
    requires { longest ≤ 65536 }
    ensures places { IfSome result (λ places. places.items ≡ replicate most longest) }
    ensures len { IfSome result (λ places. deque_len places ≡ most) }
{
    let mut places = VecDeque::with_capacity(alloc, most).ok()?;
    for i in 0..most {
        let place = Place::new(alloc, longest)?;
        places.push_back(place).ok()?;
    }
    Some(places)
}

impl PortOut for ListOut {
    ghost use Rattle.std.specs.Prelude.{◌≡◌, ◌≤◌, is_err, OnErr, OnOk};
    ghost use Rattle.udt_outside.specs.Faults.{Rose};
    ghost use Rattle.udt_outside.specs.Ports.{Took};
    ghost use Rattle.udt_outside.specs.ListPorts.{say_faults, say_fails, taken_by, after_saying, after_refusing};

    ghost faults = { say_faults };

    ghost taken = { taken_by };

    ghost is_same = { λ a b. Unit {0} };

    fn say<R: Wait + Copy + Send + Sync>(
        &mut self,
        _rt: &R,
        bytes: &[u8],
        to: Addr,
    ) -> Result<(), Failed>
        ensures faults_stay { say_faults self.old ≤ say_faults self.new }
        ensures faults_kept { OnOk result (say_faults self.new ≡ say_faults self.old) }
        ensures failed { OnErr result (Rose (say_faults self.old) (say_faults self.new)) }
        ensures ok { OnOk result (Took (taken_by self.old) (taken_by self.new) bytes.now to) }
        ensures err { OnErr result (taken_by self.new ≡ taken_by self.old) }
        ensures same { Unit {0} }
        ensures fails { is_err result ≡ say_fails self.old bytes.now }
        ensures next { OnOk result (self.new ≡ after_saying self.old to bytes.now) }
        ensures kept { OnErr result (self.new ≡ after_refusing self.old) }
    {
        if self.calls.count() {
            return Err(Failed);
        }
        if !self.add(bytes, to) {
            self.refused = self.refused.saturating_add(1);
            return Err(Failed);
        }
        Ok(())
    }

    ghost same_refl = { λ e. tt };

    ghost same_trans = { λ a b c p q. tt };
}
