// The network as the value of a turn.
ghost use Rattle.std.specs.Prelude.{◌≡◌, ◌+◌, ◌≤◌, [], length, take, drop, slice_get, vec_len, vec_capacity, Some, IfOk, IfSome, IfNone};
ghost use Rattle.udt_net.specs.Networks.{most_bytes, most_waiting, arrived, put_at as placed_at};

use crate::draws::{Draws, Fate};
use crate::queue::Queue;
use crate::side::Side;
use crate::stored::{MOST_BYTES, Stored};
use std::alloc::{AllocError, Global};
use std::marker::Model;
use udt_model::Addr;
use udt_outside::{Failed, Heard};
use udt_turn::Story;

// As many buffers as may wait at both ends.
const BUFFERS: usize = 8_192;

// Where the count stands here, nothing more is said or heard.
const LAST_COUNT: u64 = (1 << 55) - 1;

/// What is said or heard. No value of it is made.
#[derive(Drop)]
pub struct Item;

impl Model for Item {
    ghost use Rattle.std.specs.Prelude.{[]};
    ghost use Rattle.udt_net.specs.declared.side.Side.TheVariants.{First};
    ghost use Rattle.udt_net.specs.Networks.{Spoken, Said, address_of};

    ghost Value = { Spoken };

    ghost view = { λ _. Said First (address_of First) [] };
}

/// What waits at both ends, and what was said and heard so far, counted.
#[derive(Drop)]
pub struct Net {
    first: Queue,
    second: Queue,
    // The buffers in which nothing waits.
    spares: Vec<Stored>,
    draws: Draws,
    count: u64,
}

impl Model for Net {
    ghost use Rattle.std.specs.Prelude.{◌≡◌, ◌+◌, ◌≤◌, length, vec_len, vec_capacity};
    ghost use Rattle.udt_net.specs.Networks.{Network, most_waiting};

    ghost Value = { Network };

    ghost view = { λ n. record { first = n.first; second = n.second; draws = n.draws; count = n.count } };

    ghost invariant = { λ n. (length n.first + length n.second + vec_len n.spares ≡ 8192)
        × (8192 ≤ vec_capacity n.spares) × (length n.first ≤ most_waiting) × (length n.second ≤ most_waiting) };
}

impl Story for Net {
    type Entry = Item;

    ghost use Rattle.udt_net.specs.Networks.{silent, tale_of_nets};

    ghost tale = { tale_of_nets };

    ghost any = { silent 0 };

    fn count(&self) -> u64 {
        self.count
    }

    fn bits(&self) -> u8 {
        0
    }
}

impl Net {
    ghost use Rattle.std.specs.Prelude.{◌≡◌, ◌<◌, ◌≤◌, length, IfOk, OnOk, OnErr};
    ghost use Rattle.udt_outside.specs.Ports.{Fits};
    ghost use Rattle.udt_net.specs.Networks.{silent, Said, Follows, Hears, last_count, most_bytes};

    // A network in which nothing was said, with all its buffers.
    pub(crate) fn new(alloc: Global, draws: u64) -> Result<Net, AllocError>
        ensures { IfOk result (λ net. net ≡ silent draws) }
    {
        let first = Queue::new(alloc)?;
        let second = Queue::new(alloc)?;
        let spares = buffers(alloc)?;
        Ok(Net {
            first,
            second,
            spares,
            draws: Draws::from(draws),
            count: 0,
        })
    }

    // An end says these bytes to an address.
    pub(crate) fn say(&mut self, from: Side, bytes: &[u8], to: Addr) -> Result<(), Failed>
        ensures ok { OnOk result (Follows (Said from to bytes.now) self.old self.new) }
        ensures failed { OnErr result (last_count ≤ self.old.count) }
        ensures err { OnErr result (self.new ≡ self.old) }
    {
        if self.count >= LAST_COUNT {
            return Err(Failed);
        }
        self.count += 1;
        let fate = self.draws.fate();
        if bytes.len() <= MOST_BYTES {
            let sender = from.address();
            match Side::with_address(to) {
                Some(Side::First) => arrive(&mut self.spares, &mut self.first, fate, sender, bytes),
                Some(Side::Second) => arrive(
                    &mut self.spares,
                    &mut self.second,
                    fate,
                    sender,
                    bytes,
                ),
                None => {}
            }
        }
        Ok(())
    }

    // An end hears what waits first.
    pub(crate) fn hear(&mut self, at: Side, into: &mut [u8]) -> Result<Heard, Failed>
        requires { most_bytes ≤ length into.old }
        ensures ok { IfOk result (λ heard. Hears at heard into.new self.old self.new) }
        ensures within { IfOk result (λ heard. Fits heard most_bytes) }
        ensures failed { OnErr result (last_count ≤ self.old.count) }
        ensures err { OnErr result (self.new ≡ self.old) }
    {
        if self.count >= LAST_COUNT {
            return Err(Failed);
        }
        let heard = match at {
            Side::First => take_first(&mut self.spares, &mut self.first, into),
            Side::Second => take_first(&mut self.spares, &mut self.second, into),
        };
        match heard {
            Some((len, from)) => {
                self.count += 1;
                Ok(Heard::Datagram { len, from })
            }
            None => Ok(Heard::Quiet),
        }
    }
}

// As many empty buffers as there are.
fn buffers(alloc: Global) -> Result<Vec<Stored>, AllocError>
    ensures len { IfOk result (λ spares. vec_len spares ≡ 8192) }
    ensures capacity { IfOk result (λ spares. 8192 ≤ vec_capacity spares) }
{
    let mut spares = Vec::with_capacity(alloc, BUFFERS)?;
    for _ in 0..BUFFERS {
        spares.push(Stored::new(alloc, Side::First.address())?)?;
    }
    Ok(spares)
}

// Puts a datagram in a spare buffer at a place among those that wait, if there is room.
fn put_at(spares: &mut Vec<Stored>, queue: &mut Queue, place: usize, from: Addr, bytes: &[u8])
    requires place { place ≤ length queue.old }
    requires short { length bytes.now ≤ most_bytes }
    requires room { most_waiting ≤ length queue.old + vec_len spares.old }
    ensures value { queue.new ≡ placed_at place queue.old (record { addr = from; bytes = bytes.now }) }
    ensures within { length queue.old ≤ most_waiting → length queue.new ≤ most_waiting }
    ensures buffers { length queue.new + vec_len spares.new ≡ length queue.old + vec_len spares.old }
    ensures capacity { vec_capacity spares.new ≡ vec_capacity spares.old }
{
    if queue.is_full() {
        return;
    }
    match spares.pop() {
        Some(mut stored) => {
            stored.fill(from, bytes);
            queue.put_at(place, stored);
        }
        None => unreachable!(),
    }
}

// Puts a datagram where its draw says.
fn arrive(spares: &mut Vec<Stored>, queue: &mut Queue, fate: Fate, from: Addr, bytes: &[u8])
    requires short { length bytes.now ≤ most_bytes }
    requires room { most_waiting ≤ length queue.old + vec_len spares.old }
    ensures value { queue.new ≡ arrived fate queue.old (record { addr = from; bytes = bytes.now }) }
    ensures within { length queue.old ≤ most_waiting → length queue.new ≤ most_waiting }
    ensures buffers { length queue.new + vec_len spares.new ≡ length queue.old + vec_len spares.old }
    ensures capacity { vec_capacity spares.new ≡ vec_capacity spares.old }
{
    match fate {
        Fate::Lost => {}
        Fate::Doubled => {
            let place = queue.len();
            put_at(spares, queue, place, from, bytes);
            let place = queue.len();
            put_at(spares, queue, place, from, bytes);
        }
        Fate::Overtaking => {
            let place = queue.len().saturating_sub(1);
            put_at(spares, queue, place, from, bytes);
        }
        Fate::Ordinary => {
            let place = queue.len();
            put_at(spares, queue, place, from, bytes);
        }
    }
}

// Takes the first that waits, copies it to the start of the buffer, and keeps its own one as a spare.
fn take_first(spares: &mut Vec<Stored>, queue: &mut Queue, into: &mut [u8]) -> Option<(usize, Addr)>
    requires space { most_bytes ≤ length into.old }
    requires room { length queue.old + vec_len spares.old ≤ vec_capacity spares.old }
    ensures some { IfSome result
        (λ r. slice_get queue.old 0 ≡ Some (record { addr = r.1; bytes = take r.0 into.new })) }
    ensures none { IfNone result (queue.old ≡ []) }
    ensures within { IfSome result (λ r. r.0 ≤ most_bytes) }
    ensures next { queue.new ≡ drop 1 queue.old }
    ensures buffers { length queue.new + vec_len spares.new ≡ length queue.old + vec_len spares.old }
    ensures capacity { vec_capacity spares.old ≤ vec_capacity spares.new }
{
    let stored = queue.take_first()?;
    let heard = stored.copy_to(into);
    if spares.push(stored).is_err() {
        unreachable!()
    }
    Some(heard)
}
