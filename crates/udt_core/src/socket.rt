// The socket: two halves and what they share.

ghost use Rattle.std.specs.Prelude.{◌≡◌, ◌<◌, ◌≤◌, ◌^◌, [], IfOk, IsErrOf, IsTrue, ◌↔◌};
ghost use Rattle.udt_model.specs.Calls.{stamp_of};
ghost use Rattle.udt_model.specs.Events.{at_moment};
ghost use Rattle.udt_model.specs.Opening.{idle, connected, opened, opening, CanOpen, CanPair};
ghost use Rattle.udt_model.specs.declared.limits.TheConstants.{LAST_START};

use crate::counts::risen;
use crate::memory::OutOfMemory;
use crate::phase::Phase;
use std::alloc::Global;
use std::marker::Model;
use udt_model::{
    Config, Counters, FEWEST_BLOCKS, Kind, LAST_MOMENT, LAST_START, MOST_BLOCKS, MOST_PAYLOAD,
    NO_COUNTERS, NOBODY, Origin, Peer,
};
use udt_rate::Control;
use udt_receiver::{Ranges, Receiver};
use udt_sender::Sender;
use udt_timing::Rtt;

mod arrivals;
mod calls;
mod connections;
mod shakes;
mod ticks;

/// Why a socket wasn't opened.
#[derive(Clone, Copy, Debug, PartialEq, Eq)]
pub enum OpenNo {
    BadParameter,
    OutOfMemory,
}

/// One end of a connection, as a machine of events. Contracts see it as the state of the protocol's
/// definitions, and each event as its step.
///
/// The application calls `listen` and `accept`, or `connect`, or `meet`, and `shake` to know what became of it; then `send`, `recv`,
/// or `send_message`, `recv_message`, and `perf` and `close`. What owns the port gives each datagram
/// that came for this socket to `arrive`, and calls `tick` for what time gives and `pack` to have
/// the next datagram; `next_moment` says when. Where a listener promises a request a place, it makes a
/// `paired` socket and calls `offer`, or `withdraw`. Each event carries its moment in microseconds: one
/// before the last counts as the last, and one at or past 2^53 as 2^53 - 1. `count`, `bits` and
/// `next_moment` are no events.
#[derive(Drop)]
pub struct Socket<C> {
    alloc: Global,
    own: u32,
    kind: Kind,
    isn: u32,
    peer: Peer,
    origin: Origin,
    opened: u64,
    last: u64,
    count: u64,
    phase: Phase,
    heard: u64,
    exp_from: u64,
    exp_count: u64,
    rtt: Rtt,
    sending: Sender<C>,
    receiving: Receiver,
    // what a NAK reports, while a tick emits it
    ranges: Ranges,
    counters: Counters,
}

impl<C> Model for Socket<C> {
    ghost use Rattle.udt_model.specs.State.{State};

    ghost Value = { State C };

    ghost use Rattle.udt_core.specs.Sockets.{state_of, IsSocket};

    ghost view = { state_of };

    ghost invariant = { IsSocket };
}

impl<C: Control + Drop> Socket<C> {
    /// A socket without a connection, which will send from this initial sequence number on. It takes all
    /// memory of the socket but that of a listener's backlog. BadParameter comes of a payload or number of
    /// blocks out of range.
    #[tactic(auto, unfolding(udt_model::specs::Opening::opened))]
    pub fn open(
        alloc: Global,
        own: u32,
        isn: u32,
        config: Config,
        now: u64,
    ) -> Result<Socket<C>, OpenNo>
        requires number { isn < 2 ^ 31 }
        ensures ok { IfOk result (λ socket. socket ≡ opened C.ways own isn config now) }
        ensures refused { IsErrOf result OpenNo.BadParameter ↔ ¬ (CanOpen config) }
    {
        if !can_open(&config) {
            return Err(OpenNo::BadParameter);
        }
        match Socket::idle(alloc, own, isn, config, now, 0) {
            Ok(socket) => Ok(socket),
            Err(_) => Err(OpenNo::OutOfMemory),
        }
    }

    /// A socket that is connected from its opening on, as one that a listener makes for a request,
    /// or one of a pair. Both directions begin at the peer's initial sequence number.
    pub fn paired(
        alloc: Global,
        own: u32,
        config: Config,
        peer: Peer,
        now: u64,
    ) -> Result<Socket<C>, OpenNo>
        requires number { peer.isn < 2 ^ 31 }
        ensures ok { IfOk result (λ socket. socket ≡ opening C.ways own config peer now 0) }
        ensures refused { IsErrOf result OpenNo.BadParameter ↔ ¬ (CanPair config peer 0) }
    {
        Socket::paired_at(alloc, own, config, peer, now, 0)
    }

    /// The same, with both directions beginning at this offset. It takes all memory of the socket.
    #[tactic(auto, unfolding(udt_model::specs::Opening::opening))]
    pub fn paired_at(
        alloc: Global,
        own: u32,
        config: Config,
        peer: Peer,
        now: u64,
        start: u64,
    ) -> Result<Socket<C>, OpenNo>
        requires number { peer.isn < 2 ^ 31 }
        ensures ok { IfOk result (λ socket. socket ≡ opening C.ways own config peer now start) }
        ensures refused { IsErrOf result OpenNo.BadParameter ↔ ¬ (CanPair config peer start) }
    {
        if !can_pair(&config, &peer, start) {
            return Err(OpenNo::BadParameter);
        }
        match Socket::idle(alloc, own, peer.isn, config, now, start) {
            Ok(mut socket) => {
                socket.connect_with(peer, Origin::Opening);
                Ok(socket)
            }
            Err(_) => Err(OpenNo::OutOfMemory),
        }
    }

    // Takes the memory of a socket without a connection.
    fn idle(
        alloc: Global,
        own: u32,
        isn: u32,
        config: Config,
        now: u64,
        start: u64,
    ) -> Result<Socket<C>, OutOfMemory>
        requires in_range { CanOpen config }
        requires start { start ≤ LAST_START }
        requires number { isn < 2 ^ 31 }
        ensures value { IfOk result (λ socket. socket ≡ idle C.ways own isn config now start) }
    {
        let now = now.min(LAST_MOMENT);
        let sending = Sender::new(alloc, &config, start)?;
        let receiving = Receiver::new(alloc, &config, start)?;
        let ranges = Ranges::new(alloc, 2.max(config.payload / 4))?;
        Ok(Socket {
            alloc,
            own,
            kind: config.kind,
            isn,
            peer: NOBODY,
            origin: Origin::Nobody,
            opened: now,
            last: now,
            count: 0,
            phase: Phase::Opened,
            heard: now,
            exp_from: now,
            exp_count: 1,
            rtt: Rtt::new(),
            sending,
            receiving,
            ranges,
            counters: NO_COUNTERS,
        })
    }
}

impl<C: Control + Drop> Socket<C> {
    // Connects the socket to this peer, which it came by so.
    fn connect_with(&mut self, peer: Peer, origin: Origin)
        requires some { 0 < peer.payload }
        requires nothing_taken { self.old.sending.blocks.kept ≡ [] }
        ensures { self.new ≡ connected C.ways self.old peer origin }
    {
        let payload = self.sending.room().min(peer.payload);
        self.sending.link(self.isn, payload, peer.flow);
        self.receiving.link(self.last, peer.isn, payload, &self.rtt);
        self.peer = peer;
        self.origin = origin;
        self.phase = Phase::Connected;
        self.heard = self.last;
        self.exp_from = self.last;
        self.exp_count = 1;
    }
}

impl<C: Control> Socket<C> {
    // One more event, at this moment.
    fn at(&mut self, now: u64)
        ensures { self.new ≡ at_moment self.old now }
    {
        self.last = now.min(LAST_MOMENT).max(self.last);
        self.count = risen(self.count);
    }

    // Microseconds since the socket was opened, modulo 2^32.
    fn stamp(&self) -> u32
        ensures { result ≡ stamp_of self.now }
    {
        ((self.last - self.opened) % (1 << 32)) as u32
    }
}

// The values with which a socket is opened lie in their ranges.
fn can_open(config: &Config) -> bool
    ensures { IsTrue result ↔ CanOpen config.now }
{
    1 <= config.payload
        && config.payload <= MOST_PAYLOAD
        && FEWEST_BLOCKS <= config.snd_blocks
        && config.snd_blocks <= MOST_BLOCKS
        && FEWEST_BLOCKS <= config.rcv_blocks
        && config.rcv_blocks <= MOST_BLOCKS
}

// And so do those with which it is connected.
fn can_pair(config: &Config, peer: &Peer, start: u64) -> bool
    ensures { IsTrue result ↔ CanPair config.now peer.now start }
{
    can_open(config) && 1 <= peer.payload && start <= LAST_START
}
