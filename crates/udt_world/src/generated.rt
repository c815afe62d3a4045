// The generated run: a script of which draws decide what each turn does.

ghost use Rattle.std.specs.Prelude.{◌≡◌, ℕ, ◌+◌, ◌*◌, ◌≤◌, ◌<◌, ◌^◌, codes, length, vec_len, IfOk, OnOk};
ghost use Rattle.udt_model.specs.Draws.{next_state, draw as drawn};
ghost use Rattle.udt_model.specs.Events.{Pack, Recv, Tick};
ghost use Rattle.udt_model.specs.Generated as model;
ghost use Rattle.udt_model.specs.Generated.{after_call, after_delivery, after_sending, counted_bytes, generated, generated_summary, summary_of};
ghost use Rattle.udt_model.specs.declared.limits.TheConstants.{LAST_MOMENT};
ghost use Rattle.udt_world.specs.Runs.{count_in, IsBelow, IsRun, IsSet};
ghost use Rattle.udt_world.specs.declared.generated.TheConstants.{MOST_SENT, PATTERN};

use crate::arrivals::Route;
use crate::network::{Act, Network};
use std::alloc::{AllocError, Global};
use udt_core::OutOfMemory;
use udt_model::{Kind, Refusal, Summary};
use udt_rate::Control;
use udt_script::{Call, Pairing};

/// The bytes of a send at most, and the room of a receive.
const MOST_SENT: usize = 4096;

/// After how many bytes those that are sent come again.
const CYCLE: usize = 251;

/// The bytes of one round, and then of a send at most: those of every send stand somewhere in them.
const PATTERN: usize = 4347;

/// How many of the newest datagrams most deliveries are drawn from.
const NEWEST: u64 = 32;

/// A run: the network, where the draws stand, how many bytes a accepted and b delivered, the bytes that
/// are sent, and room for those that are received.
#[derive(Drop)]
struct Run<C> {
    network: Network<C>,
    state: u64,
    accepted: u64,
    delivered: u64,
    pattern: Vec<u8>,
    room: Vec<u8>,
}

// The bytes of one round, and then of a send at most.
fn pattern(alloc: Global) -> Result<Vec<u8>, AllocError>
    ensures value { IfOk result (λ bytes. bytes.items ≡ counted_bytes 0 PATTERN) }
    ensures length { IfOk result (λ bytes. vec_len bytes ≡ PATTERN) }
{
    let mut bytes = Vec::with_capacity(alloc, PATTERN)?;
    for i in 0..PATTERN {
        bytes.push((i % CYCLE) as u8)?;
    }
    Ok(bytes)
}

// This many bytes of the pattern, after so many that were sent.
fn after(pattern: &[u8], sent: u64, count: usize) -> &[u8]
    requires value { pattern.now ≡ counted_bytes 0 PATTERN }
    requires length { length pattern.now ≡ PATTERN }
    requires few { count ≤ MOST_SENT }
    ensures { result.now ≡ counted_bytes sent count }
{
    let start = (sent % CYCLE as u64) as usize;
    &pattern[start..start + count]
}

// How many bytes an answer counts.
fn counted(answer: Result<usize, Refusal>) -> u64
    ensures { result ≡ count_in answer }
{
    match answer {
        Ok(count) => count as u64,
        Err(_) => 0,
    }
}

// The number of the datagram that is delivered of so many: one of the newest, or any.
fn delivered_number(kind: u64, drawn: u64, count: u64) -> u64
    requires { 0 < count }
    ensures value { result ≡ model.delivered_number kind drawn count }
    ensures within { result < count }
{
    if kind < 7 {
        count - 1 - drawn % count.min(NEWEST)
    } else {
        drawn % count
    }
}

impl<C: Control + Drop> Run<C> {
    // The run of this number before its first turn.
    fn new(alloc: Global, n: u64) -> Result<Run<C>, AllocError>
        ensures run { IfOk result (λ run. IsRun C.ways (generated C.ways n 0) run) }
        ensures set { IfOk result (λ run. IsSet run) }
        ensures below { IfOk result (λ run. IsBelow run 0) }
    {
        let mut network = Network::new(alloc);
        let pairing = Pairing {
            kind: Kind::Stream,
            a: b"a",
            b: b"b",
            payload: 1456,
            isn: (n % (1 << 31)) as u32,
            blocks: 64,
            start: 0,
        };
        let mut text = Vec::new(alloc);
        network.pair(&pairing, &mut text)?;
        Ok(Run {
            network,
            state: n,
            accepted: 0,
            delivered: 0,
            pattern: pattern(alloc)?,
            room: vec![in alloc; 0; MOST_SENT]?,
        })
    }
}

impl<C: Control> Run<C> {
    // Draws a number below 2^31.
    fn draw(&mut self) -> u64
        ensures value { result ≡ drawn self.old.state }
        ensures next { self.new ≡ record self.old { state = next_state self.old.state } }
    {
        self.state = self
            .state
            .wrapping_mul(6_364_136_223_846_793_005)
            .wrapping_add(1_442_695_040_888_963_407);
        self.state >> 33
    }

    // The socket a sends the bytes that follow those that it accepted.
    fn send(&mut self, now: u64)
        requires set { IsSet self.old }
        requires room { self.old.accepted + MOST_SENT < 2 ^ 64 }
        ensures run { (run : model.Run C) → IsRun C.ways run self.old
            → IsRun C.ways (after_sending C.ways run now) self.new }
        ensures set { IsSet self.new }
        ensures below { (most : ℕ) → IsBelow self.old most → IsBelow self.new (most + MOST_SENT) }
    {
        let count = 1 + (self.draw() % MOST_SENT as u64) as usize;
        let bytes = after(&self.pattern, self.accepted, count);
        let answer = self.network.send(0, now, bytes);
        self.accepted += counted(answer);
    }

    // The socket b receives.
    fn recv(&mut self, now: u64)
        requires set { IsSet self.old }
        requires room { self.old.delivered + MOST_SENT < 2 ^ 64 }
        ensures run { (run : model.Run C) → IsRun C.ways run self.old → IsRun C.ways
            (record run { network = after_call C.ways run.network (codes "b") now (Recv MOST_SENT) }) self.new }
        ensures set { IsSet self.new }
        ensures below { (most : ℕ) → IsBelow self.old most → IsBelow self.new (most + MOST_SENT) }
    {
        let answer = self.network.recv(1, now, &mut self.room);
        self.delivered += counted(answer);
    }

    // The socket a packs.
    fn pack(&mut self, now: u64) -> Result<(), AllocError>
        requires { IsSet self.old }
        ensures run { OnOk result ((run : model.Run C) → IsRun C.ways run self.old → IsRun C.ways
            (record run { network = after_call C.ways run.network (codes "a") now Pack }) self.new) }
        ensures set { OnOk result (IsSet self.new) }
        ensures below { OnOk result ((most : ℕ) → IsBelow self.old most → IsBelow self.new most) }
    {
        self.network.move_on(0, now, &Act::Call(&Call::Pack))
    }

    // Both sockets tick, a first.
    fn tick(&mut self, now: u64) -> Result<(), AllocError>
        requires { IsSet self.old }
        ensures run { OnOk result ((run : model.Run C) → IsRun C.ways run self.old → IsRun C.ways
            (record run {
              network = after_call C.ways
                  (after_call C.ways run.network (codes "a") now Tick) (codes "b") now Tick;
            }) self.new) }
        ensures set { OnOk result (IsSet self.new) }
        ensures below { OnOk result ((most : ℕ) → IsBelow self.old most → IsBelow self.new most) }
    {
        self.network.move_on(0, now, &Act::Call(&Call::Tick))?;
        self.network.move_on(1, now, &Act::Call(&Call::Tick))
    }

    // A datagram is delivered, where there are any.
    fn deliver(&mut self, now: u64, kind: u64) -> Result<(), AllocError>
        requires { IsSet self.old }
        ensures run { OnOk result ((run : model.Run C) → IsRun C.ways run self.old
            → IsRun C.ways (after_delivery C.ways run now kind) self.new) }
        ensures set { OnOk result (IsSet self.new) }
        ensures below { OnOk result ((most : ℕ) → IsBelow self.old most → IsBelow self.new most) }
    {
        let count = self.network.datagrams.len() as u64;
        if count == 0 {
            return Ok(());
        }
        let number = delivered_number(kind, self.draw(), count) as usize;
        match self.network.route_of(number)? {
            Route::To(place) => self.network.hear(place, number, now),
            Route::Nowhere(_) => Ok(()),
        }
    }

    // A turn at this moment.
    fn turn(&mut self, now: u64) -> Result<(), AllocError>
        requires set { IsSet self.old }
        requires accepted { self.old.accepted + MOST_SENT < 2 ^ 64 }
        requires delivered { self.old.delivered + MOST_SENT < 2 ^ 64 }
        ensures run { OnOk result ((run : model.Run C) → IsRun C.ways run self.old
            → IsRun C.ways (model.turn C.ways run now) self.new) }
        ensures set { OnOk result (IsSet self.new) }
        ensures below { OnOk result ((most : ℕ) → IsBelow self.old most
            → IsBelow self.new (most + MOST_SENT)) }
    {
        let kind = self.draw() % 8;
        if kind == 0 {
            self.send(now);
            return Ok(());
        }
        if kind == 1 {
            self.recv(now);
            return Ok(());
        }
        if kind < 4 {
            return self.pack(now);
        }
        if kind == 4 {
            return self.tick(now);
        }
        self.deliver(now, kind)
    }

    // What is told of the run.
    fn summary(&mut self) -> Summary
        requires { IsSet self.old }
        ensures { (run : model.Run C) → IsRun C.ways run self.old → result ≡ summary_of C.ways run.network }
    {
        Summary {
            accepted: self.accepted,
            delivered: self.delivered,
            acked: self.network.sockets[0].socket.perf(0).acked,
            datagrams: self.network.datagrams.len() as u64,
        }
    }
}

/// What is told of the run of this number after so many turns, 50 microseconds apart. It prints nothing,
/// and fails only where memory runs out.
pub fn generate<C: Control + Drop>(
    alloc: Global,
    n: u64,
    turns: u64,
) -> Result<Summary, OutOfMemory>
    requires { 50 * turns ≤ LAST_MOMENT }
    ensures { IfOk result (λ summary. summary ≡ generated_summary C.ways n turns) }
{
    let mut run = Run::<C>::new(alloc, n)?;
    for turn in 0..turns {
        run.turn(50 * (turn + 1))?;
    }
    Ok(run.summary())
}
