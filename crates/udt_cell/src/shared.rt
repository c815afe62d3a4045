// A socket that threads share.
ghost use Rattle.std.specs.Prelude.{◌≡◌, ◌+◌, ◌≤◌, ◌++◌, IfOk, IfErr, max};
ghost use Rattle.udt_model.specs.Moments as moments;
ghost use Rattle.udt_model.specs.Readiness.{ready_bits};
ghost use Rattle.udt_turn.specs.History.{Begins, longer, mine_in, last_of};
ghost use Rattle.udt_turn.specs.Rule.{NoTwice};
ghost use Rattle.udt_turn.specs.Kinds.{newcomer, IsSound};
ghost use Rattle.udt_turn.specs.Words.{IsPassOf, KeepsNames, HasBranched, MakesPair, OnlySees};
ghost use Rattle.udt_turn.specs.Words.{view_of, opening_of, seen_of, mine_of, number_of, names_of, made_of, drawn_of};
ghost use Rattle.udt_cell.specs.Entries.{tale_of_sockets, last_count};
ghost use Rattle.udt_cell.specs.Sharing.{state_of};

use crate::boxed::BoxedSocket;
use std::alloc::{AllocFailed, Global};
use std::sync::Wait;
use udt_core::Socket;
use udt_rate::Control;
use udt_turn::{Full, Look, Pass, Turn};

mod calls;
mod connections;
mod leaving;
mod work;

/// A pass of a shared socket.
pub type SocketPass<C> = Pass<BoxedSocket<C>>;

/// There was no memory.
#[derive(Clone, Copy, Debug, PartialEq, Eq)]
pub struct OutOfMemory;

/// A socket that threads share. Each thread has a pass of its own, and each event is made under one.
pub struct SharedSocket<C: Control> {
    pub(crate) turn: Turn<BoxedSocket<C>>,
}

impl<C: Control + Drop> Drop for SharedSocket<C> {
    fn drop(self) {
        let SharedSocket { turn } = self;
        drop(turn);
    }
}

impl<C: Control> SharedSocket<C> {
    /// Makes a socket one that threads share, and gives its first pass.
    pub fn make(
        alloc: Global,
        socket: Socket<C>,
    ) -> Result<(SharedSocket<C>, SocketPass<C>), (Socket<C>, OutOfMemory)>
        requires { socket.count ≤ last_count }
        ensures pass { IfOk result (λ r. IsPassOf r.0.turn r.1 × (view_of r.1 ≡ newcomer socket)) }
        ensures opening { IfOk result (λ r. opening_of r.0.turn ≡ socket) }
        ensures sound { IfOk result (λ r. IsSound (tale_of_sockets C.ways) (view_of r.1)) }
        ensures err { IfErr result (λ e. e.0 ≡ socket) }
    {
        let socket = match Box::new(alloc, socket) {
            Ok(socket) => socket,
            Err(AllocFailed { value }) => return Err((value, OutOfMemory)),
        };
        match Turn::make(alloc, BoxedSocket { socket }) {
            Ok((turn, pass)) => Ok((SharedSocket { turn }, pass)),
            Err((boxed, _)) => {
                let BoxedSocket { socket } = boxed;
                Err((Box::into_inner(socket), OutOfMemory))
            }
        }
    }

    /// Gives a pass with a number of its own, which has seen what this one has and made nothing. Full
    /// comes where the numbers for passes are used up.
    pub fn split(&self, pass: &mut SocketPass<C>) -> Result<SocketPass<C>, Full>
        requires { IsPassOf self.now.turn pass.old }
        ensures own { IsPassOf self.now.turn pass.new }
        ensures number { number_of pass.new ≡ number_of pass.old }
        ensures names { names_of pass.new ≡ names_of pass.old }
        ensures seen { seen_of pass.new ≡ seen_of pass.old }
        ensures sound { IsSound (tale_of_sockets C.ways) (view_of pass.new) }
        ensures new { IfOk result (λ p. IsPassOf self.now.turn p) }
        ensures branch { IfOk result (λ p. HasBranched (view_of pass.old) (view_of p)) }
        ensures made { IfOk result (λ p. MakesPair pass.old pass.new p) }
        ensures drawn { IfOk result (λ p. drawn_of pass.new ≡ number_of p + 1) }
        ensures sound_new { IfOk result (λ p. IsSound (tale_of_sockets C.ways) (view_of p)) }
        ensures full { IfErr result (λ _. 65535 ≤ drawn_of pass.new) }
        ensures err { IfErr result (λ _. made_of pass.new ≡ made_of pass.old) }
    {
        self.turn.split(pass)
    }

    /// Joins a pass into another, which then has the names, the pairs and the items of both.
    pub fn join(&self, gone: SocketPass<C>, into: &mut SocketPass<C>)
        requires gone { IsPassOf self.now.turn gone }
        requires into { IsPassOf self.now.turn into.old }
        ensures own { IsPassOf self.now.turn into.new }
        ensures number { number_of into.new ≡ number_of into.old }
        ensures names { names_of into.new ≡ names_of into.old ++ names_of gone }
        ensures apart { NoTwice (names_of into.new) }
        ensures made { made_of into.new ≡ made_of into.old ++ made_of gone }
        ensures drawn { drawn_of into.new ≡ max (drawn_of into.old) (drawn_of gone) }
        ensures longer { (seen_of into.new).items ≡ longer (seen_of into.old).items (seen_of gone).items }
        ensures of_into { mine_in (names_of into.old) (seen_of into.new).items ≡ mine_of into.old }
        ensures of_gone { mine_in (names_of gone) (seen_of into.new).items ≡ mine_of gone }
        ensures from_into { Begins (seen_of into.old).items (seen_of into.new).items }
        ensures from_gone { Begins (seen_of gone).items (seen_of into.new).items }
        ensures sound { IsSound (tale_of_sockets C.ways) (view_of into.new) }
    {
        self.turn.join(gone, into);
    }

    /// Reads the count of events and what the socket is ready for, in one load.
    pub fn look(&self, pass: &mut SocketPass<C>) -> Look
        requires { IsPassOf self.now.turn pass.old }
        ensures own { IsPassOf self.now.turn pass.new }
        ensures names { KeepsNames (view_of pass.old) (view_of pass.new) }
        ensures later { Begins (seen_of pass.old).items (seen_of pass.new).items }
        ensures mine { mine_of pass.new ≡ mine_of pass.old }
        ensures sound { IsSound (tale_of_sockets C.ways) (view_of pass.new) }
        ensures count { result.count ≡ (state_of C.ways pass.new).count }
        ensures bits { result.bits ≡ ready_bits (state_of C.ways pass.new) }
    {
        self.turn.look(pass)
    }

    /// The first moment at which a tick or a packing of the socket would do something, in microseconds.
    /// It takes the turn, and is no event.
    pub fn next_moment<R: Wait>(&self, rt: &R, pass: &mut SocketPass<C>) -> Option<u64>
        requires { IsPassOf self.now.turn pass.old }
        ensures own { IsPassOf self.now.turn pass.new }
        ensures names { KeepsNames (view_of pass.old) (view_of pass.new) }
        ensures only { OnlySees (tale_of_sockets C.ways) pass.old pass.new }
        ensures value { result ≡ moments.next_moment C.ways (state_of C.ways pass.new) }
    {
        let mut held = self.turn.enter(rt, pass);
        let moment = held.value().next_moment();
        held.leave();
        moment
    }

    /// The count of the socket after the last event of this pass, and 0 where it has made none.
    pub fn at(&self, pass: &SocketPass<C>) -> u64
        ensures { result ≡ last_of (tale_of_sockets C.ways) (names_of pass.now) (seen_of pass.now) }
    {
        pass.last()
    }
}

#[cfg(test)]
impl<C: Control + Drop> SharedSocket<C> {
    // Every other pass was joined into this one.
    pub(crate) fn is_whole(self, pass: SocketPass<C>) -> bool
        requires { IsPassOf self.turn pass }
    {
        let SharedSocket { turn } = self;
        turn.close(pass).is_ok()
    }
}
