// Events of the sockets that print nothing. What a socket emits is kept.

ghost use Rattle.std.specs.Prelude.{◌≡◌, ◌≤◌, ℕ, ◌<◌, ◌++◌, Some, length, map, slice_get, vec_len, IfOk, OnOk};
ghost use Rattle.udt_core.specs.Received.{received_in};
ghost use Rattle.udt_model.specs.Events.{Arrive, Send, Sent, Recv, Received, event};
ghost use Rattle.udt_model.specs.Network as model;
ghost use Rattle.udt_model.specs.Script.{from_host};
ghost use Rattle.udt_script.specs.CodeLines.{datagram_of};
ghost use Rattle.udt_world.specs.Done.{IsRoute};
ghost use Rattle.udt_world.specs.Views.{act_in, view_of, event_of, Answers, Moves, Shows};
ghost use Rattle.udt_world.specs.Wiring.{sights_of, IsWired, KeepsPlaces, MayHappen};

use crate::arrivals::Route;
use crate::network::{Act, Network, happen, room};
use std::alloc::{AllocError, Global};
use udt_core::Outs;
use udt_model::{Addr, Refusal};
use udt_rate::Control;
use udt_script::ScriptDatagram;

// Keeps the datagrams that an event emitted.
fn keep(
    alloc: Global,
    datagrams: &mut Vec<ScriptDatagram>,
    from: Addr,
    outs: &Outs,
) -> Result<(), AllocError>
    ensures { OnOk result (map datagram_of datagrams.new.items
        ≡ map datagram_of datagrams.old.items ++ map (from_host from) outs.now) }
{
    for i in 0..outs.len() {
        let (to, bytes) = outs.get(i);
        let bytes = Vec::from_slice(alloc, bytes)?;
        datagrams.push(ScriptDatagram { from, to, bytes })?;
    }
    Ok(())
}

impl<C: Control> Network<C> {
    /// The socket at this place takes bytes.
    #[tactic(auto, using(crate::proofs::EventLemmas::send_outs))]
    pub fn send(&mut self, place: usize, now: u64, bytes: &[u8]) -> Result<usize, Refusal>
        requires place { place < vec_len self.old.sockets }
        requires wired { IsWired self.old }
        ensures value { Answers C.ways place (event now (Send bytes.now)) (Sent result)
            (view_of self.old) (view_of self.new) }
        ensures wired { IsWired self.new }
    {
        self.sockets[place].socket.send(now, bytes)
    }

    /// The socket at this place gives bytes.
    #[tactic(auto, using(crate::proofs::EventLemmas::recv_outs))]
    pub fn recv(&mut self, place: usize, now: u64, into: &mut [u8]) -> Result<usize, Refusal>
        requires place { place < vec_len self.old.sockets }
        requires wired { IsWired self.old }
        ensures wired { IsWired self.new }
        ensures value { Answers C.ways place (event now (Recv (length into.old)))
            (Received (received_in result into.new)) (view_of self.old) (view_of self.new) }
        ensures within { IfOk result (λ count. count ≤ length into.old) }
    {
        self.sockets[place].socket.recv(now, into)
    }

    // The socket at this place has an event, and what it emitted is kept.
    fn stir(&mut self, place: usize, now: u64, act: &Act) -> Result<(), AllocError>
        requires { place < vec_len self.old.sockets }
        ensures moves { OnOk result (Moves C.ways place (event_of now act.now)
            (view_of self.old) (view_of self.new)) }
        ensures kept { OnOk result (KeepsPlaces self.old self.new) }
    {
        let mut outs = room(self.alloc, &mut self.outs)?;
        let socket = &mut self.sockets[place];
        let host = socket.host;
        let reply = happen(self.alloc, &mut socket.socket, now, act, &mut outs)?;
        socket.note(act, &reply);
        keep(self.alloc, &mut self.datagrams, host, &outs)?;
        self.outs = Some(outs);
        Ok(())
    }

    /// An event of the socket at this place. The endpoint at its host is told of it.
    pub fn move_on(&mut self, place: usize, now: u64, act: &Act) -> Result<(), AllocError>
        requires place { place < vec_len self.old.sockets }
        requires wired { IsWired self.old }
        requires may { MayHappen (sights_of self.old) place (act_in act.now) }
        ensures moves { OnOk result (Moves C.ways place (event_of now act.now)
            (view_of self.old) (view_of self.new)) }
        ensures wired { OnOk result (IsWired self.new) }
    {
        self.stir(place, now, act)?;
        self.enter(place);
        Ok(())
    }

    /// The route of the datagram with this number.
    pub fn route_of(&mut self, number: usize) -> Result<Route, AllocError>
        requires number { number < vec_len self.old.datagrams }
        requires wired { IsWired self.old }
        ensures value { IfOk result (λ route. (n : model.Network C) (datagram : model.ScriptDatagram)
            → Shows C.ways n (view_of self.old)
            → slice_get (view_of self.old).datagrams number ≡ Some datagram
            → IsRoute C.ways n datagram route) }
        ensures may { IfOk result (λ route. (place : ℕ) (datagram : model.ScriptDatagram) → route ≡ Route.To place
            → slice_get (view_of self.old).datagrams number ≡ Some datagram
            → (place < vec_len self.new.sockets)
            × MayHappen (sights_of self.new) place (Arrive datagram.from datagram.bytes)) }
        ensures kept { self.new ≡ record self.old { endpoints = self.new.endpoints } }
        ensures wired { OnOk result (IsWired self.new) }
    {
        let to = self.datagrams[number].to;
        let endpoint = self.endpoint_at(to)?;
        let datagram = &self.datagrams[number];
        Ok(self.route(endpoint, datagram.from, &datagram.bytes))
    }

    // The datagram with this number arrives at the socket at this place, and what that emits is kept.
    fn take_in(&mut self, place: usize, number: usize, now: u64) -> Result<(), AllocError>
        requires place { place < vec_len self.old.sockets }
        requires number { number < vec_len self.old.datagrams }
        ensures moves { OnOk result ((datagram : model.ScriptDatagram)
            → slice_get (view_of self.old).datagrams number ≡ Some datagram
            → Moves C.ways place (event now (Arrive datagram.from datagram.bytes))
            (view_of self.old) (view_of self.new)) }
        ensures kept { OnOk result (KeepsPlaces self.old self.new) }
    {
        let mut outs = room(self.alloc, &mut self.outs)?;
        let emitted = &self.datagrams[number];
        let socket = &mut self.sockets[place];
        let host = socket.host;
        let _ = socket
            .socket
            .arrive(now, emitted.from, &emitted.bytes, &mut outs);
        keep(self.alloc, &mut self.datagrams, host, &outs)?;
        self.outs = Some(outs);
        Ok(())
    }

    /// The arrival of the datagram with this number at the socket at this place.
    pub fn hear(&mut self, place: usize, number: usize, now: u64) -> Result<(), AllocError>
        requires place { place < vec_len self.old.sockets }
        requires number { number < vec_len self.old.datagrams }
        requires wired { IsWired self.old }
        requires may { (datagram : model.ScriptDatagram)
            → slice_get (view_of self.old).datagrams number ≡ Some datagram
            → MayHappen (sights_of self.old) place (Arrive datagram.from datagram.bytes) }
        ensures moves { OnOk result ((datagram : model.ScriptDatagram)
            → slice_get (view_of self.old).datagrams number ≡ Some datagram
            → Moves C.ways place (event now (Arrive datagram.from datagram.bytes))
            (view_of self.old) (view_of self.new)) }
        ensures wired { OnOk result (IsWired self.new) }
    {
        self.take_in(place, number, now)?;
        self.enter(place);
        Ok(())
    }
}
