// Datagrams that arrive: where each goes, and the sockets that are made for requests.

ghost use Rattle.std.specs.Prelude.{◌≡◌, ℕ, ◌<◌, ◌^◌, true, take, Some, None, slice_get, vec_len, IfOk, OnOk, OnErr};
ghost use Rattle.std.specs.Option.{ForSome};
ghost use Rattle.udt_model.specs.declared.routes.Routed.TheVariants as routing;
ghost use Rattle.udt_model.specs.Connections.{config_of};
ghost use Rattle.udt_model.specs.Events.{Arrive};
ghost use Rattle.udt_model.specs.Handshakes as model;
ghost use Rattle.udt_model.specs.History.{state_of};
ghost use Rattle.udt_model.specs.Lines.{DeliverLine};
ghost use Rattle.udt_model.specs.Network as network;
ghost use Rattle.udt_model.specs.Opening.{opening};
ghost use Rattle.udt_model.specs.Routes as routes;
ghost use Rattle.udt_model.specs.Script.{arrived, delivery, offered, on_line};
ghost use Rattle.udt_script.specs.CodeLines.{datagram_of};
ghost use Rattle.udt_world.specs.declared.hosts.Endpoint.{Endpoint};
ghost use Rattle.udt_world.specs.Done.{DoesLine, IsRoute, IsRoutedAs};
ghost use Rattle.udt_world.specs.Views.{view_of, Shows, Sight};
ghost use Rattle.udt_world.specs.Wiring.{adopts, first_with, peer_in, seen_at, sights_of, IsEndpoint, IsWired, MayHappen};

use crate::network::{Act, Network};
use crate::opening::{named, opened};
use itoa::Buffer;
use std::alloc::{AllocError, Global};
use udt_core::Socket;
use udt_handshake::peer_in;
use udt_model::{Addr, Heard, Routed, Shake};
use udt_rate::Control;
use udt_routes::handshake;
use udt_script::{Reply, ScriptDatagram, print_dropped};

/// Where a datagram goes: to the socket at a place, or nowhere, and the word for why.
#[derive(Clone, Copy, Debug, PartialEq, Eq)]
pub enum Route {
    To(usize),
    Nowhere(&'static [u8]),
}

// Where a datagram goes in the network that goes so at its host.
fn route_by(routed: Routed) -> Route
    requires { (id : ℕ) → routed ≡ routing.ToSocket id → 0 < id }
    ensures { IsRoutedAs routed result }
{
    match routed {
        Routed::ToSocket(id) => Route::To(id as usize - 1),
        Routed::Short => Route::Nowhere(b"short"),
        Routed::Id => Route::Nowhere(b"id"),
        Routed::Shake => Route::Nowhere(b"shake"),
        Routed::Stale => Route::Nowhere(b"stale"),
    }
}

// The socket that is made for a request at a listener.
fn made_for<C: Control + Drop>(
    alloc: Global,
    listener: &Socket<C>,
    own: u32,
    from: Addr,
    shake: &Shake,
) -> Result<Socket<C>, AllocError>
    requires { shake.now.isn < 2 ^ 31 }
    ensures { IfOk result (λ socket. socket ≡ opening C.ways own (config_of listener.now)
        (model.peer_in (config_of listener.now) from shake.now) 0 0) }
{
    let config = listener.config();
    let peer = peer_in(&config, from, shake);
    opened(Socket::paired(alloc, own, config, peer, 0))
}

impl<C: Control> Network<C> {
    // Where bytes go that come from this address, by what the endpoint at this place knows.
    fn destination(&self, endpoint: usize, from: Addr, bytes: &[u8]) -> Routed
        requires { endpoint < vec_len self.now.endpoints }
        ensures value { (n : network.Network C) (known : Endpoint) → Shows C.ways n (view_of self.now) → IsWired self.now
            → slice_get self.now.endpoints.items endpoint ≡ Some known
            → result ≡ routes.route (network.known_at C.ways n.sockets known.addr) from bytes.now }
        ensures seen { (known : Endpoint) → IsWired self.now → slice_get self.now.endpoints.items endpoint ≡ Some known
            → result ≡ routes.route (seen_at (sights_of self.now) known.addr) from bytes.now }
    {
        self.endpoints[endpoint].routes.destination_of(from, bytes)
    }

    /// Where bytes go that come from this address, at the endpoint at this place. There is none where no
    /// host has the address.
    pub fn route(&self, endpoint: Option<usize>, from: Addr, bytes: &[u8]) -> Route
        requires wired { IsWired self.now }
        requires endpoint { ForSome endpoint (λ place. place < vec_len self.now.endpoints) }
        ensures value { (n : network.Network C) (to : Addr) → Shows C.ways n (view_of self.now)
            → IsEndpoint self.now endpoint to
            → IsRoute C.ways n (record { from = from; to = to; bytes = bytes.now }) result }
        ensures within { (place : ℕ) → result ≡ Route.To place → place < vec_len self.now.sockets }
        ensures may { (to : Addr) (place : ℕ) → IsEndpoint self.now endpoint to → result ≡ Route.To place
            → MayHappen (sights_of self.now) place (Arrive from bytes.now) }
    {
        match endpoint {
            None => Route::Nowhere(b"host"),
            Some(place) => route_by(self.destination(place, from, bytes)),
        }
    }
}

impl<C: Control + Drop> Network<C> {
    /// The arrival of a datagram, whoever sent it.
    pub fn arrive(
        &mut self,
        now: u64,
        datagram: &ScriptDatagram,
        out: &mut Vec<u8>,
    ) -> Result<(), AllocError>
        requires { IsWired self.old }
        ensures done { OnOk result ((n : network.Network C) → Shows C.ways n (view_of self.old)
            → DoesLine C.ways n (delivery C.ways n now (Some (datagram_of datagram.now))) true
            (view_of self.new) out.old.items out.new.items) }
        ensures wired { OnOk result (IsWired self.new) }
        ensures err { OnErr result (take (vec_len out.old) out.new.items ≡ out.old.items) }
    {
        let endpoint = self.endpoint_at(datagram.to)?;
        match self.route(endpoint, datagram.from, &datagram.bytes) {
            Route::To(place) => self.arrive_at(place, now, datagram, out),
            Route::Nowhere(word) => print_dropped(out, word),
        }
    }

    // The arrival of a datagram at the socket at this place, and what follows where a listener promises
    // a place.
    fn arrive_at(
        &mut self,
        place: usize,
        now: u64,
        datagram: &ScriptDatagram,
        out: &mut Vec<u8>,
    ) -> Result<(), AllocError>
        requires place { place < vec_len self.old.sockets }
        requires wired { IsWired self.old }
        requires may { MayHappen (sights_of self.old) place (Arrive datagram.now.from datagram.now.bytes.items) }
        ensures done { OnOk result ((n : network.Network C) (socket : network.ScriptSocket C)
            → Shows C.ways n (view_of self.old)
            → network.route C.ways n (datagram_of datagram.now) ≡ network.ToSocket place socket
            → DoesLine C.ways n (Some (arrived C.ways n now (datagram_of datagram.now) (network.ToSocket place socket)))
            true (view_of self.new) out.old.items out.new.items) }
        ensures wired { OnOk result (IsWired self.new) }
        ensures err { OnErr result (take (vec_len out.old) out.new.items ≡ out.old.items) }
    {
        let act = Act::Arrive(datagram.from, &datagram.bytes);
        let reply = self.event(place, now, &act, out)?;
        match (handshake(&datagram.bytes), reply) {
            (Some(shake), Reply::Heard(Heard::Request)) => {
                self.follow(place, now, datagram, shake, out)
            }
            _ => Ok(()),
        }
    }

    // A place was promised: a socket is made, offered to the listener, and given the request. Where there
    // is no room for one the promise is taken back.
    fn follow(
        &mut self,
        place: usize,
        now: u64,
        datagram: &ScriptDatagram,
        shake: Shake,
        out: &mut Vec<u8>,
    ) -> Result<(), AllocError>
        requires place { place < vec_len self.old.sockets }
        requires wired { IsWired self.old }
        requires isn { shake.isn < 2 ^ 31 }
        requires unadopted { (s : Sight C) → slice_get (sights_of self.old) place ≡ Some s
            → first_with (adopts s.host datagram.now.from shake.id) (sights_of self.old) ≡ None }
        requires nobody { (s : Sight C) → slice_get (sights_of self.old) place ≡ Some s → peer_in s ≡ None }
        ensures done { OnOk result ((n : network.Network C) (listener : network.ScriptSocket C) (s : Sight C)
            → Shows C.ways n (view_of self.old) → slice_get (sights_of self.old) place ≡ Some s
            → listener.host ≡ s.host → config_of (state_of C.ways listener.history) ≡ config_of s.state
            → DoesLine C.ways n (Some (offered C.ways n now place listener (datagram_of datagram.now) shake)) true
            (view_of self.new) out.old.items out.new.items) }
        ensures wired { OnOk result (IsWired self.new) }
        ensures err { OnErr result (take (vec_len out.old) out.new.items ≡ out.old.items) }
    {
        if !self.has_room(1) {
            self.event(place, now, &Act::Withdraw, out)?;
            return Ok(());
        }
        let count = self.sockets.len();
        let listener = &self.sockets[place];
        let host = listener.host;
        let endpoint = listener.endpoint;
        let made = made_for(
            self.alloc,
            &listener.socket,
            count as u32 + 1,
            datagram.from,
            &shake,
        )?;
        let mut name = Buffer::new();
        let name = name.format(count + 1).as_bytes();
        self.add(named(self.alloc, name, host, endpoint, made)?)?;
        self.event(place, now, &Act::Offer(count as u32 + 1), out)?;
        let act = Act::Arrive(datagram.from, &datagram.bytes);
        self.event(count, now, &act, out)?;
        Ok(())
    }

    /// The arrival of the datagram with this number. False where none was printed under it.
    pub fn deliver(&mut self, number: u64, now: u64, out: &mut Vec<u8>) -> Result<bool, AllocError>
        requires { IsWired self.old }
        ensures done { IfOk result (λ did. (n : network.Network C) → Shows C.ways n (view_of self.old)
            → DoesLine C.ways n (on_line C.ways n (DeliverLine number now)) did
            (view_of self.new) out.old.items out.new.items) }
        ensures wired { OnOk result (IsWired self.new) }
        ensures err { OnErr result (take (vec_len out.old) out.new.items ≡ out.old.items) }
    {
        if number >= self.datagrams.len() as u64 {
            return Ok(false);
        }
        let emitted = &self.datagrams[number as usize];
        let datagram = ScriptDatagram {
            from: emitted.from,
            to: emitted.to,
            bytes: Vec::from_slice(self.alloc, &emitted.bytes)?,
        };
        self.arrive(now, &datagram, out)?;
        Ok(true)
    }
}
