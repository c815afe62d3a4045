// New sockets: a pair, each the other's peer, and one without a connection.

ghost use Rattle.std.specs.Prelude.{◌≡◌, ◌+◌, ◌<◌, ◌≤◌, ◌↔◌, ◌++◌, ◌∷◌, [], IsTrue, false, true, None, Ok, IfOk, IfSome, OnOk, OnErr, take, vec_len};
ghost use Rattle.udt_model.specs.declared.limits.TheConstants.{MOST_SOCKETS};
ghost use Rattle.udt_model.specs.Lines.{OpenLine, PairLine};
ghost use Rattle.udt_model.specs.Network as network;
ghost use Rattle.udt_model.specs.Opening as model;
ghost use Rattle.udt_model.specs.Script.{may_pair, on_line, open_config, pair_config, peer_of};
ghost use Rattle.udt_model.specs.Words.{is_name, is_word};
ghost use Rattle.udt_script.specs.CodeLines.{opening_of, pairing_of, IsOpenable, IsPairable};
ghost use Rattle.udt_world.specs.Done.{DoesLine};
ghost use Rattle.udt_world.specs.Views.{sight_of, view_of, Shows};
ghost use Rattle.udt_world.specs.Wiring.{new_sight, place_seen, sights_of, IsNew, IsWired, KeepsAddresses};

use crate::hosts::{FIRST_HOST, SECOND_HOST};
use crate::network::{Network, ScriptSocket};
use std::alloc::{AllocError, Global};
use udt_core::{OpenNo, Peer, Socket};
use udt_model::{Addr, Config, MOST_SOCKETS};
use udt_rate::Control;
use udt_script::{Opening, Pairing, print_open, print_pair};

/// Where a socket of a pair stands: its host and its ID.
#[derive(Clone, Copy)]
struct Place {
    host: Addr,
    id: u32,
}

/// What is opened, or that memory ran out.
pub fn opened<T>(answer: Result<T, OpenNo>) -> Result<T, AllocError>
    ensures { IfOk result (λ socket. answer ≡ Ok socket) }
{
    match answer {
        Ok(socket) => Ok(socket),
        Err(_) => Err(AllocError),
    }
}

/// A socket as it is opened, with its name, the address of its host and the place of the endpoint there.
pub fn named<C: Control>(
    alloc: Global,
    name: &[u8],
    host: Addr,
    endpoint: usize,
    socket: Socket<C>,
) -> Result<ScriptSocket<C>, AllocError>
    ensures sight { IfOk result (λ made. sight_of made ≡ new_sight name.now host socket) }
    ensures endpoint { IfOk result (λ made. made.endpoint ≡ endpoint) }
{
    Ok(ScriptSocket {
        name: Vec::from_slice(alloc, name)?,
        host,
        endpoint,
        listened: false,
        met: None,
        socket,
    })
}

// One socket of a pair, with its ID, and the place of the other.
fn paired<C: Control + Drop>(
    alloc: Global,
    pairing: &Pairing,
    own: u32,
    peer: Place,
) -> Result<Socket<C>, AllocError>
    requires { IsPairable pairing.now }
    ensures { IfOk result (λ socket. socket ≡ model.opening C.ways own (pair_config (pairing_of pairing.now))
        (peer_of (pairing_of pairing.now) peer.host peer.id) 0 pairing.now.start) }
{
    let config = Config {
        kind: pairing.kind,
        payload: pairing.payload,
        snd_blocks: pairing.blocks,
        rcv_blocks: pairing.blocks,
    };
    let peer = Peer {
        addr: peer.host,
        id: peer.id,
        isn: pairing.isn,
        payload: pairing.payload,
        flow: pairing.blocks,
    };
    opened(Socket::paired_at(alloc, own, config, peer, 0, pairing.start))
}

// A socket without a connection, with its ID.
fn unconnected<C: Control + Drop>(
    alloc: Global,
    opening: &Opening,
    own: u32,
) -> Result<Socket<C>, AllocError>
    requires { IsOpenable opening.now }
    ensures { IfOk result (λ socket. socket
        ≡ model.opened C.ways own opening.now.isn (open_config (opening_of opening.now)) 0) }
{
    let config = Config {
        kind: opening.kind,
        payload: opening.payload,
        snd_blocks: opening.blocks,
        rcv_blocks: opening.blocks,
    };
    opened(Socket::open(alloc, own, opening.isn, config, 0))
}

impl<C: Control + Drop> Network<C> {
    /// The place of the socket with this name.
    pub fn place_of(&self, name: &[u8]) -> Option<usize>
        requires { IsWired self.now }
        ensures value { (n : network.Network C) → Shows C.ways n (view_of self.now)
            → result ≡ network.place_of name.now n.sockets }
        ensures within { IfSome result (λ place. place < vec_len self.now.sockets) }
    {
        self.names.get(name).copied()
    }

    /// There is room for so many more sockets.
    pub fn has_room(&self, more: u64) -> bool
        requires { more ≤ 2 }
        ensures { IsTrue result ↔ (vec_len self.now.sockets + more ≤ MOST_SOCKETS) }
    {
        self.sockets.len() as u64 + more <= MOST_SOCKETS
    }

    /// Adds a socket, with its name. Its endpoint enrols it.
    pub fn add(&mut self, socket: ScriptSocket<C>) -> Result<(), AllocError>
        requires wired { IsWired self.old }
        requires new { IsNew self.old socket }
        ensures view { OnOk result (view_of self.new ≡ record (view_of self.old) {
          sockets = sights_of self.old ++ sight_of socket ∷ [];
        }) }
        ensures wired { OnOk result (IsWired self.new) }
        ensures stands { OnOk result (KeepsAddresses self.old self.new) }
    {
        let place = self.sockets.len();
        let name = Vec::from_slice(self.alloc, &socket.name)?;
        self.names.insert(name, place)?;
        let _ = self.endpoints[socket.endpoint]
            .routes
            .enrol(place as u32 + 1, ());
        self.sockets.push(socket)?;
        self.enter(place);
        Ok(())
    }

    // Both names are new, and there is room for two sockets.
    fn may_pair(&self, pairing: &Pairing) -> bool
        requires { IsWired self.now }
        ensures may { (n : network.Network C) → Shows C.ways n (view_of self.now)
            → result ≡ may_pair n (pairing_of pairing.now) }
        ensures room { result ≡ true → vec_len self.now.sockets + 2 ≤ MOST_SOCKETS }
        ensures apart { result ≡ true → is_word pairing.now.a.now pairing.now.b.now ≡ false }
        ensures first { result ≡ true → place_seen (sights_of self.now) pairing.now.a.now ≡ None }
        ensures second { result ≡ true → place_seen (sights_of self.now) pairing.now.b.now ≡ None }
    {
        self.has_room(2)
            && pairing.a != pairing.b
            && !self.is_taken(pairing.a)
            && !self.is_taken(pairing.b)
    }

    /// Opens two sockets, each the other's peer. False where a name is taken or there are too many.
    pub fn pair(&mut self, pairing: &Pairing, out: &mut Vec<u8>) -> Result<bool, AllocError>
        requires pairable { IsPairable pairing.now }
        requires first { is_name pairing.now.a.now ≡ true }
        requires second { is_name pairing.now.b.now ≡ true }
        requires wired { IsWired self.old }
        ensures done { IfOk result (λ did. (n : network.Network C) → Shows C.ways n (view_of self.old)
            → DoesLine C.ways n (on_line C.ways n (PairLine (pairing_of pairing.now))) did
            (view_of self.new) out.old.items out.new.items) }
        ensures wired { OnOk result (IsWired self.new) }
        ensures err { OnErr result (take (vec_len out.old) out.new.items ≡ out.old.items) }
    {
        if !self.may_pair(pairing) {
            return Ok(false);
        }
        let count = self.sockets.len();
        let first = Place {
            host: FIRST_HOST,
            id: count as u32 + 1,
        };
        let second = Place {
            host: SECOND_HOST,
            id: count as u32 + 2,
        };
        let here = self.endpoint_of(FIRST_HOST)?;
        let there = self.endpoint_of(SECOND_HOST)?;
        let a = paired(self.alloc, pairing, first.id, second)?;
        let b = paired(self.alloc, pairing, second.id, first)?;
        self.add(named(self.alloc, pairing.a, FIRST_HOST, here, a)?)?;
        self.add(named(self.alloc, pairing.b, SECOND_HOST, there, b)?)?;
        print_pair(out, pairing, count)?;
        Ok(true)
    }

    /// Opens a socket without a connection. False where its name is taken, no host has the name that is
    /// given, or there are too many.
    pub fn open(&mut self, opening: &Opening, out: &mut Vec<u8>) -> Result<bool, AllocError>
        requires openable { IsOpenable opening.now }
        requires named { is_name opening.now.name.now ≡ true }
        requires wired { IsWired self.old }
        ensures done { IfOk result (λ did. (n : network.Network C) → Shows C.ways n (view_of self.old)
            → DoesLine C.ways n (on_line C.ways n (OpenLine (opening_of opening.now))) did
            (view_of self.new) out.old.items out.new.items) }
        ensures wired { OnOk result (IsWired self.new) }
        ensures err { OnErr result (take (vec_len out.old) out.new.items ≡ out.old.items) }
    {
        if !self.has_room(1) || self.is_taken(opening.name) {
            return Ok(false);
        }
        let Some(host) = self.host_named(opening.host) else {
            return Ok(false);
        };
        let count = self.sockets.len();
        let endpoint = self.endpoint_of(host)?;
        let socket = unconnected(self.alloc, opening, count as u32 + 1)?;
        self.add(named(self.alloc, opening.name, host, endpoint, socket)?)?;
        print_open(out, opening, count)?;
        Ok(true)
    }
}
