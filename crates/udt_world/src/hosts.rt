// The hosts of a script, and what the endpoint at each knows of the sockets there.

ghost use Rattle.std.specs.Prelude.{◌≡◌, ◌<◌, ◌+◌, ◌^◌, length, map, position, take, slice_get, slice_set, vec_len, false, true, Some, None, IfSome, IfOk, OnOk, OnErr};
ghost use Rattle.udt_model.specs.Lines.{HostLine};
ghost use Rattle.udt_model.specs.Script.{may_host, on_line};
ghost use Rattle.udt_model.specs.Addresses.{same_addr};
ghost use Rattle.udt_model.specs.Words.{is_word};
ghost use Rattle.udt_model.specs.Network as model;
ghost use Rattle.udt_routes.specs.Pairs.{pair_of};
ghost use Rattle.udt_routes.specs.Tables.{empty_table};
ghost use Rattle.udt_world.specs.Done.{DoesLine};
ghost use Rattle.udt_world.specs.Views.{host_of, sight_of, view_of, Shows};
ghost use Rattle.udt_world.specs.Wiring.{with_listener, with_met, with_pair, with_told};
ghost use Rattle.udt_world.specs.Wiring.{place_seen, sights_of, HasAddress, IsEndpoint, IsWired, KeepsAddresses};

use crate::network::{Network, ScriptHost, ScriptSocket};
use std::alloc::{AllocError, Global};
use udt_model::{Addr, Ip, MOST_HOSTS};
use udt_rate::Control;
use udt_routes::Routes;
use udt_script::print_host;

/// The host of the first socket of each pair, 10.0.0.1:9000.
pub const FIRST_HOST: Addr = Addr {
    ip: Ip::V4(167_772_161),
    port: 9000,
};

/// The host of the second, 10.0.0.2:9000.
pub const SECOND_HOST: Addr = Addr {
    ip: Ip::V4(167_772_162),
    port: 9000,
};

/// The highest readiness bit, which a closed socket alone shows.
const CLOSED: u8 = 32;

/// The sockets of a script, of which all may stand at one host.
const MOST_ENROLLED: u32 = 1024;

/// What is known at an address: which sockets are enrolled there, whom they have adopted, which one
/// listens, and which one meets whom.
#[derive(Drop)]
pub struct Endpoint {
    pub addr: Addr,
    pub routes: Routes<()>,
}

// An endpoint that knows of no socket yet, with room for all of a script.
fn new_endpoint(alloc: Global, addr: Addr) -> Result<Endpoint, AllocError>
    ensures addr { IfOk result (λ endpoint. endpoint.addr ≡ addr) }
    ensures routes { IfOk result (λ endpoint. endpoint.routes ≡ empty_table MOST_ENROLLED MOST_ENROLLED) }
{
    match Routes::new(alloc, MOST_ENROLLED, MOST_ENROLLED) {
        Ok(routes) => Ok(Endpoint { addr, routes }),
        Err(_) => Err(AllocError),
    }
}

// Tells a table the pair that a socket has adopted.
fn tell_peer(routes: &mut Routes<()>, id: u32, pair: Option<(Addr, u32)>)
    requires room { pair_of routes.old.adoptions id ≡ None → length routes.old.adoptions < routes.old.ids }
    ensures { routes.new ≡ with_pair routes.old id pair }
{
    let Some((addr, peer)) = pair else { return };
    if routes.peer_of(id).is_none() {
        let _ = routes.adopt(id, addr, peer);
    }
}

// Tells a table that a socket listens, where it began to.
fn tell_listener(routes: &mut Routes<()>, id: u32, listened: bool)
    ensures { routes.new ≡ with_listener routes.old id listened }
{
    if listened {
        let _ = routes.set_listener(id);
    }
}

// Tells a table the address that a socket meets.
fn tell_met(routes: &mut Routes<()>, id: u32, met: Option<Addr>)
    ensures { routes.new ≡ with_met routes.old id met }
{
    if let Some(to) = met {
        let _ = routes.set_meeting(to, id);
    }
}

// Tells a table what there is to know of a socket: the pair that it has adopted, and, until it is closed,
// that it listens and whom it meets.
fn tell<C: Control>(routes: &mut Routes<()>, id: u32, socket: &ScriptSocket<C>)
    requires room { pair_of routes.old.adoptions id ≡ None → length routes.old.adoptions < routes.old.ids }
    ensures { routes.new ≡ with_told routes.old id (sight_of socket.now) }
{
    tell_peer(routes, id, socket.socket.peer());
    if socket.socket.bits() >= CLOSED {
        let _ = routes.leave(id);
        return;
    }
    tell_listener(routes, id, socket.listened);
    tell_met(routes, id, socket.met);
}

impl<C: Control> Network<C> {
    // The place of the host with this address.
    fn host_at(&self, addr: Addr) -> Option<usize>
        ensures { result ≡ position (λ host. same_addr addr host.addr) self.now.hosts.items }
    {
        self.hosts.iter().position(|host| addr.is_same(host.addr))
    }

    // The place of the host with this name.
    fn place_of_host(&self, name: &[u8]) -> Option<usize>
        ensures value { result ≡ position (λ host. is_word host.name.items name.now) self.now.hosts.items }
        ensures within { IfSome result (λ place. place < vec_len self.now.hosts) }
    {
        self.hosts
            .iter()
            .position(|host| host.name.as_slice() == name)
    }

    // A host has this address. Those of paired sockets are there from the start.
    fn is_host(&self, addr: Addr) -> bool
        ensures { result ≡ model.is_host (map host_of self.now.hosts.items) addr }
    {
        if addr.is_same(FIRST_HOST) {
            return true;
        }
        if addr.is_same(SECOND_HOST) {
            return true;
        }
        self.host_at(addr).is_some()
    }

    /// The address of the host with this name.
    pub fn host_named(&self, name: &[u8]) -> Option<Addr>
        ensures { result ≡ model.address_of_host name.now (map host_of self.now.hosts.items) }
    {
        match self.place_of_host(name) {
            Some(place) => Some(self.hosts[place].addr),
            None => None,
        }
    }

    /// A socket or a host has this name.
    pub fn is_taken(&self, name: &[u8]) -> bool
        requires { IsWired self.now }
        ensures value { (n : model.Network C) → Shows C.ways n (view_of self.now) → result ≡ model.is_taken name.now n }
        ensures free { result ≡ false → place_seen (sights_of self.now) name.now ≡ None }
    {
        self.names.contains_key(name) || self.host_named(name).is_some()
    }

    // The name and the address of a host are new, and there is room for it.
    fn may_host(&self, name: &[u8], addr: Addr) -> bool
        requires { IsWired self.now }
        ensures may { (n : model.Network C) → Shows C.ways n (view_of self.now) → result ≡ may_host n name.now addr }
        ensures free { result ≡ true → model.is_host (map host_of self.now.hosts.items) addr ≡ false }
    {
        (self.hosts.len() as u64) < MOST_HOSTS && !self.is_taken(name) && !self.is_host(addr)
    }

    // The place of the endpoint with this address.
    fn place_of_endpoint(&self, addr: Addr) -> Option<usize>
        ensures { result ≡ position (λ endpoint. same_addr addr endpoint.addr) self.now.endpoints.items }
    {
        self.endpoints
            .iter()
            .position(|endpoint| addr.is_same(endpoint.addr))
    }

    /// The place of the endpoint at this address, where a host has it. It is made where it is first
    /// asked for.
    pub fn endpoint_at(&mut self, addr: Addr) -> Result<Option<usize>, AllocError>
        requires { IsWired self.old }
        ensures value { IfOk result (λ place. IsEndpoint self.new place addr) }
        ensures wired { OnOk result (IsWired self.new) }
        ensures kept { self.new ≡ record self.old { endpoints = self.new.endpoints } }
        ensures stands { OnOk result (KeepsAddresses self.old self.new) }
    {
        if !self.is_host(addr) {
            return Ok(None);
        }
        Ok(Some(self.endpoint_of(addr)?))
    }

    /// The place of the endpoint at the address of a host.
    pub fn endpoint_of(&mut self, addr: Addr) -> Result<usize, AllocError>
        requires { IsWired self.old }
        ensures value { IfOk result (λ place. HasAddress self.new.endpoints.items place addr) }
        ensures wired { OnOk result (IsWired self.new) }
        ensures kept { self.new ≡ record self.old { endpoints = self.new.endpoints } }
        ensures stands { OnOk result (KeepsAddresses self.old self.new) }
    {
        match self.place_of_endpoint(addr) {
            Some(place) => Ok(place),
            None => {
                let endpoint = new_endpoint(self.alloc, addr)?;
                self.endpoints.push(endpoint)?;
                Ok(self.endpoints.len() - 1)
            }
        }
    }

    /// A new host, with its endpoint. False where its name or its address is taken, or there are too many.
    pub fn host(&mut self, name: &[u8], addr: Addr, out: &mut Vec<u8>) -> Result<bool, AllocError>
        requires { IsWired self.old }
        ensures done { IfOk result (λ did. (n : model.Network C) → Shows C.ways n (view_of self.old)
            → DoesLine C.ways n (on_line C.ways n (HostLine name.now addr)) did
            (view_of self.new) out.old.items out.new.items) }
        ensures wired { OnOk result (IsWired self.new) }
        ensures err { OnErr result (take (vec_len out.old) out.new.items ≡ out.old.items) }
    {
        if !self.may_host(name, addr) {
            return Ok(false);
        }
        self.endpoint_of(addr)?;
        let kept = Vec::from_slice(self.alloc, name)?;
        self.hosts.push(ScriptHost { name: kept, addr })?;
        print_host(out, name)?;
        Ok(true)
    }

    /// Has the endpoint know of the socket at this place what there is to know.
    pub fn enter(&mut self, place: usize)
        requires place { place < vec_len self.old.sockets }
        requires endpoint { (socket : ScriptSocket C) → slice_get self.old.sockets.items place ≡ Some socket
            → socket.endpoint < vec_len self.old.endpoints }
        requires room { (socket : ScriptSocket C) (endpoint : Endpoint)
            → slice_get self.old.sockets.items place ≡ Some socket
            → slice_get self.old.endpoints.items socket.endpoint ≡ Some endpoint
            → pair_of endpoint.routes.adoptions (place + 1) ≡ None
            → length endpoint.routes.adoptions < endpoint.routes.ids }
        requires id { place + 1 < 2 ^ 32 }
        ensures kept { self.new ≡ record self.old { endpoints = self.new.endpoints } }
        ensures told { (socket : ScriptSocket C) (endpoint : Endpoint)
            → slice_get self.old.sockets.items place ≡ Some socket
            → slice_get self.old.endpoints.items socket.endpoint ≡ Some endpoint
            → self.new.endpoints.items ≡ slice_set self.old.endpoints.items socket.endpoint (record endpoint {
              routes = with_told endpoint.routes (place + 1) (sight_of socket);
            }) }
    {
        let socket = &self.sockets[place];
        tell(
            &mut self.endpoints[socket.endpoint].routes,
            place as u32 + 1,
            socket,
        );
    }
}
