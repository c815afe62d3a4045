// The table of one endpoint: maps by ID and by address, in room that is reserved at the start.

use crate::adoptions::Adoptions;
use crate::errors::{ListenTwice, MeetTaken, OutOfMemory, Taken};
use crate::meetings::Meetings;
use crate::routing::Want;
use crate::sorted::{find, put, take_out};
use std::alloc::Global;
use std::marker::Model;
use udt_model::{Addr, Routed};

/// The sockets of one endpoint by their IDs: what is enrolled under each, which pair of a peer's
/// address and socket ID it has adopted, which one listens, and which address each one meets.
#[derive(Drop)]
pub struct Routes<R> {
    live: u32,
    enrolled: Vec<(u32, R)>,
    adoptions: Adoptions,
    listener: Option<u32>,
    meetings: Meetings,
}

impl<R> Model for Routes<R> {
    ghost use Rattle.udt_routes.specs.Tables.{Table, table_code};

    ghost Value = { Table R };

    ghost coded = { table_code R.code };

    ghost use Rattle.udt_routes.specs.Inside.{table_of, IsTable};

    ghost view = { table_of };

    ghost invariant = { IsTable };
}

impl<R: Drop> Routes<R> {
    ghost use Rattle.std.specs.Prelude.{◌≡◌, ◌≢◌, ◌<◌, ◌++◌, [], ◌∷◌, length, is_some, is_ok, not, Some, None};
    ghost use Rattle.std.specs.Prelude.{IfOk, IfErr, OnOk, OnErr};
    ghost use Rattle.std.specs.Option.{option_copied};
    ghost use Rattle.udt_routes.specs.Pairs.{pair_of, adopter_of, IsAdoptedOnce};
    ghost use Rattle.udt_routes.specs.Meets.{met_by, meeter_of, can_meet, IsMetOnce};
    ghost use Rattle.udt_routes.specs.Routing.{found_in, route};
    ghost use Rattle.udt_routes.specs.Tables.{empty_table, what_of, can_enrol, listener_without};
    ghost use Rattle.udt_routes.specs.Tables.{Enrols, Leaves, MeetsOnly};
    ghost use Rattle.udt_routes.specs.Tables.{with_enrolled, without, with_meeting, without_meeting};

    /// A table of no sockets, for at most this number of adoptions and of enrolled sockets. All memory is
    /// taken here.
    pub fn new(alloc: Global, ids: u32, live: u32) -> Result<Routes<R>, OutOfMemory>
        ensures { IfOk result (λ t. t ≡ empty_table ids live) }
    {
        let enrolled = Vec::with_capacity(alloc, live as usize)?;
        let adoptions = Adoptions::new(alloc, ids)?;
        let meetings = Meetings::new(alloc, live)?;
        Ok(Routes {
            live,
            enrolled,
            adoptions,
            listener: None,
            meetings,
        })
    }

    // Whether an ID can be enrolled.
    pub(crate) fn can_enrol(&self, id: u32) -> bool
        ensures { result ≡ can_enrol self.now id }
    {
        self.enrolled.len() < self.live as usize && find(&self.enrolled, &id).is_none()
    }

    /// Enrols a socket. Err gives it back where its ID is enrolled, or as many are as may be.
    pub fn enrol(&mut self, id: u32, what: R) -> Result<(), R>
        ensures exact { is_ok result ≡ can_enrol self.old id }
        ensures ok { OnOk result (Enrols self.old self.new id what) }
        ensures table { OnOk result (self.new ≡ with_enrolled self.old id what) }
        ensures given_back { IfErr result (λ back. back ≡ what) }
        ensures err { OnErr result (self.new ≡ self.old) }
    {
        if !self.can_enrol(id) {
            return Err(what);
        }
        put(&mut self.enrolled, id, what);
        Ok(())
    }

    /// Takes a socket out, and frees the places that its ID holds as a listener and as one that meets an
    /// address. Its adoption stays. None where the ID isn't enrolled.
    pub fn leave(&mut self, id: u32) -> Option<R>
        ensures value { result ≡ what_of self.old id }
        ensures next { Leaves self.old self.new id }
        ensures table { self.new ≡ without self.old id }
    {
        self.clear_listener(id);
        self.meetings.free(id);
        take_out(&mut self.enrolled, &id)
    }

    /// What is enrolled under an ID.
    pub fn route(&self, id: u32) -> Option<&R>
        ensures { option_copied result ≡ what_of self.now id }
    {
        find(&self.enrolled, &id)
    }

    /// What is found of a want: the ID that it names, where that is enrolled, or the ID in the place that it names.
    pub fn found(&self, want: Want) -> Option<u32>
        ensures { result ≡ found_in self.now want }
    {
        match want {
            Want::Id(id) if self.route(id).is_some() => Some(id),
            Want::Id(_) => None,
            Want::Listener => self.listener(),
            Want::Meeting(from) => self.meeting(from),
        }
    }

    /// Where a datagram goes that came from this address, with these bytes.
    pub fn destination_of(&self, from: Addr, bytes: &[u8]) -> Routed
        ensures { result ≡ route self.now from bytes.now }
    {
        match self.adoptions.lookup(from, bytes) {
            Ok(lookup) => lookup.routed(self.found(lookup.want)),
            Err(routed) => routed,
        }
    }

    /// Adopts the pair of a peer's address and socket ID, for good. Taken where it is adopted.
    pub fn adopt(&mut self, own: u32, addr: Addr, peer: u32) -> Result<(), Taken>
        requires first { pair_of self.old.adoptions own ≡ None }
        requires room { length self.old.adoptions < self.old.ids }
        ensures exact { is_ok result ≡ not (is_some (adopter_of self.old.adoptions (addr, peer))) }
        ensures ok { OnOk result
            (self.new ≡ record self.old { adoptions = self.old.adoptions ++ (own, (addr, peer)) ∷ [] }) }
        ensures err { OnErr result (self.new ≡ self.old) }
        ensures once { IsAdoptedOnce self.new.adoptions }
    {
        self.adoptions.adopt(own, addr, peer)
    }

    /// The ID that has adopted a pair.
    pub fn adopted(&self, addr: Addr, peer: u32) -> Option<u32>
        ensures { result ≡ adopter_of self.now.adoptions (addr, peer) }
    {
        self.adoptions.adopted(addr, peer)
    }

    /// The pair that an ID has adopted.
    pub fn peer_of(&self, own: u32) -> Option<(Addr, u32)>
        ensures { result ≡ pair_of self.now.adoptions own }
    {
        self.adoptions.peer_of(own)
    }

    /// Makes a socket the listener, where none listens.
    pub fn set_listener(&mut self, id: u32) -> Result<(), ListenTwice>
        ensures exact { is_ok result ≡ not (is_some self.old.listener) }
        ensures ok { OnOk result (self.new ≡ record self.old { listener = Some id }) }
        ensures err { OnErr result (self.new ≡ self.old) }
    {
        if self.listener.is_some() {
            return Err(ListenTwice);
        }
        self.listener = Some(id);
        Ok(())
    }

    /// The ID of the listener.
    pub fn listener(&self) -> Option<u32>
        ensures { result ≡ self.now.listener }
    {
        self.listener
    }

    /// Frees the listener's place, where this ID holds it.
    pub fn clear_listener(&mut self, id: u32)
        ensures { self.new ≡ record self.old { listener = listener_without self.old.listener id } }
    {
        if self.listener == Some(id) {
            self.listener = None;
        }
    }

    // Whether a socket can meet an address.
    pub(crate) fn can_meet(&self, to: Addr, id: u32) -> bool
        ensures { result ≡ can_meet self.now.live self.now.meetings to id }
    {
        self.meetings.can_meet(to, id)
    }

    /// Lets a socket meet an address, where no socket meets it, this one meets none, and fewer are met
    /// than may be.
    pub fn set_meeting(&mut self, to: Addr, id: u32) -> Result<(), MeetTaken>
        ensures exact { is_ok result ≡ can_meet self.old.live self.old.meetings to id }
        ensures ok { OnOk result (MeetsOnly self.old self.new id (Some to)) }
        ensures table { OnOk result (self.new ≡ with_meeting self.old to id) }
        ensures err { OnErr result (self.new ≡ self.old) }
    {
        if !self.can_meet(to, id) {
            return Err(MeetTaken);
        }
        self.meetings.meet(to, id);
        Ok(())
    }

    /// The ID of the socket that meets an address.
    pub fn meeting(&self, from: Addr) -> Option<u32>
        ensures value { result ≡ meeter_of self.now.meetings from }
        ensures once { IsMetOnce self.now.meetings }
    {
        self.meetings.meeter(from)
    }

    /// Frees an address, where this ID meets it.
    pub fn clear_meeting(&mut self, to: Addr, id: u32)
        ensures held { met_by self.old.meetings id ≡ Some to → MeetsOnly self.old self.new id None }
        ensures table { self.new ≡ without_meeting self.old to id }
        ensures kept { met_by self.old.meetings id ≢ Some to → self.new ≡ self.old }
    {
        if self.meetings.meeter(to) == Some(id) {
            self.meetings.free(id);
        }
    }
}
