// The end that changes the routes.

ghost use Rattle.std.specs.Prelude.{◌≡◌, ◌≢◌, ◌+◌, ◌<◌, ◌≤◌, ◌++◌, ◌↔◌, [], ◌∷◌, length};
ghost use Rattle.std.specs.Prelude.{is_some, true, false, Some, OnOk, OnErr};
ghost use Rattle.std.specs.Bool.{OnTrue, OnFalse};
ghost use Rattle.std.specs.Result.{IsErrOf};
ghost use Rattle.std.specs.VecDeque.{deque_len, deque_capacity};
ghost use Rattle.udt_routes.specs.Changes.{after};

use crate::changes::{Change, make};
use crate::errors::{EnrolNo, ListenNo, MeetNo, OutOfMemory};
use crate::publisher::Publisher;
use crate::routes::Routes;
use std::collections::VecDeque;
use std::marker::Model;
use std::sync::Wait;
use udt_model::Addr;

/// The one writer of the routes: a table of its own, and the removals that readers don't see yet. It is ended by
/// `close`.
pub struct RouteWriter {
    own: Routes<()>,
    noted: VecDeque<Change>,
    publisher: Publisher,
}

impl Model for RouteWriter {
    ghost use Rattle.udt_routes.specs.Publications.{Written};

    ghost Value = { Written };

    ghost use Rattle.udt_routes.specs.Writings.{written_in, IsWriter};

    ghost view = { written_in };

    ghost invariant = { IsWriter };
}

impl RouteWriter {
    ghost use Rattle.udt_routes.specs.declared.changes.Change.TheVariants.{Enrol, Leave, SetListener, ClearListener};
    ghost use Rattle.udt_routes.specs.declared.changes.Change.TheVariants.{SetMeeting, ClearMeeting};
    ghost use Rattle.udt_routes.specs.Meets.{meeter_of, can_meet};
    ghost use Rattle.udt_routes.specs.Tables.{empty_table, can_enrol, what_of};
    ghost use Rattle.udt_routes.specs.Publications.{publishing, noting};

    // Over its parts, before any change.
    pub(crate) fn new(own: Routes<()>, noted: VecDeque<Change>, publisher: Publisher) -> RouteWriter
        requires own { own ≡ empty_table 0 own.live }
        requires noted { noted.items ≡ [] }
        requires room { own.live + 2 ≤ deque_capacity noted }
        requires publisher { publisher ≡ record { live = own.live; published = []; pending = [] } }
        ensures { result ≡ record { table = own; published = []; waiting = [] } }
    {
        RouteWriter {
            own,
            noted,
            publisher,
        }
    }

    /// Enrols an ID, and publishes it after all removals that wait. Live where the ID is enrolled, or as many are as
    /// may be.
    pub fn enrol<R: Wait>(&mut self, rt: &R, id: u32) -> Result<(), EnrolNo>
        ensures live { IsErrOf result EnrolNo.Live ↔ (can_enrol self.old.table id ≡ false) }
        ensures ok { OnOk result (self.new ≡ publishing self.old (Enrol id)) }
        ensures err { OnErr result (self.new ≡ self.old) }
    {
        if !self.own.can_enrol(id) {
            return Err(EnrolNo::Live);
        }
        match self.publish(rt, Change::Enrol(id)) {
            Ok(()) => Ok(()),
            Err(OutOfMemory) => Err(EnrolNo::OutOfMemory),
        }
    }

    /// Makes a socket the listener, and publishes it after all removals that wait. ListenTwice where one listens.
    pub fn set_listener<R: Wait>(&mut self, rt: &R, id: u32) -> Result<(), ListenNo>
        ensures twice { IsErrOf result ListenNo.ListenTwice ↔ (is_some self.old.table.listener ≡ true) }
        ensures ok { OnOk result (self.new ≡ publishing self.old (SetListener id)) }
        ensures err { OnErr result (self.new ≡ self.old) }
    {
        if self.own.listener().is_some() {
            return Err(ListenNo::ListenTwice);
        }
        match self.publish(rt, Change::SetListener(id)) {
            Ok(()) => Ok(()),
            Err(OutOfMemory) => Err(ListenNo::OutOfMemory),
        }
    }

    /// Lets a socket meet an address, and publishes it after all removals that wait. MeetTaken where the address is
    /// met, the socket meets one, or as many are met as may be.
    pub fn set_meeting<R: Wait>(&mut self, rt: &R, to: Addr, id: u32) -> Result<(), MeetNo>
        ensures taken { IsErrOf result MeetNo.MeetTaken
            ↔ (can_meet self.old.table.live self.old.table.meetings to id ≡ false) }
        ensures ok { OnOk result (self.new ≡ publishing self.old (SetMeeting to id)) }
        ensures err { OnErr result (self.new ≡ self.old) }
    {
        if !self.own.can_meet(to, id) {
            return Err(MeetNo::MeetTaken);
        }
        match self.publish(rt, Change::SetMeeting(to, id)) {
            Ok(()) => Ok(()),
            Err(OutOfMemory) => Err(MeetNo::OutOfMemory),
        }
    }

    /// Takes an ID out, with the places that it holds. Readers see it with the next change that is published. False
    /// where the ID isn't enrolled.
    pub fn leave(&mut self, id: u32) -> bool
        ensures value { result ≡ is_some (what_of self.old.table id) }
        ensures ok { OnTrue result (self.new ≡ noting self.old (Leave id)) }
        ensures err { OnFalse result (self.new ≡ self.old) }
    {
        if self.own.route(id).is_none() {
            return false;
        }
        note(&mut self.own, &mut self.noted, Change::Leave(id));
        true
    }

    /// Frees the listener's place, where this ID holds it. Readers see it with the next change that is published.
    pub fn clear_listener(&mut self, id: u32)
        requires room { length self.old.waiting < 2 }
        ensures held { self.old.table.listener ≡ Some id → self.new ≡ noting self.old (ClearListener id) }
        ensures kept { self.old.table.listener ≢ Some id → self.new ≡ self.old }
    {
        if self.own.listener() == Some(id) {
            note(&mut self.own, &mut self.noted, Change::ClearListener(id));
        }
    }

    /// Frees an address, where this ID meets it. Readers see it with the next change that is published.
    pub fn clear_meeting(&mut self, to: Addr, id: u32)
        requires room { length self.old.waiting < 2 }
        ensures held { meeter_of self.old.table.meetings to ≡ Some id
            → self.new ≡ noting self.old (ClearMeeting to id) }
        ensures kept { meeter_of self.old.table.meetings to ≢ Some id → self.new ≡ self.old }
    {
        if self.own.meeting(to) == Some(id) {
            note(&mut self.own, &mut self.noted, Change::ClearMeeting(to, id));
        }
    }

    /// Ends the routes, once no reader reads. A reader that reads from then on waits for ever.
    pub fn close<R: Wait>(self, rt: &R) {
        let RouteWriter {
            own: _own,
            noted: _noted,
            publisher,
        } = self;
        publisher.close(rt);
    }

    // Publishes all removals that wait, and then a change.
    fn publish<R: Wait>(&mut self, rt: &R, change: Change) -> Result<(), OutOfMemory>
        ensures ok { OnOk result (self.new ≡ publishing self.old change) }
        ensures err { OnErr result (self.new ≡ self.old) }
    {
        append_all(&mut self.publisher, &mut self.noted)?;
        self.publisher.append(change)?;
        make(&mut self.own, change);
        self.publisher.publish(rt);
        Ok(())
    }
}

// Makes a removal in a table, and notes it.
fn note(own: &mut Routes<()>, noted: &mut VecDeque<Change>, change: Change)
    requires { deque_len noted.old < deque_capacity noted.old }
    ensures own { own.new ≡ after own.old change }
    ensures noted { noted.new.items ≡ noted.old.items ++ change ∷ [] }
    ensures capacity { deque_capacity noted.new ≡ deque_capacity noted.old }
{
    make(own, change);
    noted.push_back_reserved(change);
}

// Appends the changes that are noted to those that are pending, the first ones first.
fn append_all(publisher: &mut Publisher, noted: &mut VecDeque<Change>) -> Result<(), OutOfMemory>
    ensures ok { OnOk result (noted.new.items ≡ []) }
    ensures all { publisher.new.pending ++ noted.new.items ≡ publisher.old.pending ++ noted.old.items }
    ensures published { publisher.new ≡ record publisher.old { pending = publisher.new.pending } }
    ensures fewer { length noted.new.items ≤ length noted.old.items }
    ensures capacity { deque_capacity noted.new ≡ deque_capacity noted.old }
{
    while let Some(change) = noted.pop_front() {
        if publisher.append(change).is_err() {
            noted.push_front_reserved(change);
            return Err(OutOfMemory);
        }
    }
    Ok(())
}
