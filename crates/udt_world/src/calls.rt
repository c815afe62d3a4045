// The calls of the sockets that have a name.

ghost use Rattle.std.specs.Prelude.{◌≡◌, ◌-◌, ◌<◌, ◌≤◌, ◌&&◌, ◌||◌, take, slice_get, slice_set, is_some, true, Some, None, vec_len, IfOk, OnOk, OnErr};
ghost use Rattle.udt_model.specs.Events.{event};
ghost use Rattle.udt_model.specs.Lines.{AcceptLine, CallLine};
ghost use Rattle.udt_model.specs.Network as model;
ghost use Rattle.udt_model.specs.Script.{call_at, on_line};
ghost use Rattle.udt_model.specs.Words.{is_name};
ghost use Rattle.udt_script.specs.CodeLines.{act_of};
ghost use Rattle.udt_world.specs.Done.{DoesLine};
ghost use Rattle.udt_world.specs.Views.{view_of, Shows, Sight};
ghost use Rattle.udt_world.specs.Wiring.{first_with, is_here, listens, meets, place_seen, sights_of, IsWired};

use crate::network::{Act, Network};
use std::alloc::AllocError;
use udt_model::Addr;
use udt_rate::Control;
use udt_script::{Call, Reply, print_accept, print_listen_twice, print_meet_taken, print_reply};

impl<C: Control + Drop> Network<C> {
    // Another socket of the host listens, or this one does.
    fn has_listener(&self, place: usize) -> bool
        requires place { place < vec_len self.now.sockets }
        requires wired { IsWired self.now }
        ensures { (sight : Sight C) → slice_get (sights_of self.now) place ≡ Some sight
            → result ≡ is_some (first_with (listens sight.host) (sights_of self.now)) }
    {
        let socket = &self.sockets[place];
        self.endpoints[socket.endpoint].routes.listener().is_some()
    }

    // A socket of the host meets this address, or this one meets any.
    fn has_meeting(&self, place: usize, to: Addr) -> bool
        requires place { place < vec_len self.now.sockets }
        requires wired { IsWired self.now }
        ensures { (sight : Sight C) → slice_get (sights_of self.now) place ≡ Some sight
            → result ≡ (is_some (first_with (meets sight.host to) (sights_of self.now))
            || (is_here sight.host sight && is_some sight.met)) }
    {
        let socket = &self.sockets[place];
        let routes = &self.endpoints[socket.endpoint].routes;
        routes.meeting(to).is_some()
            || (socket.met.is_some() && routes.route(socket.socket.own()).is_some())
    }

    // A call of the socket at this place. The places at its host come before what it refuses itself.
    fn call_at(
        &mut self,
        place: usize,
        now: u64,
        call: &Call,
        out: &mut Vec<u8>,
    ) -> Result<(), AllocError>
        requires place { place < vec_len self.old.sockets }
        requires wired { IsWired self.old }
        ensures done { OnOk result ((n : model.Network C) (socket : model.ScriptSocket C)
            → Shows C.ways n (view_of self.old) → slice_get n.sockets place ≡ Some socket
            → DoesLine C.ways n (Some (call_at C.ways n place socket (event now (act_of call.now)))) true
            (view_of self.new) out.old.items out.new.items) }
        ensures wired { OnOk result (IsWired self.new) }
        ensures err { OnErr result (take (vec_len out.old) out.new.items ≡ out.old.items) }
    {
        match call {
            Call::Listen(_) if self.has_listener(place) => {
                print_listen_twice(out, &self.sockets[place].name)
            }
            Call::Meet(to) if self.has_meeting(place, *to) => {
                print_meet_taken(out, &self.sockets[place].name)
            }
            _ => {
                self.event(place, now, &Act::Call(call), out)?;
                Ok(())
            }
        }
    }

    /// A call of the socket with this name. False where there is none.
    pub fn call(
        &mut self,
        name: &[u8],
        now: u64,
        call: &Call,
        out: &mut Vec<u8>,
    ) -> Result<bool, AllocError>
        requires { IsWired self.old }
        ensures done { IfOk result (λ did. (n : model.Network C) → Shows C.ways n (view_of self.old)
            → DoesLine C.ways n (on_line C.ways n (CallLine name.now (event now (act_of call.now)))) did
            (view_of self.new) out.old.items out.new.items) }
        ensures wired { OnOk result (IsWired self.new) }
        ensures err { OnErr result (take (vec_len out.old) out.new.items ≡ out.old.items) }
    {
        match self.place_of(name) {
            None => Ok(false),
            Some(place) => {
                self.call_at(place, now, call, out)?;
                Ok(true)
            }
        }
    }

    // The socket with this ID has this name from now on.
    fn rename(&mut self, id: u32, name: &[u8]) -> Result<(), AllocError>
        requires wired { IsWired self.old }
        requires id { 0 < id }
        requires within { id ≤ vec_len self.old.sockets }
        requires name { place_seen (sights_of self.old) name.now ≡ None }
        requires given { is_name name.now ≡ true }
        ensures view { OnOk result ((sight : Sight C) → slice_get (sights_of self.old) (id - 1) ≡ Some sight
            → view_of self.new ≡ record (view_of self.old) {
              sockets = slice_set (sights_of self.old) (id - 1) (record sight { name = name.now });
            }) }
        ensures wired { OnOk result (IsWired self.new) }
    {
        let place = id as usize - 1;
        let old = &self.sockets[place].name;
        let _ = self.names.remove(old.as_slice());
        let key = Vec::from_slice(self.alloc, name)?;
        self.names.insert(key, place)?;
        self.sockets[place].name = Vec::from_slice(self.alloc, name)?;
        Ok(())
    }

    /// The socket with this name accepts a connection, which gets a name. False where there is no
    /// such socket, or the new name is taken.
    pub fn accept(
        &mut self,
        name: &[u8],
        now: u64,
        accepted: &[u8],
        out: &mut Vec<u8>,
    ) -> Result<bool, AllocError>
        requires wired { IsWired self.old }
        requires named { is_name accepted.now ≡ true }
        ensures done { IfOk result (λ did. (n : model.Network C) → Shows C.ways n (view_of self.old)
            → DoesLine C.ways n (on_line C.ways n (AcceptLine name.now now accepted.now)) did
            (view_of self.new) out.old.items out.new.items) }
        ensures wired { OnOk result (IsWired self.new) }
        ensures err { OnErr result (take (vec_len out.old) out.new.items ≡ out.old.items) }
    {
        if self.is_taken(accepted) {
            return Ok(false);
        }
        let Some(place) = self.place_of(name) else {
            return Ok(false);
        };
        match self.sockets[place].socket.accept(now) {
            Ok(id) => {
                self.rename(id, accepted)?;
                print_accept(out, name, accepted, id)?;
            }
            Err(why) => print_reply(out, name, &Reply::Accepted(Err(why)))?,
        }
        Ok(true)
    }
}
