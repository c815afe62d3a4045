// Where a socket stands, with what it keeps there.

ghost use Rattle.std.specs.Prelude.{◌≡◌, ◌-◌, ◌^◌, ◌==◌, ◌<◌, ◌≤◌, [], length, drop, not, nat_lt, IfOk};
ghost use Rattle.udt_model.specs.declared.limits.TheConstants.{MOST_BACKLOG};
ghost use Rattle.udt_model.specs.Connections.{first_offered, with_offer};
ghost use Rattle.udt_model.specs.Handshakes.{judged};
ghost use Rattle.udt_model.specs.Phases as model;
ghost use Rattle.udt_core.specs.Backlogs.{promised_by};
ghost use Rattle.udt_core.specs.Waiting.{HasNumber};

use crate::memory::OutOfMemory;
use std::alloc::Global;
use std::marker::Model;
use udt_handshake::{ClientShake, ListenShake, MeetShake};
use udt_model::{Addr, Cause, Failure, MOST_BACKLOG, Refusal, Shake, Verdict};

// A socket that asks or meets emits its handshake again at a moment.
#[derive(Drop)]
pub(crate) enum Phase {
    Opened,
    Listening(Backlog),
    Connecting { client: ClientShake, again: u64 },
    Meeting { meeting: MeetShake, again: u64 },
    Connected,
    Broken(Cause),
    Failed(Failure),
    Closing,
    Closed,
}

// A listener's requests: how many connections it keeps at most, those that wait to be accepted, and
// how many more were promised a place.
#[derive(Drop)]
pub(crate) struct Backlog {
    listening: ListenShake,
    most: u32,
    offered: Vec<u32>,
    promised: u32,
}

impl Model for Backlog {
    ghost use Rattle.udt_model.specs.Phases.{Backlog};

    ghost Value = { Backlog };

    ghost use Rattle.udt_core.specs.Backlogs.{backlog_of, IsBacklog};

    ghost view = { backlog_of };

    ghost invariant = { IsBacklog };
}

impl Backlog {
    // No connections, with room for so many.
    pub(crate) fn new(
        alloc: Global,
        listening: ListenShake,
        most: u32,
    ) -> Result<Backlog, OutOfMemory>
        requires { most ≤ MOST_BACKLOG }
        ensures { IfOk result (λ b. b ≡ record { listening = listening; most = most; offered = []; promised = 0 }) }
    {
        let offered = Vec::with_capacity(alloc, most as usize)?;
        Ok(Backlog {
            listening,
            most,
            offered,
            promised: 0,
        })
    }

    // Whether there is a place for one more.
    fn has_place(&self) -> bool
        ensures { result ≡ model.has_place self.now }
    {
        self.offered.len() + (self.promised as usize) < self.most as usize
    }

    // Judges a request, and promises it a place where it gets one.
    #[tactic(auto, unfolding(udt_model::specs::Handshakes::judged))]
    pub(crate) fn judge(&mut self, shake: &Shake, from: Addr, now: u64) -> Verdict
        requires number { shake.now.isn < 2 ^ 31 }
        ensures value { result ≡ judged self.old.listening shake.now from now (model.has_place self.old) }
        ensures next { self.new ≡ promised_by self.old result }
        ensures number { HasNumber result }
    {
        let verdict = self.listening.judge(shake, from, now, self.has_place());
        if let Verdict::Request = verdict {
            self.promised += 1;
        }
        verdict
    }

    // Gives a promised place to a connection. False where none is promised.
    pub(crate) fn offer(&mut self, id: u32) -> bool
        ensures value { result ≡ nat_lt 0 self.old.promised }
        ensures next { self.new ≡ with_offer self.old id self.old.promised }
    {
        if self.promised == 0 {
            return false;
        }
        self.promised -= 1;
        self.offered.push_reserved(id);
        true
    }

    // Takes a promise back, where there is one.
    pub(crate) fn withdraw(&mut self)
        ensures { self.new ≡ record self.old { promised = self.old.promised - 1 } }
    {
        self.promised = self.promised.saturating_sub(1);
    }

    // Gives the first connection that waits.
    pub(crate) fn accept(&mut self) -> Result<u32, Refusal>
        ensures value { result ≡ first_offered self.old.offered }
        ensures next { self.new ≡ record self.old { offered = drop 1 self.old.offered } }
    {
        if self.offered.is_empty() {
            return Err(Refusal::AgainRecv);
        }
        Ok(self.offered.remove(0))
    }

    // Whether one waits.
    pub(crate) fn has_offered(&self) -> bool
        ensures { result ≡ not (length self.now.offered == 0) }
    {
        !self.offered.is_empty()
    }
}
