// How a socket comes by a connection: what the application asks, and what the owner of the port tells.

ghost use Rattle.std.specs.Prelude.{◌≡◌, ◌≢◌, ◌<◌, ◌≤◌, Ok, Err, OnErr};
ghost use Rattle.udt_model.specs.Connections as model;
ghost use Rattle.udt_model.specs.Events.{Listen, Connect, Meet, Accept, Shake, Offer, Withdraw, PortDown, DidListen, DidConnect, DidMeet, Accepted, DidShake, DidOffer, at_moment, event};
ghost use Rattle.udt_model.specs.Step.{step};
ghost use Rattle.udt_model.specs.declared.limits.TheConstants.{MOST_PAYLOAD};

use super::Socket;
use crate::phase::{Backlog, Phase};
use std::marker::Model;
use udt_handshake::{ClientShake, ListenShake, MeetShake};
use udt_model::{Addr, Cause, Config, Failure, MOST_BACKLOG, Refusal, Shaken};
use udt_rate::Control;

impl<C: Control> Socket<C> {
    /// What the socket was opened with.
    pub fn config(&self) -> Config
        ensures value { result ≡ model.config_of self.now }
        ensures some { 0 < result.payload }
        ensures most { result.payload ≤ MOST_PAYLOAD }
    {
        Config {
            kind: self.kind,
            payload: self.sending.room(),
            snd_blocks: self.sending.blocks(),
            rcv_blocks: self.receiving.capacity(),
        }
    }

    // Whether the socket may begin to listen, ask or meet, with a value that is in its range or not.
    fn begins(&self, in_range: bool) -> Result<(), Refusal>
        ensures { result ≡ model.begun in_range self.now.phase }
    {
        if !in_range {
            return Err(Refusal::BadParameter);
        }
        match self.phase {
            Phase::Opened => Ok(()),
            _ => Err(Refusal::Connected),
        }
    }

    /// Has the socket listen, and keep at most so many connections until they are accepted: 1 to 1,024.
    /// The secret makes its cookies. BadParameter comes of another number, and Connected where the socket
    /// listens, asks or meets already, or did. OutOfMemory changes nothing at all.
    #[tactic(auto, unfolding(udt_model::specs::Step::step))]
    pub fn listen(&mut self, now: u64, backlog: u32, secret: [u8; 16]) -> Result<(), Refusal>
        ensures reply { result ≢ Err Refusal.OutOfMemory
            → DidListen result ≡ (step C.ways self.old (event now (Listen backlog secret))).reply }
        ensures after { result ≢ Err Refusal.OutOfMemory
            → self.new ≡ (step C.ways self.old (event now (Listen backlog secret))).after }
        ensures memory { result ≡ Err Refusal.OutOfMemory → self.new ≡ self.old }
    {
        let begins = self.begins(1 <= backlog && backlog <= MOST_BACKLOG);
        if begins.is_ok() {
            let listening = ListenShake::new(secret, self.config());
            let Ok(backlog) = Backlog::new(self.alloc, listening, backlog) else {
                return Err(Refusal::OutOfMemory);
            };
            self.phase = Phase::Listening(backlog);
        }
        self.at(now);
        begins
    }

    /// Has the socket ask a listener at this address for a connection. BadParameter comes of port 0, and
    /// Connected where the socket listens, asks or meets already, or did.
    #[tactic(auto, unfolding(udt_model::specs::Step::step))]
    pub fn connect(&mut self, now: u64, to: Addr) -> Result<(), Refusal>
        ensures reply { DidConnect result ≡ (step C.ways self.old (event now (Connect to))).reply }
        ensures after { self.new ≡ (step C.ways self.old (event now (Connect to))).after }
    {
        self.at(now);
        self.begins(to.port != 0)?;
        let client = ClientShake::new(self.config(), self.own, self.isn, to, self.last);
        self.phase = Phase::Connecting {
            client,
            again: self.last,
        };
        Ok(())
    }

    /// Has the socket meet another one at this address, which meets this one's. It refuses as `connect`.
    #[tactic(auto, unfolding(udt_model::specs::Step::step))]
    pub fn meet(&mut self, now: u64, to: Addr) -> Result<(), Refusal>
        ensures reply { DidMeet result ≡ (step C.ways self.old (event now (Meet to))).reply }
        ensures after { self.new ≡ (step C.ways self.old (event now (Meet to))).after }
    {
        self.at(now);
        self.begins(to.port != 0)?;
        let meeting = MeetShake::new(self.config(), self.own, self.isn, to, self.last);
        self.phase = Phase::Meeting {
            meeting,
            again: self.last,
        };
        Ok(())
    }

    /// Gives the ID of the first connection that waits. AgainRecv comes where none does, ConnLost where
    /// the port of the listener is down, and NotListening of any other socket.
    #[tactic(auto, unfolding(udt_model::specs::Step::step))]
    pub fn accept(&mut self, now: u64) -> Result<u32, Refusal>
        ensures reply { Accepted result ≡ (step C.ways self.old (event now Accept)).reply }
        ensures after { self.new ≡ (step C.ways self.old (event now Accept)).after }
    {
        self.at(now);
        match &mut self.phase {
            Phase::Listening(backlog) => backlog.accept(),
            Phase::Broken(why) => Err(Refusal::ConnLost(*why)),
            _ => Err(Refusal::NotListening),
        }
    }

    /// What became of the connection that was asked for.
    #[tactic(auto, unfolding(udt_model::specs::Step::step))]
    pub fn shake(&mut self, now: u64) -> Shaken
        ensures reply { DidShake result ≡ (step C.ways self.old (event now Shake)).reply }
        ensures after { self.new ≡ (step C.ways self.old (event now Shake)).after }
    {
        self.at(now);
        match self.phase {
            Phase::Connecting { .. } | Phase::Meeting { .. } => Shaken::Waiting,
            Phase::Connected => Shaken::Done,
            Phase::Failed(Failure::TimedOut) => Shaken::TimedOut,
            Phase::Failed(Failure::Rejected) => Shaken::Rejected,
            Phase::Broken(why) => Shaken::Lost(why),
            Phase::Opened | Phase::Listening(_) | Phase::Closing | Phase::Closed => Shaken::Idle,
        }
    }

    /// Gives the place that was promised to a request to the socket with this ID, which was made for
    /// it. False where no place is promised, or the socket doesn't listen.
    #[tactic(auto, unfolding(udt_model::specs::Step::step))]
    pub fn offer(&mut self, now: u64, id: u32) -> bool
        ensures reply { DidOffer result ≡ (step C.ways self.old (event now (Offer id))).reply }
        ensures after { self.new ≡ (step C.ways self.old (event now (Offer id))).after }
    {
        self.at(now);
        match &mut self.phase {
            Phase::Listening(backlog) => backlog.offer(id),
            _ => false,
        }
    }

    /// Takes the promise of a place back, where there is one, since no socket could be made for it.
    #[tactic(auto, unfolding(udt_model::specs::Step::step))]
    pub fn withdraw(&mut self, now: u64)
        ensures { self.new ≡ (step C.ways self.old (event now Withdraw)).after }
    {
        self.at(now);
        if let Phase::Listening(backlog) = &mut self.phase {
            backlog.withdraw();
        }
    }

    /// The socket's port can't be used any more: a socket that needs it is cut off.
    #[tactic(auto, unfolding(udt_model::specs::Step::step))]
    pub fn port_down(&mut self, now: u64)
        ensures { self.new ≡ (step C.ways self.old (event now PortDown)).after }
    {
        self.at(now);
        match self.phase {
            Phase::Listening(_)
            | Phase::Connecting { .. }
            | Phase::Meeting { .. }
            | Phase::Connected => self.phase = Phase::Broken(Cause::PortDown),
            Phase::Opened | Phase::Broken(_) | Phase::Failed(_) | Phase::Closing | Phase::Closed =>
                {}
        }
    }
}
