// What a tick does: the ACK timer, the NAK timer and the EXP timer.

ghost use Rattle.std.specs.Prelude.{◌≡◌, ◌≢◌, ◌+◌, ◌<◌, ◌≤◌, [], ◌++◌, ◌^◌, length, map};
ghost use Rattle.udt_model.specs.ReceiveReports.{ack_outcome, after_ack_timer, nak_report, after_nak_timer};
ghost use Rattle.udt_model.specs.Step.{step};
ghost use Rattle.udt_model.specs.Events.{Tick, event, outs_of};
ghost use Rattle.udt_model.specs.State.{Emission};
ghost use Rattle.udt_model.specs.Ticks.{emitted_by_ack, nak_of, exp_interval as long, exp_outcome as exp_outcome_of, emitted_by_exp, after_exp, counts_exp, gives_up};
ghost use Rattle.udt_core.specs.declared.outs.TheConstants.{MOST_OUTS};
ghost use Rattle.udt_core.specs.Emitted.{datagrams_of};

use super::Socket;
use crate::outs::Outs;
use crate::phase::Phase;
use std::marker::Model;
use udt_model::{
    Cause, EXP_LEAST_INTERVAL, EXP_LEAST_SILENT, EXP_MOST_COUNT, EXP_MOST_SILENT, ExpOutcome,
};
use udt_packet::Packet;
use udt_rate::Control;

impl<C: Control> Socket<C> {
    /// Does what falls due at this moment. A socket that asks or meets emits its handshake again, and
    /// fails after three seconds. A connected socket emits an ACK of what has arrived and a
    /// NAK of what has not; then it has retransmitted what may be lost, or sends a keep-alive, or
    /// gives its peer up. A closing socket sends a shutdown, and is closed.
    #[tactic(auto, unfolding(udt_model::specs::Step::step, udt_model::specs::Wire::spelling))]
    pub fn tick(&mut self, now: u64, outs: &mut Outs)
        ensures after { self.new ≡ (step C.ways self.old (event now Tick)).after }
        ensures outs { outs.new ≡ outs_of (step C.ways self.old (event now Tick)) }
    {
        outs.clear();
        self.at(now);
        match self.phase {
            Phase::Connected => {
                self.tick_ack(outs);
                self.tick_nak(outs);
                self.tick_exp(outs);
            }
            Phase::Closing => {
                let packet = Packet::Shutdown {
                    stamp: self.stamp(),
                    dest: self.peer.id,
                };
                outs.emit(self.peer.addr, &packet);
                self.phase = Phase::Closed;
            }
            Phase::Connecting { .. } => self.tick_client(outs),
            Phase::Meeting { .. } => self.tick_meeting(outs),
            _ => {}
        }
    }

    // Emits the ACK that is due, if one is.
    #[tactic(auto, unfolding(udt_model::specs::Wire::spelling, udt_model::specs::ReceiveReports::ack_answer))]
    fn tick_ack(&mut self, outs: &mut Outs)
        requires empty { outs.old ≡ [] }
        ensures after { self.new ≡ record self.old
            { receiving = after_ack_timer self.old.receiving self.old.last self.old.rtt } }
        ensures outs { outs.new ≡ datagrams_of
            (emitted_by_ack self.old (ack_outcome self.old.receiving self.old.last self.old.rtt)) }
        ensures within { length outs.new ≤ 1 }
    {
        if let Some((number, body)) = self.receiving.tick_ack(self.last, &self.rtt) {
            let packet = Packet::Ack {
                number,
                stamp: self.stamp(),
                dest: self.peer.id,
                body,
            };
            outs.emit(self.peer.addr, &packet);
        }
    }

    // Emits the NAK that is due, if one is.
    fn tick_nak(&mut self, outs: &mut Outs)
        requires room { length outs.old ≤ 1 }
        ensures after { self.new ≡ record self.old
            { receiving = after_nak_timer self.old.receiving self.old.last self.old.rtt } }
        ensures outs { outs.new ≡ outs.old ++ datagrams_of
            (nak_of self.old (nak_report self.old.receiving self.old.last self.old.rtt)) }
        ensures within { length outs.new ≤ 2 }
    {
        self.receiving
            .tick_nak(self.last, &self.rtt, &mut self.ranges);
        let stamp = self.stamp();
        let isn = self.receiving.isn();
        outs.emit_nak(self.peer.addr, stamp, self.peer.id, isn, &self.ranges);
    }

    // Does what the EXP timer asks.
    #[tactic(auto, unfolding(udt_model::specs::Wire::spelling, udt_model::specs::Ticks::exp_outcome))]
    fn tick_exp(&mut self, outs: &mut Outs)
        requires room { length outs.old ≤ 2 }
        ensures after { self.new ≡ after_exp C.ways self.old (exp_outcome_of self.old) }
        ensures outs { outs.new ≡ outs.old ++ datagrams_of (emitted_by_exp self.old (exp_outcome_of self.old)) }
    {
        match self.exp_outcome() {
            ExpOutcome::NotDue => {}
            ExpOutcome::Breaks => self.phase = Phase::Broken(Cause::Expired),
            ExpOutcome::LosesAll => {
                let _ = self.sending.on_timeout(&self.rtt);
                self.count_exp();
            }
            ExpOutcome::KeepsAlive => {
                let packet = Packet::KeepAlive {
                    stamp: self.stamp(),
                    dest: self.peer.id,
                };
                outs.emit(self.peer.addr, &packet);
                self.count_exp();
            }
        }
    }

    // What the EXP timer asks.
    #[tactic(auto, unfolding(udt_model::specs::Ticks::exp_outcome))]
    fn exp_outcome(&self) -> ExpOutcome
        ensures value { result ≡ exp_outcome_of self.now }
        ensures expired { result ≢ ExpOutcome.NotDue → self.now.exp_from + long self.now ≤ self.now.last }
    {
        if self.last < self.exp_from + self.exp_interval() {
            return ExpOutcome::NotDue;
        }
        if self.gives_up() {
            return ExpOutcome::Breaks;
        }
        if self.sending.acked() < self.sending.next() {
            return ExpOutcome::LosesAll;
        }
        ExpOutcome::KeepsAlive
    }

    // The EXP interval, in microseconds.
    pub(super) fn exp_interval(&self) -> u64
        ensures value { result ≡ long self.now }
        ensures fits { self.now.exp_from + result < 2 ^ 64 }
    {
        (self.exp_count * self.rtt.period()).max(EXP_LEAST_INTERVAL)
    }

    // The peer has been silent for too long.
    fn gives_up(&self) -> bool
        ensures { result ≡ gives_up self.now }
    {
        let silent = self.last.saturating_sub(self.heard);
        self.exp_count > EXP_MOST_COUNT && silent >= EXP_LEAST_SILENT || silent >= EXP_MOST_SILENT
    }

    // The timer starts anew, and has fired once more.
    fn count_exp(&mut self)
        requires { self.old.exp_from + long self.old ≤ self.old.last }
        ensures { self.new ≡ counts_exp self.old }
    {
        self.exp_from = self.last;
        self.exp_count += 1;
    }
}
