// What a rate control is.
ghost use Rattle.std.specs.Prelude.{◌≡◌, ℕ, ◌<◌, ◌≤◌, ◌^◌};
ghost use Rattle.udt_model.specs.Rate.{Feedback, Ways, StaysInBounds};
ghost use Rattle.udt_model.specs.declared.limits.TheConstants.{LEAST_WINDOW, GREATEST_PERIOD};

use std::marker::Model;

/// What a control is told with each call: the number of packets newly acknowledged, the peer's
/// receiving rate and the link capacity in packets a second, and the round-trip time in microseconds.
#[derive(Clone, Copy, Debug, PartialEq, Eq)]
pub struct Seen {
    pub newly: u64,
    pub rate: u64,
    pub capacity: u64,
    pub rtt: u64,
}

impl Model for Seen {
    ghost use Rattle.udt_model.specs.Rate.{Feedback};

    ghost Value = { Feedback };

    ghost view = { λ s. record { newly = s.newly; rate = s.rate; capacity = s.capacity; rtt = s.rtt } };

    ghost inverse = { λ f. record { newly = f.newly; rate = f.rate; capacity = f.capacity; rtt = f.rtt } };
}

/// A rate control: it is told of ACKs, NAKs and timeouts, and answers the congestion window (how many
/// packets may be in flight) and the packet sending period (how far apart they leave).
pub trait Control: Drop {
    /// What it begins with and answers, and what each call leaves, as functions of its value.
    ghost ways: { Ways Self };

    /// The control of a connection that begins, for packets of this many bytes and a flow window in
    /// packets.
    fn start(packet: u32, flow: u32) -> Self
        requires { 1 ≤ packet }
        ensures value { result ≡ ways.started packet flow }
        ensures window { LEAST_WINDOW ≤ ways.window_of result }
        ensures period { ways.period_of result ≤ GREATEST_PERIOD };

    /// An ACK came.
    fn on_ack(&mut self, seen: &Seen)
        requires rate { seen.now.rate < 2 ^ 32 }
        requires capacity { seen.now.capacity < 2 ^ 32 }
        ensures next { self.new ≡ ways.after_ack self.old seen.now }
        ensures window { LEAST_WINDOW ≤ ways.window_of self.new }
        ensures period { ways.period_of self.new ≤ GREATEST_PERIOD };

    /// A NAK came, whose first lost packet is at an offset below the first one never sent.
    fn on_nak(&mut self, first: u64, sent: u64, seen: &Seen)
        requires sent { first < sent }
        requires rate { seen.now.rate < 2 ^ 32 }
        requires capacity { seen.now.capacity < 2 ^ 32 }
        ensures next { self.new ≡ ways.after_nak self.old first sent seen.now }
        ensures window { LEAST_WINDOW ≤ ways.window_of self.new }
        ensures period { ways.period_of self.new ≤ GREATEST_PERIOD };

    /// The EXP timer fired, and all that is in flight counts as lost.
    fn on_timeout(&mut self, seen: &Seen)
        requires rate { seen.now.rate < 2 ^ 32 }
        requires capacity { seen.now.capacity < 2 ^ 32 }
        ensures next { self.new ≡ ways.after_timeout self.old seen.now }
        ensures window { LEAST_WINDOW ≤ ways.window_of self.new }
        ensures period { ways.period_of self.new ≤ GREATEST_PERIOD };

    /// How many packets may be in flight.
    fn window(&self) -> u32
        ensures value { result ≡ ways.window_of self.now }
        ensures bound { LEAST_WINDOW ≤ result };

    /// The time from one packet to the next, in nanoseconds.
    fn period(&self) -> u64
        ensures value { result ≡ ways.period_of self.now }
        ensures bound { result ≤ GREATEST_PERIOD };

    /// After every list of allowed calls, begun at a packet of at least one byte, its answers stay in
    /// their bounds.
    ghost stays_in_bounds: { StaysInBounds ways };
}
