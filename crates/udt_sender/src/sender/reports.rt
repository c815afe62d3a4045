// What ACKs, NAKs and timeouts change.

ghost use Rattle.std.specs.Prelude.{◌≡◌, ℕ, ◌^◌, ◌<◌, ◌≤◌, false, IfSome, None};
ghost use Rattle.udt_model.specs.SendHalf as half;
ghost use Rattle.udt_model.specs.SendReports as reports;
ghost use Rattle.udt_packet.specs.Ranges.{range_from};
ghost use Rattle.udt_sender.specs.Reports.{is_taken, acks, any_enters, range_of, entering_of, lesser, least_of};
ghost use Rattle.udt_timing.specs.RoundTrips.{round_trip_of};

use super::Sender;
use crate::control::{tell_ack, tell_nak, tell_timeout};
use crate::numbers::{averaged, flow_after, number_of, take_sample};
use std::marker::Model;
use udt_model::AckBody;
use udt_packet::{NakRanges, near};
use udt_rate::{Control, Seen};
use udt_timing::Rtt;

// What a control is told.
fn seen(newly: u64, rate: u32, capacity: u32, rtt: &Rtt) -> Seen
    ensures { result
        ≡ record { newly = newly; rate = rate; capacity = capacity; rtt = rtt.now.rtt } }
{
    Seen {
        newly,
        rate: rate as u64,
        capacity: capacity as u64,
        rtt: rtt.rtt,
    }
}

// The lesser of an offset, where there is one, and another.
fn lesser_of(least: Option<u64>, first: u64) -> u64
    ensures { result ≡ lesser least first }
{
    match least {
        None => first,
        Some(least) => least.min(first),
    }
}

impl<C: Control> Sender<C> {
    /// Takes in an ACK and the round-trip time that it tells, and answers whether it was of use.
    #[tactic(auto, unfolding(udt_model::specs::SendReports::after_ack))]
    pub fn on_ack(&mut self, body: &AckBody, rtt: &mut Rtt) -> bool
        ensures value { result ≡ is_taken (reports.acking self.old (reports.acked_number body.now)) }
        ensures next { self.new
            ≡ reports.after_ack C.ways self.old (round_trip_of rtt.old) body.now }
        ensures round_trip { round_trip_of rtt.new
            ≡ reports.round_trip_after (round_trip_of rtt.old) body.now
            (reports.acking self.old (reports.acked_number body.now)) }
        ensures stale { result ≡ false → (self.new ≡ self.old) × (rtt.new ≡ rtt.old) }
        ensures room { self.new.blocks.room ≡ self.old.blocks.room }
    {
        let Some(offset) = self.acking(number_of(body)) else {
            return false;
        };
        let newly = offset - self.acked();
        take_sample(rtt, body);
        self.release(offset, body);
        self.measure(newly, body, rtt);
        true
    }

    /// Takes in the lost ranges of a NAK, and answers whether any of them is to be retransmitted.
    #[tactic(auto, unfolding(udt_model::specs::SendReports::after_nak))]
    pub fn on_nak(&mut self, ranges: NakRanges, rtt: &Rtt) -> bool
        ensures value { result ≡ any_enters (reports.entering self.old ranges.entry) }
        ensures next { self.new ≡ reports.after_nak C.ways self.old (round_trip_of rtt.now) ranges.entry }
        ensures stale { result ≡ false → self.new ≡ self.old }
        ensures blocks { self.new.blocks ≡ self.old.blocks }
    {
        let Some(first) = self.lose(ranges) else {
            return false;
        };
        let seen = seen(0, self.rate, self.capacity, rtt);
        tell_nak(&mut self.control, first, self.next, &seen);
        true
    }

    /// All that is in flight counts as lost. Answers whether there is anything.
    #[tactic(auto, unfolding(udt_model::specs::SendReports::after_timeout))]
    pub fn on_timeout(&mut self, rtt: &Rtt) -> bool
        ensures value { result ≡ reports.has_unacknowledged self.old }
        ensures next { self.new ≡ reports.after_timeout C.ways self.old (round_trip_of rtt.now) }
        ensures blocks { self.new.blocks ≡ self.old.blocks }
    {
        let (first, _) = self.buffer.kept();
        if first == self.next {
            return false;
        }
        self.loss.add(first, self.next - 1);
        let seen = seen(0, self.rate, self.capacity, rtt);
        tell_timeout(&mut self.control, &seen);
        true
    }

    // The offset below which all has arrived, where an ACK with this number isn't stale.
    #[tactic(auto, unfolding(udt_model::specs::SendReports::acking))]
    fn acking(&self, number: u32) -> Option<u64>
        ensures value { acks result ≡ reports.acking self.now number }
        ensures acked { IfSome result (λ offset. half.acked_of self.now ≤ offset) }
        ensures sent { IfSome result (λ offset. offset ≤ self.now.next) }
    {
        let (first, _) = self.buffer.kept();
        let offset = near(self.isn, first, number)?;
        if offset < first || self.next < offset {
            return None;
        }
        Some(offset)
    }

    // Releases the blocks below an offset, and takes in how many packets the peer has room for.
    fn release(&mut self, offset: u64, body: &AckBody)
        requires acked { half.acked_of self.old ≤ offset }
        requires sent { offset ≤ self.old.next }
        ensures { self.new ≡ reports.released self.old body.now offset }
    {
        let (first, _) = self.buffer.kept();
        self.buffer.release_to(offset);
        self.loss.drop_below(offset);
        self.flow = flow_after(self.flow, offset - first, body);
    }

    // Takes in what a full ACK measured, and tells the control of it.
    fn measure(&mut self, newly: u64, body: &AckBody, rtt: &Rtt)
        ensures { self.new
            ≡ reports.measured C.ways self.old (round_trip_of rtt.now) newly body.now }
    {
        if let AckBody::Full { rate, capacity, .. } = body {
            self.rate = averaged(self.rate, *rate);
            self.capacity = averaged(self.capacity, *capacity);
            let seen = seen(newly, self.rate, self.capacity, rtt);
            tell_ack(&mut self.control, &seen);
        }
    }

    // Adds the ranges that enter the list, and answers the least offset among them.
    fn lose(&mut self, mut ranges: NakRanges) -> Option<u64>
        ensures value { result ≡ least_of None (reports.entering self.old ranges.entry) }
        ensures next { self.new ≡ record self.old
            { lost = reports.with_ranges (reports.entering self.old ranges.entry) self.old.lost } }
        ensures sent { IfSome result (λ first. first < self.old.next) }
    {
        let mut least = None;
        while let Some((first, last)) = ranges.next() {
            least = self.lose_range(first, last, least);
        }
        least
    }

    // Adds a range, where it enters the list, and answers the lesser of its first offset and the
    // least one so far.
    fn lose_range(&mut self, first: u32, last: u32, least: Option<u64>) -> Option<u64>
        requires { IfSome least (λ first. first < self.old.next) }
        ensures value { result ≡ least_of least (entering_of self.old (range_from (first, last))) }
        ensures next { self.new ≡ record self.old {
          lost =
              reports.with_ranges (entering_of self.old (range_from (first, last))) self.old.lost;
        } }
        ensures sent { IfSome result (λ first. first < self.old.next) }
    {
        match self.entering_range(first, last) {
            None => least,
            Some((from, to)) => {
                self.loss.add(from, to);
                Some(lesser_of(least, from))
            }
        }
    }

    // The first and the last offset of the part of a NAK's range that enters the list, where it does.
    fn entering_range(&self, first: u32, last: u32) -> Option<(u64, u64)>
        ensures value { range_of result ≡ entering_of self.now (range_from (first, last)) }
        ensures acked { IfSome result (λ ends. half.acked_of self.now ≤ ends.0) }
        ensures order { IfSome result (λ ends. ends.0 ≤ ends.1) }
        ensures sent { IfSome result (λ ends. ends.1 < self.now.next) }
    {
        let (acked, _) = self.buffer.kept();
        let from = match near(self.isn, acked, first) {
            None => acked,
            Some(offset) => offset.max(acked),
        };
        let to = near(self.isn, acked, last)?;
        if to < self.next && from <= to {
            Some((from, to))
        } else {
            None
        }
    }
}
