// The numbers that a sending half counts with.

ghost use Rattle.std.specs.Prelude.{◌≡◌, ◌≤◌};
ghost use Rattle.udt_model.specs.declared.limits.TheConstants.{LAST_MESSAGE, FEWEST_BLOCKS, MOST_BLOCKS};
ghost use Rattle.udt_model.specs.SendHalf as half;
ghost use Rattle.udt_model.specs.SendReports as reports;
ghost use Rattle.udt_timing.specs.RoundTrips.{round_trip_of};

use udt_model::{AckBody, FEWEST_BLOCKS, LAST_MESSAGE, MOST_BLOCKS};
use udt_timing::Rtt;

/// The number of the message after this one.
pub fn message_after(message: u32) -> u32
    requires { message ≤ LAST_MESSAGE }
    ensures value { result ≡ half.message_after message }
    ensures least { 1 ≤ result }
    ensures most { result ≤ LAST_MESSAGE }
{
    if message == LAST_MESSAGE {
        1
    } else {
        message + 1
    }
}

/// The moment after which a message isn't retransmitted, in microseconds, where it has a time to live.
pub fn expiry_of(now: u64, ttl: Option<u64>) -> Option<u64>
    ensures { result ≡ half.expiry_of now ttl }
{
    match ttl {
        None => None,
        Some(time) => Some(now.saturating_add(time)),
    }
}

/// The moment has passed, where there is one.
pub fn has_passed(now: u64, moment: Option<u64>) -> bool
    ensures { result ≡ half.has_passed now moment }
{
    match moment {
        None => false,
        Some(moment) => moment < now,
    }
}

/// How many blocks of the peer a half counts on.
pub fn clamped(flow: u32) -> u32
    ensures value { result ≡ half.clamped flow }
    ensures least { FEWEST_BLOCKS ≤ result }
    ensures most { result ≤ MOST_BLOCKS }
{
    FEWEST_BLOCKS.max(flow.min(MOST_BLOCKS))
}

/// The sequence number before which all has arrived.
pub fn number_of(body: &AckBody) -> u32
    ensures { result ≡ reports.acked_number body.now }
{
    match body {
        AckBody::Light { ack } => *ack,
        AckBody::Buffer { ack, .. } => *ack,
        AckBody::Full { ack, .. } => *ack,
    }
}

/// How many packets the peer has room for, once this many more have arrived.
pub fn flow_after(flow: u32, newly: u64, body: &AckBody) -> u32
    requires { flow ≤ MOST_BLOCKS }
    ensures value { result ≡ reports.flow_after flow newly body.now }
    ensures least { FEWEST_BLOCKS ≤ result }
    ensures most { result ≤ MOST_BLOCKS }
{
    match body {
        AckBody::Light { .. } => {
            let left = (flow as u64).saturating_sub(newly) as u32;
            FEWEST_BLOCKS.max(left)
        }
        AckBody::Buffer { buffer, .. } => clamped(*buffer),
        AckBody::Full { buffer, .. } => clamped(*buffer),
    }
}

/// Takes in the round-trip time that an ACK tells.
pub fn take_sample(rtt: &mut Rtt, body: &AckBody)
    ensures { round_trip_of rtt.new ≡ reports.sampled (round_trip_of rtt.old) body.now }
{
    match body {
        AckBody::Light { .. } => {}
        AckBody::Buffer { rtt: sample, .. } => rtt.sample(*sample as u64),
        AckBody::Full { rtt: sample, .. } => rtt.sample(*sample as u64),
    }
}

/// An average in which a new measure counts an eighth, where both are there.
pub fn averaged(known: u32, measured: u32) -> u32
    ensures { result ≡ reports.averaged known measured }
{
    if measured == 0 {
        return known;
    }
    if known == 0 {
        return measured;
    }
    ((7 * known as u64 + measured as u64) / 8) as u32
}
