// The words for what a socket answered.

ghost use Rattle.std.specs.Prelude.{◌≡◌};
ghost use Rattle.udt_model.specs.Texts as spec;

use udt_model::{Cause, Heard, Malformed, Refusal, Shaken};

/// A call that may be tried again, or one that is refused with a number.
pub fn no_text(why: Refusal) -> &'static [u8]
    ensures { result.now ≡ spec.no_text why }
{
    match why {
        Refusal::ConnLost(Cause::PeerShutdown) => b"refused 2001 shutdown",
        Refusal::ConnLost(Cause::Expired) => b"refused 2001 expired",
        Refusal::ConnLost(Cause::PortDown) => b"refused 2001 port",
        Refusal::NotConnected => b"refused 2002",
        Refusal::OutOfMemory => b"refused 3002",
        Refusal::Connected => b"refused 5002",
        Refusal::BadParameter => b"refused 5003",
        Refusal::NotListening => b"refused 5006",
        Refusal::StreamOnly => b"refused 5009",
        Refusal::MessageOnly => b"refused 5010",
        Refusal::TooLarge => b"refused 5012",
        Refusal::AgainSend | Refusal::AgainRecv => b"again",
        Refusal::Spent => b"refused 9001",
        Refusal::EventsSpent => b"refused 9003",
    }
}

/// What became of a connection.
pub fn shaken_text(shaken: Shaken) -> &'static [u8]
    ensures { result.now ≡ spec.shaken_text shaken }
{
    match shaken {
        Shaken::Idle => b"idle",
        Shaken::Waiting => b"waiting",
        Shaken::Done => b"connected",
        Shaken::TimedOut => b"refused 1001",
        Shaken::Rejected => b"refused 1002",
        Shaken::Lost(Cause::PeerShutdown) => b"refused 2001 shutdown",
        Shaken::Lost(Cause::Expired) => b"refused 2001 expired",
        Shaken::Lost(Cause::PortDown) => b"refused 2001 port",
    }
}

/// What became of a datagram that arrived.
pub fn heard_text(heard: Heard) -> &'static [u8]
    ensures { result.now ≡ spec.heard_text heard }
{
    match heard {
        Heard::Placed => b"placed",
        Heard::Double => b"double",
        Heard::Below => b"below",
        Heard::Above => b"above",
        Heard::BadLength => b"badlength",
        Heard::Ack => b"ack",
        Heard::Nak => b"nak",
        Heard::Ack2 => b"ack2",
        Heard::Dropped => b"dropped",
        Heard::Alive => b"alive",
        Heard::Shutdown => b"shutdown",
        Heard::Cookie => b"cookie",
        Heard::Request => b"request",
        Heard::Reject => b"reject",
        Heard::Connected => b"connected",
        Heard::Answered => b"answered",
        Heard::Adopted => b"adopted",
        Heard::Rejected => b"rejected",
        Heard::Stale => b"stale",
        Heard::Foreign => b"foreign",
        Heard::Malformed(Malformed::TooShort) => b"malformed 1",
        Heard::Malformed(Malformed::UnknownType) => b"malformed 2",
        Heard::Malformed(Malformed::BadHandshakeLength) => b"malformed 3",
        Heard::Malformed(Malformed::BadNakRange) => b"malformed 4",
        Heard::Malformed(Malformed::BadDropLength) => b"malformed 5",
        Heard::Malformed(Malformed::BadAckLength) => b"malformed 6",
    }
}
