//! The protocol as definitions, and the plain types that definitions and code share.
#![tactic(auto)]

mod addresses;
mod answers;
mod handshakes;
mod limits;
mod packets;
mod routes;
mod scripts;
mod sockets;

pub use addresses::{Addr, Family, Ip};
pub use answers::{
    Arrived, Cause, Dropped, Failure, Heard, NOBODY, Origin, Packed, Peer, Perf, Placed, Refusal,
    SendNo, Shaken,
};
pub use handshakes::{
    Asked, COOKIE_LIFE, Caller, ClientSaw, MeetSaw, SIZE_OVER_PAYLOAD, VERSION, Verdict,
};
pub use limits::{
    ACK_HISTORY, EXP_LEAST_INTERVAL, EXP_LEAST_SILENT, EXP_MOST_COUNT, EXP_MOST_SILENT,
    FEWEST_BLOCKS, FIRST_RTT, FIRST_RTT_VAR, FIRST_WINDOW, FIXED_PERIOD, GREATEST_PERIOD,
    GREATEST_RTT, GREATEST_WINDOW, LAST_ACK_NUMBER, LAST_MESSAGE, LAST_MOMENT, LAST_START,
    LEAST_WINDOW, LIGHT_ACK_COUNT, LONGEST_LINE, LONGEST_SCRIPT, MOST_BACKLOG, MOST_BLOCKS,
    MOST_HOSTS, MOST_PAYLOAD, MOST_SOCKETS, PACKET_LIMIT, PROBE_INTERVAL, SAMPLE_WINDOW,
    SHAKE_INTERVAL, SHAKE_LIMIT, SYN,
};
pub use packets::{AckBody, Config, Flags, Kind, Malformed, Shake};
pub use routes::Routed;
pub use scripts::{ControlName, Summary};
pub use sockets::{Counters, ExpOutcome, NO_COUNTERS, SentAck};
