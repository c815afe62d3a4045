// The numbers of the protocol: limits, timers, windows. Definitions and code take each from here.

// ---- packets and numbers

/// How many packets one direction of a connection may carry at most.
pub const PACKET_LIMIT: u64 = 1 << 60;

/// The greatest offset at which the directions of a paired socket may begin.
pub const LAST_START: u64 = 1 << 59;

/// The greatest number of a message, after which 1 comes again: messages have 29 bits.
pub const LAST_MESSAGE: u32 = (1 << 29) - 1;

/// The greatest number of an ACK, after which 1 comes again.
pub const LAST_ACK_NUMBER: u32 = (1 << 31) - 1;

// ---- sockets

/// The greatest moment, in microseconds: a later one counts as this one. In nanoseconds it fits 64
/// bits.
pub const LAST_MOMENT: u64 = (1 << 53) - 1;

/// The most bytes that a block of any socket carries: a datagram of 9,000 bytes less its headers.
pub const MOST_PAYLOAD: u32 = 8956;

/// The fewest blocks that a socket keeps each way.
pub const FEWEST_BLOCKS: u32 = 2;

/// The most blocks that a socket keeps each way, and the widest flow window.
pub const MOST_BLOCKS: u32 = 65_536;

/// The most connections that a listener keeps until they are accepted.
pub const MOST_BACKLOG: u32 = 1024;

// ---- timers, in microseconds

/// SYN, the interval of the ACK timer, and the least unit of the other timers: 10 ms.
pub const SYN: u64 = 10_000;

/// The least EXP interval.
pub const EXP_LEAST_INTERVAL: u64 = 500_000;

/// How often the EXP timer fires before it may break a connection.
pub const EXP_MOST_COUNT: u64 = 16;

/// The least time without an arrival that breaks a connection: three seconds.
pub const EXP_LEAST_SILENT: u64 = 3_000_000;

/// The time without an arrival that always breaks a connection: three minutes.
pub const EXP_MOST_SILENT: u64 = 180_000_000;

/// The round-trip time that is assumed before the first sample.
pub const FIRST_RTT: u64 = 100_000;

/// The variance of the round-trip time that is assumed before the first sample.
pub const FIRST_RTT_VAR: u64 = 50_000;

/// A greater sample of the round-trip time counts as this one: a minute.
pub const GREATEST_RTT: u64 = 60_000_000;

/// How often a socket that isn't connected yet repeats its handshake: a quarter of a second.
pub const SHAKE_INTERVAL: u64 = 250_000;

/// The time after which it gives up: three seconds.
pub const SHAKE_LIMIT: u64 = 3_000_000;

// ---- acknowledging and measuring, in packets

/// How many blocks arrive between two light ACKs.
pub const LIGHT_ACK_COUNT: u32 = 64;

/// The data packet after each whose sequence number is a multiple of this one follows at once: the
/// two are a packet pair, which measures the link.
pub const PROBE_INTERVAL: u32 = 16;

/// How many of the newest samples the arrival and packet-pair windows keep.
pub const SAMPLE_WINDOW: usize = 16;

/// How many of the newest ACKs are remembered for their ACK2.
pub const ACK_HISTORY: usize = 1_024;

// ---- rate control

/// The congestion window before the first ACK, in packets.
pub const FIRST_WINDOW: u32 = 16;

/// The least congestion window, in packets.
pub const LEAST_WINDOW: u32 = 2;

/// The greatest congestion window, in packets.
pub const GREATEST_WINDOW: u32 = 65_536;

/// The greatest packet sending period, in nanoseconds: a second.
pub const GREATEST_PERIOD: u64 = 1_000_000_000;

/// The packet sending period of the fixed control that commands name, in nanoseconds: a tenth of a
/// millisecond.
pub const FIXED_PERIOD: u64 = 100_000;

// ---- scripts

/// The bytes of a script that are played at most.
pub const LONGEST_SCRIPT: u64 = 67_108_864;

/// The bytes of a script's line at most, its line feed not counted.
pub const LONGEST_LINE: u64 = 65_536;

/// How many sockets a script may make.
pub const MOST_SOCKETS: u64 = 1024;

/// How many lines of a script may make hosts.
pub const MOST_HOSTS: u64 = 64;
