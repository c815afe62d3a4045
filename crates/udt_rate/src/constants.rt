// The units in which the native control counts.

use udt_model::SYN;

/// The nanoseconds of a second.
pub const SECOND_NANOS: u64 = 1_000_000_000;

/// A SYN in nanoseconds, counted in millionths, since an increase is in millionths of a packet.
pub const SYN_NANO_MILLIONTHS: u128 = SYN as u128 * 1_000_000_000;
