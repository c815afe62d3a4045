// The greatest numbers that the words of a command may spell.

/// The greatest number from which what is drawn may start.
pub const LAST_SEED: u64 = (1 << 32) - 1;

/// The most turns of a generated script.
pub const MOST_WORLD_TURNS: u64 = 400_000;

/// The most turns of each part of a recorded run.
pub const MOST_RECORD_TURNS: u64 = 10_000;

/// The most bytes that a connection of `pair` carries.
pub const MOST_PAIR_BYTES: u64 = 100_000_000;

/// The most connections that `pair` makes, or that `recv` and `recv6` accept.
pub const MOST_CONNECTIONS: u32 = 64;
