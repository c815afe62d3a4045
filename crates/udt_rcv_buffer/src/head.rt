// What is kept of an offset beside its bytes.

use udt_model::Flags;

/// What is known of an offset beside its bytes: whether a block was placed there or the offset was
/// consumed, whether it was consumed, and the block's flags.
#[derive(Clone, Copy, Debug, PartialEq, Eq)]
pub struct Head {
    pub used: bool,
    pub consumed: bool,
    pub flags: Flags,
}

const NO_FLAGS: Flags = Flags {
    first: false,
    last: false,
    order: false,
    message: 0,
};

/// An offset of which nothing is known.
pub const MISSING: Head = Head {
    used: false,
    consumed: false,
    flags: NO_FLAGS,
};

/// An offset that was consumed.
pub const CONSUMED: Head = Head {
    used: true,
    consumed: true,
    flags: NO_FLAGS,
};
