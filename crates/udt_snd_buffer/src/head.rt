// What is kept of a block beside its bytes.

use udt_model::Flags;

/// What is known of a block beside its bytes: its flags, the moment after which its message isn't
/// retransmitted, and the offsets of its message's first and last block.
#[derive(Clone, Copy, Debug, PartialEq, Eq)]
pub struct Head {
    pub flags: Flags,
    pub expires: Option<u64>,
    pub first: u64,
    pub last: u64,
}

/// The head of a part that holds no block.
pub const NO_HEAD: Head = Head {
    flags: Flags {
        first: false,
        last: false,
        order: false,
        message: 0,
    },
    expires: None,
    first: 0,
    last: 0,
};
