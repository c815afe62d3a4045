// Why a table refuses.

use std::alloc::AllocError;

/// Memory ran out.
#[derive(Clone, Copy, Debug, PartialEq, Eq)]
pub struct OutOfMemory;

impl From<AllocError> for OutOfMemory {
    fn from(_error: AllocError) -> OutOfMemory {
        OutOfMemory
    }
}

/// The pair is adopted already.
#[derive(Clone, Copy, Debug, PartialEq, Eq)]
pub struct Taken;

/// A socket listens already.
#[derive(Clone, Copy, Debug, PartialEq, Eq)]
pub struct ListenTwice;

/// The address is met already, the socket meets one already, or as many are met as may be.
#[derive(Clone, Copy, Debug, PartialEq, Eq)]
pub struct MeetTaken;

/// Why the writer doesn't enrol an ID.
#[derive(Clone, Copy, Debug, PartialEq, Eq)]
pub enum EnrolNo {
    /// The ID is enrolled, or as many are as may be.
    Live,
    OutOfMemory,
}

/// Why the writer doesn't make a socket the listener.
#[derive(Clone, Copy, Debug, PartialEq, Eq)]
pub enum ListenNo {
    /// A socket listens already.
    ListenTwice,
    OutOfMemory,
}

/// Why the writer doesn't let a socket meet an address.
#[derive(Clone, Copy, Debug, PartialEq, Eq)]
pub enum MeetNo {
    /// The address is met already, the socket meets one already, or as many are met as may be.
    MeetTaken,
    OutOfMemory,
}
