// Why a call gave nothing.

/// A fault of the outside. The count of faults of the object that was called tells of it.
#[derive(Clone, Copy, Debug, PartialEq, Eq)]
pub struct Failed;

/// No memory was left.
#[derive(Clone, Copy, Debug, PartialEq, Eq)]
pub struct OutOfMemory;
