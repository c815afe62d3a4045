// Where a worker may be held around its turns.

use std::sync::Wait;

/// Where a worker stands in a turn in which the socket of this ID is given an event.
#[derive(Clone, Copy, Debug, PartialEq, Eq)]
pub enum Point {
    /// It is about to take the turn.
    Before(u32),
    /// It has the turn.
    Holding(u32),
    /// It has given the turn back.
    After(u32),
}

/// What a worker calls at each point, and which may hold it there.
pub trait Gate: Sized {
    /// Returns once the caller may go on.
    fn reach<R: Wait + Copy + Send + Sync>(&self, rt: &R, point: Point);

    /// The same gate.
    fn another(&self) -> Self;
}

/// A gate that holds nobody.
#[derive(Clone, Copy, Debug, Drop)]
pub struct FreeGate;

impl Gate for FreeGate {
    fn reach<R: Wait + Copy + Send + Sync>(&self, _rt: &R, _point: Point) {}

    fn another(&self) -> FreeGate {
        FreeGate
    }
}
