//! What a pass knows. No value of these types is made.
use std::collections::LinkedList;

/// A history: the value that opened it, and the items in order, each with the number of the pass that made it.
pub struct History<V, E> {
    pub opening: V,
    pub items: LinkedList<(u64, E)>,
}

/// Where a pass stands between two calls, or inside one.
pub enum Stage<E> {
    Idle,
    /// It has drawn this ticket.
    Waiting(u64),
    /// Its ticket is served, and these items were found.
    Holding(u64, LinkedList<(u64, E)>),
    /// Its ticket is served, and what it had to say is said.
    Done(u64),
    /// It may draw a number.
    Counting,
    /// It has drawn this number, and has not given it to a pass yet.
    Owning(u64),
    /// It knows that all other passes were joined into it.
    Alone,
    /// It was joined into another.
    Spent,
}

/// Some names, and what was made under them.
pub struct Share<E> {
    pub names: LinkedList<u64>,
    pub made: LinkedList<(u64, E)>,
}

pub struct View<V, E> {
    pub number: u64,
    /// Its own number, and those of the passes that were joined into it.
    pub names: LinkedList<u64>,
    /// The numbers that were split off under its names, each after the one that split it off.
    pub made: LinkedList<(u64, u64)>,
    pub seen: History<V, E>,
    /// The shorter of two beginnings of the history that a join brought together.
    pub told: LinkedList<(u64, E)>,
    /// What each of two passes had made that a join brought together.
    pub one: Share<E>,
    pub other: Share<E>,
    /// The count after the last item that was made under its names, and 0 where there is none.
    pub last: u64,
    /// The number of pass numbers that were drawn, as its last step on them showed.
    pub drawn: u64,
    pub stage: Stage<E>,
}
