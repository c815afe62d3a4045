// What passes know of a queue. No value of these types is made.

use std::collections::LinkedList;

/// Whether a hand may take from its queue.
pub enum Right {
    /// It may not.
    Never,
    /// It may, and others may too.
    Shared,
    /// It may, and no other hand of the queue may.
    Alone,
}

/// An entry of a queue: the name under which it was put, its place among what was put under that name, and
/// its value.
pub struct Entry<T> {
    pub from: LinkedList<u64>,
    pub place: u64,
    pub value: T,
}

/// What one pass did under its own name: how many other names it made, what it put, and which entries it
/// took.
pub struct Hand<T> {
    pub name: LinkedList<u64>,
    pub made: u64,
    pub right: Right,
    pub put: LinkedList<T>,
    pub took: LinkedList<Entry<T>>,
}

/// The hands of a pass: its own, and those of the passes that were joined into it. None are left of a pass
/// that was joined itself.
pub struct View<T> {
    pub hands: LinkedList<Hand<T>>,
}
