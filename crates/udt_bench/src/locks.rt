//! Threads that make events under a lock.
use std::sync::{Mutex, Wait};
use std::thread::{Threads, join};

/// A value that has events.
pub trait Eventful {
    fn event(&mut self);
}

/// This many events, by one thread.
pub fn one<R: Wait, T: Eventful>(rt: &R, lock: &Mutex<T>, events: u32) {
    for _ in 0..events {
        lock.lock(rt).event();
    }
}

/// This many by each of two threads.
pub fn two<R: Threads + Wait + Sync, T: Eventful + Send>(rt: &R, lock: &Mutex<T>, events: u32) {
    join(rt, || one(rt, lock, events), || one(rt, lock, events));
}

/// This many by each of four threads.
pub fn four<R: Threads + Wait + Sync, T: Eventful + Send>(rt: &R, lock: &Mutex<T>, events: u32) {
    join(rt, || two(rt, lock, events), || two(rt, lock, events));
}

/// This many by each of eight threads.
pub fn eight<R: Threads + Wait + Sync, T: Eventful + Send>(rt: &R, lock: &Mutex<T>, events: u32) {
    join(rt, || four(rt, lock, events), || four(rt, lock, events));
}
