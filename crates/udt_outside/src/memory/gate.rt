// A gate that holds workers at one point.

use crate::failed::OutOfMemory;
use crate::gate::{Gate, Point};
use std::alloc::Global;
use std::sync::{Arc, Condvar, Mutex, Wait};

#[derive(Drop)]
struct Held {
    // how often the point was reached
    reached: u64,
    open: bool,
}

#[derive(Drop)]
struct Hold {
    held: Mutex<Held>,
    changed: Condvar,
}

/// A gate that holds who comes to one point until it is opened, and lets pass at each other point.
/// The copies of a gate hold and open together. A copy past 2^63 of them would hold nobody.
#[derive(Drop)]
pub struct HoldGate {
    point: Point,
    hold: Option<Arc<Hold, Global>>,
}

impl HoldGate {
    ghost use Rattle.std.specs.Prelude.{◌≡◌, IfOk};

    /// A closed gate, which holds at this point.
    pub fn new(alloc: Global, point: Point) -> Result<HoldGate, OutOfMemory>
        ensures { IfOk result (λ gate. gate.point ≡ point) }
    {
        let hold = Hold {
            held: Mutex::new(Held {
                reached: 0,
                open: false,
            }),
            changed: Condvar::new(),
        };
        match Arc::new(alloc, hold) {
            Ok(hold) => Ok(HoldGate {
                point,
                hold: Some(hold),
            }),
            Err(_) => Err(OutOfMemory),
        }
    }

    /// Returns once somebody has come to the point.
    pub fn wait<R: Wait>(&self, rt: &R) {
        if let Some(hold) = &self.hold {
            let _held = hold
                .changed
                .wait_while(rt, hold.held.lock(rt), |held| held.reached == 0);
        }
    }

    /// Lets all go on that are held, and holds nobody any more.
    pub fn open<R: Wait>(&self, rt: &R) {
        if let Some(hold) = &self.hold {
            hold.held.lock(rt).open = true;
            hold.changed.notify_all();
        }
    }
}

impl Gate for HoldGate {
    ghost use Rattle.std.specs.Prelude.{◌≡◌};

    fn reach<R: Wait + Copy + Send + Sync>(&self, rt: &R, point: Point) {
        if point != self.point {
            return;
        }
        if let Some(hold) = &self.hold {
            let mut held = hold.held.lock(rt);
            held.reached = held.reached.saturating_add(1);
            hold.changed.notify_all();
            let _held = hold.changed.wait_while(rt, held, |held| !held.open);
        }
    }

    fn another(&self) -> HoldGate
        ensures { result.point ≡ self.now.point }
    {
        HoldGate {
            point: self.point,
            hold: match &self.hold {
                Some(hold) => Arc::try_clone(hold).ok(),
                None => None,
            },
        }
    }
}
