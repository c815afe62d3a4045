// A control for tests.
ghost use Rattle.udt_model.specs.declared.limits.TheConstants.{FIRST_WINDOW};

use crate::control::{Control, Seen};
use udt_model::FIRST_WINDOW;

/// A control that stays as it is, whatever it is told: the first window, and no period.
#[derive(Clone, Copy, Debug, PartialEq, Eq)]
pub struct Steady;

impl Control for Steady {
    ghost use Rattle.udt_model.specs.Rate.{ways};
    ghost use Rattle.udt_rate.specs.PacedStates.{first_is_in_bounds};

    ghost ways = { ways (λ packet flow. record {}) (λ c. FIRST_WINDOW) (λ c. 0) (λ c seen. c)
        (λ c first sent seen. c) (λ c seen. c) };

    ghost stays_in_bounds = { λ packet flow calls positive allowed. first_is_in_bounds };

    fn start(_packet: u32, _flow: u32) -> Self {
        Steady
    }

    fn on_ack(&mut self, _seen: &Seen) {}

    fn on_nak(&mut self, _first: u64, _sent: u64, _seen: &Seen) {}

    fn on_timeout(&mut self, _seen: &Seen) {}

    fn window(&self) -> u32 {
        FIRST_WINDOW
    }

    fn period(&self) -> u64 {
        0
    }
}
