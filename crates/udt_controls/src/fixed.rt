// The control with a fixed period.
ghost use Rattle.std.specs.Prelude.{ℕ, ◌≤◌};
ghost use Rattle.udt_model.specs.declared.limits.TheConstants.{GREATEST_WINDOW};
ghost use Rattle.udt_model.specs.Controls.{fixed};

use std::marker::Model;
use udt_model::{GREATEST_PERIOD, GREATEST_WINDOW};
use udt_rate::{Control, Seen};

/// A control that sends a packet every `PERIOD` nanoseconds, or every second where `PERIOD` is
/// longer, whatever it is told.
#[derive(Clone, Copy, Debug, PartialEq, Eq)]
pub struct Fixed<const PERIOD: u64>;

impl<const PERIOD: u64> Model for Fixed<PERIOD> {
    ghost Value = { Unit {0} };

    ghost view = { λ f. tt };

    ghost inverse = { λ u. record {} };
}

impl<const PERIOD: u64> Control for Fixed<PERIOD> {
    ghost use Rattle.udt_controls.specs.FixedBounds.{fixed_is_in_bounds};

    ghost ways = { fixed PERIOD };

    ghost stays_in_bounds = { λ packet flow calls positive allowed. fixed_is_in_bounds PERIOD };

    fn start(_packet: u32, _flow: u32) -> Self {
        Fixed
    }

    fn on_ack(&mut self, _seen: &Seen) {}

    fn on_nak(&mut self, _first: u64, _sent: u64, _seen: &Seen) {}

    fn on_timeout(&mut self, _seen: &Seen) {}

    fn window(&self) -> u32 {
        GREATEST_WINDOW
    }

    fn period(&self) -> u64 {
        PERIOD.min(GREATEST_PERIOD)
    }
}
