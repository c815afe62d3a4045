// The control whose window adds and halves.
ghost use Rattle.std.specs.Prelude.{◌≡◌, ℕ, ◌+◌, ◌-◌, ◌*◌, ◌/◌, ◌%◌, ◌^◌, ◌<◌, ◌≤◌, max, min};
ghost use Rattle.udt_model.specs.declared.limits.TheConstants.{GREATEST_WINDOW};
ghost use Rattle.udt_model.specs.Controls.{additive, half_of};

use std::marker::Model;
use udt_model::{FIRST_WINDOW, GREATEST_WINDOW, LEAST_WINDOW};
use udt_rate::{Control, Seen, is_new};

/// A control without a period. Below its threshold the window grows by what is acknowledged, from
/// there on by one packet for each window that is acknowledged. The first loss of a flight halves
/// it, and a timeout begins again from two packets.
#[derive(Debug, Drop)]
pub struct Aimd {
    window: u32,
    threshold: u32,
    rest: u32,
    last_dec: Option<u64>,
}

impl Model for Aimd {
    ghost use Rattle.udt_model.specs.Controls.{Additive};

    ghost Value = { Additive };

    ghost use Rattle.udt_controls.specs.AdditiveFields.{additive_of};
    ghost use Rattle.udt_controls.specs.Windows.{IsWindowed};

    ghost view = { additive_of };

    ghost invariant = { λ a. IsWindowed (additive_of a) };
}

impl Control for Aimd {
    ghost use Rattle.udt_controls.specs.Windows.{additive_stays_in_bounds};

    ghost ways = { additive };

    ghost stays_in_bounds = { additive_stays_in_bounds };

    fn start(_packet: u32, _flow: u32) -> Self {
        Aimd {
            window: FIRST_WINDOW,
            threshold: GREATEST_WINDOW,
            rest: 0,
            last_dec: None,
        }
    }

    fn on_ack(&mut self, seen: &Seen) {
        if self.window < self.threshold {
            self.window = raised(self.window, u128::from(seen.newly));
        } else {
            let whole = u128::from(self.rest) + u128::from(seen.newly);
            let window = u128::from(self.window);
            self.window = raised(self.window, whole / window);
            self.rest = (whole % window) as u32;
        }
    }

    fn on_nak(&mut self, first: u64, sent: u64, _seen: &Seen) {
        if is_new(self.last_dec, first) {
            self.threshold = half(self.window);
            self.window = self.threshold;
            self.rest = 0;
            self.last_dec = Some(sent - 1);
        }
    }

    fn on_timeout(&mut self, _seen: &Seen) {
        self.threshold = half(self.window);
        self.window = LEAST_WINDOW;
        self.rest = 0;
    }

    fn window(&self) -> u32 {
        self.window
    }

    fn period(&self) -> u64 {
        0
    }
}

/// The window with this many packets more, which is no larger than the largest one.
fn raised(window: u32, packets: u128) -> u32
    requires { packets < 2 ^ 65 }
    ensures { result ≡ min (window + packets) GREATEST_WINDOW }
{
    (u128::from(window) + packets).min(u128::from(GREATEST_WINDOW)) as u32
}

/// Half of the window, and at least the least one.
fn half(window: u32) -> u32
    ensures { result ≡ half_of window }
{
    (window / 2).max(LEAST_WINDOW)
}
