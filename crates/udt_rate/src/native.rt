// The native control.
ghost use Rattle.std.specs.Prelude.{◌≡◌, ℕ, ◌+◌, ◌-◌, ◌*◌, ◌/◌, ◌^◌, ◌<◌, ◌≤◌, max, min};
ghost use Rattle.udt_model.specs.Rate.{native, steady_window, measured_period, bounded_period, longer_of, is_new_loss};
ghost use Rattle.udt_model.specs.declared.limits.TheConstants.{GREATEST_WINDOW, GREATEST_PERIOD};

use crate::constants::SECOND_NANOS;
use crate::control::{Control, Seen};
use crate::formulas::{increase, shorter};
use std::marker::Model;
use udt_model::{FIRST_WINDOW, GREATEST_PERIOD, GREATEST_WINDOW, SYN};

/// The native control. In slow start the window grows by what is acknowledged. Afterwards the window
/// is what a round trip takes at the peer's receiving rate, each ACK shortens the period, and the
/// first loss of a flight makes it longer by an eighth.
#[derive(Debug, Drop)]
pub struct Native {
    packet: u32,
    flow: u32,
    slow: bool,
    window: u32,
    period: u64,
    last_dec: Option<u64>,
}

impl Model for Native {
    ghost use Rattle.udt_model.specs.Rate.{Pacing, IsPaced};

    ghost Value = { Pacing };

    ghost use Rattle.udt_rate.specs.Native.{pacing_of};

    ghost view = { pacing_of };

    ghost invariant = { λ n. IsPaced (pacing_of n) };
}

impl Control for Native {
    ghost use Rattle.udt_rate.specs.PacedStates.{native_stays_in_bounds};

    ghost ways = { native };

    ghost stays_in_bounds = { native_stays_in_bounds };

    fn start(packet: u32, flow: u32) -> Self {
        Native {
            packet,
            flow,
            slow: true,
            window: FIRST_WINDOW,
            period: 0,
            last_dec: None,
        }
    }

    fn on_ack(&mut self, seen: &Seen) {
        if self.slow {
            self.window = opened_window(self.window, seen.newly);
            if self.window >= self.flow {
                self.slow = false;
                self.period = first_period(self.window, seen);
            }
        } else {
            let inc = increase(seen.capacity, self.period, self.packet);
            self.window = paced_window(seen);
            self.period = shorter(self.period, inc);
        }
    }

    fn on_nak(&mut self, first: u64, sent: u64, seen: &Seen) {
        if self.slow {
            self.slow = false;
            self.period = first_period(self.window, seen);
        } else if is_new(self.last_dec, first) {
            self.period = longer(self.period);
            self.last_dec = Some(sent - 1);
        }
    }

    fn on_timeout(&mut self, seen: &Seen) {
        if self.slow {
            self.slow = false;
            self.period = first_period(self.window, seen);
        }
    }

    fn window(&self) -> u32 {
        self.window
    }

    fn period(&self) -> u64 {
        self.period
    }
}

/// The window of slow start after an ACK of this many packets.
fn opened_window(window: u32, newly: u64) -> u32
    ensures { result ≡ min (window + newly) GREATEST_WINDOW }
{
    let grown = u128::from(window) + u128::from(newly);
    grown.min(u128::from(GREATEST_WINDOW)) as u32
}

/// The window that a round trip takes at the peer's receiving rate.
fn paced_window(seen: &Seen) -> u32
    requires { seen.now.rate < 2 ^ 32 }
    ensures { result ≡ steady_window seen.now }
{
    let micros = u128::from(seen.rtt) + u128::from(SYN);
    let packets = u128::from(seen.rate) * micros / 1_000_000 + u128::from(FIRST_WINDOW);
    packets.min(u128::from(GREATEST_WINDOW)) as u32
}

/// The period that slow start ends with.
fn first_period(window: u32, seen: &Seen) -> u64
    requires { 1 ≤ window }
    ensures { result ≡ bounded_period (measured_period window seen.now) }
{
    let measured = if seen.rate > 0 {
        u128::from(SECOND_NANOS / seen.rate)
    } else {
        1000 * (u128::from(seen.rtt) + u128::from(SYN)) / u128::from(window)
    };
    measured.min(u128::from(GREATEST_PERIOD)).max(1) as u64
}

/// The period that a decrease leaves: longer by an eighth, and at most a second.
fn longer(period: u64) -> u64
    requires { period ≤ GREATEST_PERIOD }
    ensures { result ≡ longer_of period }
{
    ((9 * period + 7) / 8).min(GREATEST_PERIOD)
}

/// Whether no decrease has answered a loss at this offset: it lies above the greatest offset that was
/// sent at the last decrease.
pub fn is_new(last_dec: Option<u64>, first: u64) -> bool
    ensures { result ≡ is_new_loss last_dec first }
{
    match last_dec {
        None => true,
        Some(last) => first > last,
    }
}
