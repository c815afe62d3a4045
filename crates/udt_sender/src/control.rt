// What the rate control answers and is told, once there is one.

ghost use Rattle.std.specs.Prelude.{◌≡◌, ◌^◌, ◌<◌, ◌≤◌, option_map};
ghost use Rattle.udt_model.specs.declared.limits.TheConstants.{LEAST_WINDOW, GREATEST_PERIOD};
ghost use Rattle.udt_model.specs.SendHalf.{window_in, period_in};

use std::marker::Model;
use udt_model::FIRST_WINDOW;
use udt_rate::{Control, Seen};

/// The congestion window in packets.
pub fn window_of<C: Control>(control: &Option<C>) -> u32
    ensures value { result ≡ window_in C.ways control.now }
    ensures bound { LEAST_WINDOW ≤ result }
{
    match control {
        None => FIRST_WINDOW,
        Some(control) => control.window(),
    }
}

/// The packet sending period in nanoseconds.
pub fn period_of<C: Control>(control: &Option<C>) -> u64
    ensures value { result ≡ period_in C.ways control.now }
    ensures bound { result ≤ GREATEST_PERIOD }
{
    match control {
        None => 0,
        Some(control) => control.period(),
    }
}

/// An ACK came.
pub fn tell_ack<C: Control>(control: &mut Option<C>, seen: &Seen)
    requires rate { seen.now.rate < 2 ^ 32 }
    requires capacity { seen.now.capacity < 2 ^ 32 }
    ensures { control.new ≡ option_map (λ c. C.ways.after_ack c seen.now) control.old }
{
    if let Some(control) = control {
        control.on_ack(seen);
    }
}

/// A NAK came, whose first lost packet is at an offset below the first one never sent.
pub fn tell_nak<C: Control>(control: &mut Option<C>, first: u64, sent: u64, seen: &Seen)
    requires sent { first < sent }
    requires rate { seen.now.rate < 2 ^ 32 }
    requires capacity { seen.now.capacity < 2 ^ 32 }
    ensures { control.new ≡ option_map (λ c. C.ways.after_nak c first sent seen.now) control.old }
{
    if let Some(control) = control {
        control.on_nak(first, sent, seen);
    }
}

/// All that is in flight counts as lost.
pub fn tell_timeout<C: Control>(control: &mut Option<C>, seen: &Seen)
    requires rate { seen.now.rate < 2 ^ 32 }
    requires capacity { seen.now.capacity < 2 ^ 32 }
    ensures { control.new ≡ option_map (λ c. C.ways.after_timeout c seen.now) control.old }
{
    if let Some(control) = control {
        control.on_timeout(seen);
    }
}
