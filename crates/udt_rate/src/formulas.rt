// The two formulas by which the native control goes faster, and the steps of them that it shares.
ghost use Rattle.std.specs.Prelude.{◌≡◌, ℕ, ◌+◌, ◌-◌, ◌*◌, ◌/◌, ◌^◌, ◌<◌, ◌≤◌, max, min};
ghost use Rattle.udt_model.specs.Rate.{increase_of, shorter_of, least_increase, speed_at, power_of_ten};

use crate::constants::{SECOND_NANOS, SYN_NANO_MILLIONTHS};

/// By how much the packets of one SYN increase, in millionths of a packet, for a link of this
/// capacity in packets a second, a sending period in nanoseconds and packets of this many bytes.
pub fn increase(capacity: u64, period: u64, packet: u32) -> u64
    requires period { 1 ≤ period }
    requires packet { 1 ≤ packet }
    requires capacity { capacity < 2 ^ 32 }
    ensures value { result ≡ increase_of capacity period packet }
    ensures least { least_increase packet ≤ result }
    // For each packet a second to spare it is at least 12 millionths; and it is at most 120, or the
    // least increase where that is more.
    ensures spare_most { result ≤ max (120 * (capacity - speed_at period)) (least_increase packet) }
    ensures spare_least { 12 * (capacity - speed_at period) ≤ result }
    ensures none_spare { capacity ≤ speed_at period → result ≡ least_increase packet }
{
    let speed = SECOND_NANOS / period;
    let least = 1_000_000 / u64::from(packet);
    if capacity <= speed {
        return least;
    }
    brought(capacity - speed, packet).max(least)
}

/// The period at which one SYN has this many millionths of a packet more, in nanoseconds.
pub fn shorter(period: u64, inc: u64) -> u64
    ensures value { result ≡ shorter_of period inc }
    ensures least { 1 ≤ result }
    ensures no_longer { 1 ≤ period → result ≤ period }
    ensures same { 1 ≤ period → inc ≡ 0 → result ≡ period }
{
    let whole = u128::from(period) * SYN_NANO_MILLIONTHS;
    let parts = u128::from(period) * u128::from(inc) + SYN_NANO_MILLIONTHS;
    let shorter = (whole / parts) as u64;
    shorter.max(1)
}

/// The increase for this many packets a second to spare, in millionths of a packet: three halves of the
/// least power of ten that reaches their bits, divided by the bytes of a packet.
fn brought(spare: u64, packet: u32) -> u64
    requires some { 1 ≤ spare }
    requires small { spare < 2 ^ 32 }
    requires packet { 1 ≤ packet }
    ensures value { result ≡ 3 * power_of_ten (spare * packet * 8) / (2 * packet) }
    ensures most { result ≤ 120 * spare }
    ensures least { 12 * spare ≤ result }
{
    let bits = u128::from(spare) * u128::from(packet) * 8;
    let grown = 3 * least_power(bits) / (2 * u128::from(packet));
    grown as u64
}

/// The least power of ten that is at least the number.
fn least_power(need: u128) -> u128
    requires { need ≤ 10 ^ 37 }
    ensures value { result ≡ power_of_ten need }
    ensures near { 1 ≤ need → result < 10 * need }
{
    let mut power: u128 = 1;
    while power < need {
        power *= 10;
    }
    power
}
