// What holds of controls over whole lists of calls. Each function does nothing: its clause is the
// law.
ghost use Rattle.std.specs.Prelude.{◌≡◌};
ghost use Rattle.udt_model.specs.Rate.{native, StaysInBounds, NativeIsPaced, PowerIsLeast, LossNeverSpeedsUp, AckNeverLengthensPeriod, SlowStartNeverShrinks, OneDecreaseAFlight};

use crate::control::Control;
use crate::native::Native;

/// After every list of allowed calls, begun at a packet of at least one byte, a control lets two
/// packets be in flight and sends one a second.
pub fn every_control_stays_in_bounds<C: Control>()
    ensures { StaysInBounds C.ways }
{}

/// The native control is the one of the definitions.
pub fn native_is_native()
    ensures { ⟦<Native as Control>⟧.ways ≡ native }
{}

/// After every list of allowed calls, begun at a packet of at least one byte, the window of the
/// native control is from the first to the greatest one. In slow
/// start it has no period, and afterwards one from a nanosecond to a second.
#[tactic(auto, using(crate::specs::PacedStates::native_is_paced))]
pub fn native_is_paced()
    ensures { NativeIsPaced }
{}

/// An increase takes the least power of ten that reaches the bits to spare.
#[tactic(auto, using(crate::proofs::Powers::power_is_least))]
pub fn power_is_least()
    ensures { PowerIsLeast }
{}

/// A NAK or a timeout never makes the sender faster: no larger window, no shorter period.
#[tactic(auto, using(crate::proofs::Speed::loss_never_speeds_up))]
pub fn loss_never_speeds_up()
    ensures { LossNeverSpeedsUp }
{}

/// After slow start an ACK never makes the period longer.
#[tactic(auto, using(crate::proofs::Speed::ack_never_lengthens_period))]
pub fn ack_never_lengthens_period()
    ensures { AckNeverLengthensPeriod }
{}

/// While slow start lasts, nothing takes from the window.
#[tactic(auto, using(crate::proofs::Speed::slow_start_never_shrinks))]
pub fn slow_start_never_shrinks()
    ensures { SlowStartNeverShrinks }
{}

/// Of two decreases the later one answers a loss among the packets sent after the earlier one.
#[tactic(auto, using(crate::proofs::Speed::one_decrease_a_flight))]
pub fn one_decrease_a_flight()
    ensures { OneDecreaseAFlight }
{}
