// What holds of the two controls over whole lists of calls. Each function does nothing: its clause
// is the law.
ghost use Rattle.std.specs.Prelude.{◌≡◌};
ghost use Rattle.udt_model.specs.Controls.{IsFixed, IsAdditive, RisesBetweenDecreases, DecreaseNeverRaises, LaterLossIsNew};

use crate::aimd::Aimd;
use crate::fixed::Fixed;
use udt_rate::Control;

/// Whatever it is told, `Fixed` answers the greatest window and its period.
pub fn fixed_is_fixed<const PERIOD: u64>()
    ensures { IsFixed ⟦<Fixed<PERIOD> as Control>⟧.ways PERIOD }
{}

/// Whatever it is told, `Aimd` answers what the additive control of the definitions does.
#[tactic(auto, using(crate::proofs::Lists::stays_additive))]
pub fn aimd_is_additive()
    ensures { IsAdditive ⟦<Aimd as Control>⟧.ways }
{}

/// Between two decreases the window of `Aimd` falls nowhere, and rises by at most what was
/// acknowledged there.
#[tactic(auto, using(crate::proofs::Lists::rises_between_decreases))]
pub fn aimd_rises_between_decreases()
    ensures { RisesBetweenDecreases }
{}

/// A decrease never makes the window of `Aimd` larger.
#[tactic(auto, using(crate::proofs::Lists::decrease_never_raises))]
pub fn aimd_never_rises_at_a_decrease()
    ensures { DecreaseNeverRaises }
{}

/// Of two decreases of `Aimd` by a NAK the later one's first loss is above every offset
/// sent at the earlier one.
#[tactic(auto, using(crate::proofs::Lists::later_loss_is_new))]
pub fn aimd_halves_once_a_flight()
    ensures { LaterLossIsNew }
{}
