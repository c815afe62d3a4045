// What is done under the rate control that a command names.

ghost use Rattle.std.specs.Prelude.{◌≡◌, ◌≤◌, ◌<◌, length, false, IfOk, OnErr};
ghost use Rattle.udt_model.specs.declared.limits.TheConstants.{LONGEST_SCRIPT};
ghost use Rattle.udt_model.specs.Script.{played};
ghost use Rattle.udt_tool.specs.Commands.{generated_by};
ghost use Rattle.udt_tool.specs.Plays.{played_of};
ghost use Rattle.udt_words.specs.declared.limits.TheConstants.{MOST_WORLD_TURNS};

use crate::play::{Output, play};
use std::alloc::Global;
use udt_controls::{Aimd, Fixed};
use udt_model::{ControlName, FIXED_PERIOD, Summary};
use udt_outside::OutOfMemory;
use udt_rate::Native;
use udt_world::generate;

/// Plays a script.
#[tactic(auto, unfolding(udt_model::specs::Script::played))]
pub fn play_under(alloc: Global, control: ControlName, script: &[u8]) -> Result<Output, OutOfMemory>
    ensures value { IfOk result (λ output. played_of output ≡ played control script.now) }
    ensures fits { IfOk result
        (λ output. output.refused ≡ false → length script.now ≤ LONGEST_SCRIPT) }
    ensures memory { OnErr result (0 < length script.now) }
{
    match control {
        ControlName::Native => play::<Native>(alloc, script),
        ControlName::Fixed => play::<Fixed<FIXED_PERIOD>>(alloc, script),
        ControlName::Aimd => play::<Aimd>(alloc, script),
    }
}

/// Generates the run of this number and of so many turns, and tells what became of it.
#[tactic(auto, unfolding(crate::specs::Commands::generated_by))]
pub fn generate_under(
    alloc: Global,
    control: ControlName,
    n: u64,
    turns: u64,
) -> Result<Summary, udt_world::OutOfMemory>
    requires { turns ≤ MOST_WORLD_TURNS }
    ensures { IfOk result (λ summary. summary ≡ generated_by control n turns) }
{
    match control {
        ControlName::Native => generate::<Native>(alloc, n, turns),
        ControlName::Fixed => generate::<Fixed<FIXED_PERIOD>>(alloc, n, turns),
        ControlName::Aimd => generate::<Aimd>(alloc, n, turns),
    }
}
