// A turn that is left as it was found.
ghost use Rattle.std.specs.Prelude.{◌≡◌, ◌<◌, ◌≤◌};
ghost use Rattle.udt_turn.specs.History.{value_of};
ghost use Rattle.udt_turn.specs.Words.{IsPassOf, IsHeld, KeepsNames, found_by, view_of};
ghost use Rattle.udt_cell.specs.Entries.{tale_of_sockets, last_count};
ghost use Rattle.udt_cell.specs.Sharing.{FindsSpent, FindsUnspent};

use crate::boxed::BoxedSocket;
use udt_rate::Control;
use udt_turn::Held;

// Leaves the turn, where the socket takes no further event.
#[tactic(auto, using(crate::proofs::ItemLemmas::spent_is))]
pub(super) fn pass_by<C: Control>(held: Held<'_, BoxedSocket<C>>)
    requires held { IsHeld (tale_of_sockets C.ways) held }
    requires same { held.value ≡ value_of (tale_of_sockets C.ways) (found_by held) }
    requires spent { last_count ≤ held.value.count }
    ensures own { IsPassOf held.entry.turn.now held.exit.1.0.now }
    ensures names { KeepsNames (view_of held.entry.pass.now) (view_of held.exit.1.0.now) }
    ensures spent { FindsSpent C.ways held.entry.pass.now held.exit.1.0.now }
{
    held.leave();
}

// Leaves the turn, where the socket would take a further event, and nothing was done.
pub(super) fn give_up<C: Control>(held: Held<'_, BoxedSocket<C>>)
    requires held { IsHeld (tale_of_sockets C.ways) held }
    requires same { held.value ≡ value_of (tale_of_sockets C.ways) (found_by held) }
    requires few { held.value.count < last_count }
    ensures own { IsPassOf held.entry.turn.now held.exit.1.0.now }
    ensures names { KeepsNames (view_of held.entry.pass.now) (view_of held.exit.1.0.now) }
    ensures unspent { FindsUnspent C.ways held.entry.pass.now held.exit.1.0.now }
{
    held.leave();
}
