// What holds of all that passes see.
ghost use Rattle.std.specs.Prelude.{◌≡◌};
ghost use Rattle.udt_model.specs.History as model;
ghost use Rattle.udt_turn.specs.Kinds.{IsSound};
ghost use Rattle.udt_turn.specs.Words.{view_of};
ghost use Rattle.udt_cell.specs.Entries.{tale_of_sockets};
ghost use Rattle.udt_cell.specs.Histories.{seen_by};
ghost use Rattle.udt_cell.specs.Headline.{SeenInStep, SeenMessages};
ghost use Rattle.udt_cell.specs.Sharing.{state_of};

use crate::shared::SocketPass;
use udt_rate::Control;

/// What a pass has seen is a legal history of the protocol, so that each law of legal histories
/// speaks of it, and the state to which it leads is the one that the pass has seen.
#[tactic(auto, using(crate::proofs::LegalLemmas::legal_items, crate::proofs::LegalLemmas::same_state))]
pub fn seen_is_legal<C: Control>(pass: &SocketPass<C>)
    requires { IsSound (tale_of_sockets C.ways) (view_of pass.now) }
    ensures legal { model.IsLegal C.ways (seen_by pass.now) }
    ensures state { model.state_of C.ways (seen_by pass.now) ≡ state_of C.ways pass.now }
{
    let _ = pass;
}

/// Where records are lawful that hold what both passes have seen as the histories of their sockets, no
/// datagram is forged and none outlives 2^30 packets, what a shared stream socket has delivered is a prefix
/// of what its own peer has accepted, and no more blocks are acknowledged than have arrived there.
pub fn prefix<C: Control>(own: &SocketPass<C>, other: &SocketPass<C>)
    ensures { SeenInStep C.ways (seen_by own.now) (seen_by other.now) }
{
    let _ = own;
    let _ = other;
    udt_laws::prefix::<C>();
}

/// Where records are lawful that hold what both passes have seen as the histories of their sockets, no
/// datagram is forged and none outlives 2^30 packets, each message that a shared message socket has shown is
/// one that its own peer was asked to send: whole, at most once, and in order where it must be.
pub fn messages<C: Control>(own: &SocketPass<C>, other: &SocketPass<C>)
    ensures { SeenMessages C.ways (seen_by own.now) (seen_by other.now) }
{
    let _ = own;
    let _ = other;
    udt_laws::messages::<C>();
}
