// The network as something that opens ports.
ghost use Rattle.std.specs.Option.{ForSome};
ghost use Rattle.std.specs.Arc.{arc_value};
ghost use Rattle.udt_turn.specs.Words.{IsPassOf, opening_of};
ghost use Rattle.udt_net.specs.Networks.{IsSilent};
ghost use Rattle.udt_net.specs.Ends.{AreFresh};
ghost use Rattle.udt_net.specs.declared.side.Side.TheVariants.{First, Second};

use crate::ends::{NetIn, NetOut};
use crate::network::Net;
use std::snapshot::Snapshot;
use std::sync::Arc;
use udt_turn::{Pass, Turn};

/// A network in memory with two ends, which threads share.
#[derive(Drop)]
pub struct MemoryNet {
    pub(crate) turn: Arc<Turn<Net>>,
    pub(crate) pass: Pass<Net>,
    // The ends that were not opened yet.
    pub(crate) first: Option<(NetIn, NetOut)>,
    pub(crate) second: Option<(NetIn, NetOut)>,
    pub(crate) refused: u64,
    // The ends that were last taken back.
    pub(crate) last_in: Snapshot<NetIn>,
    pub(crate) last_out: Snapshot<NetOut>,
    ghost own: { IsPassOf (arc_value turn) pass },
    ghost silent_first: { IsSilent (opening_of (arc_value turn)) },
    ghost first_fresh: { ForSome first (AreFresh First (arc_value turn)) },
    ghost second_fresh: { ForSome second (AreFresh Second (arc_value turn)) },
}
