// Making a network, opening its ends and taking them back.
ghost use Rattle.std.specs.Prelude.{◌≡◌, ◌++◌, [], ◌∷◌, IfOk, OnOk, OnErr};
ghost use Rattle.std.specs.Arc.{arc_value};
ghost use Rattle.udt_turn.specs.Words.{IsPassOf, opening_of, seen_of};
ghost use Rattle.udt_net.specs.declared.side.Side.TheVariants.{First, Second};
ghost use Rattle.udt_net.specs.Networks.{IsSilent, silent};
ghost use Rattle.udt_net.specs.Ends.{AreFresh};

use crate::ends::{NetIn, NetOut};
use crate::memory_net::MemoryNet;
use crate::network::Net;
use crate::side::Side;
use std::alloc::Global;
use std::snapshot::Snapshot;
use std::sync::Arc;
use udt_model::Family;
use udt_outside::{Failed, Ports};
use udt_turn::{Pass, Turn};

/// There was no memory for a network.
#[derive(Debug, Drop)]
pub struct OutOfMemory;

impl MemoryNet {
    ghost use Rattle.udt_net.specs.MemoryNets.{NothingSaid, sides_left};

    /// A network with both ends unopened, whose draws start from `n`. It takes all its memory here.
    pub fn make(alloc: Global, n: u64) -> Result<MemoryNet, OutOfMemory>
        ensures silent { IfOk result (λ net. NothingSaid n net) }
        ensures left { IfOk result (λ net. sides_left net ≡ First ∷ Second ∷ []) }
    {
        let Ok(net) = Net::new(alloc, n) else {
            return Err(OutOfMemory);
        };
        let Ok((turn, mut pass)) = Turn::make(alloc, net) else {
            return Err(OutOfMemory);
        };
        let Ok(turn) = Arc::new(alloc, turn) else {
            return Err(OutOfMemory);
        };
        let first = ends_at(&turn, &mut pass, Side::First)?;
        let second = ends_at(&turn, &mut pass, Side::Second)?;
        let last_in = Snapshot::of(&first.0);
        let last_out = Snapshot::of(&first.1);
        Ok(MemoryNet {
            turn,
            pass,
            first: Some(first),
            second: Some(second),
            refused: 0,
            last_in,
            last_out,
        })
    }
}

// Both ends at an address, with passes that have seen nothing.
fn ends_at(
    turn: &Arc<Turn<Net>>,
    pass: &mut Pass<Net>,
    at: Side,
) -> Result<(NetIn, NetOut), OutOfMemory>
    requires own { IsPassOf (arc_value turn.now) pass.old }
    requires silent { IsSilent (opening_of (arc_value turn.now)) }
    requires none { (seen_of pass.old).items ≡ [] }
    ensures own { IsPassOf (arc_value turn.now) pass.new }
    ensures seen { seen_of pass.new ≡ seen_of pass.old }
    ensures ends { IfOk result (AreFresh at (arc_value turn.now)) }
{
    let port_in = NetIn {
        turn: another(turn)?,
        pass: split_off(turn, pass)?,
        at,
        faults: 0,
        quiets: 0,
    };
    let port_out = NetOut {
        turn: another(turn)?,
        pass: split_off(turn, pass)?,
        at,
        faults: 0,
    };
    Ok((port_in, port_out))
}

fn another(turn: &Arc<Turn<Net>>) -> Result<Arc<Turn<Net>>, OutOfMemory>
    ensures { IfOk result (λ other. arc_value other ≡ arc_value turn.now) }
{
    match Arc::try_clone(turn) {
        Ok(other) => Ok(other),
        Err(_) => Err(OutOfMemory),
    }
}

fn split_off(turn: &Turn<Net>, pass: &mut Pass<Net>) -> Result<Pass<Net>, OutOfMemory>
    requires { IsPassOf turn.now pass.old }
    ensures own { IsPassOf turn.now pass.new }
    ensures seen { seen_of pass.new ≡ seen_of pass.old }
    ensures new { IfOk result (λ p. IsPassOf turn.now p) }
    ensures new_seen { IfOk result (λ p. seen_of p ≡ seen_of pass.old) }
{
    match turn.split(pass) {
        Ok(new) => Ok(new),
        Err(_) => Err(OutOfMemory),
    }
}
