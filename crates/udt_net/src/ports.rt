// A network gives its ends as ports, and takes them back.

use crate::ends::{NetIn, NetOut};
use crate::memory_net::MemoryNet;
use std::snapshot::Snapshot;
use udt_model::Family;
use udt_outside::{Failed, Ports};

impl MemoryNet {
    ghost use Rattle.std.specs.Prelude.{◌≡◌, ◌∷◌, [], IfSome, IfNone};
    ghost use Rattle.std.specs.Arc.{arc_value};
    ghost use Rattle.udt_net.specs.Ends.{AreFresh, in_side};
    ghost use Rattle.udt_net.specs.MemoryNets.{sides_left, IsSameNet};

    // Takes the ends that are opened next.
    fn next_ends(&mut self) -> Option<(NetIn, NetOut)>
        ensures fresh { IfSome result (λ ends. AreFresh (in_side ends.0) (arc_value self.new.turn) ends) }
        ensures some { IfSome result (λ ends. sides_left self.old ≡ in_side ends.0 ∷ sides_left self.new) }
        ensures none { IfNone result (sides_left self.old ≡ []) }
        ensures left { IfNone result (sides_left self.new ≡ []) }
        ensures same { IsSameNet self.old self.new }
    {
        match self.first.take() {
            Some(ends) => Some(ends),
            None => self.second.take(),
        }
    }
}

impl Ports for MemoryNet {
    ghost use Rattle.std.specs.Prelude.{◌≡◌, ◌≤◌, ◌∷◌, [], OnErr, OnOk, IfOk};
    ghost use Rattle.udt_outside.specs.Faults.{Rose};
    ghost use Rattle.udt_outside.specs.Options.{HasNone};
    ghost use Rattle.udt_net.specs.Ends.{in_side, out_side, in_given, out_taken, InSees, OutSees};
    ghost use Rattle.udt_net.specs.MemoryNets.{sides_left, HasIn, HasOut, NetSees, AreJoinedBy, last_given, last_taken};
    ghost use Rattle.udt_net.specs.MemoryNets.{in_stays, out_stays};

    type In = NetIn;

    type Out = NetOut;

    ghost faults = { λ net. net.refused };

    ghost has_in = { HasIn };

    ghost has_out = { HasOut };

    ghost in_faults = { λ net. net.last_in.value.faults };

    ghost out_faults = { λ net. net.last_out.value.faults };

    ghost given = { last_given };

    ghost taken = { last_taken };

    #[tactic(auto, using(crate::proofs::Speeches::none_heard))]
    fn open(&mut self, _port: u16, _family: Family) -> Result<(NetIn, NetOut), Failed>
        ensures faults_stay { self.old.refused ≤ self.new.refused }
        ensures faults_kept { OnOk result (self.new.refused ≡ self.old.refused) }
        ensures failed { OnErr result (Rose self.old.refused self.new.refused) }
        ensures ours_in { IfOk result (λ ends. HasIn self.new ends.0) }
        ensures ours_out { IfOk result (λ ends. HasOut self.new ends.1) }
        ensures no_faults_in { IfOk result (λ ends. ends.0.faults ≡ 0) }
        ensures no_quiets { IfOk result (λ ends. ends.0.quiets ≡ 0) }
        ensures none_given { IfOk result (λ ends. HasNone (in_given ends.0)) }
        ensures no_faults_out { IfOk result (λ ends. ends.1.faults ≡ 0) }
        ensures none_taken { IfOk result (λ ends. HasNone (out_taken ends.1)) }
        ensures ins_kept { (e : NetIn) → HasIn self.old e → HasIn self.new e }
        ensures outs_kept { (e : NetOut) → HasOut self.old e → HasOut self.new e }
        ensures next { IfOk result (λ ends. sides_left self.old ≡ in_side ends.0 ∷ sides_left self.new) }
        ensures same_side { IfOk result (λ ends. out_side ends.1 ≡ in_side ends.0) }
        ensures refused_only_when_none_is_left { OnErr result (sides_left self.old ≡ []) }
        ensures none_left { OnErr result (sides_left self.new ≡ []) }
        ensures in_said_before { IfOk result (λ ends. InSees ends.0) }
        ensures out_said_before { IfOk result (λ ends. OutSees ends.1) }
        ensures pass { self.new.pass ≡ self.old.pass }
    {
        match self.next_ends() {
            Some(ends) => Ok(ends),
            None => {
                self.refused = self.refused.saturating_add(1);
                Err(Failed)
            }
        }
    }

    fn close(&mut self, port_in: NetIn, port_out: NetOut)
        requires ours_in { HasIn self.old port_in }
        requires ours_out { HasOut self.old port_out }
        ensures faults_kept { self.new.refused ≡ self.old.refused }
        ensures in_faults { self.new.last_in.value.faults ≡ port_in.faults }
        ensures out_faults { self.new.last_out.value.faults ≡ port_out.faults }
        ensures given { last_given self.new ≡ in_given port_in }
        ensures taken { last_taken self.new ≡ out_taken port_out }
        ensures ins_kept { (e : NetIn) → HasIn self.old e → HasIn self.new e }
        ensures outs_kept { (e : NetOut) → HasOut self.old e → HasOut self.new e }
        ensures left { sides_left self.new ≡ sides_left self.old }
        ensures joins { AreJoinedBy port_in.pass port_out.pass self.old.pass self.new.pass }
        ensures said_before { NetSees self.new }
    {
        self.last_in = Snapshot::of(&port_in);
        self.last_out = Snapshot::of(&port_out);
        self.turn.join(port_in.into_pass(), &mut self.pass);
        self.turn.join(port_out.into_pass(), &mut self.pass);
    }

    ghost in_stays = { in_stays };

    ghost out_stays = { out_stays };
}
