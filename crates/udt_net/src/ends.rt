// The ends of a network, each with a pass of its own.
ghost use Rattle.std.specs.Arc.{arc_value};
ghost use Rattle.udt_turn.specs.Words.{IsPassOf, opening_of};
ghost use Rattle.udt_net.specs.Networks.{IsSilent};

use crate::network::Net;
use crate::shared;
use crate::side::Side;
use std::sync::{Arc, Wait};
use udt_model::Addr;
use udt_outside::{Failed, Heard, PortIn, PortOut};
use udt_turn::{Pass, Turn};

/// The end of a network at which datagrams are heard.
#[derive(Drop)]
pub struct NetIn {
    pub(crate) turn: Arc<Turn<Net>>,
    pub(crate) pass: Pass<Net>,
    pub(crate) at: Side,
    pub(crate) faults: u64,
    pub(crate) quiets: u64,
    ghost own: { IsPassOf (arc_value turn) pass },
    ghost silent_first: { IsSilent (opening_of (arc_value turn)) },
}

/// The end of a network at which datagrams are said.
#[derive(Drop)]
pub struct NetOut {
    pub(crate) turn: Arc<Turn<Net>>,
    pub(crate) pass: Pass<Net>,
    pub(crate) at: Side,
    pub(crate) faults: u64,
    ghost own: { IsPassOf (arc_value turn) pass },
    ghost silent_first: { IsSilent (opening_of (arc_value turn)) },
}

impl NetIn {
    ghost use Rattle.std.specs.Prelude.{◌≡◌};

    // Takes the end apart, and keeps its pass.
    pub(crate) fn into_pass(self) -> Pass<Net>
        ensures { result ≡ self.pass }
    {
        let NetIn {
            turn: _,
            pass,
            at: _,
            faults: _,
            quiets: _,
        } = self;
        pass
    }
}

impl NetOut {
    ghost use Rattle.std.specs.Prelude.{◌≡◌};

    // Takes the end apart, and keeps its pass.
    pub(crate) fn into_pass(self) -> Pass<Net>
        ensures { result ≡ self.pass }
    {
        let NetOut {
            turn: _,
            pass,
            at: _,
            faults: _,
        } = self;
        pass
    }
}

impl PortIn for NetIn {
    ghost use Rattle.std.specs.Prelude.{◌≡◌, ◌≤◌, length, IfOk, OnOk, OnErr};
    ghost use Rattle.udt_outside.specs.Faults.{Rose};
    ghost use Rattle.udt_outside.specs.Ports.{Fits, Gave, QuietRose};
    ghost use Rattle.udt_net.specs.Calls.{HearsAs, FindsLast};
    ghost use Rattle.udt_net.specs.Ends.{in_side, in_given, SameIn, InSees, same_in_refl, same_in_trans};

    ghost faults = { λ e. e.faults };

    ghost quiets = { λ e. e.quiets };

    ghost given = { in_given };

    ghost is_same = { SameIn };

    #[tactic(auto, using(crate::proofs::Speeches::pass_hears_said, crate::proofs::Speeches::heard_at_more))]
    fn hear<R: Wait + Copy + Send + Sync>(
        &mut self,
        rt: &R,
        into: &mut [u8],
        _wait: u32,
    ) -> Result<Heard, Failed>
        requires { length into.old ≡ 65536 }
        ensures faults_stay { self.old.faults ≤ self.new.faults }
        ensures faults_kept { OnOk result (self.new.faults ≡ self.old.faults) }
        ensures failed { OnErr result (Rose self.old.faults self.new.faults) }
        ensures quiets_stay { self.old.quiets ≤ self.new.quiets }
        ensures quiet { IfOk result (λ heard. QuietRose heard self.old.quiets self.new.quiets) }
        ensures within { IfOk result (λ heard. Fits heard 65536) }
        ensures ok { IfOk result (λ heard. Gave heard (in_given self.old) (in_given self.new) into.new) }
        ensures err { OnErr result (in_given self.new ≡ in_given self.old) }
        ensures same { SameIn self.old self.new }
        ensures side { in_side self.new ≡ in_side self.old }
        ensures hears { IfOk result
            (λ heard. HearsAs (in_side self.old) heard into.new self.old.pass self.new.pass) }
        ensures last { OnErr result (FindsLast self.old.pass self.new.pass) }
        ensures said_before { InSees self.new }
    {
        match shared::hear(rt, &self.turn, &mut self.pass, self.at, into) {
            Ok(Heard::Datagram { len, from }) => Ok(Heard::Datagram { len, from }),
            Ok(Heard::Quiet) => {
                self.quiets = self.quiets.saturating_add(1);
                Ok(Heard::Quiet)
            }
            Err(Failed) => {
                self.faults = self.faults.saturating_add(1);
                Err(Failed)
            }
        }
    }

    ghost same_refl = { same_in_refl };

    ghost same_trans = { same_in_trans };
}

impl PortOut for NetOut {
    ghost use Rattle.std.specs.Prelude.{◌≡◌, ◌≤◌, OnOk, OnErr};
    ghost use Rattle.udt_turn.specs.Words.{Adds};
    ghost use Rattle.udt_outside.specs.Faults.{Rose};
    ghost use Rattle.udt_outside.specs.Ports.{Took};
    ghost use Rattle.udt_net.specs.Networks.{Said, tale_of_nets};
    ghost use Rattle.udt_net.specs.Calls.{FindsLast};
    ghost use Rattle.udt_net.specs.Ends.{out_side, out_taken, SameOut, OutSees, same_out_refl, same_out_trans};

    ghost faults = { λ e. e.faults };

    ghost taken = { out_taken };

    ghost is_same = { SameOut };

    #[tactic(auto, using(crate::proofs::Speeches::pass_hears_said, crate::proofs::Speeches::said_from_more))]
    fn say<R: Wait + Copy + Send + Sync>(
        &mut self,
        rt: &R,
        bytes: &[u8],
        to: Addr,
    ) -> Result<(), Failed>
        ensures faults_stay { self.old.faults ≤ self.new.faults }
        ensures faults_kept { OnOk result (self.new.faults ≡ self.old.faults) }
        ensures failed { OnErr result (Rose self.old.faults self.new.faults) }
        ensures ok { OnOk result (Took (out_taken self.old) (out_taken self.new) bytes.now to) }
        ensures err { OnErr result (out_taken self.new ≡ out_taken self.old) }
        ensures same { SameOut self.old self.new }
        ensures side { out_side self.new ≡ out_side self.old }
        ensures says { OnOk result
            (Adds tale_of_nets (Said (out_side self.old) to bytes.now) self.old.pass self.new.pass) }
        ensures last { OnErr result (FindsLast self.old.pass self.new.pass) }
        ensures said_before { OutSees self.new }
    {
        match shared::say(rt, &self.turn, &mut self.pass, self.at, bytes, to) {
            Ok(()) => Ok(()),
            Err(Failed) => {
                self.faults = self.faults.saturating_add(1);
                Err(Failed)
            }
        }
    }

    ghost same_refl = { same_out_refl };

    ghost same_trans = { same_out_trans };
}
