// Where datagrams come from and go to.

use crate::failed::Failed;
use std::sync::Wait;
use udt_model::{Addr, Family};

/// What a port heard.
#[derive(Clone, Copy, Debug, PartialEq, Eq)]
pub enum Heard {
    /// A datagram of `len` bytes, from this sender.
    Datagram { len: usize, from: Addr },
    /// None came in time.
    Quiet,
}

/// The end of a port at which datagrams are heard.
pub trait PortIn {
    ghost use Rattle.std.specs.Prelude.{◌≡◌, ℕ, ◌≤◌, List, Option, length, OnErr, OnOk, IfOk};
    ghost use Rattle.udt_model.specs.State.{Datagram};
    ghost use Rattle.udt_outside.specs.Faults.{Rose};
    ghost use Rattle.udt_outside.specs.Ports.{Fits, Gave, QuietRose};

    ghost faults: { Self → ℕ };

    // how many answers were Quiet
    ghost quiets: { Self → ℕ };

    // the datagrams that it gave, each with its sender
    ghost given: { Self → Option (List Datagram) };

    // the second is an end of the same port as the first
    ghost is_same: { Self → Self → Type 0 };

    /// Waits at most `wait` microseconds for a datagram, which is the first `len` bytes of `into`.
    fn hear<R: Wait + Copy + Send + Sync>(
        &mut self,
        rt: &R,
        into: &mut [u8],
        wait: u32,
    ) -> Result<Heard, Failed>
        requires { length into.old ≡ 65536 }
        ensures faults_stay { faults self.old ≤ faults self.new }
        ensures faults_kept { OnOk result (faults self.new ≡ faults self.old) }
        ensures failed { OnErr result (Rose (faults self.old) (faults self.new)) }
        ensures quiets_stay { quiets self.old ≤ quiets self.new }
        ensures quiet { IfOk result (λ heard. QuietRose heard (quiets self.old) (quiets self.new)) }
        ensures within { IfOk result (λ heard. Fits heard 65536) }
        ensures ok { IfOk result (λ heard. Gave heard (given self.old) (given self.new) into.new) }
        ensures err { OnErr result (given self.new ≡ given self.old) }
        ensures same { is_same self.old self.new };

    ghost same_refl: { (e : Self) → is_same e e };

    ghost same_trans: { (a b c : Self) → is_same a b → is_same b c → is_same a c };
}

/// The end of a port through which datagrams are said.
pub trait PortOut {
    ghost use Rattle.std.specs.Prelude.{◌≡◌, ℕ, ◌≤◌, List, Option, OnErr, OnOk};
    ghost use Rattle.udt_model.specs.State.{Datagram};
    ghost use Rattle.udt_outside.specs.Faults.{Rose};
    ghost use Rattle.udt_outside.specs.Ports.{Took};

    ghost faults: { Self → ℕ };

    // the datagrams that it took, each with its receiver
    ghost taken: { Self → Option (List Datagram) };

    // the second is an end of the same port as the first
    ghost is_same: { Self → Self → Type 0 };

    /// Sends a datagram. One whose call failed is lost.
    fn say<R: Wait + Copy + Send + Sync>(
        &mut self,
        rt: &R,
        bytes: &[u8],
        to: Addr,
    ) -> Result<(), Failed>
        ensures faults_stay { faults self.old ≤ faults self.new }
        ensures faults_kept { OnOk result (faults self.new ≡ faults self.old) }
        ensures failed { OnErr result (Rose (faults self.old) (faults self.new)) }
        ensures ok { OnOk result (Took (taken self.old) (taken self.new) bytes.now to) }
        ensures err { OnErr result (taken self.new ≡ taken self.old) }
        ensures same { is_same self.old self.new };

    ghost same_refl: { (e : Self) → is_same e e };

    ghost same_trans: { (a b c : Self) → is_same a b → is_same b c → is_same a c };
}

/// What opens ports, and takes their ends back.
pub trait Ports {
    ghost use Rattle.std.specs.Prelude.{◌≡◌, ℕ, ◌≤◌, List, Option, OnErr, OnOk, IfOk};
    ghost use Rattle.udt_model.specs.State.{Datagram};
    ghost use Rattle.udt_outside.specs.Faults.{Rose};
    ghost use Rattle.udt_outside.specs.Options.{HasNone};

    type In: PortIn;

    type Out: PortOut;

    // how many openings failed
    ghost faults: { Self → ℕ };

    // the end is of these ports
    ghost has_in: { Self → Self.In → Type 0 };

    ghost has_out: { Self → Self.Out → Type 0 };

    // of the ends that were last taken back: the faults of each, and what they gave and took
    ghost in_faults: { Self → ℕ };

    ghost out_faults: { Self → ℕ };

    ghost given: { Self → Option (List Datagram) };

    ghost taken: { Self → Option (List Datagram) };

    /// Opens a UDP port, 0 for any that is free.
    fn open(&mut self, port: u16, family: Family) -> Result<(Self::In, Self::Out), Failed>
        ensures faults_stay { faults self.old ≤ faults self.new }
        ensures faults_kept { OnOk result (faults self.new ≡ faults self.old) }
        ensures failed { OnErr result (Rose (faults self.old) (faults self.new)) }
        ensures ours_in { IfOk result (λ ends. has_in self.new ends.0) }
        ensures ours_out { IfOk result (λ ends. has_out self.new ends.1) }
        ensures no_faults_in { IfOk result (λ ends. Self.In.faults ends.0 ≡ 0) }
        ensures no_quiets { IfOk result (λ ends. Self.In.quiets ends.0 ≡ 0) }
        ensures none_given { IfOk result (λ ends. HasNone (Self.In.given ends.0)) }
        ensures no_faults_out { IfOk result (λ ends. Self.Out.faults ends.1 ≡ 0) }
        ensures none_taken { IfOk result (λ ends. HasNone (Self.Out.taken ends.1)) }
        ensures ins_kept { (e : Self.In) → has_in self.old e → has_in self.new e }
        ensures outs_kept { (e : Self.Out) → has_out self.old e → has_out self.new e };

    /// Takes both ends of a port back.
    fn close(&mut self, port_in: Self::In, port_out: Self::Out)
        requires ours_in { has_in self.old port_in }
        requires ours_out { has_out self.old port_out }
        ensures faults_kept { faults self.new ≡ faults self.old }
        ensures in_faults { in_faults self.new ≡ Self.In.faults port_in }
        ensures out_faults { out_faults self.new ≡ Self.Out.faults port_out }
        ensures given { given self.new ≡ Self.In.given port_in }
        ensures taken { taken self.new ≡ Self.Out.taken port_out }
        ensures ins_kept { (e : Self.In) → has_in self.old e → has_in self.new e }
        ensures outs_kept { (e : Self.Out) → has_out self.old e → has_out self.new e };

    // an end stays of these ports while it hears or says
    ghost in_stays: { (p : Self) (a b : Self.In) → has_in p a → Self.In.is_same a b → has_in p b };

    ghost out_stays: { (p : Self) (a b : Self.Out) → has_out p a → Self.Out.is_same a b → has_out p b };
}
