// The end of a port in memory that hears a list of datagrams.

ghost use Rattle.std.specs.Prelude.{◌≡◌, ◌≤◌, length, take};
ghost use Rattle.udt_outside.specs.ListPorts.{told};

use crate::failed::Failed;
use crate::memory::calls::Calls;
use crate::memory::datagram::ListDatagram;
use crate::ports::{Heard, PortIn};
use std::marker::Model;
use std::sync::Wait;

/// The end that hears the datagrams of a list, one a call.
#[derive(Drop)]
pub struct ListIn {
    stated: Vec<ListDatagram>,
    at: usize,
    calls: Calls,
    quiets: u64,
}

impl Model for ListIn {
    ghost use Rattle.std.specs.Prelude.{◌≤◌, vec_len};
    ghost use Rattle.udt_outside.specs.ListPorts.{Hearing};

    ghost Value = { Hearing };

    ghost view = { λ e. record {
      stated = e.stated.items;
      at = e.at;
      calls = e.calls;
      quiets = e.quiets;
    } };

    ghost invariant = { λ e. e.at ≤ vec_len e.stated };
}

impl ListIn {
    ghost use Rattle.std.specs.Prelude.{◌≡◌};
    ghost use Rattle.udt_outside.specs.ListPorts.{fresh_in};

    /// An end that hears these datagrams, and whose calls with the numbers in `failing` fail. The
    /// first call is number 1.
    pub fn new(stated: Vec<ListDatagram>, failing: Vec<u64>) -> ListIn
        ensures { result ≡ fresh_in stated.items failing.items }
    {
        ListIn {
            stated,
            at: 0,
            calls: Calls::new(failing),
            quiets: 0,
        }
    }
}

impl PortIn for ListIn {
    ghost use Rattle.std.specs.Prelude.{◌≡◌, ◌≤◌, length, refl, is_err, OnErr, OnOk, IfOk};
    ghost use Rattle.std.proofs.Common.{◌∙◌};
    ghost use Rattle.udt_outside.specs.Faults.{Rose};
    ghost use Rattle.udt_outside.specs.Ports.{Fits, Gave, QuietRose};
    ghost use Rattle.udt_outside.specs.Calls.{fails_next, failed_of};
    ghost use Rattle.udt_outside.specs.ListPorts.{hear_faults, given_by, heard_of, after_hearing};

    ghost faults = { hear_faults };

    ghost quiets = { λ e. e.quiets };

    ghost given = { given_by };

    ghost is_same = { λ a b. b.stated ≡ a.stated };

    fn hear<R: Wait + Copy + Send + Sync>(
        &mut self,
        _rt: &R,
        into: &mut [u8],
        _wait: u32,
    ) -> Result<Heard, Failed>
        requires { length into.old ≡ 65536 }
        ensures faults_stay { hear_faults self.old ≤ hear_faults self.new }
        ensures faults_kept { OnOk result (hear_faults self.new ≡ hear_faults self.old) }
        ensures failed { OnErr result (Rose (hear_faults self.old) (hear_faults self.new)) }
        ensures quiets_stay { self.old.quiets ≤ self.new.quiets }
        ensures quiet { IfOk result (λ heard. QuietRose heard self.old.quiets self.new.quiets) }
        ensures within { IfOk result (λ heard. Fits heard 65536) }
        ensures ok { IfOk result (λ heard. Gave heard (given_by self.old) (given_by self.new) into.new) }
        ensures err { OnErr result (given_by self.new ≡ given_by self.old) }
        ensures same { self.new.stated ≡ self.old.stated }
        ensures fails_by_list { is_err result ≡ fails_next self.old.calls }
        ensures value { IfOk result (λ heard. heard ≡ heard_of self.old) }
        ensures next { self.new ≡ after_hearing self.old }
    {
        if self.calls.count() {
            return Err(Failed);
        }
        match self.stated.get(self.at) {
            Some(datagram) => {
                let heard = give(datagram, into);
                self.at += 1;
                Ok(heard)
            }
            None => {
                self.quiets = self.quiets.saturating_add(1);
                Ok(Heard::Quiet)
            }
        }
    }

    ghost same_refl = { λ e. refl };

    ghost same_trans = { λ a b c p q. q ∙ p };
}

fn give(datagram: &ListDatagram, into: &mut [u8]) -> Heard
    requires { length into.old ≡ 65536 }
    ensures value { result ≡ told datagram.now }
    ensures bytes { take (length datagram.now.bytes) into.new ≡ datagram.now.bytes }
    ensures within { length datagram.now.bytes ≤ 65536 }
{
    let bytes = datagram.bytes();
    let len = bytes.len();
    into[..len].copy_from_slice(bytes);
    Heard::Datagram {
        len,
        from: datagram.addr(),
    }
}
