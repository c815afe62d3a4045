// Ports in memory.

use crate::failed::Failed;
use crate::memory::calls::Calls;
use crate::memory::port_in::ListIn;
use crate::memory::port_out::ListOut;
use crate::ports::Ports;
use std::marker::Model;
use udt_model::Family;

/// Ports that open once, and fail as a list says and where their ends were given already.
#[derive(Drop)]
pub struct ListPorts {
    ready: Option<(ListIn, ListOut)>,
    back: Option<(ListIn, ListOut)>,
    calls: Calls,
    refused: u64,
}

impl Model for ListPorts {
    ghost use Rattle.std.specs.Prelude.{IfSome};
    ghost use Rattle.udt_outside.specs.ListPorts.{Opening, AreFresh};

    ghost Value = { Opening };

    ghost view = { λ p. record {
      ready = p.ready;
      back = p.back;
      calls = p.calls;
      refused = p.refused;
    } };

    ghost invariant = { λ p. IfSome p.ready AreFresh };
}

impl ListPorts {
    ghost use Rattle.std.specs.Prelude.{◌≡◌, Some, None, IfSome, IsNone};
    ghost use Rattle.udt_outside.specs.ListPorts.{AreFresh, opening};

    /// Ports that give these ends, and whose openings with the numbers in `failing` fail. The first
    /// one is number 1.
    pub fn new(port_in: ListIn, port_out: ListOut, failing: Vec<u64>) -> ListPorts
        requires { AreFresh (port_in, port_out) }
        ensures { result ≡ opening (port_in, port_out) failing.items }
    {
        ListPorts {
            ready: Some((port_in, port_out)),
            back: None,
            calls: Calls::new(failing),
            refused: 0,
        }
    }

    /// The ends that were last taken back.
    pub fn back(&self) -> Option<&(ListIn, ListOut)>
        ensures some { IfSome result (λ ends. self.now.back ≡ Some ends.now) }
        ensures none { IsNone result → self.now.back ≡ None }
    {
        self.back.as_ref()
    }
}

impl Ports for ListPorts {
    ghost use Rattle.std.specs.Prelude.{◌≡◌, ◌≤◌, Some, None, is_err, OnErr, OnOk, IfOk, IsTrue};
    ghost use Rattle.udt_outside.specs.Faults.{Rose};
    ghost use Rattle.udt_outside.specs.Options.{HasNone};
    ghost use Rattle.udt_outside.specs.ListPorts.{Hearing, Saying, hear_faults, say_faults, given_by, taken_by, open_faults, in_faults_of, out_faults_of, given_back, taken_back, open_fails, after_opening, after_failing_to_open, after_closing};

    type In = ListIn;

    type Out = ListOut;

    ghost faults = { open_faults };

    ghost has_in = { λ p e. Unit {0} };

    ghost has_out = { λ p e. Unit {0} };

    ghost in_faults = { in_faults_of };

    ghost out_faults = { out_faults_of };

    ghost given = { given_back };

    ghost taken = { taken_back };

    fn open(&mut self, _port: u16, _family: Family) -> Result<(ListIn, ListOut), Failed>
        ensures faults_stay { open_faults self.old ≤ open_faults self.new }
        ensures faults_kept { OnOk result (open_faults self.new ≡ open_faults self.old) }
        ensures failed { OnErr result (Rose (open_faults self.old) (open_faults self.new)) }
        ensures ours_in { IfOk result (λ ends. Unit {0}) }
        ensures ours_out { IfOk result (λ ends. Unit {0}) }
        ensures no_faults_in { IfOk result (λ ends. hear_faults ends.0 ≡ 0) }
        ensures no_quiets { IfOk result (λ ends. ends.0.quiets ≡ 0) }
        ensures none_given { IfOk result (λ ends. HasNone (given_by ends.0)) }
        ensures no_faults_out { IfOk result (λ ends. say_faults ends.1 ≡ 0) }
        ensures none_taken { IfOk result (λ ends. HasNone (taken_by ends.1)) }
        ensures ins_kept { (e : Hearing) → Unit {0} → Unit {0} }
        ensures outs_kept { (e : Saying) → Unit {0} → Unit {0} }
        ensures fails { is_err result ≡ open_fails self.old }
        ensures value { IfOk result (λ ends. self.old.ready ≡ Some ends) }
        ensures next { OnOk result (self.new ≡ after_opening self.old) }
        ensures kept { OnErr result (self.new ≡ after_failing_to_open self.old) }
    {
        if self.calls.count() {
            return Err(Failed);
        }
        match self.ready.take() {
            Some(ends) => Ok(ends),
            None => {
                self.refused = self.refused.saturating_add(1);
                Err(Failed)
            }
        }
    }

    fn close(&mut self, port_in: ListIn, port_out: ListOut)
        ensures faults_kept { open_faults self.new ≡ open_faults self.old }
        ensures in_faults { in_faults_of self.new ≡ hear_faults port_in }
        ensures out_faults { out_faults_of self.new ≡ say_faults port_out }
        ensures given { given_back self.new ≡ given_by port_in }
        ensures taken { taken_back self.new ≡ taken_by port_out }
        ensures ins_kept { (e : Hearing) → Unit {0} → Unit {0} }
        ensures outs_kept { (e : Saying) → Unit {0} → Unit {0} }
        ensures next { self.new ≡ after_closing self.old (port_in, port_out) }
    {
        self.back = Some((port_in, port_out));
    }

    ghost in_stays = { λ p a b h s. tt };

    ghost out_stays = { λ p a b h s. tt };
}
