// The end of a UDP port through which datagrams are said.

ghost use Rattle.std.specs.Prelude.{◌≡◌};

use crate::addresses::system_addr;
use std::net::UdpSocket;
use std::sync::Wait;
use udt_outside::{Addr, Failed, PortOut};

/// The end that says through a UDP socket. Its count of faults ends at 2^64 - 1.
#[derive(Drop)]
pub struct UdpOut {
    socket: UdpSocket,
    failed: u64,
}

impl UdpOut {
    /// An end over this socket that has said nothing.
    pub(crate) fn new(socket: UdpSocket) -> UdpOut
        ensures socket { result.socket ≡ socket }
        ensures failed { result.failed ≡ 0 }
    {
        UdpOut { socket, failed: 0 }
    }

    /// How many calls failed.
    pub(crate) fn failed(&self) -> u64
        ensures { result ≡ self.now.failed }
    {
        self.failed
    }
}

impl PortOut for UdpOut {
    ghost use Rattle.std.specs.Prelude.{◌≡◌, ◌≤◌, None, refl, OnErr, OnOk};
    ghost use Rattle.std.proofs.Common.{◌∙◌};
    ghost use Rattle.udt_adapters.specs.Counts.{one_more};

    ghost faults = { λ e. e.failed };

    ghost taken = { λ e. None };

    ghost is_same = { λ a b. b.socket ≡ a.socket };

    fn say<R: Wait + Copy + Send + Sync>(
        &mut self,
        _rt: &R,
        bytes: &[u8],
        to: Addr,
    ) -> Result<(), Failed>
        ensures faults_stay { self.old.failed ≤ self.new.failed }
        ensures faults_kept { OnOk result (self.new.failed ≡ self.old.failed) }
        ensures failed { OnErr result (self.new.failed ≡ one_more self.old.failed) }
        ensures same { self.new.socket ≡ self.old.socket }
    {
        match self.socket.send_to(bytes, system_addr(to)) {
            Ok(n) if n == bytes.len() => Ok(()),
            _ => {
                self.failed = self.failed.saturating_add(1);
                Err(Failed)
            }
        }
    }

    ghost same_refl = { λ e. refl };

    ghost same_trans = { λ a b c p q. q ∙ p };
}
