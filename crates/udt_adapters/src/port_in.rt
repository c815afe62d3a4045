// The end of a UDP port at which datagrams are heard.

ghost use Rattle.std.specs.Prelude.{◌≡◌, ◌≤◌, length, IfOk};

use crate::addresses::addr_of;
use std::io;
use std::io::ErrorKind;
use std::net::{SocketAddr, UdpSocket};
use std::sync::Wait;
use std::time::Duration;
use udt_outside::{Failed, Heard, PortIn};

/// The end that hears at a UDP socket. Its counts of faults and of quiet answers end at 2^64 - 1.
#[derive(Drop)]
pub struct UdpIn {
    socket: UdpSocket,
    // the last wait that the system was told
    wait: Option<u32>,
    failed: u64,
    quiets: u64,
}

impl UdpIn {
    ghost use Rattle.std.specs.Prelude.{None};

    /// An end over this socket that has heard nothing.
    pub(crate) fn new(socket: UdpSocket) -> UdpIn
        ensures socket { result.socket ≡ socket }
        ensures failed { result.failed ≡ 0 }
        ensures quiets { result.quiets ≡ 0 }
    {
        UdpIn {
            socket,
            wait: None,
            failed: 0,
            quiets: 0,
        }
    }

    /// The number of the port. `None` where the system doesn't tell it.
    pub fn port(&self) -> Option<u16> {
        Some(self.socket.local_addr().ok()?.port())
    }

    /// How many calls failed.
    pub(crate) fn failed(&self) -> u64
        ensures { result ≡ self.now.failed }
    {
        self.failed
    }

    // The system takes 0 for no end of the wait, so a wait of 0 is one of a microsecond.
    fn set_wait(&mut self, wait: u32) -> io::Result<()>
        ensures socket { self.new.socket ≡ self.old.socket }
        ensures failed { self.new.failed ≡ self.old.failed }
        ensures quiets { self.new.quiets ≡ self.old.quiets }
    {
        if self.wait != Some(wait) {
            let micros = u64::from(wait.max(1));
            self.wait = None;
            self.socket
                .set_read_timeout(Some(Duration::from_micros(micros)))?;
            self.wait = Some(wait);
        }
        Ok(())
    }

    fn recv(&mut self, into: &mut [u8], wait: u32) -> io::Result<(usize, SocketAddr)>
        ensures within { IfOk result (λ r. r.0 ≤ length into.old) }
        ensures socket { self.new.socket ≡ self.old.socket }
        ensures failed { self.new.failed ≡ self.old.failed }
        ensures quiets { self.new.quiets ≡ self.old.quiets }
    {
        self.set_wait(wait)?;
        self.socket.recv_from(into)
    }
}

// Whether none came in time: the wait ended, or the process was stopped and went on.
fn is_quiet(kind: ErrorKind) -> bool {
    matches!(
        kind,
        ErrorKind::WouldBlock | ErrorKind::TimedOut | ErrorKind::Interrupted
    )
}

impl PortIn for UdpIn {
    ghost use Rattle.std.specs.Prelude.{◌≡◌, ◌≤◌, None, length, refl, OnErr, OnOk, IfOk};
    ghost use Rattle.std.proofs.Common.{◌∙◌};
    ghost use Rattle.udt_outside.specs.Ports.{Fits};
    ghost use Rattle.udt_adapters.specs.Counts.{one_more, quiets_after};

    ghost faults = { λ e. e.failed };

    ghost quiets = { λ e. e.quiets };

    ghost given = { λ e. None };

    ghost is_same = { λ a b. b.socket ≡ a.socket };

    fn hear<R: Wait + Copy + Send + Sync>(
        &mut self,
        _rt: &R,
        into: &mut [u8],
        wait: u32,
    ) -> Result<Heard, Failed>
        requires { length into.old ≡ 65536 }
        ensures faults_stay { self.old.failed ≤ self.new.failed }
        ensures faults_kept { OnOk result (self.new.failed ≡ self.old.failed) }
        ensures failed { OnErr result (self.new.failed ≡ one_more self.old.failed) }
        ensures quiets_stay { self.old.quiets ≤ self.new.quiets }
        ensures quiet { IfOk result (λ heard. self.new.quiets ≡ quiets_after self.old.quiets heard) }
        ensures quiets_kept { OnErr result (self.new.quiets ≡ self.old.quiets) }
        ensures within { IfOk result (λ heard. Fits heard 65536) }
        ensures same { self.new.socket ≡ self.old.socket }
    {
        match self.recv(into, wait) {
            Ok((len, from)) => Ok(Heard::Datagram {
                len,
                from: addr_of(from),
            }),
            Err(error) if is_quiet(error.kind()) => {
                self.quiets = self.quiets.saturating_add(1);
                Ok(Heard::Quiet)
            }
            Err(_) => {
                self.failed = self.failed.saturating_add(1);
                Err(Failed)
            }
        }
    }

    ghost same_refl = { λ e. refl };

    ghost same_trans = { λ a b c p q. q ∙ p };
}
