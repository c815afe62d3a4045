// UDP ports.

ghost use Rattle.std.specs.Prelude.{◌≡◌};

use crate::port_in::UdpIn;
use crate::port_out::UdpOut;
use std::io;
use std::net::{IpAddr, Ipv4Addr, Ipv6Addr, Net, UdpSocket};
use udt_outside::{Failed, Family, Ports};

/// What opens UDP ports at all addresses of the machine. Its count of openings that failed ends at
/// 2^64 - 1.
#[derive(Drop)]
pub struct UdpPorts<R> {
    rt: R,
    failed: u64,
    // the faults of the ends that were last taken back
    in_faults: u64,
    out_faults: u64,
}

impl<R: Net> UdpPorts<R> {
    ghost use Rattle.std.specs.Prelude.{◌≡◌, IfOk};

    /// Ports of which no opening has failed, and that took no ends back.
    pub fn new(rt: R) -> UdpPorts<R>
        ensures failed { result.failed ≡ 0 }
        ensures in_faults { result.in_faults ≡ 0 }
        ensures out_faults { result.out_faults ≡ 0 }
    {
        UdpPorts {
            rt,
            failed: 0,
            in_faults: 0,
            out_faults: 0,
        }
    }

    // both ends of one socket
    fn bind(&self, port: u16, family: Family) -> io::Result<(UdpIn, UdpOut)>
        ensures no_faults_in { IfOk result (λ ends. ends.0.failed ≡ 0) }
        ensures no_quiets { IfOk result (λ ends. ends.0.quiets ≡ 0) }
        ensures no_faults_out { IfOk result (λ ends. ends.1.failed ≡ 0) }
    {
        let ip = match family {
            Family::Four => IpAddr::V4(Ipv4Addr::UNSPECIFIED),
            Family::Six => IpAddr::V6(Ipv6Addr::UNSPECIFIED),
        };
        let socket = UdpSocket::bind(&self.rt, (ip, port))?;
        let other = socket.try_clone()?;
        Ok((UdpIn::new(socket), UdpOut::new(other)))
    }
}

impl<R: Net> Ports for UdpPorts<R> {
    ghost use Rattle.std.specs.Prelude.{◌≡◌, ◌≤◌, None, OnErr, OnOk, IfOk};
    ghost use Rattle.udt_adapters.specs.Counts.{one_more};

    type In = UdpIn;

    type Out = UdpOut;

    ghost faults = { λ p. p.failed };

    ghost has_in = { λ p e. Unit {0} };

    ghost has_out = { λ p e. Unit {0} };

    ghost in_faults = { λ p. p.in_faults };

    ghost out_faults = { λ p. p.out_faults };

    ghost given = { λ p. None };

    ghost taken = { λ p. None };

    fn open(&mut self, port: u16, family: Family) -> Result<(UdpIn, UdpOut), Failed>
        ensures faults_stay { self.old.failed ≤ self.new.failed }
        ensures faults_kept { OnOk result (self.new.failed ≡ self.old.failed) }
        ensures failed { OnErr result (self.new.failed ≡ one_more self.old.failed) }
        ensures no_faults_in { IfOk result (λ ends. ends.0.failed ≡ 0) }
        ensures no_quiets { IfOk result (λ ends. ends.0.quiets ≡ 0) }
        ensures no_faults_out { IfOk result (λ ends. ends.1.failed ≡ 0) }
    {
        match self.bind(port, family) {
            Ok(ends) => Ok(ends),
            Err(_) => {
                self.failed = self.failed.saturating_add(1);
                Err(Failed)
            }
        }
    }

    fn close(&mut self, port_in: UdpIn, port_out: UdpOut)
        ensures faults_kept { self.new.failed ≡ self.old.failed }
        ensures in_faults { self.new.in_faults ≡ port_in.failed }
        ensures out_faults { self.new.out_faults ≡ port_out.failed }
    {
        self.in_faults = port_in.failed();
        self.out_faults = port_out.failed();
    }

    ghost in_stays = { λ p a b h s. tt };

    ghost out_stays = { λ p a b h s. tt };
}
