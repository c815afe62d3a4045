// The system's addresses and the protocol's.

ghost use Rattle.std.specs.Prelude.{◌≡◌};
ghost use Rattle.std.specs.Net.Addr.{ipv4_bits, ipv6_bits};
ghost use Rattle.udt_adapters.specs.Addresses.{ip_of, addr_of};

use std::net::{IpAddr, Ipv4Addr, Ipv6Addr, SocketAddr};
use udt_outside::{Addr, Ip};

fn ip_of(ip: IpAddr) -> Ip
    ensures { result ≡ ip_of ip }
{
    match ip {
        IpAddr::V4(ip) => Ip::V4(ip.to_bits()),
        IpAddr::V6(ip) => Ip::V6(ip.to_bits()),
    }
}

/// The protocol's address for one of the system.
pub fn addr_of(addr: SocketAddr) -> Addr
    ensures { result ≡ addr_of addr }
{
    Addr {
        ip: ip_of(addr.ip()),
        port: addr.port(),
    }
}

fn v4_of_bits(bits: u32) -> Ipv4Addr
    ensures { ipv4_bits result ≡ bits }
{
    Ipv4Addr::from_bits(bits)
}

fn v6_of_bits(bits: u128) -> Ipv6Addr
    ensures { ipv6_bits result ≡ bits }
{
    Ipv6Addr::from_bits(bits)
}

fn system_ip(ip: Ip) -> IpAddr
    ensures { ip_of result ≡ ip }
{
    match ip {
        Ip::V4(bits) => IpAddr::V4(v4_of_bits(bits)),
        Ip::V6(bits) => IpAddr::V6(v6_of_bits(bits)),
    }
}

/// The system's address for one of the protocol.
pub fn system_addr(addr: Addr) -> SocketAddr
    ensures { addr_of result ≡ addr }
{
    SocketAddr::new(system_ip(addr.ip), addr.port)
}
