// UDP ports on this machine.

use crate::{UdpIn, UdpOut, UdpPorts};
use std::net::Net;
use std::sync::Wait;
use std::test::Fail;
use udt_outside::{Addr, Failed, Family, Heard, Ip, PortIn, PortOut, Ports};

const V4_LOOPBACK: Ip = Ip::V4(0x7f00_0001);

const V6_LOOPBACK: Ip = Ip::V6(1);

fn hear<R: Wait + Copy + Send + Sync>(
    port: &mut UdpIn,
    rt: &R,
    into: &mut [u8; 65_536],
    wait: u32,
) -> Result<Heard, Failed> {
    port.hear(rt, into, wait)
}

// the ends of a port that was free, and its number
fn open<R: Net>(ports: &mut UdpPorts<R>, family: Family) -> Option<(UdpIn, UdpOut, u16)> {
    let (port_in, port_out) = ports.open(0, family).ok()?;
    let port = port_in.port()?;
    Some((port_in, port_out, port))
}

#[test]
fn a_datagram_that_was_said_is_heard_with_its_sender(rt: HostRuntime) -> Result<(), Fail> {
    let mut into = Box::new(rt.alloc(), [0; 65_536])?;
    let mut ports = UdpPorts::new(rt);
    for (family, ip) in [(Family::Four, V4_LOOPBACK), (Family::Six, V6_LOOPBACK)] {
        let Some((near_in, mut near_out, near)) = open(&mut ports, family) else {
            panic!(rt; "no port of {family:?}")
        };
        let Some((mut far_in, far_out, far)) = open(&mut ports, family) else {
            panic!(rt; "no port of {family:?}")
        };
        let datagrams: [&[u8]; 3] = [b"first", b"", b"third"];
        for bytes in datagrams {
            let to = Addr { ip, port: far };
            assert_eq!(rt; near_out.say(&rt, bytes, to), Ok(()));
            let from = Addr { ip, port: near };
            let len = bytes.len();
            let heard = hear(&mut far_in, &rt, &mut into, 5_000_000);
            assert_eq!(rt; heard, Ok(Heard::Datagram { len, from }));
            assert_eq!(rt; &into[..len], bytes);
        }
        for wait in [0, 1, 20_000, 20_000] {
            assert_eq!(rt; hear(&mut far_in, &rt, &mut into, wait), Ok(Heard::Quiet));
        }
        ports.close(near_in, near_out);
        ports.close(far_in, far_out);
    }
    Ok(())
}

#[test]
fn a_port_that_is_taken_opens_no_more(rt: HostRuntime) {
    let mut ports = UdpPorts::new(rt);
    let Some((port_in, port_out, port)) = open(&mut ports, Family::Four) else {
        panic!(rt; "no port")
    };
    assert!(rt; ports.open(port, Family::Four).is_err());
    ports.close(port_in, port_out);
    assert!(rt; ports.open(port, Family::Four).is_ok());
}

#[test]
fn a_datagram_that_is_too_long_fails(rt: HostRuntime) -> Result<(), Fail> {
    let bytes = Box::new(rt.alloc(), [7; 65_536])?;
    let mut ports = UdpPorts::new(rt);
    let Some((_, mut port_out, port)) = open(&mut ports, Family::Four) else {
        panic!(rt; "no port")
    };
    let ip = V4_LOOPBACK;
    let to = Addr { ip, port };
    assert_eq!(rt; port_out.say(&rt, bytes.as_slice(), to), Err(Failed));
    assert_eq!(rt; port_out.say(&rt, &bytes[..65_507], to), Ok(()));
    Ok(())
}
