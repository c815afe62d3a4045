// The ports in memory, through their traits.

use crate::{
    Addr, Failed, Family, Heard, Ip, ListDatagram, ListIn, ListOut, ListPorts, PortIn, PortOut,
    Ports,
};
use std::alloc::Global;
use std::sync::Wait;
use std::test::Fail;

const NEAR: Addr = Addr {
    ip: Ip::V4(0x0a00_0001),
    port: 9000,
};

const FAR: Addr = Addr {
    ip: Ip::V4(0x0a00_0002),
    port: 9000,
};

fn list(alloc: Global, numbers: &[u64]) -> Result<Vec<u64>, Fail> {
    Ok(Vec::from_slice(alloc, numbers)?)
}

fn hear<P: PortIn, R: Wait + Copy + Send + Sync>(
    port: &mut P,
    rt: &R,
    into: &mut [u8; 65_536],
) -> Result<Heard, Failed> {
    port.hear(rt, into, 10_000)
}

fn say<P: PortOut, R: Wait + Copy + Send + Sync>(
    port: &mut P,
    rt: &R,
    bytes: &[u8],
    to: Addr,
) -> Result<(), Failed> {
    port.say(rt, bytes, to)
}

fn heard(len: usize, from: Addr) -> Result<Heard, Failed> {
    Ok(Heard::Datagram { len, from })
}

#[test]
fn hears_the_stated_datagrams_and_keeps_those_said(rt: HostRuntime) -> Result<(), Fail> {
    let alloc = rt.alloc();
    let mut stated = Vec::new(alloc);
    for (from, bytes) in [(NEAR, b"abc"), (FAR, b"def")] {
        stated.push(ListDatagram::new(from, Vec::from_slice(alloc, bytes)?))?;
    }
    let Ok(port_out) = ListOut::new(alloc, 2, 4, list(alloc, &[2])?) else {
        panic!(rt; "no memory")
    };
    let port_in = ListIn::new(stated, list(alloc, &[2])?);
    let mut ports = ListPorts::new(port_in, port_out, list(alloc, &[1])?);
    assert!(rt; ports.open(9000, Family::Four).is_err());
    let Ok((mut port_in, mut port_out)) = ports.open(9000, Family::Four) else {
        panic!(rt; "no ends")
    };
    assert!(rt; ports.open(9000, Family::Four).is_err());
    let mut into = Box::new(alloc, [0; 65_536])?;
    let answers: [(Result<Heard, Failed>, &[u8]); 5] = [
        (heard(3, NEAR), b"abc"),
        (Err(Failed), b"abc"),
        (heard(3, FAR), b"def"),
        (Ok(Heard::Quiet), b"def"),
        (Ok(Heard::Quiet), b"def"),
    ];
    for (answer, bytes) in answers {
        assert_eq!(rt; hear(&mut port_in, &rt, &mut into), answer, "{bytes:?}");
        assert_eq!(rt; &into[..3], bytes);
    }
    let said: [(&[u8], Addr, Result<(), Failed>); 5] = [
        (b"ghi", FAR, Ok(())),
        (b"jk", FAR, Err(Failed)),
        (b"jklmn", FAR, Err(Failed)),
        (b"jk", NEAR, Ok(())),
        (b"op", NEAR, Err(Failed)),
    ];
    for (bytes, to, answer) in said {
        assert_eq!(rt; say(&mut port_out, &rt, bytes, to), answer, "{bytes:?}");
    }
    ports.close(port_in, port_out);
    let Some((_, port_out)) = ports.back() else {
        panic!(rt; "no ends back")
    };
    let taken: [(&[u8], Addr); 2] = [(b"ghi", FAR), (b"jk", NEAR)];
    assert_eq!(rt; port_out.said().len(), 2);
    for (datagram, (bytes, to)) in port_out.said().iter().zip(taken) {
        assert_eq!(rt; datagram.bytes(), bytes);
        assert_eq!(rt; datagram.addr(), to);
    }
    Ok(())
}
