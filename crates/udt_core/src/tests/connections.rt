// Stories of how sockets come by a connection. What is expected was worked out by hand from the rules of
// handshakes; the digest that makes the cookie was computed elsewhere.

ghost use Rattle.std.specs.Prelude.{◌≡◌, ◌^◌, ◌<◌};

use super::are_emitted;
use crate::{Cause, Heard, Outs, Peer, Refusal, Shaken, Socket};
use std::alloc::Global;
use std::process::Abort;
use std::test::*;
use udt_model::{Addr, Config, Ip, Kind};
use udt_rate::{Control, Native};

const STREAM: Config = Config {
    kind: Kind::Stream,
    payload: 4,
    snd_blocks: 4,
    rcv_blocks: 4,
};

const CLIENT: Addr = Addr {
    ip: Ip::V4(0x0a00_0008),
    port: 7000,
};

const SERVER: Addr = Addr {
    ip: Ip::V4(0x0a00_0009),
    port: 9000,
};

const FIRST: Addr = Addr {
    ip: Ip::V4(0x0a00_0001),
    port: 5000,
};

const SECOND: Addr = Addr {
    ip: Ip::V4(0x0a00_0002),
    port: 5000,
};

const NOWHERE: Addr = Addr {
    ip: Ip::V4(0x0a00_0009),
    port: 0,
};

// the request of socket 2, and the cookie that answers it
const REQUEST: &[u8] = b"\x80\x00\x00\x00\x00\x00\x00\x00\x00\x00\x00\x00\x00\x00\x00\x00\
    \x00\x00\x00\x04\x00\x00\x00\x01\x00\x00\x00\x05\x00\x00\x00\x30\
    \x00\x00\x00\x04\x00\x00\x00\x01\x00\x00\x00\x02\x00\x00\x00\x00\
    \x0a\x00\x00\x09\x00\x00\x00\x00\x00\x00\x00\x00\x00\x00\x00\x00";

const COOKIE: &[u8] = b"\x80\x00\x00\x00\x00\x00\x00\x00\x00\x00\x03\xe8\x00\x00\x00\x02\
    \x00\x00\x00\x04\x00\x00\x00\x01\x00\x00\x00\x05\x00\x00\x00\x30\
    \x00\x00\x00\x04\x00\x00\x00\x01\x00\x00\x00\x02\x83\x3a\x0d\x67\
    \x0a\x00\x00\x08\x00\x00\x00\x00\x00\x00\x00\x00\x00\x00\x00\x00";

// the request with the cookie, and what answers it: socket 3, or a refusal
const REQUEST_WITH_COOKIE: &[u8] =
    b"\x80\x00\x00\x00\x00\x00\x00\x00\x00\x00\x07\xd0\x00\x00\x00\x00\
    \x00\x00\x00\x04\x00\x00\x00\x01\x00\x00\x00\x05\x00\x00\x00\x30\
    \x00\x00\x00\x04\x00\x00\x00\x01\x00\x00\x00\x02\x83\x3a\x0d\x67\
    \x0a\x00\x00\x09\x00\x00\x00\x00\x00\x00\x00\x00\x00\x00\x00\x00";

const ANSWER: &[u8] = b"\x80\x00\x00\x00\x00\x00\x00\x00\x00\x00\x0b\xb8\x00\x00\x00\x02\
    \x00\x00\x00\x04\x00\x00\x00\x01\x00\x00\x00\x05\x00\x00\x00\x30\
    \x00\x00\x00\x04\xff\xff\xff\xff\x00\x00\x00\x03\x00\x00\x00\x00\
    \x0a\x00\x00\x08\x00\x00\x00\x00\x00\x00\x00\x00\x00\x00\x00\x00";

const ANSWER_AGAIN: &[u8] = b"\x80\x00\x00\x00\x00\x00\x00\x00\x00\x00\x13\x88\x00\x00\x00\x02\
    \x00\x00\x00\x04\x00\x00\x00\x01\x00\x00\x00\x05\x00\x00\x00\x30\
    \x00\x00\x00\x04\xff\xff\xff\xff\x00\x00\x00\x03\x00\x00\x00\x00\
    \x0a\x00\x00\x08\x00\x00\x00\x00\x00\x00\x00\x00\x00\x00\x00\x00";

const REFUSAL: &[u8] = b"\x80\x00\x00\x00\x00\x00\x00\x00\x00\x00\x0b\xb8\x00\x00\x00\x02\
    \x00\x00\x00\x04\x00\x00\x00\x01\x00\x00\x00\x05\x00\x00\x00\x30\
    \x00\x00\x00\x04\x00\x00\x03\xea\x00\x00\x00\x02\x83\x3a\x0d\x67\
    \x0a\x00\x00\x08\x00\x00\x00\x00\x00\x00\x00\x00\x00\x00\x00\x00";

// the request again, before the client gives up
const LAST_REQUEST: &[u8] = b"\x80\x00\x00\x00\x00\x00\x00\x00\x00\x2d\xc6\xbf\x00\x00\x00\x00\
    \x00\x00\x00\x04\x00\x00\x00\x01\x00\x00\x00\x05\x00\x00\x00\x30\
    \x00\x00\x00\x04\x00\x00\x00\x01\x00\x00\x00\x02\x00\x00\x00\x00\
    \x0a\x00\x00\x09\x00\x00\x00\x00\x00\x00\x00\x00\x00\x00\x00\x00";

// two sockets meet: 1 begins, 2 answers, 1 agrees
const MEETS: &[u8] = b"\x80\x00\x00\x00\x00\x00\x00\x00\x00\x00\x00\x00\x00\x00\x00\x00\
    \x00\x00\x00\x04\x00\x00\x00\x01\x00\x00\x00\x05\x00\x00\x00\x30\
    \x00\x00\x00\x04\x00\x00\x00\x00\x00\x00\x00\x01\x00\x00\x00\x00\
    \x0a\x00\x00\x02\x00\x00\x00\x00\x00\x00\x00\x00\x00\x00\x00\x00";

const MEETS_TOO: &[u8] = b"\x80\x00\x00\x00\x00\x00\x00\x00\x00\x00\x00\x00\x00\x00\x00\x00\
    \x00\x00\x00\x04\x00\x00\x00\x01\x00\x00\x00\x09\x00\x00\x00\x30\
    \x00\x00\x00\x04\x00\x00\x00\x00\x00\x00\x00\x02\x00\x00\x00\x00\
    \x0a\x00\x00\x01\x00\x00\x00\x00\x00\x00\x00\x00\x00\x00\x00\x00";

const MET: &[u8] = b"\x80\x00\x00\x00\x00\x00\x00\x00\x00\x00\x03\xe8\x00\x00\x00\x01\
    \x00\x00\x00\x04\x00\x00\x00\x01\x00\x00\x00\x09\x00\x00\x00\x30\
    \x00\x00\x00\x04\xff\xff\xff\xff\x00\x00\x00\x02\x00\x00\x00\x00\
    \x0a\x00\x00\x01\x00\x00\x00\x00\x00\x00\x00\x00\x00\x00\x00\x00";

const MET_AGAIN: &[u8] = b"\x80\x00\x00\x00\x00\x00\x00\x00\x00\x00\x0f\xa0\x00\x00\x00\x01\
    \x00\x00\x00\x04\x00\x00\x00\x01\x00\x00\x00\x09\x00\x00\x00\x30\
    \x00\x00\x00\x04\xff\xff\xff\xff\x00\x00\x00\x02\x00\x00\x00\x00\
    \x0a\x00\x00\x01\x00\x00\x00\x00\x00\x00\x00\x00\x00\x00\x00\x00";

const AGREES: &[u8] = b"\x80\x00\x00\x00\x00\x00\x00\x00\x00\x00\x07\xd0\x00\x00\x00\x02\
    \x00\x00\x00\x04\x00\x00\x00\x01\x00\x00\x00\x05\x00\x00\x00\x30\
    \x00\x00\x00\x04\xff\xff\xff\xfe\x00\x00\x00\x01\x00\x00\x00\x00\
    \x0a\x00\x00\x02\x00\x00\x00\x00\x00\x00\x00\x00\x00\x00\x00\x00";

// What happens to a socket, and what it answers, is ready for, or says of itself.
#[derive(Drop)]
enum Deed<'a> {
    Listens(u32, Result<(), Refusal>),
    Connects(Addr, Result<(), Refusal>),
    Meets(Addr, Result<(), Refusal>),
    Accepts(Result<u32, Refusal>),
    Shakes(Shaken),
    Offers(u32, bool),
    Withdraws,
    LosesPort,
    Closes,
    Ticks,
    Arrives(&'a [u8], Heard),
    Is(u8),
    IsNext(Option<u64>),
    HasPeer(Option<(Addr, u32)>),
}

// Does each deed at its moment. Following it stands the datagram that it emits.
fn play<C: Control>(
    rt: &impl Abort,
    socket: &mut Socket<C>,
    other: Addr,
    outs: &mut Outs,
    story: &[(u64, Deed, Option<&[u8]>)],
) {
    for (now, deed, emitted) in story {
        outs.clear();
        match deed {
            Deed::Listens(backlog, answer) => {
                assert_eq!(rt; socket.listen(*now, *backlog, [0; 16]), *answer, "at {now}")
            }
            Deed::Connects(to, answer) => assert_eq!(rt; socket.connect(*now, *to), *answer),
            Deed::Meets(to, answer) => assert_eq!(rt; socket.meet(*now, *to), *answer),
            Deed::Accepts(answer) => assert_eq!(rt; socket.accept(*now), *answer, "at {now}"),
            Deed::Shakes(answer) => assert_eq!(rt; socket.shake(*now), *answer, "at {now}"),
            Deed::Offers(id, answer) => assert_eq!(rt; socket.offer(*now, *id), *answer),
            Deed::Withdraws => socket.withdraw(*now),
            Deed::LosesPort => socket.port_down(*now),
            Deed::Closes => socket.close(*now),
            Deed::Ticks => socket.tick(*now, outs),
            Deed::Arrives(bytes, heard) => {
                assert_eq!(rt; socket.arrive(*now, other, bytes, outs), *heard, "at {now}")
            }
            Deed::Is(bits) => assert_eq!(rt; socket.bits(), *bits, "at {now}"),
            Deed::IsNext(moment) => assert_eq!(rt; socket.next_moment(), *moment, "at {now}"),
            Deed::HasPeer(peer) => assert_eq!(rt; socket.peer(), *peer, "at {now}"),
        }
        match emitted {
            Some(bytes) => assert!(rt; are_emitted(outs, other, &[*bytes]), "at {now}"),
            None => assert_eq!(rt; outs.len(), 0, "at {now}"),
        }
    }
}

// Opens a socket with this ID and initial sequence number at moment 0, and does each deed. All that it
// emits goes to one address. (The control is a parameter, so that no proof looks into one.)
fn tell<C: Control>(
    rt: &impl Abort,
    alloc: Global,
    own: u32,
    isn: u32,
    other: Addr,
    story: &[(u64, Deed, Option<&[u8]>)],
) -> Result<(), Fail>
    requires { isn < 2 ^ 31 }
{
    let mut outs = Outs::new(alloc)?;
    let mut socket: Socket<C> = Socket::open(alloc, own, isn, STREAM, 0)?;
    play(rt, &mut socket, other, &mut outs, story);
    Ok(())
}

// The same of a socket that a listener made for a request of socket 2 of the client.
fn tell_paired<C: Control>(
    rt: &impl Abort,
    alloc: Global,
    story: &[(u64, Deed, Option<&[u8]>)],
) -> Result<(), Fail> {
    let peer = Peer {
        addr: CLIENT,
        id: 2,
        isn: 5,
        payload: 4,
        flow: 4,
    };
    let mut outs = Outs::new(alloc)?;
    let mut socket: Socket<C> = Socket::paired(alloc, 3, STREAM, peer, 0)?;
    play(rt, &mut socket, CLIENT, &mut outs, story);
    Ok(())
}

#[test]
fn a_client_asks_until_a_listener_answers(rt: HostRuntime) -> Result<(), Fail> {
    let asks = [
        (0, Deed::Connects(NOWHERE, Err(Refusal::BadParameter)), None),
        (0, Deed::Shakes(Shaken::Idle), None),
        (0, Deed::Arrives(COOKIE, Heard::Stale), None),
        (0, Deed::Connects(SERVER, Ok(())), None),
        (0, Deed::Connects(SERVER, Err(Refusal::Connected)), None),
        (0, Deed::IsNext(Some(0)), None),
        (0, Deed::Ticks, Some(REQUEST)),
        (0, Deed::Ticks, None),
        (0, Deed::IsNext(Some(250_000)), None),
        (
            2_000,
            Deed::Arrives(COOKIE, Heard::Cookie),
            Some(REQUEST_WITH_COOKIE),
        ),
        (2_000, Deed::IsNext(Some(252_000)), None),
        (2_000, Deed::Shakes(Shaken::Waiting), None),
        (2_000, Deed::HasPeer(None), None),
        (4_000, Deed::Arrives(ANSWER, Heard::Connected), None),
        (4_000, Deed::Shakes(Shaken::Done), None),
        (4_000, Deed::HasPeer(Some((SERVER, 3))), None),
        (4_000, Deed::Is(18), None),
        (4_000, Deed::Arrives(ANSWER, Heard::Stale), None),
    ];
    tell::<Native>(&rt, rt.alloc(), 2, 5, SERVER, &asks)?;
    let waits = [
        (0, Deed::Connects(SERVER, Ok(())), None),
        (2_999_999, Deed::Ticks, Some(LAST_REQUEST)),
        (2_999_999, Deed::IsNext(Some(3_000_000)), None),
        (3_000_000, Deed::Ticks, None),
        (3_000_000, Deed::Shakes(Shaken::TimedOut), None),
        (3_000_000, Deed::Is(4), None),
        (3_000_000, Deed::IsNext(None), None),
        (3_000_000, Deed::Arrives(ANSWER, Heard::Stale), None),
    ];
    tell::<Native>(&rt, rt.alloc(), 2, 5, SERVER, &waits)?;
    let refused = [
        (0, Deed::Connects(SERVER, Ok(())), None),
        (4_000, Deed::Arrives(REFUSAL, Heard::Rejected), None),
        (4_000, Deed::Shakes(Shaken::Rejected), None),
        (4_000, Deed::Closes, None),
        (4_000, Deed::Is(36), None),
    ];
    tell::<Native>(&rt, rt.alloc(), 2, 5, SERVER, &refused)
}

#[test]
fn a_listener_promises_a_place_for_a_cookie(rt: HostRuntime) -> Result<(), Fail> {
    let listens = [
        (0, Deed::Accepts(Err(Refusal::NotListening)), None),
        (0, Deed::Listens(0, Err(Refusal::BadParameter)), None),
        (0, Deed::Listens(1_025, Err(Refusal::BadParameter)), None),
        (0, Deed::Listens(1, Ok(())), None),
        (0, Deed::Listens(1, Err(Refusal::Connected)), None),
        (1_000, Deed::Arrives(REQUEST, Heard::Cookie), Some(COOKIE)),
        (1_000, Deed::Offers(3, false), None),
        (
            2_000,
            Deed::Arrives(REQUEST_WITH_COOKIE, Heard::Request),
            None,
        ),
        (2_000, Deed::Withdraws, None),
        (
            2_000,
            Deed::Arrives(REQUEST_WITH_COOKIE, Heard::Request),
            None,
        ),
        (2_000, Deed::Is(0), None),
        // the place that was promised is the only one
        (
            3_000,
            Deed::Arrives(REQUEST_WITH_COOKIE, Heard::Reject),
            Some(REFUSAL),
        ),
        (3_000, Deed::Accepts(Err(Refusal::AgainRecv)), None),
        (3_000, Deed::Offers(3, true), None),
        (3_000, Deed::Is(8), None),
        (3_000, Deed::Accepts(Ok(3)), None),
        (3_000, Deed::Accepts(Err(Refusal::AgainRecv)), None),
        (3_000, Deed::IsNext(None), None),
        (4_000, Deed::LosesPort, None),
        (
            4_000,
            Deed::Accepts(Err(Refusal::ConnLost(Cause::PortDown))),
            None,
        ),
        (4_000, Deed::Shakes(Shaken::Lost(Cause::PortDown)), None),
        (4_000, Deed::Is(4), None),
    ];
    tell::<Native>(&rt, rt.alloc(), 1, 0, CLIENT, &listens)?;
    let answers = [
        (0, Deed::HasPeer(Some((CLIENT, 2))), None),
        (
            3_000,
            Deed::Arrives(REQUEST_WITH_COOKIE, Heard::Answered),
            Some(ANSWER),
        ),
        (
            5_000,
            Deed::Arrives(REQUEST, Heard::Answered),
            Some(ANSWER_AGAIN),
        ),
        (5_000, Deed::Arrives(REFUSAL, Heard::Stale), None),
    ];
    tell_paired::<Native>(&rt, rt.alloc(), &answers)
}

#[test]
fn two_sockets_meet(rt: HostRuntime) -> Result<(), Fail> {
    let begins = [
        (0, Deed::Meets(NOWHERE, Err(Refusal::BadParameter)), None),
        (0, Deed::Meets(SECOND, Ok(())), None),
        (0, Deed::Meets(SECOND, Err(Refusal::Connected)), None),
        (0, Deed::Ticks, Some(MEETS)),
        (2_000, Deed::Arrives(MET, Heard::Connected), Some(AGREES)),
        (2_000, Deed::Shakes(Shaken::Done), None),
        (2_000, Deed::HasPeer(Some((SECOND, 2))), None),
        (2_000, Deed::Arrives(MET, Heard::Answered), Some(AGREES)),
    ];
    tell::<Native>(&rt, rt.alloc(), 1, 5, SECOND, &begins)?;
    let follows = [
        (0, Deed::Meets(FIRST, Ok(())), None),
        (0, Deed::Ticks, Some(MEETS_TOO)),
        (1_000, Deed::Arrives(MEETS, Heard::Adopted), Some(MET)),
        // a first handshake alone connects nobody
        (1_000, Deed::Shakes(Shaken::Waiting), None),
        (1_000, Deed::HasPeer(Some((FIRST, 1))), None),
        (3_000, Deed::Arrives(AGREES, Heard::Connected), None),
        (3_000, Deed::Shakes(Shaken::Done), None),
        (3_000, Deed::Is(18), None),
        (
            4_000,
            Deed::Arrives(MEETS, Heard::Answered),
            Some(MET_AGAIN),
        ),
        (4_000, Deed::Arrives(AGREES, Heard::Stale), None),
    ];
    tell::<Native>(&rt, rt.alloc(), 2, 9, FIRST, &follows)
}
