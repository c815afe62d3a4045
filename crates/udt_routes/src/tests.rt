// Tables and drawers worked by hand.

ghost use Rattle.std.specs.Prelude.{◌≡◌, ◌+◌, ◌<◌, ◌≤◌, length};

mod shared;

use crate::{Drawer, ListenTwice, MeetTaken, Routed, Routes, Taken};
use std::test::Fail;
use udt_model::{Addr, Ip};

fn v4(bits: u32, port: u16) -> Addr {
    Addr {
        ip: Ip::V4(bits),
        port,
    }
}

// a V6 address with the bits of a V4 one
fn v6(bits: u32, port: u16) -> Addr {
    Addr {
        ip: Ip::V6(bits as u128),
        port,
    }
}

#[test]
fn drawers_at_different_places_share_the_ids(rt: HostRuntime) -> Result<(), Fail> {
    // ten IDs from 100 down over three drawers, and one drawer that has all
    for (drawers, place, ids) in [
        (3, 0, [Some(100), Some(97), Some(94), Some(91), None]),
        (3, 1, [Some(99), Some(96), Some(93), None, None]),
        (3, 2, [Some(98), Some(95), Some(92), None, None]),
        (1, 0, [Some(100), Some(99), Some(98), Some(97), Some(96)]),
        (20, 15, [None, None, None, None, None]),
    ] {
        let mut drawer = Drawer::new(100, 10, drawers, place);
        for id in ids {
            assert_eq!(rt; drawer.next_id(), id);
        }
    }
    Ok(())
}

#[test]
fn draws_the_last_id_of_a_full_range(rt: HostRuntime) -> Result<(), Fail> {
    let most = 4_294_967_295;
    let mut drawer = Drawer::new(most, most, most, most - 1);
    assert_eq!(rt; drawer.next_id(), Some(1));
    assert_eq!(rt; drawer.next_id(), None);
    assert_eq!(rt; drawer.next_id(), None);
    Ok(())
}

#[test]
fn enrols_each_id_once_and_only_so_many(rt: HostRuntime) -> Result<(), Fail> {
    let mut routes = Routes::new(rt.alloc(), 8, 3)?;
    // an ID, what is enrolled under it, and what comes back
    for (id, what, back) in [
        (7, 70, Ok(())),
        (3, 30, Ok(())),
        (7, 71, Err(71)),
        (5, 50, Ok(())),
        (4, 40, Err(40)),
        (3, 31, Err(31)),
    ] {
        assert_eq!(rt; routes.enrol(id, what), back);
    }
    for (id, what) in [
        (3, Some(30)),
        (4, None),
        (5, Some(50)),
        (7, Some(70)),
        (8, None),
    ] {
        assert_eq!(rt; routes.route(id).copied(), what);
    }
    assert_eq!(rt; routes.leave(5), Some(50));
    assert_eq!(rt; routes.leave(5), None);
    assert_eq!(rt; routes.enrol(4, 40), Ok(()));
    for (id, what) in [(3, Some(30)), (4, Some(40)), (5, None), (7, Some(70))] {
        assert_eq!(rt; routes.route(id).copied(), what);
    }
    Ok(())
}

// Lets a socket adopt a pair, where it has adopted none.
fn adopt_first(
    routes: &mut Routes<u8>,
    own: u32,
    addr: Addr,
    peer: u32,
) -> Option<Result<(), Taken>>
    requires room { length routes.old.adoptions < routes.old.ids }
    ensures len { length routes.new.adoptions ≤ length routes.old.adoptions + 1 }
    ensures ids { routes.new.ids ≡ routes.old.ids }
{
    match routes.peer_of(own) {
        Some(_) => None,
        None => Some(routes.adopt(own, addr, peer)),
    }
}

#[test]
fn adopts_a_pair_once_and_keeps_it_when_the_socket_leaves(rt: HostRuntime) -> Result<(), Fail> {
    let mut routes = Routes::new(rt.alloc(), 8, 4)?;
    // the own ID, the pair, and whether it can be adopted
    for (own, addr, peer, adopted) in [
        (1, v4(10, 9000), 5, Some(Ok(()))),
        (2, v4(10, 9000), 5, Some(Err(Taken))),
        (2, v4(10, 9000), 6, Some(Ok(()))),
        (2, v4(10, 9000), 7, None),
        (3, v4(10, 9001), 5, Some(Ok(()))),
        (4, v6(10, 9000), 5, Some(Ok(()))),
    ] {
        assert_eq!(rt; adopt_first(&mut routes, own, addr, peer), adopted);
    }
    assert_eq!(rt; routes.enrol(1, 0), Ok(()));
    assert_eq!(rt; routes.leave(1), Some(0));
    for (own, addr, peer) in [
        (Some(1), v4(10, 9000), 5),
        (Some(2), v4(10, 9000), 6),
        (Some(3), v4(10, 9001), 5),
        (Some(4), v6(10, 9000), 5),
        (None, v6(10, 9000), 6),
        (None, v4(11, 9000), 5),
    ] {
        assert_eq!(rt; routes.adopted(addr, peer), own);
    }
    assert_eq!(rt; routes.peer_of(4), Some((v6(10, 9000), 5)));
    assert_eq!(rt; routes.peer_of(5), None);
    Ok(())
}

#[test]
fn one_socket_listens(rt: HostRuntime) -> Result<(), Fail> {
    let mut routes: Routes<u8> = Routes::new(rt.alloc(), 4, 4)?;
    assert_eq!(rt; routes.listener(), None);
    assert_eq!(rt; routes.set_listener(1), Ok(()));
    assert_eq!(rt; routes.set_listener(2), Err(ListenTwice));
    assert_eq!(rt; routes.set_listener(1), Err(ListenTwice));
    routes.clear_listener(2);
    assert_eq!(rt; routes.listener(), Some(1));
    assert_eq!(rt; routes.enrol(1, 0), Ok(()));
    assert_eq!(rt; routes.leave(1), Some(0));
    assert_eq!(rt; routes.listener(), None);
    assert_eq!(rt; routes.set_listener(2), Ok(()));
    routes.clear_listener(2);
    assert_eq!(rt; routes.listener(), None);
    Ok(())
}

#[test]
fn each_address_is_met_by_one_socket(rt: HostRuntime) -> Result<(), Fail> {
    let mut routes: Routes<u8> = Routes::new(rt.alloc(), 4, 3)?;
    // the address, the ID, and whether it may meet
    for (to, id, may) in [
        (v4(10, 1), 1, Ok(())),
        (v4(10, 1), 2, Err(MeetTaken)),
        (v4(10, 2), 1, Err(MeetTaken)),
        (v4(10, 1), 1, Err(MeetTaken)),
        (v6(10, 1), 2, Ok(())),
        (v4(9, 1), 3, Ok(())),
        (v4(9, 2), 4, Err(MeetTaken)),
    ] {
        assert_eq!(rt; routes.set_meeting(to, id), may);
    }
    routes.clear_meeting(v4(10, 1), 2);
    for (from, id) in [
        (v4(10, 1), Some(1)),
        (v6(10, 1), Some(2)),
        (v4(9, 1), Some(3)),
        (v4(10, 2), None),
    ] {
        assert_eq!(rt; routes.meeting(from), id);
    }
    routes.clear_meeting(v4(10, 1), 1);
    assert_eq!(rt; routes.meeting(v4(10, 1)), None);
    assert_eq!(rt; routes.leave(3), None);
    assert_eq!(rt; routes.meeting(v4(9, 1)), None);
    assert_eq!(rt; routes.meeting(v6(10, 1)), Some(2));
    assert_eq!(rt; routes.set_meeting(v4(10, 1), 4), Ok(()));
    assert_eq!(rt; routes.meeting(v4(10, 1)), Some(4));
    Ok(())
}

// The first 64 bytes of a handshake of version 4, or of another packet, with these words: the first one, the ID
// of the destination, the connection type, and the sender's ID.
fn datagram(first: u32, dest: u32, ask: i32, id: u32) -> [u8; 64] {
    let mut bytes = [0; 64];
    bytes[..4].copy_from_slice(&first.to_be_bytes());
    bytes[12..16].copy_from_slice(&dest.to_be_bytes());
    bytes[19] = 4;
    bytes[36..40].copy_from_slice(&ask.to_be_bytes());
    bytes[40..44].copy_from_slice(&id.to_be_bytes());
    bytes
}

#[test]
fn a_datagram_goes_by_its_destination_or_by_its_handshake(rt: HostRuntime) -> Result<(), Fail> {
    let mut routes = Routes::new(rt.alloc(), 8, 8)?;
    let peer = v4(20, 9000);
    let stranger = v4(20, 9001);
    for (own, id) in [(3, 5), (4, 6)] {
        assert_eq!(rt; adopt_first(&mut routes, own, peer, id), Some(Ok(())));
    }
    for id in [3, 7, 9, 11] {
        assert_eq!(rt; routes.enrol(id, 0), Ok(()));
    }
    let shake = 0x8000_0000;
    let alive = 0x8001_0000;
    // the sender, the first word, the destination, the connection type, the sender's ID, and how many bytes are sent
    for (from, first, dest, ask, id, len, routed) in [
        (peer, shake, 7, 1, 8, 15, Routed::Short),
        (peer, 0, 7, 0, 0, 16, Routed::ToSocket(7)),
        (peer, 0, 8, 0, 0, 16, Routed::Id),
        (peer, 0, 0, 0, 0, 16, Routed::Shake),
        (peer, alive, 0, 0, 0, 64, Routed::Shake),
        (peer, shake, 3, -1, 5, 64, Routed::ToSocket(3)),
        (peer, shake, 7, -1, 5, 64, Routed::Stale),
        (peer, shake, 7, -1, 5, 63, Routed::ToSocket(7)),
        (stranger, shake, 7, -1, 5, 64, Routed::ToSocket(7)),
        (peer, shake, 4, -1, 6, 64, Routed::Id),
        (peer, shake, 0, 1, 5, 64, Routed::ToSocket(3)),
        (peer, shake, 0, 1, 6, 64, Routed::Stale),
        (peer, shake, 0, 1, 8, 63, Routed::Shake),
        (peer, shake, 0, 1, 8, 64, Routed::Shake),
        (peer, shake, 0, 0, 8, 64, Routed::Shake),
    ] {
        let bytes = datagram(first, dest, ask, id);
        assert_eq!(rt; routes.destination_of(from, &bytes[..len.min(64)]), routed);
    }
    assert_eq!(rt; routes.set_listener(9), Ok(()));
    assert_eq!(rt; routes.set_meeting(peer, 11), Ok(()));
    for (from, ask, routed) in [
        (peer, 1, Routed::ToSocket(9)),
        (peer, 0, Routed::ToSocket(11)),
        (stranger, 0, Routed::Shake),
        (peer, -1, Routed::Shake),
        (peer, 1002, Routed::Shake),
    ] {
        let bytes = datagram(shake, 0, ask, 8);
        assert_eq!(rt; routes.destination_of(from, &bytes), routed);
    }
    Ok(())
}
