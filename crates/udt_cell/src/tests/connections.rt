// Stories of how shared sockets come by a connection.
ghost use Rattle.std.specs.Prelude.{IfSome};
ghost use Rattle.udt_turn.specs.Words.{IsPassOf};

use super::{STREAM, addr_of, deliver, opened, opened_as};
use crate::{EventsSpent, SharedSocket, SocketPass};
use std::alloc::Global;
use std::test::Fail;
use udt_core::{Outs, Socket};
use udt_model::{Cause, Refusal, Shaken};
use udt_outside::FreeGate;
use udt_rate::Native;

const SECRET: [u8; 16] = [7; 16];

// A shared socket with this ID that has no connection, and its first pass.
fn idle(alloc: Global, own: u32) -> Option<(SharedSocket<Native>, SocketPass<Native>)>
    ensures { IfSome result (λ r. IsPassOf r.0.turn r.1) }
{
    let Ok(socket) = Socket::open(alloc, own, 7, STREAM, 0) else {
        return None;
    };
    match SharedSocket::make(alloc, socket.counted(0)) {
        Ok(made) => Some(made),
        Err(_) => None,
    }
}

#[test]
fn a_listener_and_a_client_are_shared(rt: HostRuntime) -> Result<(), Fail> {
    let Some((listener, mut first)) = idle(rt.alloc(), 1) else {
        panic!(rt; "no memory")
    };
    let Some((client, mut second)) = idle(rt.alloc(), 2) else {
        panic!(rt; "no memory")
    };
    let (Ok(mut outs), Ok(mut answers)) = (Outs::new(rt.alloc()), Outs::new(rt.alloc())) else {
        panic!(rt; "no memory")
    };
    assert!(rt; listener.accept(&rt, &mut first, 0) == Err(Refusal::NotListening));
    assert!(rt; listener.listen(&rt, &mut first, 0, 1, SECRET) == Ok(()));
    assert!(rt; listener.listen(&rt, &mut first, 0, 1, SECRET) == Err(Refusal::Connected));
    assert!(rt; client.connect(&rt, &mut second, 0, addr_of(1)) == Ok(()));
    assert!(rt; client.shake(&rt, &mut second, 0) == Ok(Shaken::Waiting));
    // the request, the cookie that answers it, and the request with this cookie
    let ticked = client.tick(&rt, &mut second, 0, &mut outs, &FreeGate);
    assert!(rt; ticked == Ok(()));
    let (server, asker) = (addr_of(1), addr_of(2));
    assert_eq!(rt;
        deliver(
            &rt,
            &listener,
            &mut first,
            1_000,
            asker,
            &outs,
            &mut answers
        ),
        1
    );
    assert_eq!(rt;
        deliver(
            &rt,
            &client,
            &mut second,
            2_000,
            server,
            &answers,
            &mut outs
        ),
        1
    );
    assert_eq!(rt;
        deliver(
            &rt,
            &listener,
            &mut first,
            3_000,
            asker,
            &outs,
            &mut answers
        ),
        1
    );
    // the place that is promised is taken back once
    assert!(rt; listener.accept(&rt, &mut first, 3_000) == Err(Refusal::AgainRecv));
    assert!(rt; listener.withdraw(&rt, &mut first, 3_000) == Ok(()));
    assert!(rt; listener.offer(&rt, &mut first, 3_000, 3) == Ok(false));
    assert_eq!(rt;
        deliver(
            &rt,
            &listener,
            &mut first,
            3_000,
            asker,
            &outs,
            &mut answers
        ),
        1
    );
    assert!(rt; listener.offer(&rt, &mut first, 3_000, 3) == Ok(true));
    assert!(rt; listener.accept(&rt, &mut first, 3_000) == Ok(3));
    // the socket that was made for it answers the request
    let Some((made, mut third)) = opened_as(rt.alloc(), STREAM, 3, 2, 0) else {
        panic!(rt; "no memory")
    };
    assert_eq!(rt;
        deliver(&rt, &made, &mut third, 3_000, asker, &outs, &mut answers),
        1
    );
    assert_eq!(rt;
        deliver(
            &rt,
            &client,
            &mut second,
            4_000,
            server,
            &answers,
            &mut outs
        ),
        1
    );
    assert!(rt; client.shake(&rt, &mut second, 4_000) == Ok(Shaken::Done));
    assert!(rt; client.port_down(&rt, &mut second, 5_000) == Ok(()));
    let lost = client.shake(&rt, &mut second, 5_000);
    assert!(rt; lost == Ok(Shaken::Lost(Cause::PortDown)));
    assert_eq!(rt; listener.look(&mut first).count, 11);
    assert_eq!(rt; client.look(&mut second).count, 8);
    Ok(())
}

#[test]
fn two_shared_sockets_meet(rt: HostRuntime) -> Result<(), Fail> {
    let Some((a, mut first)) = idle(rt.alloc(), 1) else {
        panic!(rt; "no memory")
    };
    let Some((b, mut second)) = idle(rt.alloc(), 2) else {
        panic!(rt; "no memory")
    };
    let (Ok(mut outs), Ok(mut answers)) = (Outs::new(rt.alloc()), Outs::new(rt.alloc())) else {
        panic!(rt; "no memory")
    };
    assert!(rt; a.meet(&rt, &mut first, 0, addr_of(2)) == Ok(()));
    assert!(rt; b.meet(&rt, &mut second, 0, addr_of(1)) == Ok(()));
    assert!(rt; b.meet(&rt, &mut second, 0, addr_of(1)) == Err(Refusal::Connected));
    let ticked = a.tick(&rt, &mut first, 0, &mut outs, &FreeGate);
    assert!(rt; ticked == Ok(()));
    let (here, there) = (addr_of(1), addr_of(2));
    assert_eq!(rt;
        deliver(&rt, &b, &mut second, 1_000, here, &outs, &mut answers),
        1
    );
    assert_eq!(rt;
        deliver(&rt, &a, &mut first, 2_000, there, &answers, &mut outs),
        1
    );
    assert_eq!(rt;
        deliver(&rt, &b, &mut second, 3_000, here, &outs, &mut answers),
        1
    );
    assert!(rt; a.shake(&rt, &mut first, 4_000) == Ok(Shaken::Done));
    assert!(rt; b.shake(&rt, &mut second, 4_000) == Ok(Shaken::Done));
    assert!(rt; a.look(&mut first).count == 4 && b.look(&mut second).count == 5);
    Ok(())
}

#[test]
fn no_socket_comes_by_a_connection_once_its_events_are_spent(rt: HostRuntime) -> Result<(), Fail> {
    let Some((socket, mut pass)) = opened(rt.alloc(), 1, (1 << 55) - 1) else {
        panic!(rt; "no memory")
    };
    let (to, spent) = (addr_of(2), Err(Refusal::EventsSpent));
    assert!(rt; socket.listen(&rt, &mut pass, 1, 1, SECRET) == spent);
    assert!(rt; socket.connect(&rt, &mut pass, 1, to) == spent);
    assert!(rt; socket.meet(&rt, &mut pass, 1, to) == spent);
    assert!(rt; socket.accept(&rt, &mut pass, 1) == Err(Refusal::EventsSpent));
    assert!(rt; socket.shake(&rt, &mut pass, 1) == Err(EventsSpent));
    assert!(rt; socket.offer(&rt, &mut pass, 1, 3) == Err(EventsSpent));
    assert!(rt; socket.withdraw(&rt, &mut pass, 1) == Err(EventsSpent));
    assert!(rt; socket.port_down(&rt, &mut pass, 1) == Err(EventsSpent));
    assert_eq!(rt; socket.at(&pass), 0);
    Ok(())
}
