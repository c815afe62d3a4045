// Cookies by a digest computed elsewhere, and walks through handshakes as the rules have them.

use crate::{ClientSaw, ClientShake, ListenShake, MeetSaw, MeetShake, Peer, Verdict, cookie};
use udt_model::{Addr, Config, Ip, Kind, Shake};

const CLIENT: Addr = Addr {
    ip: Ip::V4(0x0a00_0008),
    port: 7000,
};

const SERVER: Addr = Addr {
    ip: Ip::V4(0x0a00_0009),
    port: 9000,
};

const CONFIG: Config = Config {
    kind: Kind::Stream,
    payload: 4,
    snd_blocks: 4,
    rcv_blocks: 4,
};

const SECRET: [u8; 16] = [0; 16];

// a request of socket 2 with initial sequence number 5, as it reaches the server
const REQUEST: Shake = Shake {
    version: 4,
    kind: 1,
    isn: 5,
    packet: 48,
    flow: 4,
    ask: 1,
    id: 2,
    cookie: 0,
    address: [10, 0, 0, 9, 0, 0, 0, 0, 0, 0, 0, 0, 0, 0, 0, 0],
};

#[test]
fn cookies_are_those_of_another_digest(rt: HostRuntime) {
    let counting = [0u8, 1, 2, 3, 4, 5, 6, 7, 8, 9, 10, 11, 12, 13, 14, 15];
    let far = Addr {
        ip: Ip::V6(1),
        port: 65_535,
    };
    let rows = [
        (CLIENT, SECRET, 0, 2201619815),
        (CLIENT, SECRET, 1, 3735698610),
        (CLIENT, counting, u64::MAX, 948714736),
        (far, counting, 5, 165506322),
    ];
    for (from, secret, minute, number) in rows {
        assert_eq!(rt; cookie(from, &secret, minute), number, "in minute {minute}");
    }
}

#[test]
fn a_listener_tests_the_cookie_first(rt: HostRuntime) {
    let listener = ListenShake::new(SECRET, CONFIG);
    let known: u32 = 2201619815;
    let sent_back = Shake {
        address: [10, 0, 0, 8, 0, 0, 0, 0, 0, 0, 0, 0, 0, 0, 0, 0],
        ..REQUEST
    };
    let with_cookie = Shake {
        cookie: known,
        ..REQUEST
    };
    let given = Verdict::Cookie(Shake {
        cookie: known,
        ..sent_back
    });
    let rows = [
        (REQUEST, 0, true, given),
        (with_cookie, 119_999_999, true, Verdict::Request),
        (
            Shake {
                version: 3,
                ..REQUEST
            },
            59_999_999,
            true,
            Verdict::Cookie(Shake {
                version: 3,
                cookie: known,
                ..sent_back
            }),
        ),
        (
            with_cookie,
            0,
            false,
            Verdict::Reject(Shake {
                cookie: known,
                ask: 1002,
                ..sent_back
            }),
        ),
        (
            Shake {
                packet: 44,
                ..with_cookie
            },
            0,
            true,
            Verdict::Reject(Shake {
                packet: 44,
                cookie: known,
                ask: 1002,
                ..sent_back
            }),
        ),
    ];
    for (shake, now, room, verdict) in rows {
        assert_eq!(rt;
            listener.judge(&shake, CLIENT, now, room),
            verdict,
            "at {now}"
        );
    }
    let late = listener.judge(&with_cookie, CLIENT, 120_000_000, true);
    assert!(rt; matches!(late, Verdict::Cookie(_)));
}

#[test]
fn a_client_is_answered(rt: HostRuntime) {
    let mut client = ClientShake::new(CONFIG, 2, 5, SERVER, 0);
    assert_eq!(rt; client.request(), REQUEST);
    let cookie = Shake {
        cookie: 7,
        ..REQUEST
    };
    let answer = Shake {
        isn: 9,
        packet: 47,
        flow: 1,
        ask: -1,
        id: 3,
        ..REQUEST
    };
    let peer = Peer {
        addr: SERVER,
        id: 3,
        isn: 9,
        payload: 3,
        flow: 2,
    };
    let refusal = Shake {
        ask: 1002,
        ..REQUEST
    };
    let rows = [
        (2, REQUEST, SERVER, ClientSaw::Stale),
        (2, cookie, CLIENT, ClientSaw::Stale),
        (2, cookie, SERVER, ClientSaw::Cookie),
        (3, answer, SERVER, ClientSaw::Stale),
        (2, answer, SERVER, ClientSaw::Connected(peer)),
        (2, refusal, SERVER, ClientSaw::Rejected),
    ];
    for (dest, shake, from, saw) in rows {
        assert_eq!(rt; client.on_shake(dest, &shake, from), saw);
    }
    assert_eq!(rt; client.request(), cookie);
}

#[test]
fn two_sockets_meet(rt: HostRuntime) {
    let mut here = MeetShake::new(CONFIG, 1, 5, SERVER, 0);
    let mut there = MeetShake::new(CONFIG, 2, 9, CLIENT, 0);
    let peer_here = Peer {
        addr: CLIENT,
        id: 1,
        isn: 5,
        payload: 4,
        flow: 4,
    };
    let peer_there = Peer {
        addr: SERVER,
        id: 2,
        isn: 9,
        payload: 4,
        flow: 4,
    };
    let first = here.request();
    assert_eq!(rt; first.ask, 0);
    assert_eq!(rt;
        there.on_shake(0, &first, CLIENT),
        MeetSaw::Adopted(peer_here)
    );
    assert_eq!(rt; there.on_shake(0, &first, CLIENT), MeetSaw::Answered);
    let later = Shake { id: 7, ..first };
    assert_eq!(rt; there.on_shake(0, &later, CLIENT), MeetSaw::Stale);
    let answer = there.request();
    assert_eq!(rt; answer.ask, -1);
    assert_eq!(rt; here.on_shake(2, &answer, SERVER), MeetSaw::Stale);
    assert_eq!(rt;
        here.on_shake(1, &answer, SERVER),
        MeetSaw::Connected(peer_there)
    );
    let agreement = Shake {
        isn: 8,
        ask: -2,
        ..here.request()
    };
    assert_eq!(rt;
        there.on_shake(2, &agreement, CLIENT),
        MeetSaw::Connected(peer_here)
    );
}
