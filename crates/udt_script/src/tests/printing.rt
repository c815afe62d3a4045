// Printed lines.

use crate::{
    Opening, Pairing, Reply, ScriptDatagram, print_accept, print_datagram, print_dropped,
    print_host, print_listen_twice, print_meet_taken, print_open, print_pair, print_refused,
    print_reply,
};
use std::alloc::AllocError;
use std::process::Abort;
use udt_model::{Addr, Cause, Heard, Ip, Kind, Malformed, Packed, Refusal, Shaken};

// The line was printed after the word that stood there.
fn assert_printed(
    rt: &impl Abort,
    out: &mut Vec<u8>,
    printed: Result<(), AllocError>,
    text: &[u8],
) {
    printed.expect(rt, "memory");
    assert_eq!(rt; out.as_slice().strip_prefix(b"so far\n"), Some(text));
    out.truncate(7);
}

#[test]
fn prints_answers(rt: HostRuntime) {
    let alloc = rt.alloc();
    let mut out = Vec::from_slice(alloc, b"so far\n").expect(&rt, "memory");
    let hello = Vec::from_slice(alloc, b"hello").expect(&rt, "memory");
    let message = Vec::from_slice(alloc, b"m2").expect(&rt, "memory");
    let replies: [(Reply, &[u8]); 25] = [
        (Reply::Sent(Ok(5)), b"a send 5\n"),
        (Reply::Sent(Err(Refusal::AgainSend)), b"a send again\n"),
        (Reply::Sent(Err(Refusal::Spent)), b"a send refused 9001\n"),
        (
            Reply::Sent(Err(Refusal::ConnLost(Cause::Expired))),
            b"a send refused 2001 expired\n",
        ),
        (Reply::Received(Ok(hello)), b"a recv 68656c6c6f\n"),
        (Reply::Received(Ok(Vec::new(alloc))), b"a recv -\n"),
        (Reply::Received(Err(Refusal::AgainRecv)), b"a recv again\n"),
        (
            Reply::Received(Err(Refusal::NotConnected)),
            b"a recv refused 2002\n",
        ),
        (Reply::SentMessage(Ok(12)), b"a sendmsg 12\n"),
        (
            Reply::SentMessage(Err(Refusal::AgainSend)),
            b"a sendmsg again\n",
        ),
        (
            Reply::SentMessage(Err(Refusal::StreamOnly)),
            b"a sendmsg refused 5009\n",
        ),
        (
            Reply::SentMessage(Err(Refusal::TooLarge)),
            b"a sendmsg refused 5012\n",
        ),
        (Reply::ReceivedMessage(Ok(message)), b"a recvmsg 6d32\n"),
        (
            Reply::ReceivedMessage(Ok(Vec::new(alloc))),
            b"a recvmsg -\n",
        ),
        (
            Reply::ReceivedMessage(Err(Refusal::AgainRecv)),
            b"a recvmsg again\n",
        ),
        (
            Reply::Sent(Err(Refusal::MessageOnly)),
            b"a send refused 5010\n",
        ),
        (Reply::Packed(Packed::Block(21)), b"a pack data\n"),
        (Reply::Packed(Packed::DropAsk(24)), b"a pack drop\n"),
        (Reply::Packed(Packed::NotYet(7)), b"a pack notyet 7\n"),
        (Reply::Packed(Packed::Nothing), b"a pack nothing\n"),
        (Reply::Ticked, b"a tick\n"),
        (Reply::Closed, b"a close\n"),
        (Reply::Heard(Heard::Placed), b"a arrive placed\n"),
        (Reply::Heard(Heard::BadLength), b"a arrive badlength\n"),
        (
            Reply::Heard(Heard::Malformed(Malformed::UnknownType)),
            b"a arrive malformed 2\n",
        ),
    ];
    for (reply, text) in &replies {
        let printed = print_reply(&mut out, b"a", reply);
        assert_printed(&rt, &mut out, printed, text);
    }
}

#[test]
fn prints_the_other_lines(rt: HostRuntime) {
    let mut out = Vec::from_slice(rt.alloc(), b"so far\n").expect(&rt, "memory");
    let pairing = Pairing {
        kind: Kind::Stream,
        a: b"left",
        b: b"right",
        payload: 4,
        isn: 5,
        blocks: 4,
        start: 0,
    };
    let printed = print_pair(&mut out, &pairing, 8);
    assert_printed(&rt, &mut out, printed, b"pair left 9 right 10\n");
    let printed = print_dropped(&mut out, b"id");
    assert_printed(&rt, &mut out, printed, b"dropped id\n");
    let printed = print_refused(&mut out, 2);
    assert_printed(&rt, &mut out, printed, b"line 2 refused\n");
    let datagram = ScriptDatagram {
        from: Addr {
            ip: Ip::V4(0x0a00_0001),
            port: 9000,
        },
        to: Addr {
            ip: Ip::V4(0x0a00_0002),
            port: 9000,
        },
        bytes: Vec::from_slice(rt.alloc(), &[0, 255]).expect(&rt, "memory"),
    };
    let printed = print_datagram(&mut out, 0, &datagram);
    let text = b"datagram 0 10.0.0.1:9000 10.0.0.2:9000 00ff\n";
    assert_printed(&rt, &mut out, printed, text);
}

#[test]
fn prints_the_answers_of_connections(rt: HostRuntime) {
    let mut out = Vec::from_slice(rt.alloc(), b"so far\n").expect(&rt, "memory");
    let replies: [(Reply, &[u8]); 24] = [
        (Reply::Listened(Ok(())), b"s listen\n"),
        (
            Reply::Listened(Err(Refusal::BadParameter)),
            b"s listen refused 5003\n",
        ),
        (
            Reply::Listened(Err(Refusal::Connected)),
            b"s listen refused 5002\n",
        ),
        (
            Reply::Listened(Err(Refusal::OutOfMemory)),
            b"s listen refused 3002\n",
        ),
        (Reply::Connected(Ok(())), b"s connect\n"),
        (
            Reply::Connected(Err(Refusal::Connected)),
            b"s connect refused 5002\n",
        ),
        (
            Reply::Connected(Err(Refusal::BadParameter)),
            b"s connect refused 5003\n",
        ),
        (Reply::Met(Ok(())), b"s meet\n"),
        (
            Reply::Met(Err(Refusal::Connected)),
            b"s meet refused 5002\n",
        ),
        (
            Reply::Met(Err(Refusal::BadParameter)),
            b"s meet refused 5003\n",
        ),
        (
            Reply::Accepted(Err(Refusal::AgainRecv)),
            b"s accept again\n",
        ),
        (
            Reply::Accepted(Err(Refusal::NotListening)),
            b"s accept refused 5006\n",
        ),
        (
            Reply::Accepted(Err(Refusal::ConnLost(Cause::PortDown))),
            b"s accept refused 2001 port\n",
        ),
        (Reply::Shaken(Shaken::Idle), b"s shake idle\n"),
        (Reply::Shaken(Shaken::Waiting), b"s shake waiting\n"),
        (Reply::Shaken(Shaken::Done), b"s shake connected\n"),
        (Reply::Shaken(Shaken::TimedOut), b"s shake refused 1001\n"),
        (Reply::Shaken(Shaken::Rejected), b"s shake refused 1002\n"),
        (
            Reply::Shaken(Shaken::Lost(Cause::PeerShutdown)),
            b"s shake refused 2001 shutdown\n",
        ),
        (
            Reply::Shaken(Shaken::Lost(Cause::Expired)),
            b"s shake refused 2001 expired\n",
        ),
        (
            Reply::Shaken(Shaken::Lost(Cause::PortDown)),
            b"s shake refused 2001 port\n",
        ),
        (Reply::Offered { id: 3, taken: true }, b"s offer 3\n"),
        (Reply::Withdrawn, b"s withdraw\n"),
        (Reply::Heard(Heard::Request), b"s arrive request\n"),
    ];
    for (reply, text) in &replies {
        let printed = print_reply(&mut out, b"s", reply);
        assert_printed(&rt, &mut out, printed, text);
    }
}

#[test]
fn prints_hosts_sockets_and_accepted_connections(rt: HostRuntime) {
    let mut out = Vec::from_slice(rt.alloc(), b"so far\n").expect(&rt, "memory");
    let opening = Opening {
        kind: Kind::Message,
        name: b"x",
        host: b"c",
        payload: 4,
        isn: 5,
        blocks: 4,
    };
    let printed = print_host(&mut out, b"c");
    assert_printed(&rt, &mut out, printed, b"host c\n");
    let printed = print_open(&mut out, &opening, 1);
    assert_printed(&rt, &mut out, printed, b"open x 2\n");
    let printed = print_accept(&mut out, b"l", b"y", 3);
    assert_printed(&rt, &mut out, printed, b"l accept y 3\n");
    let printed = print_listen_twice(&mut out, b"t");
    assert_printed(&rt, &mut out, printed, b"t listen refused 5011\n");
    let printed = print_meet_taken(&mut out, b"u");
    assert_printed(&rt, &mut out, printed, b"u meet refused 5007\n");
}
