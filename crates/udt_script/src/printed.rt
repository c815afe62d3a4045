// The lines that a script prints.

ghost use Rattle.std.specs.Prelude.{◌≡◌, ◌+◌, ◌++◌, ◌<◌, ◌^◌, take, vec_len, codes, OnOk, OnErr};
ghost use Rattle.udt_model.specs.Addresses.{address_text};
ghost use Rattle.udt_model.specs.Script.{refused_at};
ghost use Rattle.udt_model.specs.Texts.{spaced, ended, datagram_text, pair_text, host_text, open_text};
ghost use Rattle.udt_model.specs.Texts.{accept_text, listen_twice_text, meet_taken_text};
ghost use Rattle.udt_script.specs.CodeAnswers.{text_of};
ghost use Rattle.udt_script.specs.CodeLines.{pairing_of, opening_of, datagram_of};

use crate::append::{
    append, append_done, append_event, append_hex, append_perf, append_received, append_sent,
};
use crate::lines::{Opening, Pairing, Reply, ScriptDatagram};
use crate::texts::{heard_text, no_text, shaken_text};
use itoa::Buffer;
use std::alloc::AllocError;
use udt_model::{Addr, Packed};
use udt_outside::write_addr;

/// What the socket with this name answered to an event.
pub fn print_reply(out: &mut Vec<u8>, name: &[u8], reply: &Reply) -> Result<(), AllocError>
    ensures ok { OnOk result
        (out.new.items ≡ out.old.items ++ (spaced name.now ++ ended (text_of reply.now))) }
    ensures err { OnErr result (take (vec_len out.old) out.new.items ≡ out.old.items) }
{
    let mut buffer = Buffer::new();
    match reply {
        Reply::Listened(answer) => append_done(out, name, b"listen", answer),
        Reply::Connected(answer) => append_done(out, name, b"connect", answer),
        Reply::Met(answer) => append_done(out, name, b"meet", answer),
        Reply::Accepted(Ok(id)) => {
            append_event(out, name, b"accept ", buffer.format(*id).as_bytes())
        }
        Reply::Accepted(Err(why)) => append_event(out, name, b"accept ", no_text(*why)),
        Reply::Shaken(shaken) => append_event(out, name, b"shake ", shaken_text(*shaken)),
        Reply::Offered { id, taken: _ } => {
            append_event(out, name, b"offer ", buffer.format(*id).as_bytes())
        }
        Reply::Withdrawn => append_event(out, name, b"withdraw", b""),
        Reply::Sent(answer) => append_sent(out, name, b"send ", answer),
        Reply::Received(answer) => append_received(out, name, b"recv ", answer),
        Reply::SentMessage(answer) => append_sent(out, name, b"sendmsg ", answer),
        Reply::ReceivedMessage(answer) => append_received(out, name, b"recvmsg ", answer),
        Reply::Packed(Packed::Block(_)) => append_event(out, name, b"pack ", b"data"),
        Reply::Packed(Packed::DropAsk(_)) => append_event(out, name, b"pack ", b"drop"),
        Reply::Packed(Packed::NotYet(until)) => {
            append_event(out, name, b"pack notyet ", buffer.format(*until).as_bytes())
        }
        Reply::Packed(Packed::Nothing) => append_event(out, name, b"pack ", b"nothing"),
        Reply::Ticked => append_event(out, name, b"tick", b""),
        Reply::Closed => append_event(out, name, b"close", b""),
        Reply::Measured(perf) => {
            append(out, &[name, b" "])?;
            append_perf(out, perf)?;
            append(out, &[b"\n"])
        }
        Reply::Heard(heard) => append_event(out, name, b"arrive ", heard_text(*heard)),
    }
}

/// A connection that the socket with this name accepted: its new name and its ID.
pub fn print_accept(
    out: &mut Vec<u8>,
    name: &[u8],
    accepted: &[u8],
    id: u32,
) -> Result<(), AllocError>
    ensures ok { OnOk result
        (out.new.items ≡ out.old.items ++ accept_text name.now accepted.now id) }
    ensures err { OnErr result (take (vec_len out.old) out.new.items ≡ out.old.items) }
{
    let mut buffer = Buffer::new();
    append(
        out,
        &[
            name,
            b" accept ",
            accepted,
            b" ",
            buffer.format(id).as_bytes(),
            b"\n",
        ],
    )
}

/// The refusal of a listen at a host where a socket listens.
pub fn print_listen_twice(out: &mut Vec<u8>, name: &[u8]) -> Result<(), AllocError>
    ensures ok { OnOk result (out.new.items ≡ out.old.items ++ listen_twice_text name.now) }
    ensures err { OnErr result (take (vec_len out.old) out.new.items ≡ out.old.items) }
{
    append_event(out, name, b"listen ", b"refused 5011")
}

/// The refusal of a rendezvous where a socket of the host meets the address, or the socket meets
/// one.
pub fn print_meet_taken(out: &mut Vec<u8>, name: &[u8]) -> Result<(), AllocError>
    ensures ok { OnOk result (out.new.items ≡ out.old.items ++ meet_taken_text name.now) }
    ensures err { OnErr result (take (vec_len out.old) out.new.items ≡ out.old.items) }
{
    append_event(out, name, b"meet ", b"refused 5007")
}

fn addr_text<'a>(addr: Addr, room: &'a mut [u8; 47]) -> &'a [u8]
    ensures { result.now ≡ address_text addr }
{
    let count = write_addr(addr, room);
    &room[..count]
}

/// A datagram that was emitted, under its number.
#[tactic(auto, unfolding(udt_model::specs::Texts::datagram_text))]
pub fn print_datagram(
    out: &mut Vec<u8>,
    number: u64,
    datagram: &ScriptDatagram,
) -> Result<(), AllocError>
    ensures ok { OnOk result
        (out.new.items ≡ out.old.items ++ datagram_text number (datagram_of datagram.now)) }
    ensures err { OnErr result (take (vec_len out.old) out.new.items ≡ out.old.items) }
{
    let mut buffer = Buffer::new();
    let number = buffer.format(number).as_bytes();
    let mut from_room = [0; 47];
    let from = addr_text(datagram.from, &mut from_room);
    let mut to_room = [0; 47];
    let to = addr_text(datagram.to, &mut to_room);
    append(out, &[b"datagram ", number, b" ", from, b" ", to, b" "])?;
    append_hex(out, &datagram.bytes)?;
    append(out, &[b"\n"])
}

/// A new pair of sockets and their IDs, where there were `count` sockets before.
pub fn print_pair(out: &mut Vec<u8>, pairing: &Pairing, count: usize) -> Result<(), AllocError>
    requires { count + 2 < 2 ^ 64 }
    ensures ok { OnOk result
        (out.new.items ≡ out.old.items ++ pair_text (pairing_of pairing.now) count) }
    ensures err { OnErr result (take (vec_len out.old) out.new.items ≡ out.old.items) }
{
    let mut first = Buffer::new();
    let first = first.format(count + 1).as_bytes();
    let mut second = Buffer::new();
    let second = second.format(count + 2).as_bytes();
    append(
        out,
        &[
            b"pair ", pairing.a, b" ", first, b" ", pairing.b, b" ", second, b"\n",
        ],
    )
}

/// A new host.
pub fn print_host(out: &mut Vec<u8>, name: &[u8]) -> Result<(), AllocError>
    ensures ok { OnOk result (out.new.items ≡ out.old.items ++ host_text name.now) }
    ensures err { OnErr result (take (vec_len out.old) out.new.items ≡ out.old.items) }
{
    append(out, &[b"host ", name, b"\n"])
}

/// A new socket and its ID, where there were `count` sockets before.
pub fn print_open(out: &mut Vec<u8>, opening: &Opening, count: usize) -> Result<(), AllocError>
    requires { count + 1 < 2 ^ 64 }
    ensures ok { OnOk result
        (out.new.items ≡ out.old.items ++ open_text (opening_of opening.now) count) }
    ensures err { OnErr result (take (vec_len out.old) out.new.items ≡ out.old.items) }
{
    let mut buffer = Buffer::new();
    let id = buffer.format(count + 1).as_bytes();
    append(out, &[b"open ", opening.name, b" ", id, b"\n"])
}

/// A datagram that came to no socket, and the word for why.
pub fn print_dropped(out: &mut Vec<u8>, word: &[u8]) -> Result<(), AllocError>
    ensures ok { OnOk result (out.new.items ≡ out.old.items ++ codes "dropped " ++ ended word.now) }
    ensures err { OnErr result (take (vec_len out.old) out.new.items ≡ out.old.items) }
{
    append(out, &[b"dropped ", word, b"\n"])
}

/// The number of a line that was refused.
pub fn print_refused(out: &mut Vec<u8>, number: u64) -> Result<(), AllocError>
    ensures ok { OnOk result (out.new.items ≡ out.old.items ++ (refused_at number).text) }
    ensures err { OnErr result (take (vec_len out.old) out.new.items ≡ out.old.items) }
{
    let mut buffer = Buffer::new();
    append(
        out,
        &[b"line ", buffer.format(number).as_bytes(), b" refused\n"],
    )
}
