// From bytes to lines.

ghost use Rattle.std.specs.Prelude.{◌≡◌, ◌≤◌, map, option_map, IfOk, IfSome};
ghost use Rattle.udt_model.specs.Lines as spec;
ghost use Rattle.udt_script.specs.CodeLines.{act_of, line_of, IsRoomy, IsInRange};

use crate::lines::{Call, Line, Opening, Pairing, ScriptDatagram};
use crate::words::{bytes, name, words};
use std::alloc::{AllocError, Global};
use udt_model::{FEWEST_BLOCKS, Kind, LAST_MOMENT, LAST_START, MOST_BLOCKS, MOST_PAYLOAD};
use udt_outside::{read_addr, read_number};

fn is_silent(line: &[u8]) -> bool
    ensures { result ≡ spec.is_silent line.now }
{
    match line {
        [] => true,
        [byte, ..] => *byte == b'#',
    }
}

// A moment, in microseconds.
fn moment(word: &[u8]) -> Option<u64>
    ensures value { result ≡ spec.moment_of word.now }
    ensures within { IfSome result (λ now. now ≤ LAST_MOMENT) }
{
    read_number(0, LAST_MOMENT, word)
}

// What the sockets of a pair carry.
fn kind(word: &[u8]) -> Option<Kind>
    ensures { result ≡ spec.kind_of word.now }
{
    if word == b"stream".as_slice() {
        Some(Kind::Stream)
    } else if word == b"message".as_slice() {
        Some(Kind::Message)
    } else {
        None
    }
}

fn pairing<'a>(
    carries: &[u8],
    a: &'a [u8],
    b: &'a [u8],
    payload: &[u8],
    isn: &[u8],
    blocks: &[u8],
    start: u64,
) -> Option<Line<'a>>
    requires { start ≤ LAST_START }
    ensures value { option_map line_of result
        ≡ spec.pairing_of carries.now a.now b.now payload.now isn.now blocks.now start }
    ensures within { IfSome result IsInRange }
{
    let kind = kind(carries)?;
    let a = name(a)?;
    let b = name(b)?;
    let payload = read_number(1, MOST_PAYLOAD as u64, payload)? as u32;
    let isn = read_number(0, (1 << 31) - 1, isn)? as u32;
    let blocks = read_number(FEWEST_BLOCKS as u64, MOST_BLOCKS as u64, blocks)? as u32;
    Some(Line::Pair(Pairing {
        kind,
        a,
        b,
        payload,
        isn,
        blocks,
        start,
    }))
}

#[tactic(auto, unfolding(udt_model::specs::Lines::pair_line))]
fn pair_line<'a>(kind: &[u8], words: &[&'a [u8]]) -> Option<Line<'a>>
    ensures value { option_map line_of result ≡ spec.pair_line kind.now (map (λ word. word.now) words.now) }
    ensures within { IfSome result IsInRange }
{
    match words {
        [a, b, payload, isn, blocks] => pairing(kind, a, b, payload, isn, blocks, 0),
        [a, b, payload, isn, blocks, start] => {
            let start = read_number(0, LAST_START, start)?;
            pairing(kind, a, b, payload, isn, blocks, start)
        }
        _ => None,
    }
}

#[tactic(auto, unfolding(udt_model::specs::Lines::host_line))]
fn host_line<'a>(host: &'a [u8], words: &[&'a [u8]]) -> Option<Line<'a>>
    ensures value { option_map line_of result
        ≡ spec.host_line host.now (map (λ word. word.now) words.now) }
    ensures within { IfSome result IsInRange }
{
    let [addr] = words else {
        return None;
    };
    let name = name(host)?;
    let addr = read_addr(addr)?;
    Some(Line::Host { name, addr })
}

#[tactic(auto, unfolding(udt_model::specs::Lines::open_line))]
fn open_line<'a>(carries: &[u8], words: &[&'a [u8]]) -> Option<Line<'a>>
    ensures value { option_map line_of result
        ≡ spec.open_line carries.now (map (λ word. word.now) words.now) }
    ensures within { IfSome result IsInRange }
{
    let [own, host, payload, isn, blocks] = words else {
        return None;
    };
    let kind = kind(carries)?;
    let own = name(own)?;
    let host = name(host)?;
    let payload = read_number(1, MOST_PAYLOAD as u64, payload)? as u32;
    let isn = read_number(0, (1 << 31) - 1, isn)? as u32;
    let blocks = read_number(FEWEST_BLOCKS as u64, MOST_BLOCKS as u64, blocks)? as u32;
    Some(Line::Open(Opening {
        kind,
        name: own,
        host,
        payload,
        isn,
        blocks,
    }))
}

// The call, where no word stands after its moment.
fn alone(call: Call, words: &[&[u8]]) -> Option<Call>
    ensures value { option_map act_of result
        ≡ spec.alone (act_of call) (map (λ word. word.now) words.now) }
    ensures same { IfSome result (λ found. found ≡ call) }
{
    if words.is_empty() { Some(call) } else { None }
}

fn listen_of(words: &[&[u8]]) -> Option<Call>
    ensures value { option_map act_of result ≡ spec.listen_of (map (λ word. word.now) words.now) }
    ensures within { IfSome result IsRoomy }
{
    let [most] = words else {
        return None;
    };
    let most = read_number(0, u32::MAX as u64, most)? as u32;
    Some(Call::Listen(most))
}

fn connect_of(words: &[&[u8]]) -> Option<Call>
    ensures value { option_map act_of result ≡ spec.connect_of (map (λ word. word.now) words.now) }
    ensures within { IfSome result IsRoomy }
{
    let [to] = words else {
        return None;
    };
    Some(Call::Connect(read_addr(to)?))
}

fn meet_of(words: &[&[u8]]) -> Option<Call>
    ensures value { option_map act_of result ≡ spec.meet_of (map (λ word. word.now) words.now) }
    ensures within { IfSome result IsRoomy }
{
    let [to] = words else {
        return None;
    };
    Some(Call::Meet(read_addr(to)?))
}

fn send_of(alloc: Global, words: &[&[u8]]) -> Result<Option<Call>, AllocError>
    ensures value { IfOk result (λ found. option_map act_of found
        ≡ spec.send_of (map (λ word. word.now) words.now)) }
    ensures within { IfOk result (λ found. IfSome found IsRoomy) }
{
    let [word] = words else {
        return Ok(None);
    };
    let Some(bytes) = bytes(alloc, word)? else {
        return Ok(None);
    };
    Ok(Some(Call::Send(bytes)))
}

fn recv_of(words: &[&[u8]]) -> Option<Call>
    ensures value { option_map act_of result ≡ spec.recv_of (map (λ word. word.now) words.now) }
    ensures within { IfSome result IsRoomy }
{
    let [room] = words else {
        return None;
    };
    let room = read_number(0, 65_536, room)? as u32;
    Some(Call::Recv(room))
}

// A time to live, or a dash for none.
fn ttl(word: &[u8]) -> Option<Option<u64>>
    ensures { result ≡ spec.ttl_of word.now }
{
    if word == b"-".as_slice() {
        return Some(None);
    }
    Some(Some(moment(word)?))
}

// 1 for a message that must be delivered in order, 0 for another.
fn order(word: &[u8]) -> Option<bool>
    ensures { result ≡ spec.order_of word.now }
{
    Some(read_number(0, 1, word)? == 1)
}

fn sendmsg_of(alloc: Global, words: &[&[u8]]) -> Result<Option<Call>, AllocError>
    ensures value { IfOk result (λ found. option_map act_of found
        ≡ spec.sendmsg_of (map (λ word. word.now) words.now)) }
    ensures within { IfOk result (λ found. IfSome found IsRoomy) }
{
    let [ttl_word, order_word, word] = words else {
        return Ok(None);
    };
    let Some(ttl) = ttl(ttl_word) else {
        return Ok(None);
    };
    let Some(order) = order(order_word) else {
        return Ok(None);
    };
    let Some(bytes) = bytes(alloc, word)? else {
        return Ok(None);
    };
    Ok(Some(Call::SendMessage { ttl, order, bytes }))
}

fn recvmsg_of(words: &[&[u8]]) -> Option<Call>
    ensures value { option_map act_of result ≡ spec.recvmsg_of (map (λ word. word.now) words.now) }
    ensures within { IfSome result IsRoomy }
{
    let [room] = words else {
        return None;
    };
    let room = read_number(0, 65_536, room)? as u32;
    Some(Call::RecvMessage(room))
}

// The call with this name, by the words after its moment.
#[tactic(auto, unfolding(udt_model::specs::Lines::call_of))]
fn call_of(alloc: Global, name: &[u8], words: &[&[u8]]) -> Result<Option<Call>, AllocError>
    ensures value { IfOk result (λ found. option_map act_of found
        ≡ spec.call_of name.now (map (λ word. word.now) words.now)) }
    ensures within { IfOk result (λ found. IfSome found IsRoomy) }
{
    if name == b"listen".as_slice() {
        Ok(listen_of(words))
    } else if name == b"connect".as_slice() {
        Ok(connect_of(words))
    } else if name == b"meet".as_slice() {
        Ok(meet_of(words))
    } else if name == b"shake".as_slice() {
        Ok(alone(Call::Shake, words))
    } else if name == b"send".as_slice() {
        send_of(alloc, words)
    } else if name == b"recv".as_slice() {
        Ok(recv_of(words))
    } else if name == b"sendmsg".as_slice() {
        sendmsg_of(alloc, words)
    } else if name == b"recvmsg".as_slice() {
        Ok(recvmsg_of(words))
    } else if name == b"pack".as_slice() {
        Ok(alone(Call::Pack, words))
    } else if name == b"tick".as_slice() {
        Ok(alone(Call::Tick, words))
    } else if name == b"close".as_slice() {
        Ok(alone(Call::Close, words))
    } else if name == b"perf".as_slice() {
        Ok(alone(Call::Perf, words))
    } else {
        Ok(None)
    }
}

#[tactic(auto, unfolding(udt_model::specs::Lines::call_line))]
fn call_line<'a>(
    alloc: Global,
    first: &'a [u8],
    call: &[u8],
    words: &[&[u8]],
) -> Result<Option<Line<'a>>, AllocError>
    ensures value { IfOk result (λ found. option_map line_of found
        ≡ spec.call_line first.now call.now (map (λ word. word.now) words.now)) }
    ensures within { IfOk result (λ found. IfSome found IsInRange) }
{
    let [now, others @ ..] = words else {
        return Ok(None);
    };
    let Some(name) = name(first) else {
        return Ok(None);
    };
    let Some(now) = moment(now) else {
        return Ok(None);
    };
    let Some(call) = call_of(alloc, call, others)? else {
        return Ok(None);
    };
    Ok(Some(Line::Call { name, now, call }))
}

#[tactic(auto, unfolding(udt_model::specs::Lines::accept_line))]
fn accept_line<'a>(first: &'a [u8], words: &[&'a [u8]]) -> Option<Line<'a>>
    ensures value { option_map line_of result
        ≡ spec.accept_line first.now (map (λ word. word.now) words.now) }
    ensures within { IfSome result IsInRange }
{
    let [now, accepted] = words else {
        return None;
    };
    let own = name(first)?;
    let now = moment(now)?;
    let accepted = name(accepted)?;
    Some(Line::Accept {
        name: own,
        now,
        accepted,
    })
}

#[tactic(auto, unfolding(udt_model::specs::Lines::deliver_line))]
fn deliver_line<'a>(number: &'a [u8], words: &[&'a [u8]]) -> Option<Line<'a>>
    ensures value { option_map line_of result
        ≡ spec.deliver_line number.now (map (λ word. word.now) words.now) }
    ensures within { IfSome result IsInRange }
{
    let [now] = words else {
        return None;
    };
    let number = read_number(0, u64::MAX, number)?;
    let now = moment(now)?;
    Some(Line::Deliver { number, now })
}

#[tactic(auto, unfolding(udt_model::specs::Lines::raw_line))]
fn raw_line<'a>(
    alloc: Global,
    now: &'a [u8],
    words: &[&'a [u8]],
) -> Result<Option<Line<'a>>, AllocError>
    ensures value { IfOk result (λ found. option_map line_of found
        ≡ spec.raw_line now.now (map (λ word. word.now) words.now)) }
    ensures within { IfOk result (λ found. IfSome found IsInRange) }
{
    let [from, to, word] = words else {
        return Ok(None);
    };
    let Some(now) = moment(now) else {
        return Ok(None);
    };
    let Some(from) = read_addr(from) else {
        return Ok(None);
    };
    let Some(to) = read_addr(to) else {
        return Ok(None);
    };
    let Some(bytes) = bytes(alloc, word)? else {
        return Ok(None);
    };
    let datagram = ScriptDatagram { from, to, bytes };
    Ok(Some(Line::Raw { now, datagram }))
}

// The line of a call of the socket that the first word names, by the second word.
fn line_by_second<'a>(
    alloc: Global,
    first: &'a [u8],
    second: &[u8],
    others: &[&'a [u8]],
) -> Result<Option<Line<'a>>, AllocError>
    ensures value { IfOk result (λ found. option_map line_of found
        ≡ spec.line_by_second first.now second.now (map (λ word. word.now) others.now)) }
    ensures within { IfOk result (λ found. IfSome found IsInRange) }
{
    if second == b"accept".as_slice() {
        return Ok(accept_line(first, others));
    }
    call_line(alloc, first, second, others)
}

// A line that is no call, by its first word.
fn line_by_first<'a>(
    alloc: Global,
    first: &[u8],
    second: &'a [u8],
    others: &[&'a [u8]],
) -> Result<Option<Line<'a>>, AllocError>
    ensures value { IfOk result (λ found. option_map line_of found
        ≡ spec.line_by_first first.now second.now (map (λ word. word.now) others.now)) }
    ensures within { IfOk result (λ found. IfSome found IsInRange) }
{
    if first == b"deliver".as_slice() {
        Ok(deliver_line(second, others))
    } else if first == b"raw".as_slice() {
        raw_line(alloc, second, others)
    } else if first == b"pair".as_slice() {
        Ok(pair_line(second, others))
    } else if first == b"open".as_slice() {
        Ok(open_line(second, others))
    } else if first == b"host".as_slice() {
        Ok(host_line(second, others))
    } else {
        Ok(None)
    }
}

// A name may be any word, so a line that isn't of a form by its first word is read as a call. No line is of
// two forms.
#[tactic(auto, unfolding(udt_model::specs::Lines::line_by_words))]
fn line_by_words<'a>(alloc: Global, words: &[&'a [u8]]) -> Result<Option<Line<'a>>, AllocError>
    ensures value { IfOk result (λ found. option_map line_of found
        ≡ spec.line_by_words (map (λ word. word.now) words.now)) }
    ensures within { IfOk result (λ found. IfSome found IsInRange) }
{
    let [first, second, others @ ..] = words else {
        return Ok(None);
    };
    if let Some(line) = line_by_first(alloc, first, second, others)? {
        return Ok(Some(line));
    }
    line_by_second(alloc, first, second, others)
}

/// What the line says, where it is of a form and each value is in its range.
#[tactic(auto, unfolding(udt_model::specs::Lines::read_line))]
pub fn read_line<'a>(alloc: Global, line: &'a [u8]) -> Result<Option<Line<'a>>, AllocError>
    ensures value { IfOk result (λ found. option_map line_of found ≡ spec.read_line line.now) }
    ensures within { IfOk result (λ found. IfSome found IsInRange) }
{
    if is_silent(line) {
        return Ok(Some(Line::Silent));
    }
    let words = words(alloc, line)?;
    line_by_words(alloc, words.as_slice())
}
