// Pieces of printed lines, each added after what was printed.

ghost use Rattle.std.specs.Prelude.{◌≡◌, ◌++◌, ◌<◌, take, vec_len, OnOk, OnErr};
ghost use Rattle.std.specs.List.{flat_map};
ghost use Rattle.udt_model.specs.Words as spec;
ghost use Rattle.udt_model.specs.Words.{hex_pairs, hex_word};
ghost use Rattle.udt_model.specs.Texts.{spaced, ended, done_text, sent_text, received_text};
ghost use Rattle.udt_model.specs.Texts.{counted, path_text, blocks_text, others_text, perf_text};
ghost use Rattle.udt_script.specs.CodeAnswers.{read_of};

use crate::texts::no_text;
use itoa::Buffer;
use std::alloc::AllocError;
use udt_model::{Perf, Refusal};

/// Adds the pieces, one after the other.
pub fn append(out: &mut Vec<u8>, pieces: &[&[u8]]) -> Result<(), AllocError>
    ensures ok { OnOk result
        (out.new.items ≡ out.old.items ++ flat_map (λ piece. piece.now) pieces.now) }
    ensures err { OnErr result (take (vec_len out.old) out.new.items ≡ out.old.items) }
{
    for piece in pieces {
        out.extend_from_slice(piece)?;
    }
    Ok(())
}

/// Adds the line of an event: the socket's name, the event's name, and what it answered.
pub fn append_event(
    out: &mut Vec<u8>,
    name: &[u8],
    event: &[u8],
    answer: &[u8],
) -> Result<(), AllocError>
    ensures ok { OnOk result
        (out.new.items ≡ out.old.items ++ (spaced name.now ++ ended (event.now ++ answer.now))) }
    ensures err { OnErr result (take (vec_len out.old) out.new.items ≡ out.old.items) }
{
    append(out, &[name, b" ", event, answer, b"\n"])
}

/// Adds the line of a call that was done, or refused.
pub fn append_done(
    out: &mut Vec<u8>,
    name: &[u8],
    event: &[u8],
    answer: &Result<(), Refusal>,
) -> Result<(), AllocError>
    ensures ok { OnOk result (out.new.items
        ≡ out.old.items ++ (spaced name.now ++ ended (event.now ++ done_text answer.now))) }
    ensures err { OnErr result (take (vec_len out.old) out.new.items ≡ out.old.items) }
{
    match answer {
        Ok(()) => append_event(out, name, event, b""),
        Err(why) => {
            append(out, &[name, b" ", event, b" "])?;
            append(out, &[no_text(*why), b"\n"])
        }
    }
}

/// Adds the line of a call that took bytes, or was refused.
pub fn append_sent(
    out: &mut Vec<u8>,
    name: &[u8],
    event: &[u8],
    answer: &Result<usize, Refusal>,
) -> Result<(), AllocError>
    ensures ok { OnOk result (out.new.items
        ≡ out.old.items ++ (spaced name.now ++ ended (event.now ++ sent_text answer.now))) }
    ensures err { OnErr result (take (vec_len out.old) out.new.items ≡ out.old.items) }
{
    let mut buffer = Buffer::new();
    match answer {
        Ok(count) => append_event(out, name, event, buffer.format(*count).as_bytes()),
        Err(why) => append_event(out, name, event, no_text(*why)),
    }
}

/// Adds the line of a call that gave bytes, or was refused.
pub fn append_received(
    out: &mut Vec<u8>,
    name: &[u8],
    event: &[u8],
    answer: &Result<Vec<u8>, Refusal>,
) -> Result<(), AllocError>
    ensures ok { OnOk result (out.new.items
        ≡ out.old.items ++ (spaced name.now ++ ended (event.now ++ received_text (read_of answer.now)))) }
    ensures err { OnErr result (take (vec_len out.old) out.new.items ≡ out.old.items) }
{
    match answer {
        Ok(bytes) => {
            append(out, &[name, b" ", event])?;
            append_hex(out, bytes)?;
            append(out, &[b"\n"])
        }
        Err(why) => append_event(out, name, event, no_text(*why)),
    }
}

// Adds a space, a word, and a number after it.
fn append_counted(out: &mut Vec<u8>, word: &[u8], number: u64) -> Result<(), AllocError>
    ensures ok { OnOk result (out.new.items ≡ out.old.items ++ counted word.now number) }
    ensures err { OnErr result (take (vec_len out.old) out.new.items ≡ out.old.items) }
{
    let mut buffer = Buffer::new();
    append(out, &[b" ", word, b" ", buffer.format(number).as_bytes()])
}

// Adds what a socket has measured of its path.
#[tactic(auto, unfolding(udt_model::specs::Texts::path_text))]
fn append_path(out: &mut Vec<u8>, perf: &Perf) -> Result<(), AllocError>
    ensures ok { OnOk result (out.new.items ≡ out.old.items ++ path_text perf.now) }
    ensures err { OnErr result (take (vec_len out.old) out.new.items ≡ out.old.items) }
{
    append_counted(out, b"rtt", perf.rtt)?;
    append_counted(out, b"var", perf.var)?;
    append_counted(out, b"window", perf.window)?;
    append_counted(out, b"period", perf.period)
}

// Adds how many blocks it sent, and what became of those that arrived.
#[tactic(auto, unfolding(udt_model::specs::Texts::blocks_text))]
fn append_blocks(out: &mut Vec<u8>, perf: &Perf) -> Result<(), AllocError>
    ensures ok { OnOk result (out.new.items ≡ out.old.items ++ blocks_text perf.now) }
    ensures err { OnErr result (take (vec_len out.old) out.new.items ≡ out.old.items) }
{
    append_counted(out, b"sent", perf.sent)?;
    append_counted(out, b"resent", perf.resent)?;
    append_counted(out, b"placed", perf.placed)?;
    append_counted(out, b"double", perf.double)?;
    append_counted(out, b"below", perf.below)?;
    append_counted(out, b"above", perf.above)
}

// Adds what it counted of other packets, and what is acknowledged.
#[tactic(auto, unfolding(udt_model::specs::Texts::others_text))]
fn append_others(out: &mut Vec<u8>, perf: &Perf) -> Result<(), AllocError>
    ensures ok { OnOk result (out.new.items ≡ out.old.items ++ others_text perf.now) }
    ensures err { OnErr result (take (vec_len out.old) out.new.items ≡ out.old.items) }
{
    append_counted(out, b"control", perf.control)?;
    append_counted(out, b"stale", perf.stale)?;
    append_counted(out, b"foreign", perf.foreign)?;
    append_counted(out, b"malformed", perf.malformed)?;
    append_counted(out, b"acked", perf.acked)
}

/// Adds all that a socket has measured and counted.
#[tactic(auto, unfolding(udt_model::specs::Texts::perf_text))]
pub fn append_perf(out: &mut Vec<u8>, perf: &Perf) -> Result<(), AllocError>
    ensures ok { OnOk result (out.new.items ≡ out.old.items ++ perf_text perf.now) }
    ensures err { OnErr result (take (vec_len out.old) out.new.items ≡ out.old.items) }
{
    append(out, &[b"perf"])?;
    append_path(out, perf)?;
    append_blocks(out, perf)?;
    append_others(out, perf)
}

fn hex_digit(n: u8) -> u8
    requires { n < 16 }
    ensures { result ≡ spec.hex_digit n }
{
    if n < 10 { 48 + n } else { 87 + n }
}

/// Adds two hexadecimal digits a byte.
#[tactic(auto, unfolding(udt_model::specs::Words::hex_pairs))]
fn append_pairs(out: &mut Vec<u8>, bytes: &[u8]) -> Result<(), AllocError>
    ensures ok { OnOk result (out.new.items ≡ out.old.items ++ hex_pairs bytes.now) }
    ensures err { OnErr result (take (vec_len out.old) out.new.items ≡ out.old.items) }
{
    for byte in bytes {
        out.extend_from_slice(&[hex_digit(*byte / 16), hex_digit(*byte % 16)])?;
    }
    Ok(())
}

/// Adds two hexadecimal digits a byte, or a dash for no bytes.
pub fn append_hex(out: &mut Vec<u8>, bytes: &[u8]) -> Result<(), AllocError>
    ensures ok { OnOk result (out.new.items ≡ out.old.items ++ hex_word bytes.now) }
    ensures err { OnErr result (take (vec_len out.old) out.new.items ≡ out.old.items) }
{
    if bytes.is_empty() {
        return out.extend_from_slice(b"-");
    }
    append_pairs(out, bytes)
}
