// The line that tells a generated run.

ghost use Rattle.std.specs.Prelude.{◌≡◌, ◌++◌, ◌≤◌, OnOk, IfOk, decimal};
ghost use Rattle.udt_model.specs.Generated.{summary_text};
ghost use Rattle.udt_model.specs.Texts.{spaced};

use itoa::Buffer;
use std::alloc::{AllocError, Global};
use udt_model::Summary;

// Adds a word, a space and a number, and these bytes after it.
fn add_number(
    line: &mut Vec<u8>,
    word: &[u8],
    number: u64,
    following: &[u8],
) -> Result<(), AllocError>
    ensures { OnOk result (line.new.items
        ≡ line.old.items ++ spaced word.now ++ decimal number ++ following.now) }
{
    let mut buffer = Buffer::new();
    line.extend_from_slice(word)?;
    line.extend_from_slice(b" ")?;
    line.extend_from_slice(buffer.format(number).as_bytes())?;
    line.extend_from_slice(following)
}

/// The line of the run of this number and of so many turns.
pub fn summary_line(
    alloc: Global,
    n: u64,
    turns: u64,
    summary: &Summary,
) -> Result<Vec<u8>, AllocError>
    ensures { IfOk result (λ line. line.items ≡ summary_text n turns summary.now) }
{
    let mut line = Vec::new(alloc);
    add_number(&mut line, b"world", n, b" ")?;
    add_number(&mut line, b"turns", turns, b" ")?;
    add_number(&mut line, b"accepted", summary.accepted, b" ")?;
    add_number(&mut line, b"delivered", summary.delivered, b" ")?;
    add_number(&mut line, b"acked", summary.acked, b" ")?;
    add_number(&mut line, b"datagrams", summary.datagrams, b"\n")?;
    Ok(line)
}
