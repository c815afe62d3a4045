// A script, played from its first byte to its end or to a line that is refused.

ghost use Rattle.std.specs.Prelude.{◌≡◌, ◌+◌, ◌≤◌, ◌<◌, ◌∷◌, length, take, sum_by, IfOk, OnErr, false};
ghost use Rattle.std.specs.Option.{ForSome};
ghost use Rattle.udt_model.specs.declared.limits.TheConstants.{LONGEST_SCRIPT};
ghost use Rattle.udt_model.specs.Script.{pieces_of, line_in, played_with, size_of};
ghost use Rattle.udt_tool.specs.Plays.{played_of, AnswersPiece};

use std::alloc::Global;
use udt_model::LONGEST_SCRIPT;
use udt_outside::OutOfMemory;
use udt_rate::Control;
use udt_script::print_refused;
use udt_world::{LineNo, World};

/// What a script prints, and whether a line of it was refused.
#[derive(Drop)]
pub struct Output {
    pub text: Vec<u8>,
    pub refused: bool,
}

/// The part of a script that is looked at: no more than one byte past the limit.
fn looked_at(text: &[u8]) -> &[u8]
    ensures { result.now ≡ take (LONGEST_SCRIPT + 1) text.now }
{
    let most = LONGEST_SCRIPT as usize + 1;
    if text.len() > most {
        &text[..most]
    } else {
        text
    }
}

fn line_in(piece: &[u8]) -> &[u8]
    ensures value { result.now ≡ line_in piece.now }
    ensures within { length result.now ≤ length piece.now }
{
    &piece[..line_len(piece)]
}

fn line_len(piece: &[u8]) -> usize
    ensures value { result ≡ length (line_in piece.now) }
    ensures within { result ≤ length piece.now }
{
    piece.iter().take_while(|byte| **byte != b'\n').count()
}

/// The first line with its line feed, which the last one may lack, and what stands after it.
fn first_piece<'a>(text: &'a [u8]) -> (&'a [u8], &'a [u8])
    requires some { 0 < length text.now }
    ensures pieces { pieces_of text.now ≡ result.0.now ∷ pieces_of result.1.now }
    ensures line { length result.0.now ≤ length (line_in result.0.now) + 1 }
    ensures lengths { length result.0.now + length result.1.now ≡ length text.now }
    ensures first { 0 < length result.0.now }
{
    let at = line_len(text);
    if at == text.len() {
        text.split_at(at)
    } else {
        text.split_at(at + 1)
    }
}

/// Plays one piece after the lines that were accepted, of this size together.
fn play_piece<C: Control + Drop>(
    world: &mut World<C>,
    size: u64,
    piece: &[u8],
    out: &mut Vec<u8>,
) -> Result<(), LineNo>
    requires size { ForSome world.old (λ lines. size ≡ size_of lines) }
    requires bound { size ≤ LONGEST_SCRIPT + 1 }
    requires fits { length piece.now ≤ LONGEST_SCRIPT + 1 }
    ensures { AnswersPiece C.ways
        world.old piece.now result world.new out.old.items out.new.items }
{
    if size + piece.len() as u64 > LONGEST_SCRIPT {
        return Err(LineNo::Refused);
    }
    world.line(line_in(piece), out)
}

/// Plays a script under a rate control: the text that it prints, up to the first line that is
/// refused.
pub fn play<C: Control + Drop>(alloc: Global, text: &[u8]) -> Result<Output, OutOfMemory>
    ensures value { IfOk result (λ output. played_of output ≡ played_with C.ways text.now) }
    ensures fits { IfOk result
        (λ output. output.refused ≡ false → length text.now ≤ LONGEST_SCRIPT) }
    ensures memory { OnErr result (0 < length text.now) }
{
    let mut world = World::<C>::new(alloc);
    let mut out = Vec::new(alloc);
    let mut rest = looked_at(text);
    let mut number: u64 = 1;
    let mut size: u64 = 0;
    while rest.len() > 0 {
        let (piece, others) = first_piece(rest);
        match play_piece(&mut world, size, piece, &mut out) {
            Ok(()) => {}
            Err(LineNo::OutOfMemory) => return Err(OutOfMemory),
            Err(LineNo::Refused) => {
                let Ok(()) = print_refused(&mut out, number) else {
                    return Err(OutOfMemory);
                };
                return Ok(Output {
                    text: out,
                    refused: true,
                });
            }
        }
        size += line_len(piece) as u64 + 1;
        number += 1;
        rest = others;
    }
    Ok(Output {
        text: out,
        refused: false,
    })
}
