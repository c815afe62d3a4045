// A whole script read, and a whole text written, over sources and sinks that move pieces.

ghost use Rattle.std.specs.Prelude.{◌≡◌, ℕ, ◌+◌, ◌≤◌, ◌<◌, List, length, vec_len, IfSome, IfOk, IfErr, OnOk, OnErr};
ghost use Rattle.udt_outside.specs.Faults.{Rose};
ghost use Rattle.udt_tool.specs.Streamed.{ReadsSome, ReadsMore, ReadsScript, ReadsPiece, Wrote, WrotePart};
ghost use Rattle.udt_tool.specs.declared.streams.ReadNo.TheVariants as no;

use std::alloc::Global;
use udt_model::LONGEST_SCRIPT;
use udt_outside::{Failed, Sink, Source};

/// Why a script was not read.
#[derive(Clone, Copy, Debug, PartialEq, Eq)]
pub enum ReadNo {
    SourceFailed,
    OutOfMemory,
}

/// Reads a piece of a script after what was read, and answers its length.
fn read_piece<S: Source>(input: &mut S, script: &mut Vec<u8>) -> Result<usize, ReadNo>
    ensures ok { IfOk result (λ n. IfSome (S.left input.old) (λ left.
        ReadsPiece left (S.left input.new) script.old.items script.new.items n)) }
    ensures longer { IfOk result (λ n. vec_len script.new ≡ vec_len script.old + n) }
    ensures err { OnErr result (IfSome (S.left input.old) (λ left.
        ReadsSome left (S.left input.new))) }
    ensures memory { IfErr result (λ why. why ≡ no.OutOfMemory
        → IfSome (S.left input.old) (λ left. ReadsMore left (S.left input.new))) }
    ensures source_failed { IfErr result (λ why. why ≡ no.SourceFailed
        → Rose (S.faults input.old) (S.faults input.new)) }
    ensures faults { S.faults input.old ≤ S.faults input.new }
{
    let mut buffer = [0u8; 4096];
    let Ok(n) = input.read(&mut buffer) else {
        return Err(ReadNo::SourceFailed);
    };
    if n == 0 {
        return Ok(0);
    }
    let Ok(()) = script.extend_from_slice(&buffer[..n]) else {
        return Err(ReadNo::OutOfMemory);
    };
    Ok(n)
}

/// Reads a script: all that a source has, but not far past the limit.
pub fn read_all<S: Source>(alloc: Global, input: &mut S) -> Result<Vec<u8>, ReadNo>
    ensures ok { IfOk result (λ script. IfSome (S.left input.old) (λ left.
        ReadsScript left (S.left input.new) script.items)) }
    ensures err { OnErr result (IfSome (S.left input.old) (λ left.
        ReadsSome left (S.left input.new))) }
    ensures memory { IfErr result (λ why. why ≡ no.OutOfMemory
        → IfSome (S.left input.old) (λ left. ReadsMore left (S.left input.new))) }
    ensures source_failed { IfErr result (λ why. why ≡ no.SourceFailed
        → Rose (S.faults input.old) (S.faults input.new)) }
{
    let mut script = Vec::new(alloc);
    while script.len() as u64 <= LONGEST_SCRIPT {
        match read_piece(input, &mut script) {
            Ok(0) => return Ok(script),
            Ok(_) => {}
            Err(why) => return Err(why),
        }
    }
    Ok(script)
}

/// Writes all of a text.
pub fn write_all<K: Sink>(out: &mut K, text: &[u8]) -> Result<(), Failed>
    ensures ok { OnOk result (Wrote (K.taken out.old) (K.taken out.new) text.now) }
    ensures err { OnErr result (WrotePart (K.taken out.old) (K.taken out.new) text.now) }
    ensures sink_failed { OnErr result (Rose (K.faults out.old) (K.faults out.new)) }
{
    let mut rest = text;
    while rest.len() > 0 {
        let n = out.write(rest)?;
        rest = &rest[n..];
    }
    Ok(())
}
