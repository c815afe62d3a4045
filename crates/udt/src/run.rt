// What the program does with its arguments, and the exit code that it ends with.

ghost use Rattle.std.specs.Prelude.{◌≡◌, ◌≢◌, true, false, ◌∷◌, [], drop, IfOk, OnErr};
ghost use Rattle.std.specs.Vec.Iter.{into_iter_items};
ghost use Rattle.std.specs.Process.{exit_status};
ghost use Rattle.udt_outside.specs.Faults.{Rose};
ghost use Rattle.udt_tool.specs.Commands.{is_replay, is_command, outcome_of, faulty, IsStatus, IsFaultless, HasStatus, HasText, Prints};
ghost use Rattle.udt_tool.specs.declared.offline.TheConstants.{NO_COMMAND, SOURCE_FAILED, SINK_FAILED, OUT_OF_MEMORY};
ghost use Rattle.udt.specs.Arguments.{command_of};

use std::alloc::{AllocError, Global};
use std::env::Args;
use std::io;
use std::process::ExitCode;
use udt_outside::{Sink, Source};
use udt_tool::{OUT_OF_MEMORY, run_plain};

/// The words after the program's name, which is the first argument.
fn words_of(alloc: Global, mut args: Args) -> Result<Vec<String>, AllocError>
    ensures { IfOk result (λ words. words.items ≡ drop 1 (into_iter_items args)) }
{
    let _name = args.next();
    let mut words = Vec::new(alloc);
    for word in args {
        words.push(word)?;
    }
    Ok(words)
}

/// Does the command of the words and ends with its status. Arguments that are not UTF-8 make no
/// command, as if there were no words. Without memory for the words the status is `OUT_OF_MEMORY`.
pub fn run<S: Source, K: Sink>(
    alloc: Global,
    args: io::Result<Args>,
    input: &mut S,
    out: &mut K,
) -> ExitCode
    ensures status { IsStatus (exit_status result) }
    ensures command { IfOk args (λ given. is_command (command_of (into_iter_items given)) ≡ true
        → exit_status result ≢ NO_COMMAND) }
    ensures outcome { IfOk args (λ given.
        HasStatus (outcome_of (command_of (into_iter_items given)))
        (S.left input.old) (exit_status result)) }
    ensures text { IfOk args (λ given.
        HasText (outcome_of (command_of (into_iter_items given)))
        (S.left input.old) (K.taken out.old) (K.taken out.new) (exit_status result)) }
    ensures printed { IfOk args (λ given. is_replay (command_of (into_iter_items given)) ≡ false
        → Prints (outcome_of (command_of (into_iter_items given)) [])
        (K.taken out.old) (K.taken out.new) (exit_status result)) }
    ensures unread { IfOk args (λ given. is_replay (command_of (into_iter_items given)) ≡ false
        → input.new ≡ input.old) }
    ensures no_words { OnErr args
        (Prints faulty (K.taken out.old) (K.taken out.new) (exit_status result)) }
    ensures unwritten { exit_status result ≡ OUT_OF_MEMORY → out.new ≡ out.old }
    ensures source_failed { exit_status result ≡ SOURCE_FAILED
        → Rose (S.faults input.old) (S.faults input.new) }
    ensures sink_failed { exit_status result ≡ SINK_FAILED
        → Rose (K.faults out.old) (K.faults out.new) }
    ensures faultless { ¬ Rose (S.faults input.old) (S.faults input.new)
        → ¬ Rose (K.faults out.old) (K.faults out.new) → IsFaultless (exit_status result) }
{
    let words = match args {
        Ok(args) => words_of(alloc, args),
        Err(error) if error.kind() == io::ErrorKind::OutOfMemory => Err(AllocError),
        Err(_) => Ok(Vec::new(alloc)),
    };
    match words {
        Ok(words) => ExitCode::from(run_plain(alloc, &words, input, out)),
        Err(_) => ExitCode::from(OUT_OF_MEMORY),
    }
}
