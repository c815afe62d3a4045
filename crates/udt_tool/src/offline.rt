// The commands that need no network.

ghost use Rattle.std.specs.Prelude.{◌≡◌, ◌≢◌, ◌≤◌, ◌<◌, length, true, false, is_some, [], ◌∷◌, Some, IfSome, IfNone};
ghost use Rattle.std.specs.String.{string_bytes};
ghost use Rattle.udt_model.specs.declared.limits.TheConstants.{LONGEST_SCRIPT};
ghost use Rattle.udt_outside.specs.Faults.{Rose};
ghost use Rattle.udt_tool.specs.Commands as spec;
ghost use Rattle.udt_tool.specs.Commands.{spelled, faulty, replayed, replays, generates, done_of, outcome_of, is_early, is_replaying, is_done, is_replay, is_command, streams, ReadsToEnd, ReadsThere, LosesMemory, Prints, Runs, IsAmong};
ghost use Rattle.udt_tool.specs.Plays.{played_of};
ghost use Rattle.udt_tool.specs.Told.{PlaysInStep};
ghost use Rattle.udt_words.specs.Ranges.{IsInRange};
ghost use Rattle.udt_words.specs.declared.limits.TheConstants.{MOST_WORLD_TURNS};

use crate::controls::{generate_under, play_under};
use crate::play::Output;
use crate::streams::{ReadNo, read_all, write_all};
use crate::summaries::summary_line;
use std::alloc::Global;
use udt_model::ControlName;
use udt_outside::{Failed, Sink, Source};
use udt_words::{Order, WordsFault, read_words};

/// The command was done; a script was read to its end.
pub const DONE: u8 = 0;

/// The words of the command line are no command.
pub const NO_COMMAND: u8 = 1;

/// A line of a script is refused.
pub const REFUSED: u8 = 2;

/// The source failed.
pub const SOURCE_FAILED: u8 = 3;

/// The sink failed.
pub const SINK_FAILED: u8 = 4;

/// No memory was left.
pub const OUT_OF_MEMORY: u8 = 8;

const USAGE: &[u8] =
    b"usage: udt replay [CONTROL] | world N TURNS [CONTROL] | pair SIZE COUNT N | recv PORT FILE COUNT | recv6 PORT FILE COUNT | send FILE ADDR PORT | record TURNS N | check\n";

fn names_offline(word: &String) -> bool
    ensures { result ≡ spec.is_offline (string_bytes word.now ∷ []) }
{
    word.as_bytes() == b"replay".as_slice() || word.as_bytes() == b"world".as_slice()
}

fn is_offline(words: &[String]) -> bool
    ensures { result ≡ spec.is_offline (spelled words.now) }
{
    match words {
        [] => true,
        [first, ..] => names_offline(first),
    }
}

/// Writes a text, and answers a status that is not early, or `SINK_FAILED`.
fn print<K: Sink>(text: &[u8], status: u8, out: &mut K) -> u8
    requires { is_early status ≡ false }
    ensures printed { Prints (record { text = text.now; status = status })
        (K.taken out.old) (K.taken out.new) result }
    ensures known { IsAmong (status ∷ SINK_FAILED ∷ []) result }
    ensures sink_failed { result ≡ SINK_FAILED → Rose (K.faults out.old) (K.faults out.new) }
{
    match write_all(out, text) {
        Ok(()) => status,
        Err(Failed) => SINK_FAILED,
    }
}

/// Writes the usage line.
fn print_usage<K: Sink>(out: &mut K) -> u8
    ensures printed { Prints faulty (K.taken out.old) (K.taken out.new) result }
    ensures known { IsAmong (NO_COMMAND ∷ SINK_FAILED ∷ []) result }
    ensures sink_failed { result ≡ SINK_FAILED → Rose (K.faults out.old) (K.faults out.new) }
{
    print(USAGE, NO_COMMAND, out)
}

fn status_of(output: &Output) -> u8
    ensures value { result ≡ (replayed (played_of output.now)).status }
    ensures known { IsAmong (DONE ∷ REFUSED ∷ []) result }
    ensures done { result ≡ DONE → output.now.refused ≡ false }
{
    if output.refused { REFUSED } else { DONE }
}

/// Plays a script that was read, and writes what it prints.
fn play_out<K: Sink>(alloc: Global, control: ControlName, script: &[u8], out: &mut K) -> u8
    ensures printed { Prints (replays control script.now)
        (K.taken out.old) (K.taken out.new) result }
    ensures command { result ≢ NO_COMMAND }
    ensures fits { result ≡ DONE → length script.now ≤ LONGEST_SCRIPT }
    ensures memory { result ≡ OUT_OF_MEMORY → 0 < length script.now }
    ensures unwritten { result ≡ OUT_OF_MEMORY → out.new ≡ out.old }
    ensures sink_failed { result ≡ SINK_FAILED → Rose (K.faults out.old) (K.faults out.new) }
{
    match play_under(alloc, control, script) {
        Ok(output) => print(&output.text, status_of(&output), out),
        Err(_) => OUT_OF_MEMORY,
    }
}

/// Replays a script.
fn replay<S: Source, K: Sink>(alloc: Global, control: ControlName, input: &mut S, out: &mut K) -> u8
    ensures run { Runs (replays control)
        (streams (S.left input.old) (S.faults input.old) (K.taken out.old) (K.faults out.old))
        (streams (S.left input.new) (S.faults input.new) (K.taken out.new) (K.faults out.new))
        result }
    ensures command { result ≢ NO_COMMAND }
    ensures to_end { ReadsToEnd (S.left input.old) (S.left input.new) result }
    ensures memory { result ≡ OUT_OF_MEMORY → ReadsThere (S.left input.old) (S.left input.new) }
    ensures unwritten { result ≡ OUT_OF_MEMORY → out.new ≡ out.old }
{
    match read_all(alloc, input) {
        Ok(script) => play_out(alloc, control, &script, out),
        Err(ReadNo::SourceFailed) => SOURCE_FAILED,
        Err(ReadNo::OutOfMemory) => OUT_OF_MEMORY,
    }
}

/// Generates a run, and writes its line.
fn tell_world<K: Sink>(alloc: Global, control: ControlName, n: u64, turns: u64, out: &mut K) -> u8
    requires { turns ≤ MOST_WORLD_TURNS }
    ensures printed { Prints (generates control n turns)
        (K.taken out.old) (K.taken out.new) result }
    ensures command { result ≢ NO_COMMAND }
    ensures unwritten { result ≡ OUT_OF_MEMORY → out.new ≡ out.old }
    ensures sink_failed { result ≡ SINK_FAILED → Rose (K.faults out.old) (K.faults out.new) }
{
    let Ok(summary) = generate_under(alloc, control, n, turns) else {
        return OUT_OF_MEMORY;
    };
    match summary_line(alloc, n, turns, &summary) {
        Ok(line) => print(&line, DONE, out),
        Err(_) => OUT_OF_MEMORY,
    }
}

/// Does what an order says, or writes the usage line where it is not done here.
fn do_order<S: Source, K: Sink>(alloc: Global, order: &Order, input: &mut S, out: &mut K) -> u8
    requires { IsInRange order.now }
    ensures run { Runs (done_of (Some order.now))
        (streams (S.left input.old) (S.faults input.old) (K.taken out.old) (K.faults out.old))
        (streams (S.left input.new) (S.faults input.new) (K.taken out.new) (K.faults out.new))
        result }
    ensures command { is_done (Some order.now) ≡ true → result ≢ NO_COMMAND }
    ensures to_end { is_replaying (Some order.now) ≡ true
        → ReadsToEnd (S.left input.old) (S.left input.new) result }
    ensures printed { is_replaying (Some order.now) ≡ false
        → Prints (done_of (Some order.now) []) (K.taken out.old) (K.taken out.new) result }
    ensures unread { is_replaying (Some order.now) ≡ false → input.new ≡ input.old }
    ensures memory { result ≡ OUT_OF_MEMORY → is_done (Some order.now) ≡ true }
    ensures read { result ≡ OUT_OF_MEMORY → is_replaying (Some order.now) ≡ true
        → ReadsThere (S.left input.old) (S.left input.new) }
    ensures unwritten { result ≡ OUT_OF_MEMORY → out.new ≡ out.old }
{
    match order {
        Order::Replay { control } => replay(alloc, *control, input, out),
        Order::World { n, turns, control } => tell_world(alloc, *control, *n, *turns, out),
        Order::Pair { .. }
        | Order::Recv { .. }
        | Order::Recv6 { .. }
        | Order::Send { .. }
        | Order::Record { .. }
        | Order::Check => print_usage(out),
    }
}

/// Does the command of the words, and answers the status. Words that are no command which is done
/// here are answered by the usage line.
fn do_words<S: Source, K: Sink>(alloc: Global, words: &[String], input: &mut S, out: &mut K) -> u8
    ensures run { Runs (outcome_of (spelled words.now))
        (streams (S.left input.old) (S.faults input.old) (K.taken out.old) (K.faults out.old))
        (streams (S.left input.new) (S.faults input.new) (K.taken out.new) (K.faults out.new))
        result }
    ensures command { is_command (spelled words.now) ≡ true → result ≢ NO_COMMAND }
    ensures to_end { is_replay (spelled words.now) ≡ true
        → ReadsToEnd (S.left input.old) (S.left input.new) result }
    ensures printed { is_replay (spelled words.now) ≡ false
        → Prints (outcome_of (spelled words.now) []) (K.taken out.old) (K.taken out.new) result }
    ensures unread { is_replay (spelled words.now) ≡ false → input.new ≡ input.old }
    ensures memory { LosesMemory (spelled words.now) (S.left input.old) (S.left input.new) result }
    ensures unwritten { result ≡ OUT_OF_MEMORY → out.new ≡ out.old }
{
    match read_words(alloc, words) {
        Ok(order) => do_order(alloc, &order, input, out),
        Err(WordsFault::Usage) => print_usage(out),
        Err(WordsFault::OutOfMemory) => OUT_OF_MEMORY,
    }
}

/// Does a command that needs no network, and answers its status: `DONE`, `NO_COMMAND`, `REFUSED`,
/// `SOURCE_FAILED`, `SINK_FAILED` or `OUT_OF_MEMORY`. None where the first word is no such command.
pub fn run_offline<S: Source, K: Sink>(
    alloc: Global,
    words: &[String],
    input: &mut S,
    out: &mut K,
) -> Option<u8>
    ensures known { is_some result ≡ spec.is_offline (spelled words.now) }
    ensures none { IfNone result ((input.new ≡ input.old) × (out.new ≡ out.old)) }
    ensures run { IfSome result (Runs (outcome_of (spelled words.now))
        (streams (S.left input.old) (S.faults input.old) (K.taken out.old) (K.faults out.old))
        (streams (S.left input.new) (S.faults input.new) (K.taken out.new) (K.faults out.new))) }
    ensures prefix { IfSome result (λ status. is_replay (spelled words.now) ≡ true
        → PlaysInStep (S.left input.old) (K.taken out.old) (K.taken out.new) status) }
    ensures to_end { IfSome result (λ status. is_replay (spelled words.now) ≡ true
        → ReadsToEnd (S.left input.old) (S.left input.new) status) }
    ensures command { IfSome result (λ status.
        is_command (spelled words.now) ≡ true → status ≢ NO_COMMAND) }
    ensures printed { IfSome result (λ status. is_replay (spelled words.now) ≡ false
        → Prints (outcome_of (spelled words.now) []) (K.taken out.old) (K.taken out.new) status) }
    ensures unread { IfSome result (λ status. is_replay (spelled words.now) ≡ false
        → input.new ≡ input.old) }
    ensures memory { IfSome result
        (LosesMemory (spelled words.now) (S.left input.old) (S.left input.new)) }
    ensures unwritten { IfSome result (λ status. status ≡ OUT_OF_MEMORY → out.new ≡ out.old) }
{
    if is_offline(words) {
        Some(do_words(alloc, words, input, out))
    } else {
        None
    }
}

/// Does a command, or writes the usage line, and answers the status: `DONE`, `NO_COMMAND`,
/// `REFUSED`, `SOURCE_FAILED`, `SINK_FAILED` or `OUT_OF_MEMORY`.
pub fn run_plain<S: Source, K: Sink>(
    alloc: Global,
    words: &[String],
    input: &mut S,
    out: &mut K,
) -> u8
    ensures run { Runs (outcome_of (spelled words.now))
        (streams (S.left input.old) (S.faults input.old) (K.taken out.old) (K.faults out.old))
        (streams (S.left input.new) (S.faults input.new) (K.taken out.new) (K.faults out.new))
        result }
    ensures prefix { is_replay (spelled words.now) ≡ true
        → PlaysInStep (S.left input.old) (K.taken out.old) (K.taken out.new) result }
    ensures to_end { is_replay (spelled words.now) ≡ true
        → ReadsToEnd (S.left input.old) (S.left input.new) result }
    ensures command { is_command (spelled words.now) ≡ true → result ≢ NO_COMMAND }
    ensures printed { is_replay (spelled words.now) ≡ false
        → Prints (outcome_of (spelled words.now) []) (K.taken out.old) (K.taken out.new) result }
    ensures unread { is_replay (spelled words.now) ≡ false → input.new ≡ input.old }
    ensures memory { LosesMemory (spelled words.now) (S.left input.old) (S.left input.new) result }
    ensures unwritten { result ≡ OUT_OF_MEMORY → out.new ≡ out.old }
{
    match run_offline(alloc, words, input, out) {
        Some(status) => status,
        None => print_usage(out),
    }
}
