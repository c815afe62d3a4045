// The network of a script, line by line.

ghost use Rattle.std.specs.Prelude.{◌≡◌, ◌+◌, ◌≤◌, [], List, ℕ, Some, true, length, map, take, vec_len, IfOk, OnOk, OnErr};
ghost use Rattle.udt_model.specs.Network as model;
ghost use Rattle.udt_model.specs.Script.{on_line, played_line, size_of, fits_after};
ghost use Rattle.udt_model.specs.declared.limits.TheConstants.{LONGEST_SCRIPT};
ghost use Rattle.udt_script.specs.CodeLines.{line_of, IsInRange};
ghost use Rattle.udt_world.specs.Views.{view_of, Shows};
ghost use Rattle.udt_world.specs.Done.{DoesLine, GivesNames};
ghost use Rattle.udt_world.specs.Kept.{kept_lines, items_of};
ghost use Rattle.udt_world.specs.ScriptLines.{AnswersLine};
ghost use Rattle.udt_world.specs.InStep.{AllAdoptBack, AreAllInStep, AllShowMessages};
ghost use Rattle.udt_world.specs.Transcripts.{KeepsPrefix};
ghost use Rattle.udt_world.specs.Wiring.{IsWired};

use crate::network::Network;
use std::alloc::{AllocError, Global};
use std::marker::Model;
use udt_model::{LONGEST_LINE, LONGEST_SCRIPT};
use udt_rate::Control;
use udt_script::{Line, read_line};

/// Why a line did nothing.
#[derive(Clone, Copy, Debug, PartialEq, Eq)]
pub enum LineNo {
    Refused,
    OutOfMemory,
}

/// The network of a script, and the lines that made it. Contracts see it as the lines that were accepted, and as
/// None once memory has run out: every later line is then answered so.
#[derive(Drop)]
pub struct World<C: Control> {
    lines: Vec<Vec<u8>>,
    size: u64,
    network: Network<C>,
    lost: bool,
}

impl<C: Control> Model for World<C> {
    ghost use Rattle.std.specs.Prelude.{List, ℕ, Option};

    ghost Value = { Option (List (List ℕ)) };

    ghost use Rattle.udt_world.specs.Worlds.{lines_of, IsWorld};

    ghost view = { lines_of };

    ghost invariant = { IsWorld C.ways };
}

// Does what a line of this form says. False where it is refused.
fn do_line<C: Control + Drop>(
    network: &mut Network<C>,
    line: &Line,
    out: &mut Vec<u8>,
) -> Result<bool, AllocError>
    requires range { IsInRange line.now }
    requires names { GivesNames (line_of line.now) }
    requires wired { IsWired network.old }
    ensures done { IfOk result (λ did. (n : model.Network C) → Shows C.ways n (view_of network.old)
        → DoesLine C.ways n (on_line C.ways n (line_of line.now)) did
        (view_of network.new) out.old.items out.new.items) }
    ensures wired { OnOk result (IsWired network.new) }
    ensures err { OnErr result (take (vec_len out.old) out.new.items ≡ out.old.items) }
{
    match line {
        Line::Silent => Ok(true),
        Line::Pair(pairing) => network.pair(pairing, out),
        Line::Host { name, addr } => network.host(name, *addr, out),
        Line::Open(opening) => network.open(opening, out),
        Line::Accept {
            name,
            now,
            accepted,
        } => network.accept(name, *now, accepted, out),
        Line::Call { name, now, call } => network.call(name, *now, call, out),
        Line::Deliver { number, now } => network.deliver(*number, *now, out),
        Line::Raw { now, datagram } => {
            network.arrive(*now, datagram, out)?;
            Ok(true)
        }
    }
}

// Reads a line and does what it says. False where it is refused.
fn play_line<C: Control + Drop>(
    network: &mut Network<C>,
    line: &[u8],
    out: &mut Vec<u8>,
) -> Result<bool, AllocError>
    requires { IsWired network.old }
    ensures done { IfOk result (λ did. (n : model.Network C) → Shows C.ways n (view_of network.old)
        → DoesLine C.ways n (played_line C.ways n line.now) did
        (view_of network.new) out.old.items out.new.items) }
    ensures wired { OnOk result (IsWired network.new) }
    ensures err { OnErr result (take (vec_len out.old) out.new.items ≡ out.old.items) }
{
    match read_line(network.alloc, line)? {
        None => Ok(false),
        Some(read) => do_line(network, &read, out),
    }
}

// Keeps a line, and does what it says. A refused one isn't kept.
fn keep_line<C: Control + Drop>(
    lines: &mut Vec<Vec<u8>>,
    network: &mut Network<C>,
    line: &[u8],
    out: &mut Vec<u8>,
) -> Result<bool, AllocError>
    requires { IsWired network.old }
    ensures lines { IfOk result (λ did.
        map items_of lines.new.items ≡ kept_lines did (map items_of lines.old.items) line.now) }
    ensures done { IfOk result (λ did. (n : model.Network C) → Shows C.ways n (view_of network.old)
        → DoesLine C.ways n (played_line C.ways n line.now) did
        (view_of network.new) out.old.items out.new.items) }
    ensures wired { OnOk result (IsWired network.new) }
    ensures err { OnErr result (take (vec_len out.old) out.new.items ≡ out.old.items) }
{
    let kept = Vec::from_slice(network.alloc, line)?;
    lines.push(kept)?;
    let did = play_line(network, line, out)?;
    if !did {
        let _ = lines.pop();
    }
    Ok(did)
}

// A line fits after lines of this size together.
fn fits(size: u64, line: &[u8]) -> bool
    requires { size ≤ LONGEST_SCRIPT + 1 }
    ensures value { (lines : List (List ℕ)) → size ≡ size_of lines
        → result ≡ fits_after lines line.now }
    ensures bound { result ≡ true → size + length line.now ≤ LONGEST_SCRIPT }
{
    size + line.len() as u64 <= LONGEST_SCRIPT && line.len() as u64 <= LONGEST_LINE
}

impl<C: Control + Drop> World<C> {
    /// A network without sockets.
    pub fn new(alloc: Global) -> World<C>
        ensures { result ≡ Some [] }
    {
        World {
            lines: Vec::new(alloc),
            size: 0,
            network: Network::new(alloc),
            lost: false,
        }
    }

    /// Does what a line says, and prints it after what was printed before. A refused line changes
    /// nothing. Once memory has run out every line is answered so, and prints nothing.
    pub fn line(&mut self, line: &[u8], out: &mut Vec<u8>) -> Result<(), LineNo>
        ensures answer { AnswersLine C.ways self.old line.now result self.new out.old.items out.new.items }
        ensures adoption { AllAdoptBack C.ways self.new }
        ensures in_step { AreAllInStep C.ways self.new }
        ensures shown { AllShowMessages C.ways self.new }
        ensures prefix { KeepsPrefix C.ways self.old line.now result out.old.items out.new.items }
    {
        if self.lost {
            return Err(LineNo::OutOfMemory);
        }
        if !fits(self.size, line) {
            return Err(LineNo::Refused);
        }
        let before = out.len();
        match keep_line(&mut self.lines, &mut self.network, line, out) {
            Ok(true) => {
                self.size += line.len() as u64 + 1;
                Ok(())
            }
            Ok(false) => Err(LineNo::Refused),
            Err(_) => {
                out.truncate(before);
                self.lost = true;
                Err(LineNo::OutOfMemory)
            }
        }
    }
}
