//! The program of the protocol: it replays scripts and generates runs.
#![tactic(auto)]

mod run;
mod standard;
#[cfg(test)]
mod tests;

use crate::run::run;
use crate::standard::{Input, Output};
use std::process::ExitCode;
use std::{env, io};

fn main(rt: HostRuntime) -> ExitCode {
    let mut input = Input::new(rt.reader());
    let mut out = Output::new(io::writer(&rt));
    run(rt.alloc(), env::args(&rt), &mut input, &mut out)
}
