// Arguments, scripts and the exit codes to which they lead, over an input and an output in memory.

use crate::run::run;
use std::alloc::{AllocError, Global};
use std::env::Args;
use std::process::ExitCode;
use udt_outside::{MemorySink, MemorySource};

fn args_of(alloc: Global, words: &[&str]) -> Result<Args, AllocError> {
    let mut args = Vec::new(alloc);
    for word in words {
        args.push(String::from_str(alloc, word)?)?;
    }
    Ok(args.into_iter())
}

#[test]
fn arguments_and_scripts_decide_the_exit_code(rt: HostRuntime) {
    let alloc = rt.alloc();
    // the first argument is the program's name
    let table: [(&[&str], &[u8], u8); 9] = [
        (&["udt", "replay"], b"# nothing\n", 0),
        (&["udt", "replay"], b"no line\n", 2),
        (&["udt", "replay", "aimd"], b"no line\n", 2),
        (&["udt", "world", "7", "1"], b"no line\n", 0),
        (&["udt", "world", "7", "400001"], b"# nothing\n", 1),
        (&["replay"], b"# nothing\n", 1),
        (&[], b"# nothing\n", 1),
        (&["udt", "replay", "replay"], b"# nothing\n", 1),
        (&["udt", "other"], b"# nothing\n", 1),
    ];
    for (words, script, status) in table {
        let args = args_of(alloc, words).expect(&rt, "memory");
        let script = Vec::from_slice(alloc, script).expect(&rt, "memory");
        let mut input = MemorySource::new(script, 64, Vec::new(alloc));
        let mut out = MemorySink::new(alloc, 1024, 64, Vec::new(alloc)).expect(&rt, "memory");
        let code = run(alloc, Ok(args), &mut input, &mut out);
        assert_eq!(rt; code, ExitCode::from(status), "{words:?}");
    }
}
