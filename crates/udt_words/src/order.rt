// What the words of a command line ask for.

ghost use Rattle.std.specs.Prelude.{◌≡◌, ℕ, List, IfOk};
ghost use Rattle.std.specs.String.{string_bytes};

use std::alloc::{AllocError, Global};
use std::marker::Model;
use udt_model::{Addr, ControlName};

/// The name of a file: at least a byte, none of which stands for anything here.
#[derive(Debug, Drop)]
pub struct Name {
    text: String,
}

impl Model for Name {
    ghost Value = { List ℕ };

    ghost view = { λ name. string_bytes name.text };
}

impl Name {
    /// A copy of the text.
    pub(crate) fn copied(alloc: Global, text: &str) -> Result<Name, AllocError>
        ensures { IfOk result (λ name. name ≡ text.now) }
    {
        Ok(Name {
            text: String::from_str(alloc, text)?,
        })
    }

    /// The name as text.
    pub fn text(&self) -> &str
        ensures { result.now ≡ self.now }
    {
        self.text.as_str()
    }
}

/// What the program is to do.
#[derive(Debug, Drop)]
pub enum Order {
    /// Plays the script of the input.
    Replay {
        control: ControlName,
    },
    /// Plays the script that is generated from `n`, of `turns` turns.
    World {
        n: u64,
        turns: u64,
        control: ControlName,
    },
    /// Sends `size` bytes over each of `count` connections in memory, whose draws start from `n`.
    Pair {
        size: u64,
        count: u32,
        n: u64,
    },
    /// Accepts `count` files over IPv4 at a UDP port.
    Recv {
        port: u16,
        name: Name,
        count: u32,
    },
    /// Accepts `count` files over IPv6 at a UDP port.
    Recv6 {
        port: u16,
        name: Name,
        count: u32,
    },
    /// Sends a file to an address.
    Send {
        name: Name,
        to: Addr,
    },
    /// Records a run of `turns` turns, whose draws start from `n`.
    Record {
        turns: u64,
        n: u64,
    },
    /// Checks the record of the input.
    Check,
}

/// Why words are no order.
#[derive(Clone, Copy, Debug, PartialEq, Eq)]
pub enum WordsFault {
    /// The words are no command.
    Usage,
    /// No memory was left.
    OutOfMemory,
}

impl From<AllocError> for WordsFault {
    ghost use Rattle.udt_words.specs.declared.order.WordsFault.TheVariants.{OutOfMemory};

    ghost from_gives = { λ _ fault. fault ≡ OutOfMemory };

    fn from(_: AllocError) -> WordsFault {
        WordsFault::OutOfMemory
    }
}
