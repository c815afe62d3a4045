// The words after a command's name, as clap tells them apart.

ghost use Rattle.std.specs.Prelude.{◌≡◌, ◌⊎◌, ◌<◌, false, length, drop, IfOk, IfErr};
ghost use Rattle.std.specs.List.{list_any};
ghost use Rattle.clap.specs.Words.{kind_of};
ghost use Rattle.udt_words.specs.Table.{is_option, spelled};
ghost use Rattle.udt_words.specs.Given.{words_in, words_found};

use crate::order::WordsFault;
use clap::error::ErrorKind;
use clap::{Arg, ArgMatches, Command, Error};
use std::alloc::Global;

/// The words after a command's name, of which there are three at most.
#[derive(Clone, Copy)]
pub enum Given<'a> {
    Nothing,
    One(&'a str),
    Two(&'a str, &'a str),
    Three(&'a str, &'a str, &'a str),
}

// The first word is the command's name, which clap passes over as that of a program.
fn matches<'a>(alloc: Global, words: &'a [String]) -> Result<ArgMatches<'a>, Error>
    requires { list_any is_option (spelled words.now) ≡ false }
    ensures ok { IfOk result (λ found. words_found found ≡ drop 1 (spelled words.now)) }
    ensures err { IfErr result (λ e.
        (kind_of e ≡ ErrorKind.OutOfMemory) ⊎ (3 < length (drop 1 (spelled words.now)))) }
{
    let first = Arg::new(alloc, "first");
    let second = Arg::new(alloc, "second");
    let third = Arg::new(alloc, "third");
    let command = Command::new(alloc, "udt")
        .arg(first)?
        .arg(second)?
        .arg(third)?;
    command.try_get_matches_from(words)
}

fn given_by<'a>(found: &ArgMatches<'a>) -> Given<'a>
    ensures { words_in result ≡ words_found found.now }
{
    let Some(first) = found.get_str("first") else {
        return Given::Nothing;
    };
    let Some(second) = found.get_str("second") else {
        return Given::One(first);
    };
    match found.get_str("third") {
        Some(third) => Given::Three(first, second, third),
        None => Given::Two(first, second),
    }
}

/// The words after the first one. `Usage` where there are more than three, `OutOfMemory` only where
/// there are any.
pub fn arguments<'a>(alloc: Global, words: &'a [String]) -> Result<Given<'a>, WordsFault>
    requires { list_any is_option (spelled words.now) ≡ false }
    ensures ok { IfOk result (λ given. words_in given ≡ drop 1 (spelled words.now)) }
    ensures usage { result ≡ Err WordsFault.Usage → 3 < length (drop 1 (spelled words.now)) }
    ensures memory { result ≡ Err WordsFault.OutOfMemory → 1 < length words.now }
{
    if words.len() <= 1 {
        return Ok(Given::Nothing);
    }
    match matches(alloc, words) {
        Ok(found) => Ok(given_by(&found)),
        Err(error) => Err(fault(&error)),
    }
}

fn fault(error: &Error) -> WordsFault
    ensures { result ≡ WordsFault.Usage → kind_of error.now ≡ ErrorKind.OutOfMemory → ⊥ }
{
    match error.kind() {
        ErrorKind::OutOfMemory => WordsFault::OutOfMemory,
        _ => WordsFault::Usage,
    }
}
