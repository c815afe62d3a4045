// The names of the commands, and what stands before all else in words.

ghost use Rattle.std.specs.Prelude.{◌≡◌, false, IfSome};
ghost use Rattle.std.specs.List.{list_any};
ghost use Rattle.std.specs.String.{string_bytes};
ghost use Rattle.udt_words.specs.Table as spec;

/// A command, by its name.
#[derive(Clone, Copy)]
pub enum Command {
    Replay,
    World,
    Pair,
    Recv,
    Recv6,
    Send,
    Record,
    Check,
}

// The command that the word names.
fn command_of(word: &String) -> Option<Command>
    ensures { result ≡ spec.command_of (string_bytes word.now) }
{
    let word = word.as_bytes();
    if word == b"replay".as_slice() {
        Some(Command::Replay)
    } else if word == b"world".as_slice() {
        Some(Command::World)
    } else if word == b"pair".as_slice() {
        Some(Command::Pair)
    } else if word == b"recv".as_slice() {
        Some(Command::Recv)
    } else if word == b"recv6".as_slice() {
        Some(Command::Recv6)
    } else if word == b"send".as_slice() {
        Some(Command::Send)
    } else if word == b"record".as_slice() {
        Some(Command::Record)
    } else if word == b"check".as_slice() {
        Some(Command::Check)
    } else {
        None
    }
}

fn is_option(word: &String) -> bool
    ensures { result ≡ spec.is_option (string_bytes word.now) }
{
    match word.as_bytes() {
        [] => false,
        [byte, ..] => *byte == b'-',
    }
}

// Whether a word begins with a hyphen.
fn has_option(words: &[String]) -> bool
    ensures { result ≡ list_any (λ word. spec.is_option (string_bytes word)) words.now }
{
    words.iter().any(|word| is_option(word))
}

/// The command that the words call: the first one names it, and none begins with a hyphen.
pub fn called(words: &[String]) -> Option<Command>
    ensures value { result ≡ spec.called (spec.spelled words.now) }
    ensures plain { IfSome result (λ _. list_any spec.is_option (spec.spelled words.now) ≡ false) }
{
    let [name, ..] = words else {
        return None;
    };
    if has_option(words) {
        return None;
    }
    command_of(name)
}
