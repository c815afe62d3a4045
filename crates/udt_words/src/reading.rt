// From words to an order.

ghost use Rattle.std.specs.Prelude.{◌≡◌, ◌≤◌, ◌<◌, length, None, Some, IfOk, IfSome, IsSome, OnErr};
ghost use Rattle.udt_words.specs.Table as spec;
ghost use Rattle.udt_words.specs.Table.{spelled, called, order_of};
ghost use Rattle.udt_words.specs.Given.{words_in};
ghost use Rattle.udt_words.specs.Ranges.{IsAccepting, IsCount, IsInRange};

use crate::arguments::{Given, arguments};
use crate::commands::{Command, called};
use crate::limits::{
    LAST_SEED, MOST_CONNECTIONS, MOST_PAIR_BYTES, MOST_RECORD_TURNS, MOST_WORLD_TURNS,
};
use crate::order::{Name, Order, WordsFault};
use std::alloc::{AllocError, Global};
use udt_model::{Addr, ControlName, Family};
use udt_outside::{read_ip, read_number};

fn control(word: &str) -> Option<ControlName>
    ensures { result ≡ spec.control_of word.now }
{
    let word = word.as_bytes();
    if word == b"native".as_slice() {
        Some(ControlName::Native)
    } else if word == b"fixed".as_slice() {
        Some(ControlName::Fixed)
    } else if word == b"aimd".as_slice() {
        Some(ControlName::Aimd)
    } else {
        None
    }
}

fn file(alloc: Global, word: &str) -> Result<Option<Name>, AllocError>
    ensures value { IfOk result (λ name. name ≡ spec.file_of word.now) }
    ensures within { IfOk result (λ name. IfSome name (λ bytes. 0 < length bytes)) }
{
    if word.is_empty() {
        return Ok(None);
    }
    let name = Name::copied(alloc, word)?;
    Ok(Some(name))
}

fn port(word: &str) -> Option<u16>
    ensures value { result ≡ spec.port_of word.now }
    ensures within { IfSome result (λ port. 1 ≤ port) }
{
    let port = read_number(1, 65_535, word.as_bytes())?;
    Some(port as u16)
}

fn count(word: &str) -> Option<u32>
    ensures value { result ≡ spec.count_of word.now }
    ensures within { IfSome result IsCount }
{
    let count = read_number(1, MOST_CONNECTIONS as u64, word.as_bytes())?;
    Some(count as u32)
}

fn seed(word: &str) -> Option<u64>
    ensures value { result ≡ spec.seed_of word.now }
    ensures within { IfSome result (λ n. n ≤ LAST_SEED) }
{
    read_number(0, LAST_SEED, word.as_bytes())
}

fn target(addr: &str, port_word: &str) -> Option<Addr>
    ensures value { result ≡ spec.target_of addr.now port_word.now }
    ensures within { IfSome result (λ to. 1 ≤ to.port) }
{
    let ip = read_ip(addr.as_bytes())?;
    let port = port(port_word)?;
    Some(Addr { ip, port })
}

#[tactic(auto, unfolding(crate::specs::Table::replay_order))]
fn replay_order(given: Given) -> Option<Order>
    ensures value { result ≡ spec.replay_order (words_in given.entry) }
    ensures within { IfSome result IsInRange }
{
    match given {
        Given::Nothing => Some(Order::Replay {
            control: ControlName::Native,
        }),
        Given::One(word) => {
            let control = control(word)?;
            Some(Order::Replay { control })
        }
        Given::Two(..) | Given::Three(..) => None,
    }
}

fn generated(n: &str, turns: &str, control: Option<ControlName>) -> Option<Order>
    ensures value { result ≡ spec.generated n.now turns.now control }
    ensures within { IfSome result IsInRange }
{
    let n = seed(n)?;
    let turns = read_number(0, MOST_WORLD_TURNS, turns.as_bytes())?;
    let control = control?;
    Some(Order::World { n, turns, control })
}

#[tactic(auto, unfolding(crate::specs::Table::world_order))]
fn world_order(given: Given) -> Option<Order>
    ensures value { result ≡ spec.world_order (words_in given.entry) }
    ensures within { IfSome result IsInRange }
{
    match given {
        Given::Two(n, turns) => generated(n, turns, Some(ControlName::Native)),
        Given::Three(n, turns, word) => generated(n, turns, control(word)),
        Given::Nothing | Given::One(_) => None,
    }
}

#[tactic(auto, unfolding(crate::specs::Table::pair_order))]
fn pair_order(given: Given) -> Option<Order>
    ensures value { result ≡ spec.pair_order (words_in given.entry) }
    ensures within { IfSome result IsInRange }
{
    let Given::Three(size, count_word, n) = given else {
        return None;
    };
    let size = read_number(0, MOST_PAIR_BYTES, size.as_bytes())?;
    let count = count(count_word)?;
    let n = seed(n)?;
    Some(Order::Pair { size, count, n })
}

fn receives(family: Family, port: u16, name: Name, count: u32) -> Order
    requires { IsAccepting port name count }
    ensures value { result ≡ spec.receives family port name count }
    ensures within { IsInRange result }
{
    match family {
        Family::Four => Order::Recv { port, name, count },
        Family::Six => Order::Recv6 { port, name, count },
    }
}

#[tactic(auto, unfolding(crate::specs::Table::recv_order))]
fn recv_order(alloc: Global, family: Family, given: Given) -> Result<Option<Order>, AllocError>
    ensures value { IfOk result (λ order. order ≡ spec.recv_order family (words_in given.entry)) }
    ensures within { IfOk result (λ order. IfSome order IsInRange) }
    ensures memory { OnErr result (0 < length (words_in given.entry)) }
{
    let Given::Three(port_word, name, count_word) = given else {
        return Ok(None);
    };
    let Some(port) = port(port_word) else {
        return Ok(None);
    };
    let Some(count) = count(count_word) else {
        return Ok(None);
    };
    let Some(name) = file(alloc, name)? else {
        return Ok(None);
    };
    Ok(Some(receives(family, port, name, count)))
}

#[tactic(auto, unfolding(crate::specs::Table::send_order))]
fn send_order(alloc: Global, given: Given) -> Result<Option<Order>, AllocError>
    ensures value { IfOk result (λ order. order ≡ spec.send_order (words_in given.entry)) }
    ensures within { IfOk result (λ order. IfSome order IsInRange) }
    ensures memory { OnErr result (0 < length (words_in given.entry)) }
{
    let Given::Three(name, addr, port) = given else {
        return Ok(None);
    };
    let Some(to) = target(addr, port) else {
        return Ok(None);
    };
    let Some(name) = file(alloc, name)? else {
        return Ok(None);
    };
    Ok(Some(Order::Send { name, to }))
}

#[tactic(auto, unfolding(crate::specs::Table::record_order))]
fn record_order(given: Given) -> Option<Order>
    ensures value { result ≡ spec.record_order (words_in given.entry) }
    ensures within { IfSome result IsInRange }
{
    let Given::Two(turns, n) = given else {
        return None;
    };
    let turns = read_number(0, MOST_RECORD_TURNS, turns.as_bytes())?;
    let n = seed(n)?;
    Some(Order::Record { turns, n })
}

#[tactic(auto, unfolding(crate::specs::Table::check_order))]
fn check_order(given: Given) -> Option<Order>
    ensures value { result ≡ spec.check_order (words_in given.entry) }
    ensures within { IfSome result IsInRange }
{
    match given {
        Given::Nothing => Some(Order::Check),
        Given::One(_) | Given::Two(..) | Given::Three(..) => None,
    }
}

fn ordered(alloc: Global, command: Command, given: Given) -> Result<Option<Order>, AllocError>
    ensures value { IfOk result (λ order. order ≡ spec.ordered command (words_in given.entry)) }
    ensures within { IfOk result (λ order. IfSome order IsInRange) }
    ensures memory { OnErr result (0 < length (words_in given.entry)) }
{
    match command {
        Command::Replay => Ok(replay_order(given)),
        Command::World => Ok(world_order(given)),
        Command::Pair => Ok(pair_order(given)),
        Command::Recv => recv_order(alloc, Family::Four, given),
        Command::Recv6 => recv_order(alloc, Family::Six, given),
        Command::Send => send_order(alloc, given),
        Command::Record => Ok(record_order(given)),
        Command::Check => Ok(check_order(given)),
    }
}

/// Reads what the words ask for. `Usage` comes exactly where they are no command, but that
/// `OutOfMemory` may come in its place where words follow a command's name. A name alone takes no
/// memory.
pub fn read_words(alloc: Global, words: &[String]) -> Result<Order, WordsFault>
    ensures ok { IfOk result (λ order. order_of (spelled words.now) ≡ Some order) }
    ensures usage { result ≡ Err WordsFault.Usage → order_of (spelled words.now) ≡ None }
    ensures memory { result ≡ Err WordsFault.OutOfMemory → IsSome (called (spelled words.now)) }
    ensures some_follow { result ≡ Err WordsFault.OutOfMemory → 1 < length words.now }
    ensures within { IfOk result IsInRange }
{
    let Some(command) = called(words) else {
        return Err(WordsFault::Usage);
    };
    let given = arguments(alloc, words)?;
    match ordered(alloc, command, given)? {
        Some(order) => Ok(order),
        None => Err(WordsFault::Usage),
    }
}
