// Lists of words with what they ask for, and lists that are no command.

use crate::{Addr, Order, WordsFault, five_words_are_refused, hyphens_are_refused, read_words};
use std::alloc::{AllocError, Global};
use std::test::Fail;
use udt_outside::read_addr;

fn owned(alloc: Global, words: &[&str]) -> Result<Vec<String>, AllocError> {
    let mut all = Vec::new(alloc);
    for word in words {
        all.push(String::from_str(alloc, word)?)?;
    }
    Ok(all)
}

fn read(alloc: Global, words: &[&str]) -> Result<Order, WordsFault> {
    let words = owned(alloc, words)?;
    read_words(alloc, &words)
}

static TAKEN: [(&[&str], &str); 22] = [
    (&["replay"], "Replay { control: Native }"),
    (&["replay", "native"], "Replay { control: Native }"),
    (&["replay", "fixed"], "Replay { control: Fixed }"),
    (&["replay", "aimd"], "Replay { control: Aimd }"),
    (
        &["world", "7", "0"],
        "World { n: 7, turns: 0, control: Native }",
    ),
    (
        &["world", "4294967295", "400000", "fixed"],
        "World { n: 4294967295, turns: 400000, control: Fixed }",
    ),
    (
        &["world", "0", "1", "aimd"],
        "World { n: 0, turns: 1, control: Aimd }",
    ),
    (
        &["pair", "200000", "8", "7"],
        "Pair { size: 200000, count: 8, n: 7 }",
    ),
    (
        &["pair", "100000000", "64", "4294967295"],
        "Pair { size: 100000000, count: 64, n: 4294967295 }",
    ),
    (&["pair", "0", "1", "0"], "Pair { size: 0, count: 1, n: 0 }"),
    (
        &["recv", "9100", "got", "2"],
        "Recv { port: 9100, name: Name { text: \"got\" }, count: 2 }",
    ),
    (
        &["recv", "1", "a file/b", "1"],
        "Recv { port: 1, name: Name { text: \"a file/b\" }, count: 1 }",
    ),
    (
        &["recv", "65535", "1", "64"],
        "Recv { port: 65535, name: Name { text: \"1\" }, count: 64 }",
    ),
    (
        &["recv6", "1", "f", "1"],
        "Recv6 { port: 1, name: Name { text: \"f\" }, count: 1 }",
    ),
    (
        &["recv6", "65535", "f", "64"],
        "Recv6 { port: 65535, name: Name { text: \"f\" }, count: 64 }",
    ),
    (
        &["send", "f", "10.0.0.1", "1"],
        "Send { name: Name { text: \"f\" }, to: Addr { ip: V4(167772161), port: 1 } }",
    ),
    (
        &["send", "f", "10.0.0.1", "65535"],
        "Send { name: Name { text: \"f\" }, to: Addr { ip: V4(167772161), port: 65535 } }",
    ),
    (
        &["send", "f", "::1", "9000"],
        "Send { name: Name { text: \"f\" }, to: Addr { ip: V6(1), port: 9000 } }",
    ),
    (
        &["record", "10000", "4294967295"],
        "Record { turns: 10000, n: 4294967295 }",
    ),
    (&["record", "0", "0"], "Record { turns: 0, n: 0 }"),
    (&["check"], "Check"),
    (
        &["send", "check", "0.0.0.0", "10"],
        "Send { name: Name { text: \"check\" }, to: Addr { ip: V4(0), port: 10 } }",
    ),
];

static REFUSED: [&[&str]; 38] = [
    &[],
    &[""],
    &["help"],
    &["--help"],
    &["--version"],
    &["Replay"],
    &["recv", "--help"],
    &["replay", "Native"],
    &["replay", ""],
    &["replay", "native", "native"],
    &["world", "7"],
    &["world", "4294967296", "1"],
    &["world", "18446744073709551616", "1"],
    &["world", "0", "400001"],
    &["world", "+7", "1"],
    &["world", "7", "00"],
    &["world", "7", "1", "fixed", "0"],
    &["pair", "100000001", "1", "0"],
    &["pair", "1", "0", "0"],
    &["pair", "1", "65", "0"],
    &["pair", "1", "1", "4294967296"],
    &["pair", "1", "1"],
    &["pair", "1", "1", "0", "0"],
    &["recv", "09100", "got", "2"],
    &["recv", "0", "f", "1"],
    &["recv", "65536", "f", "1"],
    &["recv", "1", "f", "0"],
    &["recv", "1", "f", "65"],
    &["recv", "1", "", "1"],
    &["recv", "1", "-f", "1"],
    &["recv6", "1", "f", "65"],
    &["recv6", "1", "f"],
    &["send", "f", "10.0.0.1", "65536"],
    &["send", "f", "10.0.0.1", "0"],
    &["send", "f", "10.0.0.1:9000"],
    &["record", "10001", "0"],
    &["record", "1", "4294967296"],
    &["check", "check"],
];

#[test]
fn reads_the_words_of_each_command(rt: HostRuntime) -> Result<(), Fail> {
    let alloc = rt.alloc();
    for (words, order) in &TAKEN {
        let printed = format!(in alloc; "{:?}", read(alloc, words)?)?;
        assert_eq!(rt; printed.as_str(), *order, "{words:?}");
    }
    for words in &REFUSED {
        let answer = read(alloc, words).expect_err(&rt, "a refusal");
        assert_eq!(rt; answer, WordsFault::Usage, "{words:?}");
    }
    Ok(())
}

#[test]
fn gives_the_name_and_the_address_of_what_is_sent(rt: HostRuntime) -> Result<(), Fail> {
    let order = read(
        rt.alloc(),
        &["send", "a file", "fd00:0:0:0:0:0:0:9", "9000"],
    )?;
    let Order::Send { name, to } = order else {
        return Err(Fail::from("another order"));
    };
    assert_eq!(rt; name.text(), "a file");
    let there: Option<Addr> = read_addr(b"[fd00:0:0:0:0:0:0:9]:9000");
    assert_eq!(rt; Some(to), there);
    hyphens_are_refused();
    five_words_are_refused();
    Ok(())
}
