// The words of a script's line.

ghost use Rattle.std.specs.Prelude.{◌≡◌, ◌≤◌, ◌<◌, ◌==◌, ◌||◌, [], ◌∷◌, length, map, option_map, position, IfOk, IfSome, IfNone};
ghost use Rattle.std.specs.Char.{is_ascii_digit, is_ascii_lowercase};
ghost use Rattle.std.specs.List.{list_all};
ghost use Rattle.udt_model.specs.Words as spec;

use std::alloc::{AllocError, Global};

fn first_space(line: &[u8]) -> Option<usize>
    ensures { result ≡ position (λ byte. byte == 32) line.now }
{
    line.iter().position(|byte| *byte == b' ')
}

// The word before the first space, and what stands after that space.
fn split_word<'a>(line: &'a [u8]) -> Option<(&'a [u8], &'a [u8])>
    ensures some { IfSome result
        (λ parts. spec.words_of line.now ≡ parts.0.now ∷ spec.words_of parts.1.now) }
    ensures none { IfNone result (spec.words_of line.now ≡ line.now ∷ []) }
    ensures shorter { IfSome result (λ parts. length parts.1.now < length line.now) }
{
    let Some(at) = first_space(line) else {
        return None;
    };
    let (word, others) = line.split_at(at);
    Some((word, &others[1..]))
}

/// What stands before, between and after the spaces of the line.
pub fn words<'a>(alloc: Global, line: &'a [u8]) -> Result<Vec<&'a [u8]>, AllocError>
    ensures { IfOk result (λ found. map (λ word. word.now) found.items ≡ spec.words_of line.now) }
{
    let mut words = Vec::new(alloc);
    let mut rest = line;
    while let Some((word, others)) = split_word(rest) {
        words.push(word)?;
        rest = others;
    }
    words.push(rest)?;
    Ok(words)
}

fn may_follow(c: u8) -> bool
    ensures { result ≡ (is_ascii_lowercase c || is_ascii_digit c) }
{
    c.is_ascii_lowercase() || c.is_ascii_digit()
}

fn may_all_follow(others: &[u8]) -> bool
    ensures { result ≡ list_all (λ c. is_ascii_lowercase c || is_ascii_digit c) others.now }
{
    others.iter().all(|c| may_follow(*c))
}

fn is_name(word: &[u8]) -> bool
    ensures { result ≡ spec.is_name word.now }
{
    let Some((first, others)) = word.split_first() else {
        return false;
    };
    first.is_ascii_lowercase() && others.len() <= 15 && may_all_follow(others)
}

/// The word, where it is a name.
pub fn name<'a>(word: &'a [u8]) -> Option<&'a [u8]>
    ensures { option_map (λ name. name.now) result ≡ spec.name_of word.now }
{
    if is_name(word) { Some(word) } else { None }
}

fn nibble(c: u8) -> Option<u8>
    ensures value { result ≡ spec.nibble_of c }
    ensures within { IfSome result (λ nibble. nibble < 16) }
{
    match c {
        b'0'..=b'9' => Some(c - 48),
        b'a'..=b'f' => Some(c - 87),
        _ => None,
    }
}

/// The bytes that pairs of hexadecimal digits spell.
fn pairs(alloc: Global, word: &[u8]) -> Result<Option<Vec<u8>>, AllocError>
    ensures { IfOk result
        (λ found. option_map (λ bytes. bytes.items) found ≡ spec.pairs_of word.now) }
{
    let mut bytes = Vec::new(alloc);
    let mut rest = word;
    while rest.len() >= 2 {
        let Some(high) = nibble(rest[0]) else {
            return Ok(None);
        };
        let Some(low) = nibble(rest[1]) else {
            return Ok(None);
        };
        bytes.push(16 * high + low)?;
        rest = &rest[2..];
    }
    if rest.is_empty() {
        return Ok(Some(bytes));
    }
    Ok(None)
}

/// The bytes that the word spells in hexadecimal, or a dash for none.
pub fn bytes(alloc: Global, word: &[u8]) -> Result<Option<Vec<u8>>, AllocError>
    ensures { IfOk result
        (λ found. option_map (λ bytes. bytes.items) found ≡ spec.bytes_of word.now) }
{
    if word.is_empty() {
        return Ok(None);
    }
    if word == b"-".as_slice() {
        return Ok(Some(Vec::new(alloc)));
    }
    pairs(alloc, word)
}
