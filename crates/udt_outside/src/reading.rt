// Text to addresses.

ghost use Rattle.std.specs.Prelude.{◌≡◌, ◌+◌, ◌*◌, ◌≤◌, ◌<◌, length, drop, IsTrue};
ghost use Rattle.std.specs.Int.Digits.{number_from_digits};
ghost use Rattle.udt_model.specs.Words.{number_within};
ghost use Rattle.udt_model.specs.Addresses.{begins_with, length_before, before, following, port_of, with_port, v4_of, v6_of, ip_of, addr_of};

use crate::numbers::read_number;
use std::net::{Ipv4Addr, Ipv6Addr};
use udt_model::{Addr, Ip};

fn read_port(text: &[u8]) -> Option<u16>
    ensures { result ≡ number_within 0 65535 text.now }
{
    let port = read_number(0, 65_535, text)?;
    Some(port as u16)
}

fn read_port_after_colon(text: &[u8]) -> Option<u16>
    ensures { result ≡ port_of text.now }
{
    match text {
        [b':', digits @ ..] => read_port(digits),
        _ => None,
    }
}

fn length_before(byte: u8, text: &[u8]) -> usize
    ensures value { result ≡ length_before byte text.now }
    ensures within { result ≤ length text.now }
{
    text.iter().take_while(|c| **c != byte).count()
}

fn before(byte: u8, text: &[u8]) -> &[u8]
    ensures { result.now ≡ before byte text.now }
{
    &text[..length_before(byte, text)]
}

fn following(byte: u8, text: &[u8]) -> &[u8]
    ensures { result.now ≡ following byte text.now }
{
    let end = length_before(byte, text);
    if end == text.len() {
        &text[end..]
    } else {
        &text[end + 1..]
    }
}

fn joined_bytes(bytes: [u8; 4]) -> u32
    ensures { result ≡ number_from_digits 256 bytes }
{
    let [a, b, c, d] = bytes;
    ((u32::from(a) * 256 + u32::from(b)) * 256 + u32::from(c)) * 256 + u32::from(d)
}

fn joined_groups(a: u16, b: u16, c: u16, d: u16) -> u64
    ensures { result ≡ ((a * 65536 + b) * 65536 + c) * 65536 + d }
{
    ((u64::from(a) * 0x1_0000 + u64::from(b)) * 0x1_0000 + u64::from(c)) * 0x1_0000 + u64::from(d)
}

fn joined_halves(groups: [u16; 8]) -> u128
    ensures { result ≡ number_from_digits 65536 groups }
{
    let [a, b, c, d, e, f, g, h] = groups;
    u128::from(joined_groups(a, b, c, d)) * 0x1_0000_0000_0000_0000
        + u128::from(joined_groups(e, f, g, h))
}

fn read_v4(text: &[u8]) -> Option<Ip>
    ensures { result ≡ v4_of text.now }
{
    match Ipv4Addr::parse_ascii(text) {
        Ok(ip) => Some(Ip::V4(joined_bytes(ip.octets()))),
        Err(_) => None,
    }
}

fn read_v6(text: &[u8]) -> Option<Ip>
    ensures { result ≡ v6_of text.now }
{
    if text.contains(&b'.') {
        return None;
    }
    match Ipv6Addr::parse_ascii(text) {
        Ok(ip) => Some(Ip::V6(joined_halves(ip.segments()))),
        Err(_) => None,
    }
}

/// Reads an IP address.
pub fn read_ip(text: &[u8]) -> Option<Ip>
    ensures { result ≡ ip_of text.now }
{
    match read_v4(text) {
        Some(ip) => Some(ip),
        None => read_v6(text),
    }
}

fn with_port(ip: Option<Ip>, port: Option<u16>) -> Option<Addr>
    ensures { result ≡ with_port ip port }
{
    Some(Addr {
        ip: ip?,
        port: port?,
    })
}

fn following_first(text: &[u8]) -> &[u8]
    requires { 0 < length text.now }
    ensures { result.now ≡ drop 1 text.now }
{
    &text[1..]
}

fn begins_with(byte: u8, text: &[u8]) -> bool
    ensures value { result ≡ begins_with byte text.now }
    ensures some { IsTrue result → 0 < length text.now }
{
    if text.is_empty() {
        return false;
    }
    text[0] == byte
}

/// Reads an address.
pub fn read_addr(text: &[u8]) -> Option<Addr>
    ensures { result ≡ addr_of text.now }
{
    if begins_with(b'[', text) {
        let inner = following_first(text);
        return with_port(
            read_v6(before(b']', inner)),
            read_port_after_colon(following(b']', inner)),
        );
    }
    with_port(
        read_v4(before(b':', text)),
        read_port(following(b':', text)),
    )
}
