// Addresses to text.

ghost use Rattle.std.specs.Prelude.{◌≡◌, Some, ◌+◌, ◌*◌, ◌/◌, ◌%◌, ◌^◌, ◌≤◌, ◌<◌, ◌∷◌, false, length, take, drop, decimal};
ghost use Rattle.std.specs.Fmt.{digits, digit_glyph};
ghost use Rattle.udt_model.specs.Addresses.{dotted, group_of, grouped, ip_text, address_text, addr_of};
ghost use Rattle.udt_outside.specs.Writing.{Writes, IpFits};

use itoa::Buffer;
use udt_model::{Addr, Ip};

fn put(into: &mut [u8], at: usize, text: &[u8]) -> usize
    requires { at + length text.now ≤ length into.old }
    ensures { Writes into.old into.new at result text.now }
{
    let end = at + text.len();
    into[at..end].copy_from_slice(text);
    end
}

fn put_octet(into: &mut [u8], at: usize, octet: u8) -> usize
    requires { at + 3 ≤ length into.old }
    ensures text { Writes into.old into.new at result (decimal octet) }
    ensures within { result ≤ at + 3 }
{
    let mut buffer = Buffer::new();
    put(into, at, buffer.format(octet).as_bytes())
}

fn put_port(into: &mut [u8], at: usize, port: u16) -> usize
    requires { at + 6 ≤ length into.old }
    ensures text { Writes into.old into.new at result (58 ∷ decimal port) }
    ensures fits { port < 2 ^ 16 }
{
    let mut buffer = Buffer::new();
    let at = put(into, at, b":");
    put(into, at, buffer.format(port).as_bytes())
}

fn hex_digit(digit: u16) -> u8
    requires { digit < 16 }
    ensures { result ≡ digit_glyph false digit }
{
    if digit < 10 {
        b'0' + digit as u8
    } else {
        b'a' + (digit - 10) as u8
    }
}

fn put_group(into: &mut [u8], at: usize, group: u16) -> usize
    requires { at + 4 ≤ length into.old }
    ensures text { Writes into.old into.new at result (digits 16 false group) }
    ensures within { result ≤ at + 4 }
{
    let last = [
        hex_digit(group / 0x1000),
        hex_digit(group / 0x100 % 0x10),
        hex_digit(group / 0x10 % 0x10),
        hex_digit(group % 0x10),
    ];
    let zeros = match group {
        0x1000.. => 0,
        0x100.. => 1,
        0x10.. => 2,
        _ => 3,
    };
    put(into, at, &last[zeros..])
}

fn put_next_group(into: &mut [u8], at: usize, bits: u128, place: u32) -> usize
    requires room { at + 5 ≤ length into.old }
    requires place { place < 8 }
    ensures text { Writes into.old into.new at result (58 ∷ group_of bits place) }
    ensures within { result ≤ at + 5 }
{
    let at = put(into, at, b":");
    put_group(into, at, group_at(bits, place))
}

fn group_at(bits: u128, place: u32) -> u16
    requires { place < 8 }
    ensures { result ≡ bits / 2 ^ (16 * place) % 2 ^ 16 }
{
    ((bits >> (16 * place)) % 0x1_0000) as u16
}

fn put_dotted(into: &mut [u8], at: usize, bits: u32) -> usize
    requires { at + 15 ≤ length into.old }
    ensures text { Writes into.old into.new at result (dotted bits) }
    ensures within { result ≤ at + 15 }
{
    let at = put_octet(into, at, (bits / 0x100_0000) as u8);
    let at = put(into, at, b".");
    let at = put_octet(into, at, (bits / 0x1_0000 % 0x100) as u8);
    let at = put(into, at, b".");
    let at = put_octet(into, at, (bits / 0x100 % 0x100) as u8);
    let at = put(into, at, b".");
    put_octet(into, at, (bits % 0x100) as u8)
}

fn put_grouped(into: &mut [u8], at: usize, bits: u128) -> usize
    requires { at + 39 ≤ length into.old }
    ensures text { Writes into.old into.new at result (grouped bits) }
    ensures within { result ≤ at + 39 }
{
    let at = put_group(into, at, group_at(bits, 7));
    let at = put_next_group(into, at, bits, 6);
    let at = put_next_group(into, at, bits, 5);
    let at = put_next_group(into, at, bits, 4);
    let at = put_next_group(into, at, bits, 3);
    let at = put_next_group(into, at, bits, 2);
    let at = put_next_group(into, at, bits, 1);
    put_next_group(into, at, bits, 0)
}

fn put_ip(into: &mut [u8], ip: Ip) -> usize
    requires { 41 ≤ length into.old }
    ensures text { Writes into.old into.new 0 result (ip_text ip) }
    ensures within { result ≤ 41 }
    ensures fits { IpFits ip }
{
    match ip {
        Ip::V4(bits) => put_dotted(into, 0, bits),
        Ip::V6(bits) => {
            let at = put(into, 0, b"[");
            let at = put_grouped(into, at, bits);
            put(into, at, b"]")
        }
    }
}

/// Writes the address at the front of `into`, and answers how many bytes it takes.
pub fn write_addr(addr: Addr, into: &mut [u8]) -> usize
    requires { 47 ≤ length into.old }
    ensures value { result ≡ length (address_text addr) }
    ensures text { take result into.new ≡ address_text addr }
    ensures rest { drop result into.new ≡ drop result into.old }
    ensures reads_back { addr_of (take result into.new) ≡ Some addr }
{
    let at = put_ip(into, addr.ip);
    put_port(into, at, addr.port)
}
