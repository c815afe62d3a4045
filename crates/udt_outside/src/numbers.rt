// Text to numbers.

ghost use Rattle.std.specs.Prelude.{◌≡◌, ◌≤◌, IfSome};
ghost use Rattle.std.specs.Char.{is_ascii_digit};
ghost use Rattle.std.specs.List.{list_all};
ghost use Rattle.udt_model.specs.Words as spec;

use std::str;

fn is_digit(c: u8) -> bool
    ensures { result ≡ is_ascii_digit c }
{
    c.is_ascii_digit()
}

fn are_digits(text: &[u8]) -> bool
    ensures { result ≡ list_all is_ascii_digit text.now }
{
    text.iter().all(|c| is_digit(*c))
}

#[tactic(auto, using(crate::proofs::Numerals::digits_each))]
fn is_number(text: &[u8]) -> bool
    ensures { result ≡ spec.is_number text.now }
{
    match text {
        [] => false,
        [digit] => digit.is_ascii_digit(),
        [first, ..] => *first != b'0' && are_digits(text),
    }
}

fn if_within(least: u64, most: u64, number: u64) -> Option<u64>
    ensures value { result ≡ spec.if_within least most number }
    ensures within { IfSome result (λ number. (least ≤ number) × (number ≤ most)) }
{
    if least <= number && number <= most {
        Some(number)
    } else {
        None
    }
}

/// Reads a decimal number from `least` to `most`, without a sign or a leading zero.
pub fn read_number(least: u64, most: u64, text: &[u8]) -> Option<u64>
    ensures value { result ≡ spec.number_within least most text.now }
    ensures within { IfSome result (λ number. (least ≤ number) × (number ≤ most)) }
{
    if !is_number(text) {
        return None;
    }
    let Ok(digits) = str::from_utf8(text) else {
        return None;
    };
    let Ok(number) = digits.parse::<u64>() else {
        return None;
    };
    if_within(least, most, number)
}
