// How a NAK is written from the offsets that are lost.

ghost use Rattle.std.specs.Prelude.{◌≡◌, ◌+◌, ◌*◌, ◌≤◌, [], ◌∷◌, ◌++◌, length, drop};
ghost use Rattle.udt_model.specs.Wire.{spelling, range_bytes};
ghost use Rattle.udt_packet.specs.Ranges.{with_between};
ghost use Rattle.udt_rcv_loss.specs.Reports.{words_of};
ghost use Rattle.udt_core.specs.Emitted.{range_of, numbers_from, numbers_bytes, nak_packet};

use udt_packet::{put_nak_header, put_range, seq_of};
use udt_rcv_loss::Ranges;

/// Writes a NAK of these ranges at the front of `into`, and answers its size.
pub fn put_nak(stamp: u32, dest: u32, isn: u32, ranges: &Ranges, into: &mut [u8]) -> usize
    requires { 16 + 4 * words_of ranges.now.ranges ≤ length into.old }
    ensures value { result ≡ length (spelling (nak_packet stamp dest isn ranges.now.ranges)) }
    ensures after { into.new
        ≡ spelling (nak_packet stamp dest isn ranges.now.ranges) ++ drop result into.old }
{
    let place = put_nak_header(stamp, dest, into);
    put_ranges(isn, ranges, into, place)
}

/// Writes a NAK of one range at the front of `into`, and answers its size.
pub fn put_gap(stamp: u32, dest: u32, isn: u32, gap: (u64, u64), into: &mut [u8]) -> usize
    requires { 24 ≤ length into.old }
    ensures value { result ≡ length (spelling (nak_packet stamp dest isn (range_of gap ∷ []))) }
    ensures after { into.new
        ≡ spelling (nak_packet stamp dest isn (range_of gap ∷ [])) ++ drop result into.old }
{
    let place = put_nak_header(stamp, dest, into);
    put_offsets(isn, gap, into, place)
}

// Writes the words of a range at this place, and answers the place after them.
fn put_offsets(isn: u32, ends: (u64, u64), into: &mut [u8], place: usize) -> usize
    requires { place + length (range_bytes (numbers_from isn (range_of ends))) ≤ length into.old }
    ensures value { result ≡ place + length (range_bytes (numbers_from isn (range_of ends))) }
    ensures after { into.new
        ≡ with_between place result (range_bytes (numbers_from isn (range_of ends))) into.old }
{
    put_range(seq_of(isn, ends.0), seq_of(isn, ends.1), into, place)
}

// Writes the words of the ranges at this place, and answers the place after them.
fn put_ranges(isn: u32, ranges: &Ranges, into: &mut [u8], place: usize) -> usize
    requires { place + 4 * words_of ranges.now.ranges ≤ length into.old }
    ensures value { result ≡ place + length (numbers_bytes isn ranges.now.ranges) }
    ensures after { into.new
        ≡ with_between place result (numbers_bytes isn ranges.now.ranges) into.old }
{
    let mut end = place;
    for i in 0..ranges.len() {
        end = put_offsets(isn, ranges.get(i), into, end);
    }
    end
}
