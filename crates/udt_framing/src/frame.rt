// The twelve bytes before those of the file.

ghost use Rattle.std.specs.Prelude.{◌≡◌, ◌+◌, ◌≤◌, ◌++◌, ℕ, length, take, drop, IfSome, IfNone};
ghost use Rattle.std.specs.Int.{w64, to_be_bytes};
ghost use Rattle.udt_model.specs.Emissions.{IsPrefix};
ghost use Rattle.udt_framing.specs.Framing.{header_of};

/// The bytes that a frame begins with.
pub(crate) const MARK: [u8; 4] = [0x55, 0x44, 0x54, 0x46];

/// The number of bytes of a header.
pub(crate) const HEADER_LEN: usize = 12;

/// The header of a file of which `len` bytes are sent: `UDTF`, and the length in eight bytes, the
/// highest first.
#[tactic(auto, unfolding(crate::specs::Framing::header_of))]
pub fn header(len: u64) -> [u8; 12]
    ensures { result ≡ header_of len }
{
    let [a, b, c, d, e, f, g, h] = len.to_be_bytes();
    [0x55, 0x44, 0x54, 0x46, a, b, c, d, e, f, g, h]
}

// The number that eight bytes tell, the highest first.
fn number_of(bytes: &[u8]) -> u64
    requires { length bytes.now ≡ 8 }
    ensures { to_be_bytes w64 result ≡ bytes.now }
{
    u64::from_be_bytes([
        bytes[0], bytes[1], bytes[2], bytes[3], bytes[4], bytes[5], bytes[6], bytes[7],
    ])
}

// The header of `len` with these bytes at a place.
fn header_with(len: u64, at: usize, bytes: &[u8]) -> [u8; 12]
    requires { at + length bytes.now ≤ 12 }
    ensures { result
        ≡ take at (header_of len) ++ bytes.now ++ drop (at + length bytes.now) (header_of len) }
{
    let mut head = header(len);
    head[at..at + bytes.len()].copy_from_slice(bytes);
    head
}

/// A length whose header has the first `at` bytes of the header of `len`, and then these bytes.
pub(crate) fn length_with(len: u64, at: usize, bytes: &[u8]) -> Option<u64>
    requires { at + length bytes.now ≤ 12 }
    ensures some { IfSome result (λ l. IsPrefix (take at (header_of len) ++ bytes.now) (header_of l)) }
    ensures none { IfNone result ((l : ℕ) → ¬ IsPrefix (take at (header_of len) ++ bytes.now) (header_of l)) }
{
    let head = header_with(len, at, bytes);
    let (first, last) = head.split_at(MARK.len());
    if first != MARK.as_slice() {
        return None;
    }
    Some(number_of(last))
}
