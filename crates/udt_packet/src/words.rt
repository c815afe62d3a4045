// The words of a packet's header, and the bytes of a packet put after one another.

ghost use Rattle.std.specs.Prelude.{◌≡◌, ◌+◌, ◌≤◌, ◌++◌, length, take, drop};
ghost use Rattle.udt_model.specs.Wire as wire;
ghost use Rattle.udt_model.specs.Wire.{word};

/// How many bytes stand before the bytes of a block, or the fields of a control packet.
pub const HEADER: usize = 16;

/// How many packet numbers there are, before they begin again.
const NUMBERS: u32 = 1 << 31;

/// The big-endian word at this place.
pub fn word_at(bytes: &[u8], place: usize) -> u32
    requires { place + 4 ≤ length bytes.now }
    ensures { result ≡ wire.word_at place bytes.now }
{
    u32::from_be_bytes([
        bytes[place],
        bytes[place + 1],
        bytes[place + 2],
        bytes[place + 3],
    ])
}

/// The sequence number at this place, whose first bit is ignored.
pub fn number_at(bytes: &[u8], place: usize) -> u32
    requires { place + 4 ≤ length bytes.now }
    ensures { result ≡ wire.number_at place bytes.now }
{
    word_at(bytes, place) % NUMBERS
}

/// The bytes from this place on.
pub fn following(bytes: &[u8], place: usize) -> &[u8]
    requires { place ≤ length bytes.now }
    ensures { result.now ≡ drop place bytes.now }
{
    let (_, rest) = bytes.split_at(place);
    rest
}

/// Two words, one after the other.
pub fn two(first: u32, second: u32) -> [u8; 8]
    ensures { result ≡ word first ++ word second }
{
    let a = first.to_be_bytes();
    let b = second.to_be_bytes();
    [a[0], a[1], a[2], a[3], b[0], b[1], b[2], b[3]]
}

/// Four words, one after the other.
pub fn four(first: u32, second: u32, third: u32, fourth: u32) -> [u8; 16]
    ensures { result ≡ wire.header first second third fourth }
{
    let a = first.to_be_bytes();
    let b = second.to_be_bytes();
    let c = third.to_be_bytes();
    let d = fourth.to_be_bytes();
    [
        a[0], a[1], a[2], a[3], b[0], b[1], b[2], b[3], c[0], c[1], c[2], c[3], d[0], d[1], d[2],
        d[3],
    ]
}

/// Writes the bytes at this place, and answers the place after them.
pub fn put(into: &mut [u8], place: usize, bytes: &[u8]) -> usize
    requires { place + length bytes.now ≤ length into.old }
    ensures value { result ≡ place + length bytes.now }
    ensures after { into.new ≡ take place into.old ++ bytes.now ++ drop result into.old }
{
    let end = place + bytes.len();
    into[place..end].copy_from_slice(bytes);
    end
}

/// Writes the four words of a header at the front, each at once, and answers the place after them.
#[inline(always)]
pub fn put_header(into: &mut [u8], first: u32, second: u32, third: u32, fourth: u32) -> usize
    requires { 16 ≤ length into.old }
    ensures value { result ≡ 16 }
    ensures after { into.new ≡ wire.header first second third fourth ++ drop result into.old }
{
    let place = put(into, 0, &first.to_be_bytes());
    let place = put(into, place, &second.to_be_bytes());
    let place = put(into, place, &third.to_be_bytes());
    put(into, place, &fourth.to_be_bytes())
}
