// Copying bytes out of a ring's parts.

ghost use Rattle.std.specs.Prelude.{◌≡◌, ◌+◌, ◌-◌, ◌^◌, ◌≤◌, ◌++◌, length, take, drop};
ghost use Rattle.udt_ring.specs.Parts.{joined};

use crate::head::Head;
use udt_ring::{Ring, write};

// Copies bytes of the parts from this one on, all bytes of each, behind those that are there already,
// until this many are.
fn copy_parts(ring: &Ring<Head>, first: usize, there: usize, count: usize, into: &mut [u8])
    requires first { first ≤ length ring.now.list }
    requires few { length ring.now.list ≤ 2 ^ 32 }
    requires there { there ≤ count }
    requires room { count ≤ length into.old }
    requires bytes { count - there ≤ length (joined (drop first ring.now.list)) }
    ensures { into.new
        ≡ take there into.old ++ take (count - there) (joined (drop first ring.now.list)) ++ drop count into.old }
{
    let mut part = first;
    let mut filled = there;
    while filled < count {
        let (_, bytes) = ring.part(part);
        let more = bytes.len().min(count - filled);
        write(into, filled, &bytes[..more]);
        part += 1;
        filled += more;
    }
}

/// Copies this many bytes of the parts from this one on, after those that are skipped.
pub fn copy_out(ring: &Ring<Head>, first: usize, skip: usize, count: usize, into: &mut [u8])
    requires first { first ≤ length ring.now.list }
    requires few { length ring.now.list ≤ 2 ^ 32 }
    requires room { count ≤ length into.old }
    requires bytes { skip + count ≤ length (joined (drop first ring.now.list)) }
    ensures { into.new
        ≡ take count (drop skip (joined (drop first ring.now.list))) ++ drop count into.old }
{
    let mut part = first;
    let mut skip = skip;
    let mut filled = 0;
    // (mostly the first part alone)
    while skip > 0 {
        let (_, bytes) = ring.part(part);
        let passed = skip.min(bytes.len());
        let unread = &bytes[passed..];
        let more = unread.len().min(count - filled);
        write(into, filled, &unread[..more]);
        part += 1;
        skip -= passed;
        filled += more;
    }
    copy_parts(ring, part, filled, count, into);
}
