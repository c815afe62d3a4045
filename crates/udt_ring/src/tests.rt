// A ring of three parts, turned past its end, by hand.

use super::*;
use std::test::*;

#[test]
fn parts_keep_their_bytes_until_the_ring_turns_past_them(rt: HostRuntime) -> Result<(), Fail> {
    let mut ring = Ring::new(rt.alloc(), 3, 2, 'n')?;
    // turn this many, then put this head and these bytes into a part; the heads and bytes of all parts
    let table: [(usize, usize, char, &[u8], [(char, &[u8]); 3]); 7] = [
        (0, 2, 'a', b"aa", [('n', b""), ('n', b""), ('a', b"aa")]),
        (2, 1, 'b', b"b", [('a', b"aa"), ('b', b"b"), ('n', b"")]),
        (1, 1, 'c', b"cc", [('b', b"b"), ('c', b"cc"), ('n', b"")]),
        (0, 2, 'd', b"dd", [('b', b"b"), ('c', b"cc"), ('d', b"dd")]),
        (0, 0, 'e', b"ee", [('e', b"ee"), ('c', b"cc"), ('d', b"dd")]),
        (2, 2, 'f', b"f", [('d', b"dd"), ('n', b""), ('f', b"f")]),
        (3, 0, 'g', b"", [('g', b""), ('n', b""), ('n', b"")]),
    ];
    for (by, at, head, bytes, parts) in table {
        assert!(rt; ring.count() == 3 && by <= 3 && at < 3 && bytes.len() <= 2);
        ring.turn(by, 'n');
        assert!(rt; ring.count() == 3);
        ring.put(at, head, bytes);
        for (i, part) in parts.into_iter().enumerate() {
            assert!(rt; i < ring.count());
            assert_eq!(rt; ring.part(i), part, "part {i} after {head}");
        }
    }
    let mut memory = [0; 4];
    write(&mut memory, 1, b"xy");
    assert_eq!(rt; memory, [0, b'x', b'y', 0]);
    Ok(())
}
