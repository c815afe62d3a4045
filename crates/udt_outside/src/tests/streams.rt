// The input and the output in memory, through their traits.

use crate::{Failed, MemorySink, MemorySource, Sink, Source};
use std::alloc::Global;

fn read_by<S: Source>(source: &mut S, into: &mut [u8]) -> Result<usize, Failed> {
    source.read(into)
}

fn write_by<K: Sink>(sink: &mut K, bytes: &[u8]) -> Result<usize, Failed> {
    sink.write(bytes)
}

#[test]
fn gives_and_takes_pieces_and_fails_by_the_list(rt: HostRuntime) {
    let alloc = rt.alloc();
    let bytes = Vec::from_slice(alloc, b"abcdefg").expect(&rt, "memory");
    let failing = Vec::from_slice(alloc, &[2, 5]).expect(&rt, "memory");
    let mut source = MemorySource::new(bytes, 3, failing);
    let failing = Vec::from_slice(alloc, &[1]).expect(&rt, "memory");
    let mut sink = MemorySink::new(alloc, 6, 2, failing).expect(&rt, "memory");
    let reads: [(usize, Result<usize, Failed>, &[u8]); 7] = [
        (2, Ok(2), b"ab"),
        (4, Err(Failed), b""),
        (4, Ok(3), b"cde"),
        (0, Ok(0), b""),
        (4, Err(Failed), b""),
        (4, Ok(2), b"fg"),
        (4, Ok(0), b""),
    ];
    for (room, answer, got) in reads {
        let mut into = [0; 4];
        let into = &mut into[..room];
        assert_eq!(rt; read_by(&mut source, into), answer, "into {room}");
        assert_eq!(rt; &into[..got.len()], got, "into {room}");
    }
    let writes: [(&[u8], Result<usize, Failed>, &[u8]); 6] = [
        (b"uv", Err(Failed), b""),
        (b"uvw", Ok(2), b"uv"),
        (b"w", Ok(1), b"uvw"),
        (b"", Ok(0), b"uvw"),
        (b"xy", Ok(2), b"uvwxy"),
        (b"zz", Ok(1), b"uvwxyz"),
    ];
    for (bytes, answer, whole) in writes {
        assert_eq!(rt; write_by(&mut sink, bytes), answer, "after {whole:?}");
        assert_eq!(rt; sink.taken(), whole);
    }
    assert_eq!(rt; write_by(&mut sink, b"!"), Err(Failed));
    assert_eq!(rt; sink.taken(), b"uvwxyz".as_slice());
}
