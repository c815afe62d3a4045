// The folder in memory, through its trait.

use crate::{Create, Failed, Folder, MemoryFolder, Sink, Source};
use std::alloc::Global;
use std::test::Fail;

fn list(alloc: Global, numbers: &[u64]) -> Result<Vec<u64>, Fail> {
    Ok(Vec::from_slice(alloc, numbers)?)
}

// Makes a file of what one write takes of the bytes.
fn write_file<F: Folder>(folder: &mut F, name: &str, bytes: &[u8]) -> Result<bool, Failed> {
    match folder.create(name)? {
        Create::Made(mut out) => {
            let written = out.write(bytes);
            folder.keep(name, out);
            written?;
            Ok(true)
        }
        Create::Exists => Ok(false),
    }
}

// Reads a file once, and answers its length and how many bytes were read.
fn read_file<F: Folder>(
    folder: &mut F,
    name: &str,
    into: &mut [u8],
) -> Result<(u64, usize), Failed> {
    let (len, mut file) = folder.open_read(name)?;
    let read = file.read(into);
    folder.done(file);
    Ok((len, read?))
}

#[test]
fn keeps_files_by_name_and_fails_by_the_lists(rt: HostRuntime) -> Result<(), Fail> {
    let alloc = rt.alloc();
    let (failing, reads, writes) = (
        list(alloc, &[3, 6])?,
        list(alloc, &[2])?,
        list(alloc, &[2])?,
    );
    let mut folder = MemoryFolder::new(alloc, 4, 10, failing, reads, writes);
    assert!(rt; folder.add("a", b"abcde").is_ok());
    let writes: [(&str, &[u8], Result<bool, Failed>); 5] = [
        ("a", b"zz", Ok(false)),
        ("b", b"xyz", Ok(true)),
        ("c", b"xyz", Err(Failed)),
        ("c", b"0123456", Ok(true)),
        ("b", b"zz", Ok(false)),
    ];
    for (name, bytes, answer) in writes {
        assert_eq!(rt; write_file(&mut folder, name, bytes), answer, "{name}");
    }
    let files: [(&str, &[u8]); 3] = [("a", b"abcde"), ("b", b"xyz"), ("c", b"0123")];
    for (name, bytes) in files {
        assert_eq!(rt; folder.file(name), Some(bytes), "{name}");
    }
    assert_eq!(rt; folder.file("d"), None);
    let reads: [(&str, Result<(u64, usize), Failed>, &[u8]); 4] = [
        ("a", Err(Failed), b""),
        ("a", Ok((5, 4)), b"abcd"),
        ("d", Err(Failed), b""),
        ("c", Ok((4, 4)), b"0123"),
    ];
    for (name, answer, got) in reads {
        let mut into = [0; 8];
        assert_eq!(rt; read_file(&mut folder, name, &mut into), answer, "{name}");
        assert_eq!(rt; &into[..got.len()], got, "{name}");
    }
    Ok(())
}
