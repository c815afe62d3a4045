// Files in the system's folder for files that don't last.

use crate::Files;
use std::test::Fail;
use std::{env, fs, process};
use udt_outside::{Create, Folder, Sink, Source};

#[test]
fn a_file_is_written_once_and_read_back(rt: HostRuntime) -> Result<(), Fail> {
    let alloc = rt.alloc();
    let id = process::id(rt.process());
    let name = format!(in alloc; "udt_adapters-{id}")?;
    let path = env::temp_dir(&rt)?.join(alloc, name.as_str())?;
    let path = path.as_path().as_str();
    let mut folder = Files::new(rt);
    assert!(rt; folder.open_read(path).is_err());
    let Ok(Create::Made(mut out)) = folder.create(path) else {
        panic!(rt; "no file {path}")
    };
    assert_eq!(rt; out.write(b"twelve bytes"), Ok(12));
    assert_eq!(rt; out.write(b""), Ok(0));
    folder.keep(path, out);
    assert!(rt; matches!(folder.create(path), Ok(Create::Exists)));
    let Ok((len, mut input)) = folder.open_read(path) else {
        panic!(rt; "no file {path}")
    };
    assert_eq!(rt; len, 12);
    let mut into = [0; 16];
    assert_eq!(rt; input.read(&mut into), Ok(12));
    assert_eq!(rt; &into[..12], b"twelve bytes".as_slice());
    assert_eq!(rt; input.read(&mut into), Ok(0));
    folder.done(input);
    fs::remove_file(&rt, path)?;
    Ok(())
}
