//! What the adapter over real files does with the system, which no clause says.

use kb_io::{FileShelf, Load, Shelf, ShelfFault};
use std::{env, fs, io, process};

/// Whether the load is a text of these bytes.
fn is_text(load: &Result<Load, ShelfFault>, bytes: &[u8]) -> bool {
    match load {
        Ok(Load::Text(text)) => text.as_slice() == bytes,
        _ => false,
    }
}

#[test]
fn files_are_stored_and_loaded(rt: HostRuntime) -> io::Result<()> {
    let alloc = rt.alloc();
    let directory = env::temp_dir(&rt)?;
    let number = process::id(rt.process());
    let name = format!(in alloc; "{}/kb_io_{number}", directory.as_path().display())?;
    let beside = format!(in alloc; "{name}.0~")?;
    let below = format!(in alloc; "{name}/below")?;
    let mut shelf = FileShelf::new(&rt);

    assert!(rt; matches!(shelf.load(alloc, name.as_str(), 9), Ok(Load::Missing)));
    assert!(rt; shelf.store(alloc, name.as_str(), b"first").is_ok());
    assert!(rt; shelf.store(alloc, name.as_str(), b"second").is_ok());
    assert!(rt; is_text(&shelf.load(alloc, name.as_str(), 6), b"second"));
    assert!(rt; matches!(shelf.load(alloc, name.as_str(), 5), Ok(Load::TooLong)));
    assert!(rt; matches!(shelf.load(alloc, beside.as_str(), 9), Ok(Load::Missing)));
    assert!(rt; shelf.store(alloc, below.as_str(), b"no") == Err(ShelfFault::Failed));
    assert!(rt; matches!(shelf.load(alloc, "/", 9), Err(ShelfFault::Failed)));
    assert!(rt; shelf.store(alloc, "/dev/null", b"gone").is_ok());
    assert!(rt; is_text(&shelf.load(alloc, "/dev/null", 9), b""));
    fs::remove_file(&rt, name.as_str())
}
