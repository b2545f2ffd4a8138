//! The files of the system, by their paths.

ghost use Rattle.std.specs.Prelude.{◌≡◌, Some, None, IfOk, IfSome, false};
ghost use Rattle.kb_io.specs.Loading.{LoadGives};

use super::faults::count_fault;
use super::retry::read_some;
use crate::shelf::{Load, Shelf, ShelfFault};
use std::alloc::Global;
use std::fs::File;
use std::io::{ErrorKind, Read, Write};
use std::rt::Files;
use std::sync::Wait;
use std::{fs, io};

/// The files of the runtime; a name is a path. Contracts know none of their bytes.
#[derive(Drop)]
pub struct FileShelf<R> {
    rt: R,
    load_faults: u64,
    store_faults: u64,
}

impl<R: Files + Wait> FileShelf<R> {
    /// The files, of which none has failed.
    pub fn new(rt: R) -> FileShelf<R>
        ensures loads { (⟦<FileShelf<R> as Shelf>⟧.state result).load_faults ≡ 0 }
        ensures stores { (⟦<FileShelf<R> as Shelf>⟧.state result).store_faults ≡ 0 }
    {
        FileShelf {
            rt,
            load_faults: 0,
            store_faults: 0,
        }
    }
}

impl<R: Files + Wait> Shelf for FileShelf<R> {
    ghost state = { λ shelf. record {
      told = false;
      holds = λ _. None;
      load_faults = shelf.load_faults;
      store_faults = shelf.store_faults;
    } };

    fn load(&mut self, alloc: Global, name: &str, max: usize) -> Result<Load, ShelfFault> {
        let answer = load_file(alloc, &self.rt, name, max);
        if matches!(answer, Err(ShelfFault::Failed)) {
            count_fault(&self.rt, &mut self.load_faults);
        }
        answer
    }

    fn store(&mut self, alloc: Global, name: &str, bytes: &[u8]) -> Result<(), ShelfFault> {
        let answer = store_file(alloc, &self.rt, name, bytes);
        if answer == Err(ShelfFault::Failed) {
            count_fault(&self.rt, &mut self.store_faults);
        }
        answer
    }
}

/// The bytes of a file, if they are at most max. Missing where the system knows no such file.
fn load_file<R: Files>(alloc: Global, rt: &R, name: &str, max: usize) -> Result<Load, ShelfFault> {
    match fs::open(rt, name) {
        Ok(mut file) => read_up_to(alloc, &mut file, max),
        Err(error) if error.kind() == ErrorKind::NotFound => Ok(Load::Missing),
        Err(_) => Err(ShelfFault::Failed),
    }
}

/// How many bytes are read at once.
const PIECE: usize = 4096;

/// Reads to the end, but no more than one byte above max.
fn read_up_to<F: Read>(alloc: Global, from: &mut F, max: usize) -> Result<Load, ShelfFault>
    ensures { IfSome (F.remaining from.old) (λ bytes. IfOk result (LoadGives (Some bytes) max)) }
{
    let mut bytes = Vec::new(alloc);
    let mut piece = [0u8; PIECE];
    for _ in 0..u64::MAX {
        let room = (max - bytes.len()).saturating_add(1).min(PIECE);
        match read_some(from, &mut piece[..room])? {
            0 => return Ok(Load::Text(bytes)),
            count if count > max - bytes.len() => return Ok(Load::TooLong),
            count => bytes.extend_from_slice(&piece[..count])?,
        }
    }
    Err(ShelfFault::Failed)
}

/// Writes the bytes to a new file beside, and moves that to the name, so that a store that fails
/// half-way leaves what was there. What is no plain file, as a device, is written to itself.
fn store_file<R: Files>(alloc: Global, rt: &R, name: &str, bytes: &[u8]) -> Result<(), ShelfFault> {
    if is_special(rt, name) {
        return Ok(fs::write(rt, name, bytes)?);
    }
    let (mut file, beside) = create_beside(alloc, rt, name)?;
    if let Err(error) = replace(rt, &mut file, beside.as_str(), name, bytes) {
        let _ = fs::remove_file(rt, beside.as_str());
        return Err(ShelfFault::from(error));
    }
    Ok(())
}

/// Whether there is something under the name that is no plain file.
fn is_special<R: Files>(rt: &R, name: &str) -> bool {
    fs::metadata(rt, name).is_ok_and(|metadata| !metadata.is_file())
}

/// How many names beside a file are tried.
const NAMES: u32 = 1000;

/// A new file beside, under a name that nothing had.
fn create_beside<R: Files>(
    alloc: Global,
    rt: &R,
    name: &str,
) -> Result<(R::File, String), ShelfFault> {
    for number in 0..NAMES {
        let beside = format!(in alloc; "{name}.{number}~")?;
        match File::create_new(rt, beside.as_str()) {
            Ok(file) => return Ok((file, beside)),
            Err(error) if error.kind() == ErrorKind::AlreadyExists => {}
            Err(_) => return Err(ShelfFault::Failed),
        }
    }
    Err(ShelfFault::Failed)
}

/// Writes the bytes to the file beside, and moves it to the name.
fn replace<R: Files>(
    rt: &R,
    file: &mut R::File,
    beside: &str,
    name: &str,
    bytes: &[u8],
) -> io::Result<()> {
    file.write_all(bytes)?;
    fs::rename(rt, beside, name)
}
