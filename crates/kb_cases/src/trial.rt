//! One run over memory, compared with what has to come of it.

use crate::dialogue::{Answers, Questions};
use crate::meeting::Meeting;
use crate::noted_shelf::NotedShelf;
use kb_casefile::{Case, Named, Wanted, find};
use kb_cli::{Status, run};
use kb_io::{MemShelf, MemSink, Shelf, Sink, Source};
use std::alloc::{AllocError, Global};
use std::sync::atomic::AtomicU64;
use std::sync::{Arc, Wait};
use std::thread::Threads;

/// Something that came of a run otherwise than wanted.
#[derive(Drop)]
pub(crate) struct Difference {
    /// What it is.
    pub what: String,
    /// What was wanted; `None` where nothing was to be there.
    pub wanted: Option<Vec<u8>>,
    /// What came.
    pub came: Option<Vec<u8>>,
}

/// The differences that were found.
#[derive(Drop)]
struct Comparison {
    alloc: Global,
    found: Vec<Difference>,
}

impl Comparison {
    /// Adds a difference, where there is one.
    fn compare(
        &mut self,
        what: &str,
        wanted: Option<&[u8]>,
        came: Option<&[u8]>,
    ) -> Result<(), AllocError> {
        if wanted == came {
            return Ok(());
        }
        self.found.push(Difference {
            what: String::from_str(self.alloc, what)?,
            wanted: copied(self.alloc, wanted)?,
            came: copied(self.alloc, came)?,
        })?;
        Ok(())
    }

    /// Compares the exit status, and the kind of a fault of the command line where one is wanted.
    fn compare_status(&mut self, wanted: &Wanted, status: &Status) -> Result<(), AllocError> {
        let (exit, came) = (wanted.exit, status.exit());
        let exit = format!(in self.alloc; "{exit}")?;
        let came = format!(in self.alloc; "{came}")?;
        self.compare("the status", Some(exit.as_bytes()), Some(came.as_bytes()))?;
        match &wanted.kind {
            Some(kind) => {
                let came = kind_of(self.alloc, status)?;
                self.compare("the kind", Some(kind.as_slice()), Some(came.as_bytes()))
            }
            None => Ok(()),
        }
    }

    /// Compares how many workers came to the gate, and how many of them in a later pass, where it is told. Of several
    /// the first has to meet another.
    fn compare_workers(&mut self, wanted: &Wanted, meeting: &Meeting) -> Result<(), AllocError> {
        let came = shown_workers(self.alloc, meeting)?;
        self.compare_crew("the workers", wanted.workers, came.as_str())?;
        let later = meeting.later_workers().max(1);
        let later = format!(in self.alloc; "{later}")?;
        self.compare_crew("the workers of a later pass", wanted.later, later.as_str())
    }

    /// Compares a number of workers, where it is told.
    fn compare_crew(
        &mut self,
        what: &str,
        wanted: Option<usize>,
        came: &str,
    ) -> Result<(), AllocError> {
        let Some(wanted) = wanted else {
            return Ok(());
        };
        let wanted = format!(in self.alloc; "{wanted}")?;
        self.compare(what, Some(wanted.as_bytes()), Some(came.as_bytes()))
    }

    /// Compares when the lines of a dialogue are asked for. This one was before its turn.
    fn compare_dialogue(&mut self, early: Option<u64>) -> Result<(), AllocError> {
        let Some(line) = early else {
            return Ok(());
        };
        let came = format!(in self.alloc; "asked for line {line} before an answer")?;
        self.compare(
            "the dialogue",
            Some(b"each line in its turn"),
            Some(came.as_bytes()),
        )
    }

    /// Compares what is written on err. Where nothing is told of it there is a message with the
    /// statuses 1, 4, 5 and 6, and none with the others.
    fn compare_err(&mut self, wanted: &Wanted, came: &[u8]) -> Result<(), AllocError> {
        match &wanted.err {
            Some(err) => self.compare("err", Some(err.as_slice()), Some(came)),
            None if matches!(wanted.exit, 1 | 4 | 5 | 6) => {
                if came.is_empty() {
                    self.compare("err", Some(b"a message"), Some(came))
                } else {
                    Ok(())
                }
            }
            None => self.compare("err", Some(b""), Some(came)),
        }
    }

    /// Compares the files: those that have to be stored are there, the others are as they were, and no other file is
    /// there.
    fn compare_files(&mut self, case: &Case, shelf: &NotedShelf) -> Result<(), AllocError> {
        let stored = case.wanted.stored.as_slice();
        self.compare_each(stored, shelf)?;
        for file in &case.files {
            let name = file.name.as_str();
            if find(stored, name).is_none() {
                self.compare(name, Some(file.bytes.as_slice()), shelf.get(name))?;
            }
        }
        self.compare_left(&case.wanted.left, shelf)?;
        for name in shelf.names() {
            let is_left = case.wanted.left.contains(name);
            let name = name.as_str();
            let is_known = find(stored, name).or(find(&case.files, name)).is_some();
            if !is_left && !is_known {
                self.compare(name, None, shelf.get(name))?;
            }
        }
        Ok(())
    }

    /// Compares whether files are there that have to be, whatever their text is.
    fn compare_left(&mut self, names: &[String], shelf: &NotedShelf) -> Result<(), AllocError> {
        for name in names {
            if shelf.get(name).is_none() {
                self.compare(name, Some(b"a text"), None)?;
            }
        }
        Ok(())
    }

    /// Compares files that have to be there.
    fn compare_each(&mut self, files: &[Named], shelf: &NotedShelf) -> Result<(), AllocError> {
        for file in files {
            let name = file.name.as_str();
            self.compare(name, Some(file.bytes.as_slice()), shelf.get(name))?;
        }
        Ok(())
    }
}

/// A copy of the bytes.
fn copied(alloc: Global, bytes: Option<&[u8]>) -> Result<Option<Vec<u8>>, AllocError> {
    match bytes {
        Some(bytes) => Ok(Some(Vec::from_slice(alloc, bytes)?)),
        None => Ok(None),
    }
}

/// The kind of a fault of the command line.
fn kind_of(alloc: Global, status: &Status) -> Result<String, AllocError> {
    match status {
        Status::Usage(kind) => format!(in alloc; "{kind:?}"),
        _ => String::from_str(alloc, "no fault of the command line"),
    }
}

/// How many workers a run had, by the gate: to it comes nobody where one did the work.
fn shown_workers(alloc: Global, meeting: &Meeting) -> Result<String, AllocError> {
    let workers = meeting.workers().max(1);
    if meeting.is_missed() {
        format!(in alloc; "{workers}, of whom the first met none")
    } else {
        format!(in alloc; "{workers}")
    }
}

/// A shelf with the case's files, on which its loads and stores fail.
fn shelf_of(alloc: Global, case: &Case) -> Result<NotedShelf, AllocError> {
    let loads = case.devices.loads.clone()?;
    let stores = case.devices.stores.clone()?;
    let mut shelf = MemShelf::new(alloc, loads, stores);
    for file in &case.files {
        shelf.insert(alloc, file.name.as_str(), file.bytes.as_slice())?;
    }
    Ok(NotedShelf::of(alloc, shelf))
}

/// Runs the program. Nothing is stated of what it does, so that what is proved here needn't take the program's contract
/// at the forms over memory, which takes minutes.
fn status_of_run<T: Threads + Wait + Sync, F: Shelf, I: Source, O: Sink, E: Sink>(
    rt: &T,
    alloc: Global,
    words: &[String],
    shelf: &mut F,
    input: &mut I,
    out: &mut O,
    err: &mut E,
    meeting: &Meeting,
) -> Status {
    run(rt, alloc, words, shelf, input, out, err, meeting)
}

/// Runs the case. What comes of it otherwise than wanted is the result.
pub(crate) fn differences<R: Threads + Wait + Sync>(
    alloc: Global,
    rt: &R,
    case: &Case,
) -> Result<Vec<Difference>, AllocError> {
    let mut shelf = shelf_of(alloc, case)?;
    let piece = case.devices.piece.max(1);
    let answered = Arc::new(alloc, AtomicU64::new(0))?;
    let mut input = Questions::of(alloc, case, Arc::try_clone(&answered)?)?;
    let out = MemSink::new(alloc, rt, piece, case.devices.writes.clone()?);
    let mut out = Answers::of(out, answered);
    let mut err = MemSink::new(alloc, rt, piece, case.devices.messages.clone()?);
    let words = case.words.as_slice();
    let meeting = Meeting::of(case.wanted.workers.unwrap_or(1));
    let status = status_of_run(
        rt, alloc, words, &mut shelf, &mut input, &mut out, &mut err, &meeting,
    );
    compared(
        alloc,
        case,
        &status,
        &meeting,
        &shelf,
        input.early(),
        out.written(),
        err.written(),
    )
}

/// Compares what came of a run with what was wanted.
fn compared(
    alloc: Global,
    case: &Case,
    status: &Status,
    meeting: &Meeting,
    shelf: &NotedShelf,
    early: Option<u64>,
    out: &[u8],
    err: &[u8],
) -> Result<Vec<Difference>, AllocError> {
    let mut comparison = Comparison {
        alloc,
        found: Vec::new(alloc),
    };
    comparison.compare_status(&case.wanted, status)?;
    comparison.compare_workers(&case.wanted, meeting)?;
    comparison.compare_dialogue(early)?;
    comparison.compare("out", Some(case.wanted.out.as_slice()), Some(out))?;
    comparison.compare_err(&case.wanted, err)?;
    comparison.compare_files(case, shelf)?;
    Ok(comparison.found)
}
