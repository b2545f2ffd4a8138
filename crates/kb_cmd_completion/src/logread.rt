//! `logread FILE`: what the log of a completion holds.

ghost use Rattle.std.specs.Prelude.{◌≡◌, ◌++◌, IfOk, OnOk};
ghost use Rattle.kb_io.specs.Outside.{outside};
ghost use Rattle.kb_io.specs.States.{ShelfState, SourceState};
ghost use Rattle.kb_task.specs.Runs.{IsRun};
ghost use Rattle.kb_cmd_completion.specs.Logread.{LogMeans, StoresNothing, logread_line, open_text, version_number};

use crate::printing::{append, append_number};
use kb_evidence::log_file;
use kb_io::{Shelf, Sink, Source};
use kb_machine::Line;
use kb_proof::{Log, Version, print_origin};
use kb_task::{Status, Task, load_log, load_presentation, print_line};
use kb_word::{Memory, OwnedText};
use std::alloc::Global;
use std::marker::Model;

/// Says of the log that belongs to a presentation's file its version, how many lines it has, and
/// what is open. Contracts see what the command line gives it.
#[derive(Drop)]
pub struct Logread {
    /// The name of the file with the presentation.
    pub file: OwnedText,
}

impl Model for Logread {
    ghost use Rattle.kb_cmd_completion.specs.Given.{LogreadGiven};

    ghost Value = { LogreadGiven };

    ghost view = { λ task. record { file = task.file } };
}

impl Task for Logread {
    ghost use Rattle.kb_cmd_completion.specs.Logread.{logread_promise};
    ghost use Rattle.kb_cmd_completion.specs.LogreadLaws.{logread_lawful};

    ghost promise = { logread_promise };

    ghost lawful = { logread_lawful };
}

impl Logread {
    ghost use Rattle.kb_task.specs.Promises.{Keeps};
    ghost use Rattle.kb_cmd_completion.specs.Logread.{logread_promise};

    /// Runs the command.
    pub fn run<F: Shelf, I: Source, O: Sink>(
        self,
        alloc: Global,
        shelf: &mut F,
        input: &mut I,
        out: &mut O,
    ) -> Status
        ensures { Keeps (logread_promise self)
            (outside (F.state shelf.old) (I.state input.old) (O.state out.old))
            (outside (F.state shelf.new) (I.state input.new) (O.state out.new)) result }
    {
        let _ = input;
        let Ok(name) = log_file(alloc, &self.file) else {
            return Status::Memory;
        };
        let presentation = match load_presentation(alloc, self.file, shelf) {
            Ok(presentation) => presentation,
            Err(status) => return status,
        };
        match load_log(alloc, name, &presentation, shelf) {
            Ok(log) => print_summary(alloc, &log, out),
            Err(status) => status,
        }
    }
}

/// Prints the line about a log.
fn print_summary<O: Sink>(alloc: Global, log: &Log, out: &mut O) -> Status
    ensures { (shelf : ShelfState) (input : SourceState) → IsRun (LogMeans log.now) StoresNothing
        (outside shelf input (O.state out.old)) (outside shelf input (O.state out.new)) result }
{
    match summary(alloc, log) {
        Ok(line) => print_line(&line, Status::Yes, out),
        Err(Memory) => Status::Memory,
    }
}

/// `log`, the version, how many lines there are, what is open, and a newline.
fn summary(alloc: Global, log: &Log) -> Result<Vec<u8>, Memory>
    ensures { IfOk result (λ line. line.items ≡ logread_line log.now) }
{
    let mut line = Vec::from_slice(alloc, b"log ")?;
    append_number(version_number(log.version), &mut line)?;
    append(b": lines ", &mut line)?;
    append_number(log.lines.len() as u64, &mut line)?;
    append(b", ", &mut line)?;
    append_open(&log.waiting, &mut line)?;
    line.push(b'\n')?;
    Ok(line)
}

/// The number of a version.
fn version_number(version: Version) -> u64
    ensures { result ≡ version_number version }
{
    match version {
        Version::One => 1,
        Version::Two => 2,
    }
}

/// Appends `open` and where the line that waits comes from, or `no open`.
fn append_open(waiting: &Option<Line>, line: &mut Vec<u8>) -> Result<(), Memory>
    ensures { OnOk result (line.new.items ≡ line.old.items ++ open_text waiting.now) }
{
    let Some(waiting) = waiting else {
        return append(b"no open", line);
    };
    append(b"open ", line)?;
    print_origin(waiting.origin, line)
}
