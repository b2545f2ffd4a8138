//! `kbverify FILE`: whether the log of a completion is justified line by line.

ghost use Rattle.std.specs.Prelude.{◌≡◌, IfOk};
ghost use Rattle.kb_io.specs.Outside.{outside};
ghost use Rattle.kb_io.specs.States.{ShelfState, SourceState};
ghost use Rattle.kb_word.specs.Presentations.{PresentationParts, parts_of};
ghost use Rattle.kb_proof.specs.declared.log.Log.{Log as SomeLog};
ghost use Rattle.kb_task.specs.Runs.{IsRun};
ghost use Rattle.kb_task.specs.Statuses.{IsFaultless};
ghost use Rattle.kb_cmd_proofs.specs.Kbverify.{CheckMeans, LogSays, StoresNothing, answer_line, answer_status};

use kb_evidence::log_file;
use kb_io::{Shelf, Sink, Source};
use kb_proof::{Log, Verified, verify};
use kb_task::{
    Cert, Status, Task, load_derivations, load_presentation, print_line, unjustified_line,
};
use kb_word::{Memory, OwnedText, Presentation};
use std::alloc::Global;
use std::marker::Model;

/// Says of the log that belongs to a presentation's file whether each line follows from the relations and the lines
/// before it, or which is the first that doesn't, and why. Contracts see what the command line gives it.
#[derive(Drop)]
pub struct Kbverify {
    /// The name of the file with the presentation.
    pub file: OwnedText,
}

impl Model for Kbverify {
    ghost use Rattle.kb_cmd_proofs.specs.Given.{KbverifyGiven};

    ghost Value = { KbverifyGiven };

    ghost view = { λ task. record { file = task.file } };
}

impl Task for Kbverify {
    ghost use Rattle.kb_cmd_proofs.specs.Kbverify.{kbverify_promise};
    ghost use Rattle.kb_cmd_proofs.specs.KbverifyLaws.{kbverify_lawful};

    ghost promise = { kbverify_promise };

    ghost lawful = { kbverify_lawful };
}

impl Kbverify {
    ghost use Rattle.kb_task.specs.Promises.{Keeps};
    ghost use Rattle.kb_cmd_proofs.specs.Kbverify.{kbverify_promise};

    /// Runs the command.
    pub fn run<F: Shelf, I: Source, O: Sink>(
        self,
        alloc: Global,
        shelf: &mut F,
        input: &mut I,
        out: &mut O,
    ) -> Status
        ensures { Keeps (kbverify_promise self)
            (outside (F.state shelf.old) (I.state input.old) (O.state out.old))
            (outside (F.state shelf.new) (I.state input.new) (O.state out.new)) result }
    {
        let _ = input;
        let Ok(name) = log_file(alloc, &self.file) else {
            return Status::Memory;
        };
        let presentation = match load_presentation(alloc, self.file, shelf) {
            Ok(presentation) => presentation,
            Err(status) => return status,
        };
        match load_derivations(alloc, name, &presentation, shelf) {
            Ok(log) => check(alloc, &presentation, &log, out),
            Err(status) => status,
        }
    }
}

/// Checks the log, and prints the answer.
fn check<O: Sink>(alloc: Global, presentation: &Presentation, log: &Log, out: &mut O) -> Status
    ensures { (shelf : ShelfState) (input : SourceState)
        → IsRun (CheckMeans (parts_of presentation.now) log.now) StoresNothing
        (outside shelf input (O.state out.old)) (outside shelf input (O.state out.new)) result }
{
    match verify(alloc, presentation, log) {
        Ok(answer) => print_answer(alloc, answer, out),
        Err(Memory) => Status::Memory,
    }
}

/// Prints the line of an answer.
fn print_answer<O: Sink>(alloc: Global, answer: Verified, out: &mut O) -> Status
    ensures { (parts : PresentationParts) (log : SomeLog) (shelf : ShelfState)
        (input : SourceState) → LogSays parts log answer
        → IsRun (CheckMeans parts log) StoresNothing
        (outside shelf input (O.state out.old)) (outside shelf input (O.state out.new)) result }
{
    match line_of(alloc, answer) {
        Ok(line) => print_line(&line, status_of(answer), out),
        Err(Memory) => Status::Memory,
    }
}

/// The status of an answer.
fn status_of(answer: Verified) -> Status
    ensures is { result ≡ answer_status answer }
    ensures faultless { IsFaultless result }
{
    match answer {
        Verified::Yes => Status::Yes,
        Verified::No { line, why } => Status::No(Cert::NotJustified { line, why }),
    }
}

/// The line of an answer.
fn line_of(alloc: Global, answer: Verified) -> Result<Vec<u8>, Memory>
    ensures { IfOk result (λ line. line.items ≡ answer_line answer) }
{
    match answer {
        Verified::Yes => Ok(Vec::from_slice(alloc, b"yes\n")?),
        Verified::No { line, why } => unjustified_line(alloc, line, why),
    }
}
