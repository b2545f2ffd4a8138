//! Files that show a limit, and the line that says so.

ghost use Rattle.std.specs.Prelude.{◌≢◌, ℕ, List};
ghost use Rattle.std.specs.List.{AllPairs, Contains};
ghost use Rattle.kb_io.specs.Outside.{outside};
ghost use Rattle.kb_io.specs.States.{SourceState};
ghost use Rattle.kb_word.specs.Presentations.{PresentationParts};
ghost use Rattle.kb_task.specs.Runs.{IsRun};
ghost use Rattle.kb_task.specs.Stores.{names_of, texts_of};
ghost use Rattle.kb_answering.specs.Answers.{AnswersMean};

use crate::concludes::Concludes;
use crate::storing::store_all;
use kb_evidence::Evidence;
use kb_io::{Shelf, Sink};
use kb_progress::Progress;
use kb_task::{Status, print_line};
use std::alloc::Global;

/// Stores the files that show a limit, and writes the line that says so. Of the command nothing is read: it says what
/// the run means.
pub fn show_limit<C: Concludes, F: Shelf, O: Sink, E: Sink>(
    alloc: Global,
    command: &C,
    shown: Evidence,
    progress: &mut Progress<'_, E>,
    shelf: &mut F,
    out: &mut O,
) -> Status
    requires differ { AllPairs (λ (one other : List ℕ). one ≢ other)
        (names_of (texts_of shown.files.items)) }
    requires may { (name : List ℕ) → Contains (names_of (texts_of shown.files.items)) name
        → C.may_store command.now name }
    ensures { (parts : PresentationParts) (input : SourceState)
        → C.shows command.now parts shown.limit (texts_of shown.files.items) shown.line.items
        → IsRun (AnswersMean (C.own command.now) (C.shows command.now) parts)
        (C.may_store command.now)
        (outside (F.state shelf.old) input (O.state out.old))
        (outside (F.state shelf.new) input (O.state out.new)) result }
{
    let Evidence { limit, files, line } = shown;
    match store_all(alloc, files, shelf) {
        Ok(()) => {
            progress.finish();
            print_line(&line, Status::Undecided(limit), out)
        }
        Err(status) => status,
    }
}
