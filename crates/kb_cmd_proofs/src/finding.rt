//! What is found, as it is stored and written.

ghost use Rattle.std.specs.Prelude.{◌≢◌, ℕ, List};
ghost use Rattle.std.specs.List.{AllPairs, Contains};
ghost use Rattle.kb_io.specs.Outside.{outside};
ghost use Rattle.kb_io.specs.States.{SourceState};
ghost use Rattle.kb_task.specs.Runs.{IsRun};
ghost use Rattle.kb_task.specs.Statuses.{IsFaultless};
ghost use Rattle.kb_task.specs.Stores.{names_of, texts_of};
ghost use Rattle.kb_cmd_proofs.specs.Shown.{HasParts, ShowMeans};

use kb_io::{Shelf, Sink};
use kb_progress::Progress;
use kb_task::{Status, TextFile, print_line, store_texts};
use std::alloc::Global;

/// What is found.
#[derive(Drop)]
pub(crate) struct Finding {
    /// How the run ends.
    pub status: Status,
    /// The files that are stored.
    pub files: Vec<TextFile>,
    /// The line that is written.
    pub line: Vec<u8>,
}

/// Stores the files of what is found, and writes its line.
pub(crate) fn show<F: Shelf, O: Sink, E: Sink>(
    alloc: Global,
    finding: Finding,
    progress: &mut Progress<'_, E>,
    shelf: &mut F,
    out: &mut O,
) -> Status
    requires faultless { IsFaultless finding.status }
    requires differ { AllPairs (λ (one other : List ℕ). one ≢ other)
        (names_of (texts_of finding.files.items)) }
    ensures { (input : SourceState) → IsRun (ShowMeans (HasParts finding))
        (Contains (names_of (texts_of finding.files.items)))
        (outside (F.state shelf.old) input (O.state out.old))
        (outside (F.state shelf.new) input (O.state out.new)) result }
{
    let Finding {
        status,
        files,
        line,
    } = finding;
    match store_texts(alloc, files, shelf) {
        Status::Yes => {
            progress.finish();
            print_line(&line, status, out)
        }
        stopped => stopped,
    }
}
