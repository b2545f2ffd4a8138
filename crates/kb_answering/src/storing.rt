//! Files that are stored, all of them.

ghost use Rattle.std.specs.Prelude.{◌≢◌, ℕ, List, IfErr, OnOk};
ghost use Rattle.std.specs.List.{AllPairs, Contains};
ghost use Rattle.kb_io.specs.Outside.{outside};
ghost use Rattle.kb_io.specs.States.{SourceState, SinkState};
ghost use Rattle.kb_task.specs.Runs.{IsRun};
ghost use Rattle.kb_task.specs.Statuses.{IsYes};
ghost use Rattle.kb_task.specs.Stores.{StoresMean, names_of, texts_of};
ghost use Rattle.kb_task.specs.declared.status.Status.TheVariants.{Yes};

use kb_io::Shelf;
use kb_task::{Status, TextFile, store_texts};
use std::alloc::Global;

/// Stores files in order, or returns the status of a run that ends at one.
pub(crate) fn store_all<F: Shelf>(
    alloc: Global,
    files: Vec<TextFile>,
    shelf: &mut F,
) -> Result<(), Status>
    requires { AllPairs (λ (one other : List ℕ). one ≢ other)
        (names_of (texts_of files.items)) }
    ensures ok { OnOk result ((input : SourceState) (output : SinkState)
        → IsRun (StoresMean (texts_of files.items)) (Contains (names_of (texts_of files.items)))
        (outside (F.state shelf.old) input output) (outside (F.state shelf.new) input output) Yes) }
    ensures other { IfErr result (λ status. ¬ IsYes status) }
    ensures err { IfErr result (λ status. (input : SourceState) (output : SinkState)
        → IsRun (StoresMean (texts_of files.items)) (Contains (names_of (texts_of files.items)))
        (outside (F.state shelf.old) input output) (outside (F.state shelf.new) input output)
        status) }
{
    match store_texts(alloc, files, shelf) {
        Status::Yes => Ok(()),
        status => Err(status),
    }
}
