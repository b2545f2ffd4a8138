//! Files that are stored, and word lines that are answered.

ghost use Rattle.std.specs.Prelude.{◌≡◌, ◌≢◌, ℕ, List};
ghost use Rattle.std.specs.List.{AllPairs, Contains};
ghost use Rattle.kb_io.specs.Outside.{outside};
ghost use Rattle.kb_io.specs.States.{ShelfState};
ghost use Rattle.kb_task.specs.Runs.{IsRun};
ghost use Rattle.kb_task.specs.Stores.{names_of, texts_of};
ghost use Rattle.kb_system.specs.Completed.{IsLeastIn};
ghost use Rattle.kb_answering.specs.Answers.{AnswersMean, LinesMean};

use crate::concludes::Concludes;
use crate::storing::store_all;
use kb_io::{Gate, Shelf, Sink, Source};
use kb_lines::{Answerer, Batches, answer_in_batches};
use kb_progress::Progress;
use kb_task::{Status, TextFile, status_of};
use std::alloc::Global;
use std::sync::Wait;
use std::thread::Threads;

/// Stores the files that belong to a presentation, and answers the word lines with its least words, in batches
/// of as many lines as the command takes together. Of the command nothing is read: it says that, and what the
/// run means.
pub fn store_and_answer<
    C: Concludes,
    A: Answerer + Sync,
    G: Gate,
    T: Threads + Wait + Sync,
    F: Shelf,
    I: Source,
    O: Sink,
    E: Sink,
>(
    rt: &T,
    alloc: Global,
    command: &C,
    files: Vec<TextFile>,
    answerer: &A,
    batches: &Batches<'_, G>,
    progress: &mut Progress<'_, E>,
    shelf: &mut F,
    input: &mut I,
    out: &mut O,
) -> Status
where
    A::Workspace: Send,
    requires differ { AllPairs (λ (one other : List ℕ). one ≢ other)
        (names_of (texts_of files.items)) }
    requires may { (name : List ℕ) → Contains (names_of (texts_of files.items)) name
        → C.may_store command.now name }
    requires own { C.own command.now (A.parts answerer.now) (texts_of files.items) }
    requires least { (w m : List ℕ) → A.answers answerer.now w m
        → IsLeastIn (A.parts answerer.now) w m }
    requires batch { batches.now.size ≡ C.batch command.now }
    ensures { IsRun (AnswersMean (C.own command.now) (C.shows command.now)
        (A.parts answerer.now)) (C.may_store command.now)
        (outside (F.state shelf.old) (I.state input.old) (O.state out.old))
        (outside (F.state shelf.new) (I.state input.new) (O.state out.new)) result }
{
    match store_all(alloc, files, shelf) {
        Ok(()) => {
            progress.finish();
            answer_words(rt, alloc, answerer, batches, input, out)
        }
        Err(status) => status,
    }
}

/// Answers the word lines with least words, in batches.
fn answer_words<A: Answerer + Sync, G: Gate, T: Threads + Wait + Sync, I: Source, O: Sink>(
    rt: &T,
    alloc: Global,
    answerer: &A,
    batches: &Batches<'_, G>,
    input: &mut I,
    out: &mut O,
) -> Status
where
    A::Workspace: Send,
    requires { (w m : List ℕ) → A.answers answerer.now w m
        → IsLeastIn (A.parts answerer.now) w m }
    ensures { (shelf : ShelfState) → IsRun (LinesMean (A.parts answerer.now)) (λ name. ⊥)
        (outside shelf (I.state input.old) (O.state out.old))
        (outside shelf (I.state input.new) (O.state out.new)) result }
{
    match answer_in_batches(rt, alloc, answerer, batches, input, out) {
        Ok(()) => Status::Yes,
        Err(stop) => status_of(stop),
    }
}
