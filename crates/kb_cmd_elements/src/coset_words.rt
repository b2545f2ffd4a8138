//! The rules of marked cosets stored, and word lines answered with the least words of their cosets.

ghost use Rattle.kb_io.specs.Outside.{outside};
ghost use Rattle.kb_io.specs.States.{ShelfState};
ghost use Rattle.kb_task.specs.Runs.{IsRun};
ghost use Rattle.kb_task.specs.Stores.{texts_of};
ghost use Rattle.kb_cmd_elements.specs.CosetAnswers.{AreCosetTexts, CosetLinesMean, CosetsMean};
ghost use Rattle.kb_cmd_elements.specs.Kbcos.{kbcos_may_store};

use crate::kbcos::Kbcos;
use kb_coset::CosetWords;
use kb_io::{Shelf, Sink, Source};
use kb_lines::answer_lines;
use kb_progress::Progress;
use kb_task::{Status, TextFile, status_of, store_texts};
use std::alloc::Global;

/// Stores the file of the rules, and answers the word lines. Of the command nothing is read: it says what the run
/// means.
pub(crate) fn store_and_answer_cosets<F: Shelf, I: Source, O: Sink, E: Sink>(
    alloc: Global,
    task: &Kbcos,
    files: Vec<TextFile>,
    coset_words: &CosetWords,
    progress: &mut Progress<'_, E>,
    shelf: &mut F,
    input: &mut I,
    out: &mut O,
) -> Status
    requires { AreCosetTexts task.now.file coset_words.now (texts_of files.items) }
    ensures { IsRun (CosetsMean task.now.file coset_words.now) (kbcos_may_store task.now)
        (outside (F.state shelf.old) (I.state input.old) (O.state out.old))
        (outside (F.state shelf.new) (I.state input.new) (O.state out.new)) result }
{
    let _ = task;
    match store_texts(alloc, files, shelf) {
        Status::Yes => {
            progress.finish();
            answer_words(alloc, coset_words, input, out)
        }
        status => status,
    }
}

/// Answers the word lines.
fn answer_words<I: Source, O: Sink>(
    alloc: Global,
    coset_words: &CosetWords,
    input: &mut I,
    out: &mut O,
) -> Status
    ensures { (shelf : ShelfState) → IsRun (CosetLinesMean coset_words.now) (λ name. ⊥)
        (outside shelf (I.state input.old) (O.state out.old))
        (outside shelf (I.state input.new) (O.state out.new)) result }
{
    match answer_lines(alloc, coset_words, input, out) {
        Ok(()) => Status::Yes,
        Err(stop) => status_of(stop),
    }
}
