//! `kbcos FILE`: the presentation that marks the right cosets of a subgroup is completed, its rules are stored, and
//! word lines are answered with the least words of their cosets; or what shows that a limit was reached is stored.

ghost use Rattle.std.specs.Prelude.{◌≡◌, ◌<◌, length, Contains};
ghost use Rattle.kb_io.specs.Outside.{outside};
ghost use Rattle.kb_word.specs.Presentations.{parts_of};
ghost use Rattle.kb_word.specs.declared.word_order.WordOrder.TheVariants.{ShortLex};
ghost use Rattle.kb_coset.specs.Marked.{marker_name};
ghost use Rattle.kb_coset.specs.CosetWords.{Cosets};
ghost use Rattle.kb_diff.specs.Groups.{EachInverts};
ghost use Rattle.kb_fields.specs.Generators.{most_generators};
ghost use Rattle.kb_task.specs.Runs.{IsRun};
ghost use Rattle.kb_cmd_elements.specs.Kbcos.{AnswersCosets, GroupMeans, kbcos_may_store};
ghost use Rattle.kb_cmd_elements.specs.CosetOutcomes.{CosetsComeTo};

use crate::coset_outcome::{CosetOutcome, complete_cosets, subgroup_file};
use crate::coset_words::store_and_answer_cosets;
use kb_answering::{Concludes, show_limit};
use kb_book::Limits;
use kb_io::{Gate, Shelf, Sink, Source};
use kb_progress::Progress;
use kb_task::{Status, Task, load_markable, load_subgroup};
use kb_word::{Memory, OwnedText, Presentation};
use std::alloc::Global;
use std::marker::Model;
use std::sync::Wait;
use std::thread::Threads;

/// Completes the presentation that marks cosets, and answers word lines with least words of cosets.
#[derive(Drop)]
pub struct Kbcos {
    /// The name of the file with the presentation of the group.
    pub file: OwnedText,
    /// How many threads may work side by side.
    pub workers: u32,
    /// The limits of the completion. No word acceptor is made, so that of its states is never reached.
    pub limits: Limits,
}

impl Model for Kbcos {
    ghost use Rattle.std.specs.Prelude.{◌≤◌};
    ghost use Rattle.kb_cmd_elements.specs.Given.{KbcosGiven};

    ghost Value = { KbcosGiven };

    ghost view = { λ task. record {
      file = task.file;
      workers = task.workers;
      lines = task.limits.rules;
      letters = task.limits.len;
    } };

    ghost invariant = { λ task. (1 ≤ task.workers) × (task.workers ≤ 64) };
}

impl Task for Kbcos {
    ghost use Rattle.kb_cmd_elements.specs.Kbcos.{kbcos_promise};
    ghost use Rattle.kb_cmd_elements.specs.KbcosLaws.{kbcos_lawful};

    ghost promise = { kbcos_promise };

    ghost lawful = { kbcos_lawful };
}

impl Concludes for Kbcos {
    ghost use Rattle.kb_cmd_elements.specs.Ball.{no_files};
    ghost use Rattle.kb_cmd_elements.specs.Kbcos.{kbcos_may_store, kbcos_shows};

    ghost own = { λ given. no_files };

    ghost shows = { kbcos_shows };

    ghost may_store = { kbcos_may_store };
}

impl Kbcos {
    ghost use Rattle.kb_task.specs.Promises.{Keeps};
    ghost use Rattle.kb_cmd_elements.specs.Kbcos.{kbcos_promise};

    /// Runs the command. What it writes to `err` only shows that it lives. Workers are threads of `rt`, and
    /// pass the gate.
    pub fn run<T: Threads + Wait + Sync, G: Gate, F: Shelf, I: Source, O: Sink, E: Sink>(
        self,
        rt: &T,
        alloc: Global,
        gate: &G,
        shelf: &mut F,
        input: &mut I,
        out: &mut O,
        err: &mut E,
    ) -> Status
        ensures { Keeps (kbcos_promise self)
            (outside (F.state shelf.old) (I.state input.old) (O.state out.old))
            (outside (F.state shelf.new) (I.state input.new) (O.state out.new)) result }
    {
        let Ok(file) = self.file.copy(alloc) else {
            return Status::Memory;
        };
        match load_markable(alloc, file, shelf) {
            Ok(presentation) => {
                run_in_group(rt, alloc, gate, &self, presentation, shelf, input, out, err)
            }
            Err(status) => status,
        }
    }
}

/// Runs the command in a group that was loaded, to which the marker can be added.
fn run_in_group<T: Threads + Wait + Sync, G: Gate, F: Shelf, I: Source, O: Sink, E: Sink>(
    rt: &T,
    alloc: Global,
    gate: &G,
    task: &Kbcos,
    presentation: Presentation,
    shelf: &mut F,
    input: &mut I,
    out: &mut O,
    err: &mut E,
) -> Status
    requires shortlex { presentation.order ≡ ShortLex }
    requires group { EachInverts presentation.n presentation.inv }
    requires room { length presentation.names < most_generators }
    requires free { ¬ Contains presentation.names marker_name }
    ensures { IsRun (GroupMeans task.now (parts_of presentation)) (kbcos_may_store task.now)
        (outside (F.state shelf.old) (I.state input.old) (O.state out.old))
        (outside (F.state shelf.new) (I.state input.new) (O.state out.new)) result }
{
    let Ok(words_file) = subgroup_file(alloc, &task.file) else {
        return Status::Memory;
    };
    match load_subgroup(alloc, words_file, &presentation, shelf) {
        Ok(generators) => {
            let mut progress = Progress::on(err, Some(&task.file));
            match complete_cosets(
                rt,
                alloc,
                gate,
                task,
                presentation,
                generators,
                &mut progress,
            ) {
                Ok(outcome) => conclude(alloc, task, outcome, &mut progress, shelf, input, out),
                Err(Memory) => Status::Memory,
            }
        }
        Err(status) => status,
    }
}

/// Stores and writes what is to be stored and written.
fn conclude<F: Shelf, I: Source, O: Sink, E: Sink>(
    alloc: Global,
    task: &Kbcos,
    outcome: CosetOutcome,
    progress: &mut Progress<'_, E>,
    shelf: &mut F,
    input: &mut I,
    out: &mut O,
) -> Status
    requires { (cosets : Cosets) × CosetsComeTo task.now cosets outcome }
    ensures { (cosets : Cosets) → CosetsComeTo task.now cosets outcome
        → IsRun (AnswersCosets task.now cosets) (kbcos_may_store task.now)
        (outside (F.state shelf.old) (I.state input.old) (O.state out.old))
        (outside (F.state shelf.new) (I.state input.new) (O.state out.new)) result }
{
    match outcome {
        CosetOutcome::Told { files, coset_words } => store_and_answer_cosets(
            alloc,
            task,
            files,
            &coset_words,
            progress,
            shelf,
            input,
            out,
        ),
        CosetOutcome::Limit(evidence) => show_limit(alloc, task, evidence, progress, shelf, out),
    }
}
