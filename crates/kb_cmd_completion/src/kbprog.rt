//! `kbprog FILE`: a presentation is completed, its rules and its word acceptor are stored, and word
//! lines are answered by the rules; or what shows that a limit was reached is stored.

ghost use Rattle.std.specs.Prelude.{IfOk};
ghost use Rattle.kb_io.specs.Outside.{outside};
ghost use Rattle.kb_word.specs.Presentations.{PresentationParts, parts_of};
ghost use Rattle.kb_task.specs.Runs.{IsRun};
ghost use Rattle.kb_answering.specs.Answers.{AnswersMean};
ghost use Rattle.kb_cmd_completion.specs.Conclusions.{ConcludesAs};
ghost use Rattle.kb_cmd_completion.specs.Kbprog.{kbprog_may_store, kbprog_own, kbprog_shows};

use crate::conclusion::{Conclusion, conclusion_of};
use kb_answering::{Concludes, figures_of, show_limit, store_and_answer};
use kb_book::Limits;
use kb_draw::Crew;
use kb_io::{Gate, Shelf, Sink, Source};
use kb_lines::Batches;
use kb_progress::{Progress, Stored};
use kb_reduced::reduced_complete_systems_are_complete;
use kb_system::complete_presentation;
use kb_task::{Status, Task, load_presentation};
use kb_word::{Memory, OwnedText, Presentation};
use std::alloc::Global;
use std::marker::Model;
use std::sync::Wait;
use std::thread::Threads;

/// Completes a presentation, stores what it came to, and answers word lines.
#[derive(Drop)]
pub struct Kbprog {
    /// The name of the file with the presentation.
    pub file: OwnedText,
    /// How many threads may work side by side.
    pub workers: u32,
    /// The limits of the completion.
    pub limits: Limits,
    /// How many words are answered together.
    pub batch: u32,
}

impl Model for Kbprog {
    ghost use Rattle.std.specs.Prelude.{◌≤◌};
    ghost use Rattle.kb_cmd_completion.specs.Given.{KbprogGiven, limits_of};

    ghost Value = { KbprogGiven };

    ghost view = { λ task. record {
      file = task.file;
      workers = task.workers;
      limits = limits_of task.limits;
      batch = task.batch;
    } };

    ghost invariant = { λ task. (1 ≤ task.workers) × (task.workers ≤ 64) };
}

impl Task for Kbprog {
    ghost use Rattle.kb_cmd_completion.specs.Kbprog.{kbprog_promise};
    ghost use Rattle.kb_cmd_completion.specs.KbprogLaws.{kbprog_lawful};

    ghost promise = { kbprog_promise };

    ghost lawful = { kbprog_lawful };
}

impl Concludes for Kbprog {
    ghost use Rattle.kb_cmd_completion.specs.Kbprog.{kbprog_may_store, kbprog_own, kbprog_shows};

    ghost own = { kbprog_own };

    ghost shows = { kbprog_shows };

    ghost may_store = { kbprog_may_store };

    ghost batch = { λ task. task.batch };
}

impl Kbprog {
    ghost use Rattle.kb_task.specs.Promises.{Keeps};
    ghost use Rattle.kb_cmd_completion.specs.Kbprog.{kbprog_promise};

    /// Runs the command. What it writes to `err` only shows that it lives. Workers are threads of `rt`, and
    /// pass the gate.
    pub fn run<T: Threads + Wait + Sync, G: Gate, F: Shelf, I: Source, O: Sink, E: Sink>(
        self,
        rt: &T,
        alloc: Global,
        gate: &G,
        shelf: &mut F,
        input: &mut I,
        out: &mut O,
        err: &mut E,
    ) -> Status
        ensures { Keeps (kbprog_promise self)
            (outside (F.state shelf.old) (I.state input.old) (O.state out.old))
            (outside (F.state shelf.new) (I.state input.new) (O.state out.new)) result }
    {
        let Ok(file) = self.file.copy(alloc) else {
            return Status::Memory;
        };
        match load_presentation(alloc, file, shelf) {
            Ok(presentation) => {
                let mut progress = Progress::on(err, Some(&self.file));
                match complete(rt, alloc, gate, &self, presentation, &mut progress) {
                    Ok(conclusion) => conclude(
                        rt,
                        alloc,
                        gate,
                        &self,
                        conclusion,
                        &mut progress,
                        shelf,
                        input,
                        out,
                    ),
                    Err(Memory) => Status::Memory,
                }
            }
            Err(status) => status,
        }
    }
}

/// Completes the presentation, and makes what is stored and written of that.
fn complete<T: Threads + Wait + Sync, G: Gate, E: Sink>(
    rt: &T,
    alloc: Global,
    gate: &G,
    task: &Kbprog,
    presentation: Presentation,
    progress: &mut Progress<'_, E>,
) -> Result<Conclusion, Memory>
    ensures { IfOk result (ConcludesAs task.now (parts_of presentation)) }
{
    let limits = &task.limits;
    let crew = Crew::new(task.workers, gate);
    let ending = complete_presentation(rt, alloc, &presentation, limits, &crew, progress)?;
    progress.ended(figures_of(&ending, limits, Stored::System));
    Ok(conclusion_of(alloc, task, presentation, ending)?)
}

/// Stores and writes what is to be stored and written.
fn conclude<T: Threads + Wait + Sync, G: Gate, F: Shelf, I: Source, O: Sink, E: Sink>(
    rt: &T,
    alloc: Global,
    gate: &G,
    task: &Kbprog,
    conclusion: Conclusion,
    progress: &mut Progress<'_, E>,
    shelf: &mut F,
    input: &mut I,
    out: &mut O,
) -> Status
    requires { (parts : PresentationParts) × ConcludesAs task.now parts conclusion }
    ensures { (parts : PresentationParts) → ConcludesAs task.now parts conclusion
        → IsRun (AnswersMean (kbprog_own task.now) (kbprog_shows task.now) parts)
        (kbprog_may_store task.now)
        (outside (F.state shelf.old) (I.state input.old) (O.state out.old))
        (outside (F.state shelf.new) (I.state input.new) (O.state out.new)) result }
{
    match conclusion {
        Conclusion::Completed {
            files,
            normal_forms,
        } => {
            reduced_complete_systems_are_complete();
            let batches = Batches::of(task.batch, Crew::new(task.workers, gate));
            store_and_answer(
                rt,
                alloc,
                task,
                files,
                &normal_forms,
                &batches,
                progress,
                shelf,
                input,
                out,
            )
        }
        Conclusion::Limit(evidence) => show_limit(alloc, task, evidence, progress, shelf, out),
    }
}
