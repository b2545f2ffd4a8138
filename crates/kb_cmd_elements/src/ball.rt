//! `ball FILE R`: a presentation is completed, and the least words of at most R letters are printed; or what shows
//! that a limit was reached is stored.

ghost use Rattle.std.specs.Prelude.{◌≡◌, IfOk};
ghost use Rattle.kb_io.specs.Outside.{outside};
ghost use Rattle.kb_io.specs.States.{SourceState};
ghost use Rattle.kb_word.specs.Presentations.{PresentationParts, parts_of};
ghost use Rattle.kb_word.specs.declared.word_order.WordOrder.TheVariants.{ShortLex};
ghost use Rattle.kb_task.specs.Runs.{IsRun};
ghost use Rattle.kb_cmd_elements.specs.Ball.{BallAnswers, ball_may_store};
ghost use Rattle.kb_cmd_elements.specs.Outcomes.{ComesTo};

use crate::outcome::{Outcome, outcome_of};
use kb_answering::{Concludes, figures_of, show_limit};
use kb_book::Limits;
use kb_draw::Crew;
use kb_io::{Gate, Shelf, Sink, Source};
use kb_listing::list_words;
use kb_progress::{Progress, Stored};
use kb_reduced::reduced_complete_systems_are_complete;
use kb_system::complete_presentation;
use kb_task::{Status, Task, load_shortlex};
use kb_word::{Memory, OwnedText, Presentation};
use std::alloc::Global;
use std::marker::Model;
use std::sync::Wait;
use std::thread::Threads;

/// Completes a presentation, and prints the least words of at most so many letters.
#[derive(Drop)]
pub struct Ball {
    /// The name of the file with the presentation.
    pub file: OwnedText,
    /// How many letters a word has at most.
    pub radius: u16,
    /// How many threads may work side by side.
    pub workers: u32,
    /// The limits of the completion.
    pub limits: Limits,
}

impl Model for Ball {
    ghost use Rattle.std.specs.Prelude.{◌≤◌};
    ghost use Rattle.kb_cmd_elements.specs.Given.{BallGiven, limits_of};

    ghost Value = { BallGiven };

    ghost view = { λ task. record {
      file = task.file;
      radius = task.radius;
      workers = task.workers;
      limits = limits_of task.limits;
    } };

    ghost invariant = { λ task. (1 ≤ task.workers) × (task.workers ≤ 64) };
}

impl Task for Ball {
    ghost use Rattle.kb_cmd_elements.specs.Ball.{ball_promise};
    ghost use Rattle.kb_cmd_elements.specs.BallLaws.{ball_lawful};

    ghost promise = { ball_promise };

    ghost lawful = { ball_lawful };
}

impl Concludes for Ball {
    ghost use Rattle.kb_cmd_elements.specs.Ball.{ball_may_store, ball_shows, no_files};

    ghost own = { λ given. no_files };

    ghost shows = { ball_shows };

    ghost may_store = { ball_may_store };
}

impl Ball {
    ghost use Rattle.kb_task.specs.Promises.{Keeps};
    ghost use Rattle.kb_cmd_elements.specs.Ball.{ball_promise};

    /// Runs the command. What it writes to `err` only shows that it lives. Workers are threads of `rt`, and
    /// pass the gate.
    pub fn run<T: Threads + Wait + Sync, G: Gate, F: Shelf, I: Source, O: Sink, E: Sink>(
        self,
        rt: &T,
        alloc: Global,
        gate: &G,
        shelf: &mut F,
        input: &mut I,
        out: &mut O,
        err: &mut E,
    ) -> Status
        ensures { Keeps (ball_promise self)
            (outside (F.state shelf.old) (I.state input.old) (O.state out.old))
            (outside (F.state shelf.new) (I.state input.new) (O.state out.new)) result }
    {
        let _ = input;
        let Ok(file) = self.file.copy(alloc) else {
            return Status::Memory;
        };
        match load_shortlex(alloc, file, shelf) {
            Ok(presentation) => {
                let mut progress = Progress::on(err, Some(&self.file));
                match complete(rt, alloc, gate, &self, presentation, &mut progress) {
                    Ok(outcome) => conclude(alloc, &self, outcome, &mut progress, shelf, out),
                    Err(Memory) => Status::Memory,
                }
            }
            Err(status) => status,
        }
    }
}

/// Completes the presentation, and keeps what is printed or stored of that.
fn complete<T: Threads + Wait + Sync, G: Gate, E: Sink>(
    rt: &T,
    alloc: Global,
    gate: &G,
    task: &Ball,
    presentation: Presentation,
    progress: &mut Progress<'_, E>,
) -> Result<Outcome, Memory>
    ensures { IfOk result (ComesTo task.now (parts_of presentation)) }
{
    let limits = &task.limits;
    let crew = Crew::new(task.workers, gate);
    let ending = complete_presentation(rt, alloc, &presentation, limits, &crew, progress)?;
    progress.ended(figures_of(&ending, limits, Stored::Nothing));
    Ok(outcome_of(alloc, task, presentation, ending)?)
}

/// Prints the ball, or stores and writes what shows a limit.
fn conclude<F: Shelf, O: Sink, E: Sink>(
    alloc: Global,
    task: &Ball,
    outcome: Outcome,
    progress: &mut Progress<'_, E>,
    shelf: &mut F,
    out: &mut O,
) -> Status
    requires { (parts : PresentationParts) × ComesTo task.now parts outcome }
    ensures { (parts : PresentationParts) (input : SourceState) → parts.order ≡ ShortLex
        → ComesTo task.now parts outcome
        → IsRun (BallAnswers task.now parts) (ball_may_store task.now)
        (outside (F.state shelf.old) input (O.state out.old))
        (outside (F.state shelf.new) input (O.state out.new)) result }
{
    match outcome {
        Outcome::Completed {
            presentation,
            acceptor,
        } => {
            reduced_complete_systems_are_complete();
            progress.finish();
            list_words(alloc, &presentation.names, &acceptor, 0, task.radius, out)
        }
        Outcome::Limit(evidence) => show_limit(alloc, task, evidence, progress, shelf, out),
    }
}
