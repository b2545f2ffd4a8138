//! `kbcertify FILE`: a presentation is completed, and its rules and its word acceptor are stored with the log that
//! certifies them; or what shows that a limit was reached is stored.

ghost use Rattle.std.specs.Prelude.{IfOk};
ghost use Rattle.kb_io.specs.Outside.{outside};
ghost use Rattle.kb_word.specs.Presentations.{parts_of};
ghost use Rattle.kb_cmd_proofs.specs.Kbcertify.{IsFound};

use crate::certificate::finding_of;
use crate::finding::{Finding, show};
use kb_book::Limits;
use kb_draw::Crew;
use kb_io::{Gate, Shelf, Sink, Source};
use kb_progress::{Evidence, Limit, Progress, Stored, Summary};
use kb_system::{LoggedEnding, Reached, complete_with_log};
use kb_task::{Status, Task, load_presentation};
use kb_word::{Memory, OwnedText, Presentation};
use std::alloc::Global;
use std::marker::Model;
use std::sync::Wait;
use std::thread::Threads;

/// Completes a presentation, and stores what it came to with the log that certifies it.
#[derive(Drop)]
pub struct Kbcertify {
    /// The name of the file with the presentation.
    pub file: OwnedText,
    /// How many threads may work side by side.
    pub workers: u32,
    /// The limits of the completion.
    pub limits: Limits,
}

impl Model for Kbcertify {
    ghost use Rattle.std.specs.Prelude.{◌≤◌};
    ghost use Rattle.kb_cmd_proofs.specs.Given.{KbcertifyGiven, limits_of};

    ghost Value = { KbcertifyGiven };

    ghost view = { λ task. record {
      file = task.file;
      workers = task.workers;
      limits = limits_of task.limits;
    } };

    ghost invariant = { λ task. (1 ≤ task.workers) × (task.workers ≤ 64) };
}

impl Task for Kbcertify {
    ghost use Rattle.kb_cmd_proofs.specs.Kbcertify.{kbcertify_promise};
    ghost use Rattle.kb_cmd_proofs.specs.KbcertifyLaws.{kbcertify_lawful};

    ghost promise = { kbcertify_promise };

    ghost lawful = { kbcertify_lawful };
}

impl Kbcertify {
    ghost use Rattle.kb_task.specs.Promises.{Keeps};
    ghost use Rattle.kb_cmd_proofs.specs.Kbcertify.{kbcertify_promise};

    /// Runs the command. What it writes to `err` only shows that it lives. Workers are threads of `rt`, and
    /// pass the gate.
    pub fn run<T: Threads + Wait + Sync, G: Gate, F: Shelf, I: Source, O: Sink, E: Sink>(
        self,
        rt: &T,
        alloc: Global,
        gate: &G,
        shelf: &mut F,
        input: &mut I,
        out: &mut O,
        err: &mut E,
    ) -> Status
        ensures { Keeps (kbcertify_promise self)
            (outside (F.state shelf.old) (I.state input.old) (O.state out.old))
            (outside (F.state shelf.new) (I.state input.new) (O.state out.new)) result }
    {
        let _ = input;
        let Ok(file) = self.file.copy(alloc) else {
            return Status::Memory;
        };
        match load_presentation(alloc, file, shelf) {
            Ok(presentation) => {
                let mut progress = Progress::on(err, Some(&self.file));
                match find(rt, alloc, gate, &self, presentation, &mut progress) {
                    Ok(finding) => show(alloc, finding, &mut progress, shelf, out),
                    Err(Memory) => Status::Memory,
                }
            }
            Err(status) => status,
        }
    }
}

/// Completes the presentation, and makes what is stored and written of that.
fn find<T: Threads + Wait + Sync, G: Gate, E: Sink>(
    rt: &T,
    alloc: Global,
    gate: &G,
    task: &Kbcertify,
    presentation: Presentation,
    progress: &mut Progress<'_, E>,
) -> Result<Finding, Memory>
    ensures { IfOk result (IsFound task.now (parts_of presentation)) }
{
    let limits = &task.limits;
    let crew = Crew::new(task.workers, gate);
    let ending = complete_with_log(rt, alloc, &presentation, limits, &crew, progress)?;
    progress.ended(figures_of(&ending, limits));
    Ok(finding_of(alloc, task, &presentation, ending)?)
}

/// The figures of an ending within limits, for the last line of a long run.
fn figures_of(ending: &LoggedEnding, limits: &Limits) -> Summary {
    match ending {
        LoggedEnding::Completed {
            rules,
            acceptor,
            ..
        } => Summary::Completed {
            rules: rules.len(),
            states: acceptor.len(),
            stored: Stored::Certificate,
        },
        LoggedEnding::Halted(halted) => at_limit(match halted.reached {
            Reached::Lines => Limit::Lines(limits.rules),
            Reached::Letters => Limit::Letters(limits.len),
        }),
        LoggedEnding::TooLarge { .. } => at_limit(Limit::AcceptorStates(limits.states)),
    }
}

/// The limit that was reached, and what shows that.
fn at_limit(limit: Limit) -> Summary {
    Summary::Limit {
        limit,
        evidence: Evidence::Rules,
    }
}
