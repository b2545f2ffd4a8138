//! `autgroup FILE`: the automatic structure of a group is made and stored, and word lines are answered by it; or what
//! shows that a limit was reached is stored.

ghost use Rattle.std.specs.Prelude.{◌≡◌, IfOk};
ghost use Rattle.kb_io.specs.Outside.{outside};
ghost use Rattle.kb_io.specs.States.{SourceState};
ghost use Rattle.kb_word.specs.Presentations.{PresentationParts, parts_of};
ghost use Rattle.kb_word.specs.declared.word_order.WordOrder.TheVariants.{ShortLex};
ghost use Rattle.kb_diff.specs.Groups.{EachInverts};
ghost use Rattle.kb_task.specs.Runs.{IsRun};
ghost use Rattle.kb_answering.specs.Answers.{AnswersMean};
ghost use Rattle.kb_cmd_structures.specs.Autgroup.{AutgroupMayStore, autgroup_own, autgroup_shows};
ghost use Rattle.kb_cmd_structures.specs.Concluded.{ConcludesAs};

use crate::conclusion::{Conclusion, conclusion_of};
use crate::figures::figures_of_search;
use kb_answering::{Concludes, show_limit, store_and_answer};
use kb_auto::autgroup;
use kb_book::Limits;
use kb_draw::Crew;
use kb_io::{Gate, Shelf, Sink, Source};
use kb_lines::Batches;
use kb_progress::Progress;
use kb_task::{Status, Task, load_group};
use kb_word::{Memory, OwnedText, Presentation};
use std::alloc::Global;
use std::marker::Model;
use std::sync::Wait;
use std::thread::Threads;

/// Makes the automatic structure of a group, stores it, and answers word lines.
#[derive(Drop)]
pub struct Autgroup {
    /// The name of the file with the group.
    pub file: OwnedText,
    /// How many threads may work side by side.
    pub workers: u32,
    /// The limits of the completion, of word differences and of the constructions.
    pub limits: Limits,
    /// How many words are answered together.
    pub batch: u32,
}

impl Model for Autgroup {
    ghost use Rattle.std.specs.Prelude.{◌≤◌};
    ghost use Rattle.kb_cmd_structures.specs.Given.{AutgroupGiven, limits_of};

    ghost Value = { AutgroupGiven };

    ghost view = { λ task. record {
      file = task.file;
      workers = task.workers;
      limits = limits_of task.limits;
      most = task.limits.diffs;
      batch = task.batch;
    } };

    ghost invariant = { λ task. (1 ≤ task.workers) × (task.workers ≤ 64) };
}

impl Task for Autgroup {
    ghost use Rattle.kb_cmd_structures.specs.Autgroup.{autgroup_promise};
    ghost use Rattle.kb_cmd_structures.specs.AutgroupLaws.{autgroup_lawful};

    ghost promise = { autgroup_promise };

    ghost lawful = { autgroup_lawful };
}

impl Concludes for Autgroup {
    ghost use Rattle.kb_cmd_structures.specs.Autgroup.{AutgroupMayStore, autgroup_own, autgroup_shows};

    ghost own = { autgroup_own };

    ghost shows = { autgroup_shows };

    ghost may_store = { AutgroupMayStore };

    ghost batch = { λ task. task.batch };
}

impl Autgroup {
    ghost use Rattle.kb_task.specs.Promises.{Keeps};
    ghost use Rattle.kb_cmd_structures.specs.Autgroup.{autgroup_promise};

    /// Runs the command. What it writes to `err` only shows that it lives. Workers are threads of `rt`, and
    /// pass the gate.
    pub fn run<T: Threads + Wait + Sync, G: Gate, F: Shelf, I: Source, O: Sink, E: Sink>(
        self,
        rt: &T,
        alloc: Global,
        gate: &G,
        shelf: &mut F,
        input: &mut I,
        out: &mut O,
        err: &mut E,
    ) -> Status
        ensures { Keeps (autgroup_promise self)
            (outside (F.state shelf.old) (I.state input.old) (O.state out.old))
            (outside (F.state shelf.new) (I.state input.new) (O.state out.new)) result }
    {
        let Ok(file) = self.file.copy(alloc) else {
            return Status::Memory;
        };
        match load_group(alloc, file, shelf) {
            Ok(presentation) => {
                let mut progress = Progress::on(err, Some(&self.file));
                match find(rt, alloc, gate, &self, presentation, &mut progress) {
                    Ok(found) => conclude(
                        rt,
                        alloc,
                        gate,
                        &self,
                        found,
                        &mut progress,
                        shelf,
                        input,
                        out,
                    ),
                    Err(Memory) => Status::Memory,
                }
            }
            Err(status) => status,
        }
    }
}

/// Looks for the group's automatic structure, and makes what is stored and written of what is found.
fn find<T: Threads + Wait + Sync, G: Gate, E: Sink>(
    rt: &T,
    alloc: Global,
    gate: &G,
    task: &Autgroup,
    presentation: Presentation,
    progress: &mut Progress<'_, E>,
) -> Result<Conclusion, Memory>
    requires group { EachInverts presentation.n presentation.inv }
    requires shortlex { presentation.order ≡ ShortLex }
    ensures { IfOk result (ConcludesAs task.now (parts_of presentation)) }
{
    let crew = Crew::new(task.workers, gate);
    let limits = &task.limits;
    let answer = autgroup(rt, alloc, &presentation, limits, &crew, progress)?;
    progress.ended(figures_of_search(&answer, limits));
    Ok(conclusion_of(alloc, task, presentation, answer)?)
}

/// Stores and writes what is to be stored and written.
fn conclude<T: Threads + Wait + Sync, G: Gate, F: Shelf, I: Source, O: Sink, E: Sink>(
    rt: &T,
    alloc: Global,
    gate: &G,
    task: &Autgroup,
    conclusion: Conclusion,
    progress: &mut Progress<'_, E>,
    shelf: &mut F,
    input: &mut I,
    out: &mut O,
) -> Status
    requires { (parts : PresentationParts) × ConcludesAs task.now parts conclusion }
    ensures { (parts : PresentationParts) → ConcludesAs task.now parts conclusion
        → IsRun (AnswersMean (autgroup_own task.now) (autgroup_shows task.now) parts)
        (AutgroupMayStore task.now)
        (outside (F.state shelf.old) (I.state input.old) (O.state out.old))
        (outside (F.state shelf.new) (I.state input.new) (O.state out.new)) result }
{
    match conclusion {
        Conclusion::Made { files, least_words } => {
            let batches = Batches::of(task.batch, Crew::new(task.workers, gate));
            store_and_answer(
                rt,
                alloc,
                task,
                files,
                &least_words,
                &batches,
                progress,
                shelf,
                input,
                out,
            )
        }
        Conclusion::Limit(evidence) => show_limit(alloc, task, evidence, progress, shelf, out),
    }
}
