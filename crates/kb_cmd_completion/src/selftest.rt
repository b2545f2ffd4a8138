//! `selftest N`: completes the free abelian group of rank N.

ghost use Rattle.std.specs.Prelude.{◌≡◌, ◌≤◌, IfOk};
ghost use Rattle.kb_word.specs.Presentations.{parts_of};
ghost use Rattle.kb_system.specs.Ended.{EndsAs};
ghost use Rattle.kb_cmd_completion.specs.FreeAbelian.{free_abelian};
ghost use Rattle.kb_cmd_completion.specs.Given.{SelfTestGiven, limits_of};
ghost use Rattle.kb_cmd_completion.specs.SelfTest.{IsCompletedReport, IsHaltedReport, IsReport, IsTooLargeReport};

use crate::free_abelian::selftest_presentation;
use crate::printing::{append, append_number};
use kb_answering::limit_of_log;
use kb_book::Limits;
use kb_draw::Crew;
use kb_evidence::limit_reached;
use kb_io::{Gate, Shelf, Sink, Source};
use kb_progress::{Evidence, Limit as ReachedLimit, Progress, Stored, Summary};
use kb_proof::{Log, Version, print_log};
use kb_system::{Ending, Halted, complete_presentation};
use kb_task::{
    Construction, Limit, Status, Task, print_line, undecided_line, undecided_words_line,
};
use kb_word::{Memory, Presentation};
use std::alloc::Global;
use std::marker::Model;
use std::sync::Wait;
use std::thread::Threads;

/// Completes a free abelian group, and counts its rules and the states of its word acceptor.
/// Contracts see what the command line gives it; the rank is 1 to 40, and there are 1 to 64
/// workers.
#[derive(Drop)]
pub struct SelfTest {
    /// The rank of the group.
    pub rank: u16,
    /// How many threads may work side by side.
    pub workers: u32,
    /// The limits of the completion.
    pub limits: Limits,
}

impl Model for SelfTest {
    ghost use Rattle.std.specs.Prelude.{◌≤◌};
    ghost use Rattle.kb_cmd_completion.specs.Given.{SelfTestGiven, limits_of};

    ghost Value = { SelfTestGiven };

    ghost view = { λ task. record {
      rank = task.rank;
      workers = task.workers;
      limits = limits_of task.limits;
    } };

    ghost invariant = { λ task. (1 ≤ task.rank) × (task.rank ≤ 40) × (1 ≤ task.workers)
        × (task.workers ≤ 64) };
}

impl Task for SelfTest {
    ghost use Rattle.kb_cmd_completion.specs.SelfTest.{selftest_promise};
    ghost use Rattle.kb_cmd_completion.specs.SelfTestLaws.{selftest_lawful};

    ghost promise = { selftest_promise };

    ghost lawful = { selftest_lawful };
}

impl SelfTest {
    ghost use Rattle.kb_io.specs.Outside.{outside};
    ghost use Rattle.kb_task.specs.Promises.{Keeps};
    ghost use Rattle.kb_cmd_completion.specs.SelfTest.{selftest_promise};

    /// Runs the command. What it writes to `err` only shows that it lives. Workers are threads of `rt`, and
    /// pass the gate.
    pub fn run<T: Threads + Wait + Sync, G: Gate, F: Shelf, I: Source, O: Sink, E: Sink>(
        self,
        rt: &T,
        alloc: Global,
        gate: &G,
        shelf: &mut F,
        input: &mut I,
        out: &mut O,
        err: &mut E,
    ) -> Status
        ensures { Keeps (selftest_promise self)
            (outside (F.state shelf.old) (I.state input.old) (O.state out.old))
            (outside (F.state shelf.new) (I.state input.new) (O.state out.new)) result }
    {
        let _ = shelf;
        let _ = input;
        let crew = Crew::new(self.workers, gate);
        let mut progress = Progress::on(err, None);
        match completion_report(rt, alloc, &crew, self.rank, &self.limits, &mut progress) {
            Ok(Report { text, status }) => {
                progress.finish();
                print_line(&text, status, out)
            }
            Err(Memory) => Status::Memory,
        }
    }
}

/// What is written about a completion, and the status that it is about.
#[derive(Drop)]
pub(crate) struct Report {
    /// What is written.
    pub text: Vec<u8>,
    /// How the run ends.
    pub status: Status,
}

/// Completes the free abelian group of a rank.
fn completion_report<T: Threads + Wait + Sync, G: Gate, E: Sink>(
    rt: &T,
    alloc: Global,
    crew: &Crew<'_, G>,
    rank: u16,
    limits: &Limits,
    progress: &mut Progress<'_, E>,
) -> Result<Report, Memory>
    requires { (1 ≤ rank) × (rank ≤ 40) }
    ensures { (given : SelfTestGiven) → given.rank ≡ rank → given.limits ≡ limits_of limits.now
        → IfOk result (IsReport given) }
{
    let presentation = selftest_presentation(alloc, rank)?;
    let ending = complete_presentation(rt, alloc, &presentation, limits, crew, progress)?;
    progress.ended(figures_of(&ending, limits));
    report_on(alloc, rank, &presentation, ending)
}

/// The figures of an ending within limits, for the last line of a long run. No file is stored.
fn figures_of(ending: &Ending, limits: &Limits) -> Summary {
    match ending {
        Ending::Completed { rules, acceptor } => Summary::Completed {
            rules: rules.len(),
            states: acceptor.len(),
            stored: Stored::Nothing,
        },
        Ending::Halted(halted) => Summary::Limit {
            limit: limit_of_log(halted, limits),
            evidence: Evidence::Output,
        },
        Ending::TooLarge { .. } => Summary::Limit {
            limit: ReachedLimit::AcceptorStates(limits.states),
            evidence: Evidence::Nothing,
        },
    }
}

/// What is written about a completion that ended so.
fn report_on(
    alloc: Global,
    rank: u16,
    presentation: &Presentation,
    ending: Ending,
) -> Result<Report, Memory>
    requires { parts_of presentation.now ≡ free_abelian rank }
    ensures { (given : SelfTestGiven) → given.rank ≡ rank
        → EndsAs given.limits (free_abelian rank) ending → IfOk result (IsReport given) }
{
    match ending {
        Ending::Completed { rules, acceptor } => {
            completed_report(alloc, rank, rules.len(), acceptor.len())
        }
        Ending::Halted(halted) => halted_report(alloc, presentation, halted),
        Ending::TooLarge { .. } => too_large_report(alloc, presentation),
    }
}

/// `selftest`, the rank, how many rules and how many states of the acceptor there are, and a newline.
fn completed_report(alloc: Global, rank: u16, rules: usize, states: u32) -> Result<Report, Memory>
    ensures { IfOk result (IsCompletedReport rank rules states) }
{
    let mut text = Vec::from_slice(alloc, b"selftest ")?;
    append_number(u64::from(rank), &mut text)?;
    append(b": rules ", &mut text)?;
    append_number(rules as u64, &mut text)?;
    append(b", acceptor states ", &mut text)?;
    append_number(u64::from(states), &mut text)?;
    text.push(b'\n')?;
    Ok(Report {
        text,
        status: Status::Yes,
    })
}

/// The log, and the line of the limit that was reached.
fn halted_report(
    alloc: Global,
    presentation: &Presentation,
    halted: Halted,
) -> Result<Report, Memory>
    ensures { IfOk result (IsHaltedReport presentation.now.names halted) }
{
    let Halted {
        reached,
        lines,
        waiting,
        ..
    } = halted;
    let limit = limit_reached(reached);
    let names = &presentation.names;
    let line = undecided_words_line(alloc, names, &limit, &waiting.left, &waiting.right)?;
    let log = Log {
        version: Version::Two,
        lines,
        waiting: Some(waiting),
    };
    let mut text = print_log(alloc, &log, presentation)?;
    append(&line, &mut text)?;
    Ok(Report {
        text,
        status: Status::Undecided(limit),
    })
}

/// The line of the limit of states.
fn too_large_report(alloc: Global, presentation: &Presentation) -> Result<Report, Memory>
    ensures { IfOk result (IsTooLargeReport presentation.now.names) }
{
    let limit = Limit::States(Construction::Acceptor);
    Ok(Report {
        text: undecided_line(alloc, &presentation.names, &limit)?,
        status: Status::Undecided(limit),
    })
}
