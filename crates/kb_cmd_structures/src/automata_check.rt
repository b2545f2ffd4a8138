//! A check whether automata are a group's own, and how a completion decides it.

ghost use Rattle.std.specs.Prelude.{IfOk};
ghost use Rattle.kb_cmd_structures.specs.Findings.{IsFound};
ghost use Rattle.kb_cmd_structures.specs.Loaded.{AreAutomataOver};

use crate::figures::figures_of_check;
use crate::finding::{Finding, finding_of};
use crate::loading::Loaded;
use kb_auto::gpaxioms as check;
use kb_book::Limits;
use kb_draw::Crew;
use kb_io::{Gate, Sink};
use kb_progress::Progress;
use kb_word::{Memory, OwnedText};
use std::alloc::Global;
use std::marker::Model;
use std::sync::Wait;
use std::thread::Threads;

/// What is checked, by how many workers and within which limits.
#[derive(Drop)]
pub struct AutomataCheck {
    /// The name of the file with the group.
    pub file: OwnedText,
    /// How many threads may work side by side.
    pub workers: u32,
    /// The limits of the completion, and of the constructions.
    pub limits: Limits,
}

impl Model for AutomataCheck {
    ghost use Rattle.std.specs.Prelude.{◌≤◌};
    ghost use Rattle.kb_cmd_structures.specs.Given.{CheckGiven, limits_of};

    ghost Value = { CheckGiven };

    ghost view = { λ task. record {
      file = task.file;
      workers = task.workers;
      limits = limits_of task.limits;
    } };

    ghost invariant = { λ task. (1 ≤ task.workers) × (task.workers ≤ 64) };
}

/// Finds whether the automata are the group's own, and makes what is stored and written of that.
pub(crate) fn find<T: Threads + Wait + Sync, G: Gate, E: Sink>(
    rt: &T,
    alloc: Global,
    gate: &G,
    task: &AutomataCheck,
    loaded: &Loaded,
    progress: &mut Progress<'_, E>,
) -> Result<Finding, Memory>
    requires { AreAutomataOver loaded.now.presentation loaded.now.acceptor
        loaded.now.multipliers.items }
    ensures { IfOk result (IsFound task.now loaded.now.presentation loaded.now.acceptor
        loaded.now.multipliers.items) }
{
    let Loaded {
        presentation,
        acceptor,
        multipliers,
    } = loaded;
    let limits = &task.limits;
    let crew = Crew::new(task.workers, gate);
    let checked = check(
        rt,
        alloc,
        presentation,
        acceptor,
        multipliers,
        limits,
        &crew,
        progress,
    )?;
    progress.ended(figures_of_check(&checked, limits));
    finding_of(alloc, task, presentation, checked)
}
