//! `gpminkb FILE`: where the automata beside a group's file are its own structure, its reduced complete system is
//! made of them, as automata, and stored.

ghost use Rattle.std.specs.Prelude.{IfOk};
ghost use Rattle.kb_io.specs.Outside.{outside};
ghost use Rattle.kb_task.specs.Promises.{Keeps};
ghost use Rattle.kb_cmd_structures.specs.Gpminkb.{gpminkb_promise};
ghost use Rattle.kb_cmd_structures.specs.Loaded.{AreAutomataOver};
ghost use Rattle.kb_cmd_structures.specs.Systems.{IsSystemFound};

use crate::automata_check::{AutomataCheck, find as find_structure};
use crate::figures::figures_of_system;
use crate::finding::{Finding, show};
use crate::loading::{Loaded, load_structure};
use crate::system::system_finding;
use kb_io::{Gate, Shelf, Sink, Source};
use kb_progress::Progress;
use kb_task::{Status, Task};
use kb_word::Memory;
use std::alloc::Global;
use std::marker::Model;
use std::sync::Wait;
use std::thread::Threads;

/// Makes the reduced complete system of a group of a word acceptor and multipliers that are the group's own.
#[derive(Drop)]
pub struct Gpminkb {
    /// The check whether they are.
    pub check: AutomataCheck,
}

impl Model for Gpminkb {
    ghost use Rattle.kb_cmd_structures.specs.Given.{CheckGiven};

    ghost Value = { CheckGiven };

    ghost view = { λ task. task.check };
}

impl Task for Gpminkb {
    ghost use Rattle.kb_cmd_structures.specs.Gpminkb.{gpminkb_promise};
    ghost use Rattle.kb_cmd_structures.specs.GpminkbLaws.{gpminkb_lawful};

    ghost promise = { gpminkb_promise };

    ghost lawful = { gpminkb_lawful };
}

impl Gpminkb {
    /// Runs the command. What it writes to `err` only shows that it lives. Workers are threads of `rt`, and
    /// pass the gate.
    pub fn run<T: Threads + Wait + Sync, G: Gate, F: Shelf, I: Source, O: Sink, E: Sink>(
        self,
        rt: &T,
        alloc: Global,
        gate: &G,
        shelf: &mut F,
        input: &mut I,
        out: &mut O,
        err: &mut E,
    ) -> Status
        ensures { Keeps (gpminkb_promise self)
            (outside (F.state shelf.old) (I.state input.old) (O.state out.old))
            (outside (F.state shelf.new) (I.state input.new) (O.state out.new)) result }
    {
        make_system(rt, alloc, gate, &self.check, shelf, input, out, err)
    }
}

/// Runs the command, whose check comes first.
fn make_system<T: Threads + Wait + Sync, G: Gate, F: Shelf, I: Source, O: Sink, E: Sink>(
    rt: &T,
    alloc: Global,
    gate: &G,
    task: &AutomataCheck,
    shelf: &mut F,
    input: &mut I,
    out: &mut O,
    err: &mut E,
) -> Status
    ensures { Keeps (gpminkb_promise task.now)
        (outside (F.state shelf.old) (I.state input.old) (O.state out.old))
        (outside (F.state shelf.new) (I.state input.new) (O.state out.new)) result }
{
    let _ = input;
    match load_structure(alloc, &task.file, shelf) {
        Ok(loaded) => {
            let mut progress = Progress::on(err, Some(&task.file));
            match find(rt, alloc, gate, task, &loaded, &mut progress) {
                Ok(finding) => show(alloc, finding, &mut progress, shelf, out),
                Err(Memory) => Status::Memory,
            }
        }
        Err(status) => status,
    }
}

/// Finds whether the automata are the group's own, and then makes the reduced complete system of them.
fn find<T: Threads + Wait + Sync, G: Gate, E: Sink>(
    rt: &T,
    alloc: Global,
    gate: &G,
    task: &AutomataCheck,
    loaded: &Loaded,
    progress: &mut Progress<'_, E>,
) -> Result<Finding, Memory>
    requires { AreAutomataOver loaded.now.presentation loaded.now.acceptor
        loaded.now.multipliers.items }
    ensures { IfOk result (IsSystemFound task.now loaded.now.presentation loaded.now.acceptor
        loaded.now.multipliers.items) }
{
    let finding = find_structure(rt, alloc, gate, task, loaded, progress)?;
    match finding.status {
        Status::Yes => {
            let system = system_finding(alloc, task, loaded)?;
            progress.ended(figures_of_system(&system.status, &task.limits));
            Ok(system)
        }
        _ => Ok(finding),
    }
}
