//! `gpaxioms FILE [--log]`: whether the automata beside a group's file are its word acceptor and its multipliers, by a
//! completion or by the lines of the log beside it.

ghost use Rattle.kb_io.specs.Outside.{outside};
ghost use Rattle.kb_io.specs.States.{SourceState};
ghost use Rattle.kb_task.specs.Runs.{IsRun};
ghost use Rattle.kb_cmd_structures.specs.Gpaxioms.{Finds, GpaxiomsMayStore};
ghost use Rattle.kb_cmd_structures.specs.Shown.{StructureMeans};

use crate::automata_check::{AutomataCheck, find};
use crate::by_log::run_by_log;
use crate::finding::show;
use crate::loading::load_structure;
use kb_io::{Gate, Shelf, Sink, Source};
use kb_progress::Progress;
use kb_task::{Status, Task};
use kb_word::Memory;
use std::alloc::Global;
use std::marker::Model;
use std::sync::Wait;
use std::thread::Threads;

/// Checks whether a word acceptor and multipliers are a group's own.
#[derive(Drop)]
pub struct Gpaxioms {
    /// The check whether they are.
    pub check: AutomataCheck,
    /// Whether the lines of the group's log decide it, and no completion.
    pub by_log: bool,
}

impl Model for Gpaxioms {
    ghost use Rattle.kb_cmd_structures.specs.Given.{GpaxiomsGiven};

    ghost Value = { GpaxiomsGiven };

    ghost view = { λ task. record { check = task.check; by_log = task.by_log } };
}

impl Task for Gpaxioms {
    ghost use Rattle.kb_cmd_structures.specs.GpaxiomsPromise.{gpaxioms_promise};
    ghost use Rattle.kb_cmd_structures.specs.GpaxiomsLaws.{gpaxioms_lawful};

    ghost promise = { gpaxioms_promise };

    ghost lawful = { gpaxioms_lawful };
}

impl Gpaxioms {
    ghost use Rattle.kb_task.specs.Promises.{Keeps};
    ghost use Rattle.kb_cmd_structures.specs.GpaxiomsPromise.{gpaxioms_promise};

    /// Runs the command. What it writes to `err` only shows that it lives. Workers are threads of `rt`, and
    /// pass the gate.
    pub fn run<T: Threads + Wait + Sync, G: Gate, F: Shelf, I: Source, O: Sink, E: Sink>(
        self,
        rt: &T,
        alloc: Global,
        gate: &G,
        shelf: &mut F,
        input: &mut I,
        out: &mut O,
        err: &mut E,
    ) -> Status
        ensures { Keeps (gpaxioms_promise self)
            (outside (F.state shelf.old) (I.state input.old) (O.state out.old))
            (outside (F.state shelf.new) (I.state input.new) (O.state out.new)) result }
    {
        let _ = input;
        if self.by_log {
            run_by_log(rt, alloc, gate, &self.check, shelf, out, err)
        } else {
            run_by_completion(rt, alloc, gate, &self.check, shelf, out, err)
        }
    }
}

/// Loads the files, and shows what is found, where a completion decides.
fn run_by_completion<T: Threads + Wait + Sync, G: Gate, F: Shelf, O: Sink, E: Sink>(
    rt: &T,
    alloc: Global,
    gate: &G,
    task: &AutomataCheck,
    shelf: &mut F,
    out: &mut O,
    err: &mut E,
) -> Status
    ensures { (input : SourceState)
        → IsRun (StructureMeans (Finds task.now) task.now.file) (GpaxiomsMayStore task.now)
        (outside (F.state shelf.old) input (O.state out.old))
        (outside (F.state shelf.new) input (O.state out.new)) result }
{
    match load_structure(alloc, &task.file, shelf) {
        Ok(loaded) => {
            let mut progress = Progress::on(err, Some(&task.file));
            match find(rt, alloc, gate, task, &loaded, &mut progress) {
                Ok(finding) => show(alloc, finding, &mut progress, shelf, out),
                Err(Memory) => Status::Memory,
            }
        }
        Err(status) => status,
    }
}
