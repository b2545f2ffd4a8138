//! The commands of the family in one type.

use crate::autgroup::Autgroup;
use crate::gpaxioms::Gpaxioms;
use crate::gpminkb::Gpminkb;
use kb_io::{Gate, Shelf, Sink, Source};
use kb_task::{Status, Task};
use std::alloc::Global;
use std::sync::Wait;
use std::thread::Threads;

/// A command on automatic structures.
#[derive(Drop)]
pub enum StructuresTask {
    /// `autgroup`
    Autgroup(Autgroup),
    /// `gpaxioms`
    Gpaxioms(Gpaxioms),
    /// `gpminkb`
    Gpminkb(Gpminkb),
}

impl Task for StructuresTask {
    ghost use Rattle.kb_cmd_structures.specs.Tasks.{structures_promise};
    ghost use Rattle.kb_cmd_structures.specs.TaskLaws.{structures_lawful};

    ghost promise = { structures_promise };

    ghost lawful = { structures_lawful };
}

impl StructuresTask {
    ghost use Rattle.kb_io.specs.Outside.{outside};
    ghost use Rattle.kb_task.specs.Promises.{Keeps};
    ghost use Rattle.kb_cmd_structures.specs.Tasks.{structures_promise};

    /// Runs the command. What is written to `err` only shows that it lives. Workers are threads of `rt`, and
    /// pass the gate.
    pub fn run<T: Threads + Wait + Sync, G: Gate, F: Shelf, I: Source, O: Sink, E: Sink>(
        self,
        rt: &T,
        alloc: Global,
        gate: &G,
        shelf: &mut F,
        input: &mut I,
        out: &mut O,
        err: &mut E,
    ) -> Status
        ensures { Keeps (structures_promise self)
            (outside (F.state shelf.old) (I.state input.old) (O.state out.old))
            (outside (F.state shelf.new) (I.state input.new) (O.state out.new)) result }
    {
        match self {
            StructuresTask::Autgroup(task) => task.run(rt, alloc, gate, shelf, input, out, err),
            StructuresTask::Gpaxioms(task) => task.run(rt, alloc, gate, shelf, input, out, err),
            StructuresTask::Gpminkb(task) => task.run(rt, alloc, gate, shelf, input, out, err),
        }
    }
}
