//! The commands of the family in one type.

use crate::ball::Ball;
use crate::kbcos::Kbcos;
use kb_io::{Gate, Shelf, Sink, Source};
use kb_task::{Status, Task};
use std::alloc::Global;
use std::sync::Wait;
use std::thread::Threads;

/// A command on the elements of what is presented.
#[derive(Drop)]
pub enum ElementsTask {
    /// `ball`
    Ball(Ball),
    /// `kbcos`
    Kbcos(Kbcos),
}

impl Task for ElementsTask {
    ghost use Rattle.kb_cmd_elements.specs.Tasks.{elements_promise};
    ghost use Rattle.kb_cmd_elements.specs.TaskLaws.{elements_lawful};

    ghost promise = { elements_promise };

    ghost lawful = { elements_lawful };
}

impl ElementsTask {
    ghost use Rattle.kb_io.specs.Outside.{outside};
    ghost use Rattle.kb_task.specs.Promises.{Keeps};
    ghost use Rattle.kb_cmd_elements.specs.Tasks.{elements_promise};

    /// Runs the command. What is written to `err` only shows that it lives. Workers are threads of `rt`, and
    /// pass the gate.
    pub fn run<T: Threads + Wait + Sync, G: Gate, F: Shelf, I: Source, O: Sink, E: Sink>(
        self,
        rt: &T,
        alloc: Global,
        gate: &G,
        shelf: &mut F,
        input: &mut I,
        out: &mut O,
        err: &mut E,
    ) -> Status
        ensures { Keeps (elements_promise self)
            (outside (F.state shelf.old) (I.state input.old) (O.state out.old))
            (outside (F.state shelf.new) (I.state input.new) (O.state out.new)) result }
    {
        match self {
            ElementsTask::Ball(task) => task.run(rt, alloc, gate, shelf, input, out, err),
            ElementsTask::Kbcos(task) => task.run(rt, alloc, gate, shelf, input, out, err),
        }
    }
}
