//! The three commands in one type.

use crate::kbprog::Kbprog;
use crate::logread::Logread;
use crate::selftest::SelfTest;
use kb_io::{Gate, Shelf, Sink, Source};
use kb_task::{Status, Task};
use std::alloc::Global;
use std::sync::Wait;
use std::thread::Threads;

/// A command of completion.
#[derive(Drop)]
pub enum CompletionTask {
    /// `kbprog`
    Kbprog(Kbprog),
    /// `logread`
    Logread(Logread),
    /// `selftest`
    SelfTest(SelfTest),
}

impl Task for CompletionTask {
    ghost use Rattle.kb_cmd_completion.specs.Tasks.{completion_promise};
    ghost use Rattle.kb_cmd_completion.specs.TaskLaws.{completion_lawful};

    ghost promise = { completion_promise };

    ghost lawful = { completion_lawful };
}

impl CompletionTask {
    ghost use Rattle.kb_io.specs.Outside.{outside};
    ghost use Rattle.kb_task.specs.Promises.{Keeps};
    ghost use Rattle.kb_cmd_completion.specs.Tasks.{completion_promise};

    /// Runs the command. What is written to `err` only shows that it lives. Workers are threads of `rt`, and
    /// pass the gate.
    pub fn run<T: Threads + Wait + Sync, G: Gate, F: Shelf, I: Source, O: Sink, E: Sink>(
        self,
        rt: &T,
        alloc: Global,
        gate: &G,
        shelf: &mut F,
        input: &mut I,
        out: &mut O,
        err: &mut E,
    ) -> Status
        ensures { Keeps (completion_promise self)
            (outside (F.state shelf.old) (I.state input.old) (O.state out.old))
            (outside (F.state shelf.new) (I.state input.new) (O.state out.new)) result }
    {
        match self {
            CompletionTask::Kbprog(task) => task.run(rt, alloc, gate, shelf, input, out, err),
            CompletionTask::Logread(task) => task.run(alloc, shelf, input, out),
            CompletionTask::SelfTest(task) => task.run(rt, alloc, gate, shelf, input, out, err),
        }
    }
}
