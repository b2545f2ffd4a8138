//! The commands in one type.

use crate::kbcertify::Kbcertify;
use crate::kbverify::Kbverify;
use kb_io::{Gate, Shelf, Sink, Source};
use kb_task::{Status, Task};
use std::alloc::Global;
use std::sync::Wait;
use std::thread::Threads;

/// A command about proofs.
#[derive(Drop)]
pub enum ProofsTask {
    /// `kbverify`
    Kbverify(Kbverify),
    /// `kbcertify`
    Kbcertify(Kbcertify),
}

impl Task for ProofsTask {
    ghost use Rattle.kb_cmd_proofs.specs.Tasks.{proofs_promise};
    ghost use Rattle.kb_cmd_proofs.specs.TaskLaws.{proofs_lawful};

    ghost promise = { proofs_promise };

    ghost lawful = { proofs_lawful };
}

impl ProofsTask {
    ghost use Rattle.kb_io.specs.Outside.{outside};
    ghost use Rattle.kb_task.specs.Promises.{Keeps};
    ghost use Rattle.kb_cmd_proofs.specs.Tasks.{proofs_promise};

    /// Runs the command. What it writes to `err` only shows that it lives. Workers are threads of `rt`, and
    /// pass the gate.
    pub fn run<T: Threads + Wait + Sync, G: Gate, F: Shelf, I: Source, O: Sink, E: Sink>(
        self,
        rt: &T,
        alloc: Global,
        gate: &G,
        shelf: &mut F,
        input: &mut I,
        out: &mut O,
        err: &mut E,
    ) -> Status
        ensures { Keeps (proofs_promise self)
            (outside (F.state shelf.old) (I.state input.old) (O.state out.old))
            (outside (F.state shelf.new) (I.state input.new) (O.state out.new)) result }
    {
        match self {
            ProofsTask::Kbverify(task) => task.run(alloc, shelf, input, out),
            ProofsTask::Kbcertify(task) => task.run(rt, alloc, gate, shelf, input, out, err),
        }
    }
}
