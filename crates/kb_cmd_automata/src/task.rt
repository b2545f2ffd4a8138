//! The eleven commands in one type.

use crate::combine::Combine;
use crate::compare::Compare;
use crate::counting::CountAccepted;
use crate::enumerate::Enumerate;
use crate::minimise::Minimise;
use crate::transform::Transform;
use kb_io::{Shelf, Sink, Source};
use kb_task::{Status, Task};
use std::alloc::Global;

/// A command on automata.
#[derive(Drop)]
pub enum AutomataTask {
    /// `fsaand`, `fsaor`, `fsaconcat`
    Combine(Combine),
    /// `fsanot`, `fsaexists`, `fsastar`, `fsareverse`
    Transform(Transform),
    /// `fsamin`
    Minimise(Minimise),
    /// `fsalequal`
    Compare(Compare),
    /// `fsaenumerate`
    Enumerate(Enumerate),
    /// `fsacount`
    CountAccepted(CountAccepted),
}

impl Task for AutomataTask {
    ghost use Rattle.kb_cmd_automata.specs.Tasks.{automata_promise};
    ghost use Rattle.kb_cmd_automata.specs.TaskLaws.{automata_lawful};

    ghost promise = { automata_promise };

    ghost lawful = { automata_lawful };
}

impl AutomataTask {
    ghost use Rattle.kb_io.specs.Outside.{outside};
    ghost use Rattle.kb_task.specs.Promises.{Keeps};
    ghost use Rattle.kb_cmd_automata.specs.Tasks.{automata_promise};

    /// Runs the command.
    pub fn run<F: Shelf, I: Source, O: Sink>(
        self,
        alloc: Global,
        shelf: &mut F,
        input: &mut I,
        out: &mut O,
    ) -> Status
        ensures { Keeps (automata_promise self)
            (outside (F.state shelf.old) (I.state input.old) (O.state out.old))
            (outside (F.state shelf.new) (I.state input.new) (O.state out.new)) result }
    {
        match self {
            AutomataTask::Combine(task) => task.run(alloc, shelf, input, out),
            AutomataTask::Transform(task) => task.run(alloc, shelf, input, out),
            AutomataTask::Minimise(task) => task.run(alloc, shelf, input, out),
            AutomataTask::Compare(task) => task.run(alloc, shelf, input, out),
            AutomataTask::Enumerate(task) => task.run(alloc, shelf, input, out),
            AutomataTask::CountAccepted(task) => task.run(alloc, shelf, input, out),
        }
    }
}
