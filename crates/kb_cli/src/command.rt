//! The commands of the program, a variant for each family.

use kb_cmd_automata::AutomataTask;
use kb_cmd_completion::CompletionTask;
use kb_cmd_elements::ElementsTask;
use kb_cmd_proofs::ProofsTask;
use kb_cmd_structures::StructuresTask;
use kb_cmd_words::WordReduce;
use kb_io::{Gate, Shelf, Sink, Source};
use kb_task::{Status, Task};
use std::alloc::Global;
use std::sync::Wait;
use std::thread::Threads;

/// A command with its arguments.
#[derive(Drop)]
pub enum Command {
    /// Print the least word of each word that is read.
    WordReduce(WordReduce),
    /// Compute with automata in files.
    Automata(AutomataTask),
    /// Complete presentations.
    Completion(CompletionTask),
    /// List elements.
    Elements(ElementsTask),
    /// Check automatic structures.
    Structures(StructuresTask),
    /// Check logs, and complete with a log that certifies what was found.
    Proofs(ProofsTask),
}

impl Task for Command {
    ghost use Rattle.kb_cli.specs.Commands.{command_promise};
    ghost use Rattle.kb_cli.specs.CommandLaws.{commands_lawful};

    ghost promise = { command_promise };

    ghost lawful = { commands_lawful };
}

impl Command {
    ghost use Rattle.kb_io.specs.Outside.{outside};
    ghost use Rattle.kb_task.specs.Promises.{Keeps};
    ghost use Rattle.kb_cli.specs.Commands.{command_promise};

    /// Runs the command. What it writes to `err` only shows that it lives. Workers are threads of `rt`, and
    /// pass the gate.
    pub fn run<T: Threads + Wait + Sync, G: Gate, F: Shelf, I: Source, O: Sink, E: Sink>(
        self,
        rt: &T,
        alloc: Global,
        gate: &G,
        shelf: &mut F,
        input: &mut I,
        out: &mut O,
        err: &mut E,
    ) -> Status
        ensures { Keeps (command_promise self)
            (outside (F.state shelf.old) (I.state input.old) (O.state out.old))
            (outside (F.state shelf.new) (I.state input.new) (O.state out.new)) result }
    {
        match self {
            Command::WordReduce(task) => task.run(rt, alloc, gate, shelf, input, out, err),
            Command::Automata(task) => task.run(alloc, shelf, input, out),
            Command::Completion(task) => task.run(rt, alloc, gate, shelf, input, out, err),
            Command::Elements(task) => task.run(rt, alloc, gate, shelf, input, out, err),
            Command::Structures(task) => task.run(rt, alloc, gate, shelf, input, out, err),
            Command::Proofs(task) => task.run(rt, alloc, gate, shelf, input, out, err),
        }
    }
}
