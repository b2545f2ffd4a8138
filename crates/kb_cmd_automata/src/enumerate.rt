//! `fsaenumerate MIN MAX A`: the words that an automaton accepts.

use kb_io::{Shelf, Sink, Source};
use kb_listing::list_words;
use kb_task::{Kind, Status, Task, load_automaton};
use kb_word::OwnedText;
use std::alloc::Global;

/// Prints the words that the automaton in a file accepts.
#[derive(Drop)]
pub struct Enumerate {
    /// The least length.
    pub min: u16,
    /// The greatest length.
    pub max: u16,
    /// The name of the file.
    pub file: OwnedText,
}

impl Task for Enumerate {
    ghost use Rattle.kb_cmd_automata.specs.Enumerate.{enumerate_promise};
    ghost use Rattle.kb_cmd_automata.specs.EnumerateLaws.{enumerate_lawful};

    ghost promise = { enumerate_promise };

    ghost lawful = { enumerate_lawful };
}

impl Enumerate {
    ghost use Rattle.kb_io.specs.Outside.{outside};
    ghost use Rattle.kb_task.specs.Promises.{Keeps};
    ghost use Rattle.kb_cmd_automata.specs.Enumerate.{enumerate_promise};

    /// Runs the command.
    pub fn run<F: Shelf, I: Source, O: Sink>(
        self,
        alloc: Global,
        shelf: &mut F,
        input: &mut I,
        out: &mut O,
    ) -> Status
        ensures { Keeps (enumerate_promise self)
            (outside (F.state shelf.old) (I.state input.old) (O.state out.old))
            (outside (F.state shelf.new) (I.state input.new) (O.state out.new)) result }
    {
        let _ = input;
        match load_automaton(alloc, Kind::Words, self.file, shelf) {
            Ok(given) => list_words(alloc, &given.names, &given.fsa, self.min, self.max, out),
            Err(status) => status,
        }
    }
}
