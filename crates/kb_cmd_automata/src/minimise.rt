//! `fsamin A OUT`: the canonical automaton of the language of an automaton.

use crate::files::FileToOut;
use kb_io::{Shelf, Sink, Source};
use kb_task::{Kind, Status, Task, load_language, store_canonical};
use std::alloc::Global;

/// Stores the canonical automaton of the language of the automaton in a file.
#[derive(Drop)]
pub struct Minimise {
    /// The names of the file, and of the one in which the automaton is stored.
    pub files: FileToOut,
}

impl Task for Minimise {
    ghost use Rattle.kb_cmd_automata.specs.Make.{minimise_promise};
    ghost use Rattle.kb_cmd_automata.specs.MakeLaws.{minimise_lawful};

    ghost promise = { minimise_promise };

    ghost lawful = { minimise_lawful };
}

impl Minimise {
    ghost use Rattle.kb_io.specs.Outside.{outside};
    ghost use Rattle.kb_task.specs.Promises.{Keeps};
    ghost use Rattle.kb_cmd_automata.specs.Make.{minimise_promise};

    /// Runs the command.
    pub fn run<F: Shelf, I: Source, O: Sink>(
        self,
        alloc: Global,
        shelf: &mut F,
        input: &mut I,
        out: &mut O,
    ) -> Status
        ensures { Keeps (minimise_promise self)
            (outside (F.state shelf.old) (I.state input.old) (O.state out.old))
            (outside (F.state shelf.new) (I.state input.new) (O.state out.new)) result }
    {
        let _ = input;
        let _ = out;
        let files = self.files;
        match load_language(alloc, Kind::WordsOrPairs, files.file, shelf) {
            Ok(given) => store_canonical(alloc, &given.names, &given.fsa, files.out, shelf),
            Err(status) => status,
        }
    }
}
