//! `fsanot A OUT`, `fsaexists A OUT`, `fsastar A OUT` and `fsareverse A OUT`: an automaton that is
//! made of another.

ghost use Rattle.std.specs.Prelude.{◌≡◌, ℕ, Err, IsOk, IfOk};
ghost use Rattle.kb_explore.specs.declared.det.Det.TheVariants.{TooManyStates};
ghost use Rattle.kb_fsa.specs.Language.{generators};
ghost use Rattle.kb_task.specs.Automata.{HasKind};
ghost use Rattle.kb_cmd_automata.specs.Make.{IsTransformed, HasMoreTransformed, transformed_kind, transformed_by};

use kb_explore::Det;
use kb_fsa::Fsa;
use kb_fsabool::not;
use kb_fsadet::exists;
use kb_fsarat::{reverse, star};
use kb_io::{Shelf, Sink, Source};
use kb_task::{
    Construction, Kind, Limit, Status, Task, load_automaton, print_limit, store_canonical,
};
use kb_word::OwnedText;
use std::alloc::Global;

/// An operation on one automaton.
#[derive(Clone, Copy)]
pub enum Transformation {
    /// What it does not accept: `fsanot`.
    Not,
    /// The first words of the pairs that it accepts: `fsaexists`.
    Exists,
    /// The products of any number of its words: `fsastar`.
    Star,
    /// Its words read backwards: `fsareverse`.
    Reverse,
}

/// Stores the automaton that an operation makes of the automaton in a file.
#[derive(Drop)]
pub struct Transform {
    /// What is made of it.
    pub operation: Transformation,
    /// The name of the file.
    pub file: OwnedText,
    /// The name under which the automaton is stored.
    pub out: OwnedText,
    /// The most states that the construction may have, 1 to 4,000,000.
    pub max_states: u32,
}

impl Task for Transform {
    ghost use Rattle.kb_cmd_automata.specs.Make.{transform_promise};
    ghost use Rattle.kb_cmd_automata.specs.MakeLaws.{transform_lawful};

    ghost promise = { transform_promise };

    ghost lawful = { transform_lawful };
}

impl Transform {
    ghost use Rattle.kb_io.specs.Outside.{outside};
    ghost use Rattle.kb_task.specs.Promises.{Keeps};
    ghost use Rattle.kb_cmd_automata.specs.Make.{transform_promise};

    /// Runs the command.
    pub fn run<F: Shelf, I: Source, O: Sink>(
        self,
        alloc: Global,
        shelf: &mut F,
        input: &mut I,
        out: &mut O,
    ) -> Status
        ensures { Keeps (transform_promise self)
            (outside (F.state shelf.old) (I.state input.old) (O.state out.old))
            (outside (F.state shelf.new) (I.state input.new) (O.state out.new)) result }
    {
        let _ = input;
        let given = match load_automaton(alloc, self.operation.kind(), self.file, shelf) {
            Ok(given) => given,
            Err(status) => return status,
        };
        match transformed(alloc, self.operation, &given.fsa, self.max_states) {
            Ok(made) => store_canonical(alloc, &given.names, &made, self.out, shelf),
            Err(Det::TooManyStates { .. }) => {
                let limit = Limit::States(self.operation.construction());
                print_limit(alloc, &given.names, limit, out)
            }
            Err(Det::Memory) => Status::Memory,
        }
    }
}

impl Transformation {
    /// What the operation needs its automaton to read.
    fn kind(self) -> Kind
        ensures { result ≡ transformed_kind self }
    {
        match self {
            Transformation::Not => Kind::WordsOrPairs,
            Transformation::Exists => Kind::Pairs,
            Transformation::Star | Transformation::Reverse => Kind::Words,
        }
    }

    /// The construction of the operation.
    fn construction(self) -> Construction
        ensures { result ≡ transformed_by self }
    {
        match self {
            Transformation::Not => Construction::Not,
            Transformation::Exists => Construction::Exists,
            Transformation::Star => Construction::Star,
            Transformation::Reverse => Construction::Reverse,
        }
    }
}

/// What the operation makes of an automaton.
fn transformed(alloc: Global, operation: Transformation, fsa: &Fsa, limit: u32) -> Result<Fsa, Det>
    requires { HasKind (transformed_kind operation) fsa.now.alphabet }
    ensures language { IfOk result (IsTransformed operation fsa.now) }
    ensures letters { IfOk result (λ made. generators made.alphabet ≡ generators fsa.now.alphabet) }
    ensures few { IsOk result → ¬ HasMoreTransformed operation fsa.now limit }
    ensures many { (most : ℕ) → result ≡ Err (TooManyStates most)
        → HasMoreTransformed operation fsa.now limit }
{
    match operation {
        Transformation::Not => not(alloc, fsa, limit),
        Transformation::Exists => exists(alloc, fsa, limit),
        Transformation::Star => star(alloc, fsa, limit),
        Transformation::Reverse => reverse(alloc, fsa, limit),
    }
}
