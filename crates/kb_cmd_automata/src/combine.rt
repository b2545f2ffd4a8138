//! `fsaand A B OUT`, `fsaor A B OUT` and `fsaconcat A B OUT`: an automaton that is made of two.

ghost use Rattle.std.specs.Prelude.{◌≡◌, ℕ, Err, IsOk, IfOk};
ghost use Rattle.kb_explore.specs.declared.det.Det.TheVariants.{TooManyStates};
ghost use Rattle.kb_task.specs.Automata.{HasKind};
ghost use Rattle.kb_cmd_automata.specs.Make.{IsCombined, HasMoreCombined, combined_kind, combined_by};

use kb_explore::Det;
use kb_fsa::Fsa;
use kb_fsabool::{and, or};
use kb_fsarat::concat;
use kb_io::{Shelf, Sink, Source};
use kb_task::{
    Construction, Kind, Limit, Status, Task, load_automaton, load_second, print_limit,
    store_canonical,
};
use kb_word::OwnedText;
use std::alloc::Global;

/// An operation on two automata.
#[derive(Clone, Copy)]
pub enum Combination {
    /// What both accept: `fsaand`.
    And,
    /// What either accepts: `fsaor`.
    Or,
    /// The products of a word of the first and a word of the second: `fsaconcat`.
    Concat,
}

/// Stores the automaton that an operation makes of the automata in two files.
#[derive(Drop)]
pub struct Combine {
    /// What is made of them.
    pub operation: Combination,
    /// The name of the first file.
    pub one: OwnedText,
    /// The name of the second file.
    pub two: OwnedText,
    /// The name under which the automaton is stored.
    pub out: OwnedText,
    /// The most states that the construction may have, 1 to 4,000,000.
    pub max_states: u32,
}

impl Task for Combine {
    ghost use Rattle.kb_cmd_automata.specs.Make.{combine_promise};
    ghost use Rattle.kb_cmd_automata.specs.MakeLaws.{combine_lawful};

    ghost promise = { combine_promise };

    ghost lawful = { combine_lawful };
}

impl Combine {
    ghost use Rattle.kb_io.specs.Outside.{outside};
    ghost use Rattle.kb_task.specs.Promises.{Keeps};
    ghost use Rattle.kb_cmd_automata.specs.Make.{combine_promise};

    /// Runs the command.
    pub fn run<F: Shelf, I: Source, O: Sink>(
        self,
        alloc: Global,
        shelf: &mut F,
        input: &mut I,
        out: &mut O,
    ) -> Status
        ensures { Keeps (combine_promise self)
            (outside (F.state shelf.old) (I.state input.old) (O.state out.old))
            (outside (F.state shelf.new) (I.state input.new) (O.state out.new)) result }
    {
        let _ = input;
        let kind = self.operation.kind();
        let first = match load_automaton(alloc, kind, self.one, shelf) {
            Ok(first) => first,
            Err(status) => return status,
        };
        let second = match load_second(alloc, kind, &first, self.two, shelf) {
            Ok(second) => second,
            Err(status) => return status,
        };
        match combined(alloc, self.operation, &first.fsa, &second, self.max_states) {
            Ok(made) => store_canonical(alloc, &first.names, &made, self.out, shelf),
            Err(Det::TooManyStates { .. }) => {
                let limit = Limit::States(self.operation.construction());
                print_limit(alloc, &first.names, limit, out)
            }
            Err(Det::Memory) => Status::Memory,
        }
    }
}

impl Combination {
    /// What the operation needs its automata to read.
    fn kind(self) -> Kind
        ensures { result ≡ combined_kind self }
    {
        match self {
            Combination::And | Combination::Or => Kind::WordsOrPairs,
            Combination::Concat => Kind::Words,
        }
    }

    /// The construction of the operation.
    fn construction(self) -> Construction
        ensures { result ≡ combined_by self }
    {
        match self {
            Combination::And => Construction::And,
            Combination::Or => Construction::Or,
            Combination::Concat => Construction::Concat,
        }
    }
}

/// What the operation makes of two automata over one alphabet.
fn combined(
    alloc: Global,
    operation: Combination,
    one: &Fsa,
    two: &Fsa,
    limit: u32,
) -> Result<Fsa, Det>
    requires kind { HasKind (combined_kind operation) one.now.alphabet }
    requires alphabets { one.now.alphabet ≡ two.now.alphabet }
    ensures language { IfOk result (IsCombined operation one.now two.now) }
    ensures alphabet { IfOk result (λ made. made.alphabet ≡ one.now.alphabet) }
    ensures few { IsOk result → ¬ HasMoreCombined operation one.now two.now limit }
    ensures many { (most : ℕ) → result ≡ Err (TooManyStates most)
        → HasMoreCombined operation one.now two.now limit }
{
    match operation {
        Combination::And => and(alloc, one, two, limit),
        Combination::Or => or(alloc, one, two, limit),
        Combination::Concat => concat(alloc, one, two, limit),
    }
}
