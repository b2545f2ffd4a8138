//! Reducers that have the automaton of their rules.

ghost use Rattle.std.specs.Prelude.{IfSome};
ghost use Rattle.kb_index.specs.Automata.{IsAutomaton};

use crate::automaton::Automaton;
use kb_rules::Reducer;

/// A reducer that reads by the automaton of its rules.
pub trait HasAutomaton: Reducer {
    /// The automaton of the rules, or None where memory ran out when it was made anew. One that is tidy
    /// (`Reducer::tidy`) has it.
    fn automaton(&self) -> Option<&Automaton>
        ensures { IfSome result (λ automaton. IsAutomaton (Self.rules self.now) automaton.now) };
}
