//! Prime overlaps, found by the automaton of the left sides.

ghost use Rattle.std.specs.Prelude.{◌≡◌, ◌<◌, OnOk, length};
ghost use Rattle.kb_index.specs.Automata.{IsAutomaton};
ghost use Rattle.kb_overlap.specs.Composite.{ArePrimeOverlaps};

use crate::left_sides::Overlap;
use crate::prefixes::Prefixes;
use kb_index::Automaton;
use kb_rules::Rules;
use kb_word::Memory;
use std::alloc::Global;
use std::marker::Model;

/// A list of rules and the automaton of their left sides, by which the prime overlaps of each with all of them
/// are found.
#[derive(Drop)]
pub struct PrimeOverlaps<'r> {
    alloc: Global,
    prefixes: Prefixes<'r>,
}

impl<'r> Model for PrimeOverlaps<'r> {
    ghost use Rattle.std.specs.Prelude.{List};
    ghost use Rattle.kb_word.specs.Words.{Pair};
    ghost use Rattle.kb_overlap.specs.Prefixes.{ArePrefixes};

    ghost Value = { List Pair };

    ghost view = { λ primes. primes.prefixes.rules.now };

    ghost invariant = { λ primes. ArePrefixes primes.prefixes };
}

impl<'r> PrimeOverlaps<'r> {
    /// The prime overlaps of these rules, whose automaton this is.
    pub fn by(alloc: Global, rules: &'r Rules, automaton: &'r Automaton) -> PrimeOverlaps<'r>
        requires { IsAutomaton rules.now.rules automaton.now }
        ensures { result ≡ rules.now.rules }
    {
        // What holds of the states of every automaton.
        let _count = automaton.states();
        PrimeOverlaps {
            alloc,
            prefixes: Prefixes {
                rules: rules.as_slice(),
                automaton,
            },
        }
    }

    /// Finds the prime overlaps in which the rule at this index begins first. They are sorted, which nothing
    /// rests on. What the list held is gone; where memory runs out it holds anything.
    pub fn of_rule(&self, index: usize, found: &mut Vec<Overlap>) -> Result<(), Memory>
        requires { index < length self.now }
        ensures { OnOk result (ArePrimeOverlaps self.now index found.new.items) }
    {
        found.clear();
        self.prefixes.add_contained(index, found)?;
        self.prefixes.add_proper(self.alloc, index, found)?;
        found.sort_unstable();
        Ok(())
    }
}
