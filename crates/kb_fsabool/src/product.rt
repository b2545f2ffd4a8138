//! Products of two automata.

ghost use Rattle.std.specs.Prelude.{◌≡◌, ℕ, max, Err, IsOk, IfOk};
ghost use Rattle.std.proofs.Common.{rules};
ghost use Rattle.kb_fsa.specs.Language.{symbols};
ghost use Rattle.kb_explore.specs.declared.det.Det.TheVariants.{TooManyStates};
ghost use Rattle.kb_fsabool.specs.Products.{product, IsCombination, CountedPairs};

use crate::connective::{Connective, StatePair};
use crate::merging::merge;
use kb_explore::{Det, Machine, explore};
use kb_fsa::Fsa;
use kb_word::Memory;
use std::alloc::Global;

/// Two automata that read the same text.
#[derive(Drop)]
pub struct Product<'a> {
    /// What is asked of the two.
    pub connective: Connective,
    /// The first.
    pub one: &'a Fsa,
    /// The second.
    pub two: &'a Fsa,
}

impl<'a> Machine for Product<'a> {
    type State = StatePair;

    ghost machine = { λ it. product it.connective it.one.now.table it.two.now.table };

    ghost symbols = { λ it. max (symbols it.one.now.alphabet) (symbols it.two.now.alphabet) };

    ghost same_state = { Prim.search rules };

    fn start(&self, _alloc: Global) -> Result<Option<StatePair>, Memory> {
        Ok(self.connective.pair(self.one.initial(), self.two.initial()))
    }

    fn moves(&self, alloc: Global, state: &StatePair) -> Result<Vec<(u32, StatePair)>, Memory> {
        let (one, two) = (self.one.table(), self.two.table());
        let first = one.moves(state.first);
        let second = two.moves(state.second);
        merge(alloc, self.connective, first.as_slice(), second.as_slice())
    }

    fn accepts(&self, state: &StatePair) -> bool {
        let one = self.one.is_accepting(state.first);
        let two = self.two.is_accepting(state.second);
        self.connective.holds(one, two)
    }
}

/// An automaton of the texts for which the answers of the two give yes.
pub fn combine(
    alloc: Global,
    connective: Connective,
    one: &Fsa,
    two: &Fsa,
    limit: u32,
) -> Result<Fsa, Det>
    requires { one.now.alphabet ≡ two.now.alphabet }
    ensures language { IfOk result (IsCombination connective one.now two.now) }
    ensures alphabet { IfOk result (λ fsa. fsa.alphabet ≡ one.now.alphabet) }
    ensures few { IsOk result → ¬ CountedPairs connective one.now.table two.now.table limit }
    ensures many { (most : ℕ) → result ≡ Err (TooManyStates most)
        → (most ≡ limit) × CountedPairs connective one.now.table two.now.table limit }
{
    prove!(one.alphabet() == two.alphabet());
    let machine = Product {
        connective,
        one,
        two,
    };
    let exploration = explore(alloc, &machine, limit)?;
    Ok(Fsa::new(one.alphabet(), exploration.table))
}
