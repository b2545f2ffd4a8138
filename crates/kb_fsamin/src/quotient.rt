//! The machine whose states stand for the classes of states with one right language.

ghost use Rattle.std.specs.Prelude.{◌≡◌};
ghost use Rattle.kb_fsa.specs.Language.{symbols};
ghost use Rattle.kb_fsamin.specs.Classes.{representative};
ghost use Rattle.kb_fsamin.specs.Quotient.{some_state, quotient_of};
ghost use Rattle.std.proofs.lemmas.Bool.{eqb-true};

use kb_explore::Machine;
use kb_fsa::Fsa;
use kb_word::Memory;
use std::alloc::Global;

/// An automaton with the representative of each state, or 0 where the state leads to no acceptance.
#[derive(Drop)]
pub(crate) struct Quotient<'a> {
    pub(crate) fsa: &'a Fsa,
    pub(crate) representatives: &'a [u32],
}

impl<'a> Quotient<'a> {
    /// The representative of the state, and `None` where it has none.
    fn representative(&self, state: u32) -> Option<u32>
        ensures { result ≡ some_state (representative self.now.representatives.now state) }
    {
        let place = state.checked_sub(1)?;
        match self.representatives.get(place as usize) {
            Some(0) | None => None,
            Some(class) => Some(*class),
        }
    }
}

impl<'a> Machine for Quotient<'a> {
    type State = u32;

    ghost machine = { λ quotient. quotient_of quotient.fsa.now.table quotient.representatives.now };

    ghost symbols = { λ quotient. symbols quotient.fsa.now.alphabet };

    ghost same_state = { eqb-true };

    fn start(&self, _alloc: Global) -> Result<Option<u32>, Memory> {
        Ok(self.representative(self.fsa.initial()))
    }

    fn moves(&self, alloc: Global, state: &u32) -> Result<Vec<(u32, u32)>, Memory> {
        let moves = self
            .fsa
            .table()
            .moves(*state)
            .filter_map(|(symbol, target)| {
                self.representative(*target).map(|class| (*symbol, class))
            })
            .collect(alloc)?;
        Ok(moves)
    }

    fn accepts(&self, state: &u32) -> bool {
        self.fsa.is_accepting(*state)
    }
}
