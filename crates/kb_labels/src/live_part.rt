//! The states of a multiplier that lie on accepted texts.

ghost use Rattle.std.specs.Prelude.{◌≡◌, ◌↔◌, ◌≤◌, ℕ, IfOk, length};
ghost use Rattle.std.proofs.lemmas.Bool.{eqb-true};
ghost use Rattle.kb_fsa.specs.Table.{IsLive};
ghost use Rattle.kb_fsa.specs.Graphs.{IsMarked};
ghost use Rattle.kb_fsa.specs.Language.{symbols};
ghost use Rattle.kb_fsa.specs.declared.alphabet.Alphabet.TheVariants.{Pair};
ghost use Rattle.kb_labels.specs.LivePart.{marked_part, marked_state};
ghost use Rattle.kb_labels.specs.Places.{AreInOrder};

use kb_explore::{Det, Exploration, Machine, explore};
use kb_fsa::Fsa;
use kb_word::Memory;
use std::alloc::Global;

/// The marked states of an automaton, with the moves between them.
#[derive(Drop)]
struct MarkedPart<'a> {
    fsa: &'a Fsa,
    marks: &'a [bool],
}

impl<'a> MarkedPart<'a> {
    /// The state, if it is marked.
    fn marked(&self, state: u32) -> Option<u32>
        ensures { result ≡ marked_state self.now.marks.now state }
    {
        let is_marked = self.marks.get(state as usize).copied().unwrap_or(false);
        is_marked.then_some(state)
    }
}

impl<'a> Machine for MarkedPart<'a> {
    type State = u32;

    ghost machine = { λ part. marked_part part.fsa.now.table part.marks.now };

    ghost symbols = { λ part. symbols part.fsa.now.alphabet };

    ghost same_state = { eqb-true };

    fn start(&self, _alloc: Global) -> Result<Option<u32>, Memory> {
        Ok(self.marked(self.fsa.initial()))
    }

    fn moves(&self, alloc: Global, state: &u32) -> Result<Vec<(u32, u32)>, Memory> {
        let moves = self
            .fsa
            .table()
            .moves(*state)
            .filter_map(|(symbol, target)| self.marked(*target).map(|state| (*symbol, state)))
            .collect(alloc)?;
        Ok(moves)
    }

    fn accepts(&self, state: &u32) -> bool {
        self.fsa.is_accepting(*state)
    }
}

/// The states that lie on accepted texts, in the order of the least texts that lead to them. The marks say which states
/// lead to acceptance.
pub(crate) fn live_states(
    alloc: Global,
    fsa: &Fsa,
    marks: &[bool],
) -> Result<Exploration<u32>, Memory>
    requires { (state : ℕ) → IsMarked marks.now state ↔ IsLive fsa.now.table state }
    ensures { IfOk result (λ e. (n : ℕ) → fsa.now.alphabet ≡ Pair n
        → AreInOrder n fsa.now.table e.states.keys e.origins.items) }
{
    let part = MarkedPart { fsa, marks };
    match explore(alloc, &part, fsa.table().len()) {
        Ok(exploration) => Ok(exploration),
        // Each state of the part is one of the automaton.
        Err(Det::TooManyStates { .. }) => unreachable!(),
        Err(Det::Memory) => Err(Memory),
    }
}
