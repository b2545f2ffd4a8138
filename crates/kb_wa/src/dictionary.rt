//! The dictionary automaton of left sides.

ghost use Rattle.std.specs.Prelude.{◌≡◌, ◌<◌, ◌≤◌, nat_eq};
ghost use Rattle.std.proofs.lemmas.Bool.{eqb-true};
ghost use Rattle.kb_wa.specs.Dictionary.{dictionary};

use kb_explore::Machine;
use kb_trie::Trie;
use kb_word::Memory;
use std::alloc::Global;
use std::marker::Model;

/// The dictionary automaton of left sides over n letters. Its states are those of the trie of the left sides,
/// but for those that stand for a left side, which keep a number.
#[derive(Drop)]
pub(crate) struct Dictionary {
    n: u16,
    trie: Trie,
}

impl Model for Dictionary {
    ghost use Rattle.kb_wa.specs.Dictionary.{LeftSides};

    ghost Value = { LeftSides };

    ghost view = { λ this. record { n = this.n; trie = this.trie } };
}

impl Machine for Dictionary {
    type State = u32;

    ghost machine = { λ machine. dictionary machine.n machine.trie };

    ghost symbols = { λ machine. machine.n };

    fn start(&self, _alloc: Global) -> Result<Option<u32>, Memory> {
        Ok(Some(0))
    }

    fn moves(&self, alloc: Global, state: &u32) -> Result<Vec<(u32, u32)>, Memory> {
        let mut moves = Vec::with_capacity(alloc, usize::from(self.n))?;
        for symbol in 1..u32::from(self.n) + 1 {
            if let Some(next) = self.follow(*state, symbol as u16) {
                moves.push((symbol, next))?;
            }
        }
        Ok(moves)
    }

    fn accepts(&self, _state: &u32) -> bool {
        true
    }

    ghost same_state = { eqb-true };
}

impl Dictionary {
    /// The dictionary automaton over n letters of the left sides of which this is the trie.
    pub(crate) fn new(n: u16, trie: Trie) -> Dictionary
        ensures { result ≡ record { n = n; trie = trie } }
    {
        Dictionary { n, trie }
    }

    /// To which state a letter leads; to none where a left side ends.
    fn follow(&self, state: u32, letter: u16) -> Option<u32>
        requires positive { 0 < letter }
        requires letter { letter ≤ self.now.n }
        ensures { result ≡ (dictionary self.now.n self.now.trie).follow state letter }
    {
        if state as usize >= self.trie.count() {
            return None;
        }
        let next = self.trie.step(state, letter);
        if self.trie.number_at(next) > 0 {
            return None;
        }
        Some(next)
    }
}
