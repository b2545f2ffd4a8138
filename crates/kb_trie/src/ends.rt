//! The numbers that states keep, and the ends of states.

ghost use Rattle.std.specs.Prelude.{◌≡◌, ℕ, List, ◌<◌, ◌≤◌, ◌+◌, [], ◌∷◌, ◌++◌, IfOk, OnOk, length, get_or, set};
ghost use Rattle.std.specs.List.{All, filter};
ghost use Rattle.kb_trie.specs.States.{word};
ghost use Rattle.kb_trie.specs.Ends.{HasEnds, keeps};
ghost use Rattle.kb_trie.specs.Walks.{IsAmong};

use crate::room::make_room;
use kb_word::Memory;
use std::alloc::Global;

/// For each state the number that it keeps, or 0, and its end: the state of the longest suffix of its word, the
/// word itself among them, that keeps a number, or 0. There may be room for more.
#[derive(Debug, Drop)]
pub struct Ends {
    pub numbers: Vec<u32>,
    pub ends: Vec<u32>,
}

impl Ends {
    /// Those of state 0 alone, which keeps no number.
    pub fn root(alloc: Global) -> Result<Ends, Memory>
        ensures numbers { IfOk result (λ ends. ends.numbers.items ≡ 0 ∷ []) }
        ensures ends { IfOk result (HasEnds ([] ∷ [])) }
    {
        let numbers = vec![in alloc; 0; 1]?;
        let ends = vec![in alloc; 0; 1]?;
        Ok(Ends { numbers, ends })
    }

    /// The same numbers and ends.
    pub fn copy(&self, alloc: Global) -> Result<Ends, Memory>
        ensures numbers { IfOk result (λ ends. ends.numbers.items ≡ self.now.numbers.items) }
        ensures ends { IfOk result (λ ends. ends.ends.items ≡ self.now.ends.items) }
    {
        let numbers = Vec::from_slice(alloc, &self.numbers)?;
        let ends = Vec::from_slice(alloc, &self.ends)?;
        Ok(Ends { numbers, ends })
    }

    /// Makes room for so many states.
    pub fn make_room(&mut self, states: usize) -> Result<(), Memory>
        ensures ends { (words : List (List ℕ)) → HasEnds words self.old → HasEnds words self.new }
        ensures numbers { (state : ℕ)
            → get_or self.new.numbers.items state 0 ≡ get_or self.old.numbers.items state 0 }
        ensures room { OnOk result (states ≤ length self.new.numbers.items) }
        ensures end_room { OnOk result (states ≤ length self.new.ends.items) }
    {
        make_room(&mut self.numbers, states)?;
        make_room(&mut self.ends, states)
    }

    /// Adds a state, for which there is room, that keeps no number and has this link.
    pub fn add(&mut self, state: usize, link: u32)
        requires number_room { state < length self.old.numbers.items }
        requires end_room { state < length self.old.ends.items }
        requires link { link < length self.old.ends.items }
        ensures numbers { self.new.numbers.items ≡ set self.old.numbers.items state 0 }
        ensures ends { self.new.ends.items
            ≡ set self.old.ends.items state (get_or self.old.ends.items link 0) }
    {
        let end = self.ends[link as usize];
        self.numbers[state] = 0;
        self.ends[state] = end;
    }

    /// Gives a state a number, and these states an end.
    pub fn change(&mut self, state: u32, number: u32, states: &[u32], end: u32)
        requires state { state < length self.old.numbers.items }
        requires states { (i : ℕ) → i < length states.now
            → get_or states.now i 0 < length self.old.ends.items }
        ensures numbers { self.new.numbers.items ≡ set self.old.numbers.items state number }
        ensures count { length self.new.ends.items ≡ length self.old.ends.items }
        ensures moved { (state : ℕ) → IsAmong states.now state
            → get_or self.new.ends.items state 0 ≡ end }
        ensures others { (state : ℕ) → (IsAmong states.now state → ⊥)
            → get_or self.new.ends.items state 0 ≡ get_or self.old.ends.items state 0 }
    {
        self.numbers[state as usize] = number;
        set_ends(&mut self.ends, states, end);
    }

    /// Adds those of these states that keep a number.
    pub fn add_numbered(&self, states: &[u32], found: &mut Vec<u32>) -> Result<(), Memory>
        requires { All (λ state. state < length self.now.numbers.items) states.now }
        ensures { OnOk result (found.new.items
            ≡ found.old.items ++ filter (keeps self.now.numbers.items) states.now) }
    {
        for state in states {
            if self.numbers[*state as usize] > 0 {
                found.push(*state)?;
            }
        }
        Ok(())
    }
}

/// Gives these states an end.
fn set_ends(ends: &mut [u32], states: &[u32], end: u32)
    requires { (i : ℕ) → i < length states.now → get_or states.now i 0 < length ends.old }
    ensures count { length ends.new ≡ length ends.old }
    ensures set { (state : ℕ) → IsAmong states.now state → get_or ends.new state 0 ≡ end }
    ensures others { (state : ℕ) → (IsAmong states.now state → ⊥)
        → get_or ends.new state 0 ≡ get_or ends.old state 0 }
{
    for state in states {
        ends[*state as usize] = end;
    }
}
