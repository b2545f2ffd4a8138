//! The states whose words have a state's word as a factor.

ghost use Rattle.std.specs.Prelude.{◌≡◌, ◌<◌, ◌≤◌, OnOk, length};
ghost use Rattle.std.specs.List.{All};
ghost use Rattle.kb_trie.specs.Adding.{Adds, AddsAscending};
ghost use Rattle.kb_trie.specs.Children.{AreBelow, IsChildOfOne, IsTrieChild};
ghost use Rattle.kb_trie.specs.Factors.{IsNumberedOver};
ghost use Rattle.kb_trie.specs.Tries.{IsAutomaton, numbers_in, words_in};

use crate::automaton::Automaton;
use crate::walk::Walk;
use kb_word::Memory;

impl Automaton {
    /// Adds, ascending, the states that keep a number and whose words have a state's word as a factor: they are below
    /// those whose words end with it.
    pub fn add_longer(&self, state: u32, found: &mut Vec<u32>) -> Result<(), Memory>
        requires automaton { IsAutomaton self.now }
        requires state { state < length (words_in self.now) }
        ensures { OnOk result (AddsAscending
            (IsNumberedOver (words_in self.now) (numbers_in self.now) state)
            found.old.items found.new.items) }
    {
        let mut walk = Walk::none(*found.allocator());
        walk.find_all(&self.edges, &self.steps.tree, &self.ends.numbers, state)?;
        self.add_below(&mut walk.free)?;
        walk.free.sort_unstable();
        walk.free.dedup();
        self.ends.add_numbered(&walk.free, found)
    }

    /// Adds to states all that are below them in the trie. One may come more than once.
    fn add_below(&self, states: &mut Vec<u32>) -> Result<(), Memory>
        requires automaton { IsAutomaton self.now }
        requires states { All (λ state. state < length (words_in self.now)) states.old.items }
        ensures { OnOk result (AreBelow (words_in self.now) states.old.items states.new.items) }
    {
        let mut start = 0;
        // At each level the words are longer, and no word is as long as there are states.
        for level in 0..self.count() {
            let end = states.len();
            if start == end {
                return Ok(());
            }
            self.add_level(start, end, states)?;
            start = end;
        }
        Ok(())
    }

    /// Adds the children of the states at the places from the first one up to the last.
    fn add_level(&self, start: usize, end: usize, states: &mut Vec<u32>) -> Result<(), Memory>
        requires automaton { IsAutomaton self.now }
        requires start { start ≤ end }
        requires end { end ≤ length states.old.items }
        requires states { All (λ state. state < length (words_in self.now)) states.old.items }
        ensures { OnOk result (Adds (IsChildOfOne (words_in self.now) states.old.items start end)
            states.old.items states.new.items) }
    {
        for place in start..end {
            let parent = states[place];
            self.add_all_children(parent, states)?;
        }
        Ok(())
    }

    /// Adds the children of a state.
    fn add_all_children(&self, parent: u32, states: &mut Vec<u32>) -> Result<(), Memory>
        requires automaton { IsAutomaton self.now }
        requires parent { parent < length (words_in self.now) }
        ensures { OnOk result (Adds (IsTrieChild (words_in self.now) parent)
            states.old.items states.new.items) }
    {
        let mut child = self.children.lasts[parent as usize];
        while child > 0 {
            states.push(child)?;
            child = self.children.earlier[child as usize];
        }
        Ok(())
    }
}
