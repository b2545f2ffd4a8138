//! The states to which letters lead from a state, as far as their words are long.

ghost use Rattle.std.specs.Prelude.{◌≡◌, ◌<◌, ◌↔◌, IsTrue, OnOk, length};
ghost use Rattle.kb_trie.specs.Steps.{IsStepBeyond};
ghost use Rattle.kb_trie.specs.Adding.{Adds, IsThis};
ghost use Rattle.kb_trie.specs.Children.{IsLed, IsTrieChild, LeadsToChild};
ghost use Rattle.kb_trie.specs.Tries.{IsAutomaton, words_in};

use crate::automaton::Automaton;
use kb_word::Memory;

impl Automaton {
    /// Adds the states to which a letter leads from a state, if their words are longer than `beyond`. Each of them is a
    /// child of the state, or of one along its failure links, whose word is at least `beyond` long.
    pub fn add_steps_beyond(
        &self,
        state: u32,
        beyond: u32,
        found: &mut Vec<u32>,
    ) -> Result<(), Memory>
        requires automaton { IsAutomaton self.now }
        requires state { state < length (words_in self.now) }
        ensures { OnOk result (Adds (IsStepBeyond (words_in self.now) state beyond)
            found.old.items found.new.items) }
    {
        let mut at = state;
        while at > 0 {
            if self.depth(at) < beyond {
                return Ok(());
            }
            self.add_children(state, at, found)?;
            at = self.link(at);
        }
        // State 0 is the last one along the links.
        if beyond > 0 {
            return Ok(());
        }
        self.add_children(state, 0, found)?;
        Ok(())
    }

    /// Adds the children of a state to which a letter leads from the other state.
    fn add_children(&self, state: u32, parent: u32, found: &mut Vec<u32>) -> Result<(), Memory>
        requires automaton { IsAutomaton self.now }
        requires state { state < length (words_in self.now) }
        requires parent { parent < length (words_in self.now) }
        ensures { OnOk result (Adds (LeadsToChild (words_in self.now) state parent)
            found.old.items found.new.items) }
    {
        let mut child = self.children.lasts[parent as usize];
        while child > 0 {
            self.add_child(state, parent, child, found)?;
            child = self.children.earlier[child as usize];
        }
        Ok(())
    }

    /// Adds a child of a state, if a letter leads to it from the other state.
    fn add_child(
        &self,
        state: u32,
        parent: u32,
        child: u32,
        found: &mut Vec<u32>,
    ) -> Result<(), Memory>
        requires automaton { IsAutomaton self.now }
        requires state { state < length (words_in self.now) }
        requires child { IsTrieChild (words_in self.now) parent child }
        ensures { OnOk result (Adds (IsThis child (LeadsToChild (words_in self.now) state parent))
            found.old.items found.new.items) }
    {
        if self.leads(state, child) {
            found.push(child)?;
        }
        Ok(())
    }

    /// Whether a letter leads from the state to the other one, which isn't state 0.
    fn leads(&self, state: u32, after: u32) -> bool
        requires automaton { IsAutomaton self.now }
        requires state { state < length (words_in self.now) }
        requires after { after < length (words_in self.now) }
        requires some { 0 < after }
        ensures { IsTrue result ↔ IsLed (words_in self.now) state after }
    {
        let letter = self.edges[after as usize - 1].letter;
        self.step(state, letter) == after
    }
}
