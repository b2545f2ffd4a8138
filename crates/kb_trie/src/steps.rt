//! The steps of the automaton: the failure links, the table, and the lengths of the states' words.

ghost use Rattle.std.specs.Prelude.{◌≡◌, ℕ, List, ◌<◌, ◌≤◌, ◌+◌, ◌*◌, ◌^◌, [], ◌∷◌, ◌++◌, IfOk, OnOk, length, get_or};
ghost use Rattle.kb_trie.specs.States.{AreWords, IsNoChild, word};
ghost use Rattle.kb_trie.specs.Edges.{IsTree, words_of};
ghost use Rattle.kb_trie.specs.Steps.{IsStep};
ghost use Rattle.kb_trie.specs.Walks.{IsChildWalk};
ghost use Rattle.kb_trie.specs.Tries.{HasRoom, HasSteps};

use crate::child::step_by_links;
use crate::edge::Edge;
use crate::failure_tree::FailureTree;
use crate::room::make_room;
use crate::table::Table;
use crate::walk::Walk;
use indexmap::IndexSet;
use kb_word::Memory;
use std::alloc::Global;

/// What leads from state to state, but for the edges, and the lengths of the states' words.
#[derive(Debug, Drop)]
pub struct Steps {
    pub tree: FailureTree,
    pub table: Table,
    /// The lengths of the states' words. There may be room for more.
    pub depths: Vec<u32>,
}

impl Steps {
    /// Those of state 0 alone, with a table for letters up to this one.
    pub fn root(alloc: Global, letters: u16) -> Result<Steps, Memory>
        ensures { IfOk result (HasSteps ([] ∷ [])) }
    {
        let tree = FailureTree::root(alloc)?;
        let table = Table::root(alloc, letters)?;
        let depths = vec![in alloc; 0; 1]?;
        Ok(Steps {
            tree,
            table,
            depths,
        })
    }

    /// The same steps.
    pub fn copy(&self, alloc: Global) -> Result<Steps, Memory>
        ensures { (words : List (List ℕ)) → HasSteps words self.now
            → IfOk result (HasSteps words) }
    {
        let tree = self.tree.copy(alloc)?;
        let table = self.table.copy(alloc)?;
        let depths = Vec::from_slice(alloc, &self.depths)?;
        Ok(Steps {
            tree,
            table,
            depths,
        })
    }

    /// The state after a letter more: one look where the letter is below the width of the table, else by
    /// children and links.
    pub fn step(&self, edges: &IndexSet<Edge>, state: u32, letter: u16) -> u32
        requires states { IsTree edges.now.keys }
        requires steps { HasSteps (words_of edges.now.keys) self.now }
        requires state { state < length (words_of edges.now.keys) }
        ensures { IsStep (words_of edges.now.keys) state letter result }
    {
        match self.table.after(state, letter) {
            Some(after) => after,
            None => step_by_links(edges, &self.tree.links, state, letter),
        }
    }

    /// Makes room for one state more.
    pub fn make_room(&mut self) -> Result<(), Memory>
        requires { (words : List (List ℕ)) × HasSteps words self.old }
        ensures steps { (words : List (List ℕ)) → HasSteps words self.old → HasSteps words self.new }
        ensures room { OnOk result (HasRoom self.new) }
    {
        let states = self.tree.count;
        if states >= u32::MAX as usize {
            return Err(Memory);
        }
        self.table.make_room(states + 1)?;
        make_room(&mut self.depths, states + 1)?;
        self.tree.make_room()
    }

    /// Adds the state of a state's word with a letter more, which has no state yet, to which the walk from
    /// there found what leads. The step there was this one.
    pub fn connect(&mut self, walk: &Walk, state: u32, letter: u16, after: u32)
        requires room { HasRoom self.old }
        requires walked { (words : List (List ℕ)) × AreWords words × HasSteps words self.old
            × IsStep words state letter after × (state < length words)
            × IsChildWalk words self.old.tree.links.items state letter walk.now.free.items
            walk.now.stopped.items }
        ensures { (words : List (List ℕ)) → AreWords words → HasSteps words self.old
            → IsNoChild words state letter → state < length words → IsStep words state letter after
            → IsChildWalk words self.old.tree.links.items state letter walk.now.free.items
            walk.now.stopped.items
            → HasSteps (words ++ (word words state ++ letter ∷ []) ∷ []) self.new }
    {
        let next = self.tree.count as u32;
        self.tree.add(after);
        self.tree.relink(&walk.stopped, next);
        self.table.set_steps(&walk.free, letter, next);
        self.table.copy_row(after, next);
        self.depths[next as usize] = self.depths[state as usize] + 1;
    }
}
