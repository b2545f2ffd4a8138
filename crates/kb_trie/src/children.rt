//! The children of the states.

ghost use Rattle.std.specs.Prelude.{◌≡◌, ℕ, List, ◌<◌, ◌≤◌, ◌^◌, [], ◌∷◌, IfOk, OnOk, length, get_or, set};
ghost use Rattle.kb_trie.specs.Children.{HasChildren};

use crate::room::make_room;
use kb_word::Memory;
use std::alloc::Global;

/// For each state its last child, and the child of its parent that was made before it, or 0: the list of its children,
/// latest first. A child never moves. There may be room for more.
#[derive(Debug, Drop)]
pub struct Children {
    pub lasts: Vec<u32>,
    pub earlier: Vec<u32>,
}

impl Children {
    /// Those of state 0 alone, which has none.
    pub fn root(alloc: Global) -> Result<Children, Memory>
        ensures { IfOk result (HasChildren ([] ∷ [])) }
    {
        let lasts = vec![in alloc; 0; 1]?;
        let earlier = vec![in alloc; 0; 1]?;
        Ok(Children { lasts, earlier })
    }

    /// The same children.
    pub fn copy(&self, alloc: Global) -> Result<Children, Memory>
        ensures lasts { IfOk result (λ children. children.lasts.items ≡ self.now.lasts.items) }
        ensures earlier { IfOk result (λ children. children.earlier.items ≡ self.now.earlier.items) }
    {
        let lasts = Vec::from_slice(alloc, &self.lasts)?;
        let earlier = Vec::from_slice(alloc, &self.earlier)?;
        Ok(Children { lasts, earlier })
    }

    /// Makes room for so many states.
    pub fn make_room(&mut self, states: usize) -> Result<(), Memory>
        ensures children { (words : List (List ℕ)) → HasChildren words self.old
            → HasChildren words self.new }
        ensures last_room { OnOk result (states ≤ length self.new.lasts.items) }
        ensures earlier_room { OnOk result (states ≤ length self.new.earlier.items) }
    {
        make_room(&mut self.lasts, states)?;
        make_room(&mut self.earlier, states)
    }

    /// Adds a state, for which there is room, as the last child of its parent.
    pub fn add(&mut self, state: u32, parent: u32)
        requires last_room { state < length self.old.lasts.items }
        requires earlier_room { state < length self.old.earlier.items }
        requires parent { parent < state }
        ensures lasts { self.new.lasts.items ≡ set (set self.old.lasts.items state 0) parent state }
        ensures earlier { self.new.earlier.items
            ≡ set self.old.earlier.items state (get_or self.old.lasts.items parent 0) }
    {
        let before = self.lasts[parent as usize];
        self.earlier[state as usize] = before;
        self.lasts[state as usize] = 0;
        self.lasts[parent as usize] = state;
    }
}
