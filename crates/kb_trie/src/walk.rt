//! Walks down the failure tree.

ghost use Rattle.std.specs.Prelude.{◌≡◌, ℕ, ◌+◌, ◌<◌, ◌≤◌, ◌++◌, ◌∷◌, [], cond, IfSome, IfNone, OnOk, length, get_or, set};
ghost use Rattle.kb_trie.specs.States.{IsChild, IsNoChild, word};
ghost use Rattle.kb_trie.specs.Edges.{IsTree, words_of};
ghost use Rattle.kb_trie.specs.Steps.{AreLinks};
ghost use Rattle.kb_trie.specs.FailureTrees.{IsFailureTree};
ghost use Rattle.kb_trie.specs.Walks.{AreDeep, Gains, IsChildWalk, IsNumbered, IsWalk, IsWalking, Notes, NotesNothing};

use crate::child::child;
use crate::edge::Edge;
use crate::failure_tree::FailureTree;
use indexmap::IndexSet;
use kb_word::Memory;
use std::alloc::Global;

/// At which states a walk stops, and what it notes there: at those that have a child by the letter, the child,
/// or at those that keep a number and are not this state, themselves, or at none.
#[derive(Clone, Copy, Debug)]
pub enum Stop {
    Child(u16),
    Numbered(u32),
    Nowhere,
}

/// The states that a walk reached and left, and what it noted at those at which it stopped.
#[derive(Debug, Drop)]
pub struct Walk {
    pub free: Vec<u32>,
    pub stopped: Vec<u32>,
}

impl Walk {
    /// No states.
    pub fn none(alloc: Global) -> Walk {
        Walk {
            free: Vec::new(alloc),
            stopped: Vec::new(alloc),
        }
    }

    /// Walks down from a state that has no child by a letter, down to states that have one.
    pub fn find_children(
        &mut self,
        edges: &IndexSet<Edge>,
        tree: &FailureTree,
        numbers: &[u32],
        state: u32,
        letter: u16,
    ) -> Result<(), Memory>
        requires states { IsTree edges.now.keys }
        requires numbers { length (words_of edges.now.keys) ≤ length numbers.now }
        requires links { AreLinks (words_of edges.now.keys) tree.now.links.items }
        requires tree { IsFailureTree tree.now }
        requires count { tree.now.count ≡ length (words_of edges.now.keys) }
        requires state { state < tree.now.count }
        requires none { IsNoChild (words_of edges.now.keys) state letter }
        ensures { OnOk result (IsChildWalk (words_of edges.now.keys) tree.now.links.items state letter
            self.new.free.items self.new.stopped.items) }
    {
        self.go(edges, tree, numbers, state, Stop::Child(letter))?;
        self.stopped.sort_unstable();
        Ok(())
    }

    /// Walks down from a state, down to other states that keep a number.
    pub fn find_free(
        &mut self,
        edges: &IndexSet<Edge>,
        tree: &FailureTree,
        numbers: &[u32],
        state: u32,
    ) -> Result<(), Memory>
        requires states { IsTree edges.now.keys }
        requires numbers { length (words_of edges.now.keys) ≤ length numbers.now }
        requires links { AreLinks (words_of edges.now.keys) tree.now.links.items }
        requires tree { IsFailureTree tree.now }
        requires count { tree.now.count ≡ length (words_of edges.now.keys) }
        requires state { state < tree.now.count }
        ensures { OnOk result (IsWalk (words_of edges.now.keys) tree.now.links.items
            (IsNumbered (set numbers.now state 0)) state self.new.free.items self.new.stopped.items) }
    {
        self.go(edges, tree, numbers, state, Stop::Numbered(state))
    }

    /// Walks down from a state to all below it.
    pub fn find_all(
        &mut self,
        edges: &IndexSet<Edge>,
        tree: &FailureTree,
        numbers: &[u32],
        state: u32,
    ) -> Result<(), Memory>
        requires states { IsTree edges.now.keys }
        requires numbers { length (words_of edges.now.keys) ≤ length numbers.now }
        requires links { AreLinks (words_of edges.now.keys) tree.now.links.items }
        requires tree { IsFailureTree tree.now }
        requires count { tree.now.count ≡ length (words_of edges.now.keys) }
        requires state { state < tree.now.count }
        ensures { OnOk result (IsWalk (words_of edges.now.keys) tree.now.links.items NotesNothing
            state self.new.free.items self.new.stopped.items) }
    {
        self.go(edges, tree, numbers, state, Stop::Nowhere)
    }

    /// Walks down from a state, at which it doesn't stop. What was held before is gone; where memory runs out it holds
    /// anything.
    fn go(
        &mut self,
        edges: &IndexSet<Edge>,
        tree: &FailureTree,
        numbers: &[u32],
        root: u32,
        stop: Stop,
    ) -> Result<(), Memory>
        requires states { IsTree edges.now.keys }
        requires numbers { length (words_of edges.now.keys) ≤ length numbers.now }
        requires links { AreLinks (words_of edges.now.keys) tree.now.links.items }
        requires tree { IsFailureTree tree.now }
        requires count { tree.now.count ≡ length (words_of edges.now.keys) }
        requires root { root < tree.now.count }
        requires free { (noted : ℕ) → ¬ Notes (words_of edges.now.keys) numbers.now stop root noted }
        ensures { OnOk result (IsWalk (words_of edges.now.keys) tree.now.links.items
            (Notes (words_of edges.now.keys) numbers.now stop) root self.new.free.items self.new.stopped.items) }
    {
        self.free.clear();
        self.stopped.clear();
        self.free.push(root)?;
        let mut start = 0;
        // At each level the words are longer, and no word is as long as there are states.
        for level in 0..tree.count {
            let end = self.free.len();
            if start == end {
                return Ok(());
            }
            self.go_down(edges, tree, numbers, root, start, end, stop)?;
            start = end;
        }
        Ok(())
    }

    /// Looks at the children, in the failure tree, of the states at the places from the first one up to the last.
    fn go_down(
        &mut self,
        edges: &IndexSet<Edge>,
        tree: &FailureTree,
        numbers: &[u32],
        root: u32,
        start: usize,
        end: usize,
        stop: Stop,
    ) -> Result<(), Memory>
        requires states { IsTree edges.now.keys }
        requires numbers { length (words_of edges.now.keys) ≤ length numbers.now }
        requires links { AreLinks (words_of edges.now.keys) tree.now.links.items }
        requires tree { IsFailureTree tree.now }
        requires count { tree.now.count ≡ length (words_of edges.now.keys) }
        requires start { start ≤ end }
        requires end { end ≡ length self.old.free.items }
        requires walking { IsWalking (words_of edges.now.keys) tree.now.links.items
            (Notes (words_of edges.now.keys) numbers.now stop) root start self.old.free.items
            self.old.stopped.items }
        ensures longer { OnOk result (end ≤ length self.new.free.items) }
        ensures walking { OnOk result (IsWalking (words_of edges.now.keys) tree.now.links.items
            (Notes (words_of edges.now.keys) numbers.now stop) root end self.new.free.items
            self.new.stopped.items) }
        ensures deeper { (level : ℕ)
            → AreDeep (words_of edges.now.keys) level start self.old.free.items
            → OnOk result (AreDeep (words_of edges.now.keys) (level + 1) end self.new.free.items) }
    {
        for place in start..end {
            let at = self.free[place];
            self.look(edges, tree, numbers, at, stop)?;
        }
        Ok(())
    }

    /// Looks at the children of a state in the failure tree.
    fn look(
        &mut self,
        edges: &IndexSet<Edge>,
        tree: &FailureTree,
        numbers: &[u32],
        at: u32,
        stop: Stop,
    ) -> Result<(), Memory>
        requires states { IsTree edges.now.keys }
        requires numbers { length (words_of edges.now.keys) ≤ length numbers.now }
        requires tree { IsFailureTree tree.now }
        requires count { tree.now.count ≡ length (words_of edges.now.keys) }
        requires at { at < tree.now.count }
        ensures { OnOk result (Gains tree.now.count tree.now.links.items
            (Notes (words_of edges.now.keys) numbers.now stop) at 0 self.old.free.items self.old.stopped.items
            self.new.free.items self.new.stopped.items) }
    {
        let mut state = tree.firsts[at as usize];
        while state > 0 {
            self.add(state, noted(edges, numbers, state, stop))?;
            state = tree.nexts[state as usize];
        }
        Ok(())
    }

    /// Adds a state at which nothing is noted, or what is noted.
    fn add(&mut self, state: u32, noted: Option<u32>) -> Result<(), Memory>
        ensures free { OnOk result (IfNone noted
            ((self.new.free.items ≡ self.old.free.items ++ state ∷ [])
            × (self.new.stopped.items ≡ self.old.stopped.items))) }
        ensures stopped { OnOk result (IfSome noted (λ number.
            (self.new.free.items ≡ self.old.free.items)
            × (self.new.stopped.items ≡ self.old.stopped.items ++ number ∷ []))) }
    {
        match noted {
            None => self.free.push(state)?,
            Some(number) => self.stopped.push(number)?,
        }
        Ok(())
    }
}

/// What a walk notes at a state, if it stops there.
fn noted(edges: &IndexSet<Edge>, numbers: &[u32], state: u32, stop: Stop) -> Option<u32>
    requires states { IsTree edges.now.keys }
    requires numbers { length (words_of edges.now.keys) ≤ length numbers.now }
    requires state { state < length (words_of edges.now.keys) }
    ensures some { IfSome result (Notes (words_of edges.now.keys) numbers.now stop state) }
    ensures none { IfNone result ((noted : ℕ) → ¬ Notes (words_of edges.now.keys) numbers.now stop state noted) }
{
    match stop {
        Stop::Child(letter) => child(edges, state, letter),
        Stop::Numbered(except) => numbered(numbers, state, except),
        Stop::Nowhere => None,
    }
}

/// The state, if it keeps a number and is another one than this.
fn numbered(numbers: &[u32], state: u32, except: u32) -> Option<u32>
    requires state { state < length numbers.now }
    ensures some { IfSome result (IsNumbered (set numbers.now except 0) state) }
    ensures none { IfNone result ((noted : ℕ) → ¬ IsNumbered (set numbers.now except 0) state noted) }
{
    if state == except || numbers[state as usize] == 0 {
        return None;
    }
    Some(state)
}
