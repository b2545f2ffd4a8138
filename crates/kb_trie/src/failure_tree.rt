//! The tree of failure links.

ghost use Rattle.std.specs.Prelude.{◌≡◌, ℕ, ◌+◌, ◌<◌, ◌≤◌, IfOk, OnOk, [], ◌∷◌, length, get_or, set};
ghost use Rattle.kb_trie.specs.FailureTrees.{IsFailureTree};
ghost use Rattle.kb_trie.specs.Walks.{IsAmong};

use crate::room::make_room;
use kb_word::Memory;
use std::alloc::Global;

/// The link of a state that stands in no list.
const UNLINKED: u32 = u32::MAX;

/// The failure link of each state, and for each state the list of the states that it is the link of, latest first.
/// State 0 stands in no list, so that 0 says that there is none.
#[derive(Debug, Drop)]
pub struct FailureTree {
    /// How many states there are. The lists may have room for more.
    pub count: usize,
    pub links: Vec<u32>,
    /// For each state the first of its list.
    pub firsts: Vec<u32>,
    /// For each state the one after it in the list in which it stands.
    pub nexts: Vec<u32>,
    /// For each state the one before it there.
    pub previous: Vec<u32>,
}

impl FailureTree {
    /// The tree of state 0 alone.
    pub fn root(alloc: Global) -> Result<FailureTree, Memory>
        ensures count { IfOk result (λ tree. tree.count ≡ 1) }
        ensures link { IfOk result (λ tree. get_or tree.links.items 0 0 ≡ 0) }
        ensures tree { IfOk result IsFailureTree }
    {
        let links = vec![in alloc; 0; 1]?;
        let firsts = vec![in alloc; 0; 1]?;
        let nexts = vec![in alloc; 0; 1]?;
        let previous = vec![in alloc; 0; 1]?;
        Ok(FailureTree {
            count: 1,
            links,
            firsts,
            nexts,
            previous,
        })
    }

    /// The same tree.
    pub fn copy(&self, alloc: Global) -> Result<FailureTree, Memory>
        ensures count { IfOk result (λ tree. tree.count ≡ self.now.count) }
        ensures links { IfOk result (λ tree. tree.links.items ≡ self.now.links.items) }
        ensures firsts { IfOk result (λ tree. tree.firsts.items ≡ self.now.firsts.items) }
        ensures nexts { IfOk result (λ tree. tree.nexts.items ≡ self.now.nexts.items) }
        ensures previous { IfOk result (λ tree. tree.previous.items ≡ self.now.previous.items) }
    {
        let links = Vec::from_slice(alloc, &self.links)?;
        let firsts = Vec::from_slice(alloc, &self.firsts)?;
        let nexts = Vec::from_slice(alloc, &self.nexts)?;
        let previous = Vec::from_slice(alloc, &self.previous)?;
        Ok(FailureTree {
            count: self.count,
            links,
            firsts,
            nexts,
            previous,
        })
    }

    /// Makes room for one state more.
    pub fn make_room(&mut self) -> Result<(), Memory>
        requires count { self.old.count < 4294967295 }
        requires tree { IsFailureTree self.old }
        ensures count { self.new.count ≡ self.old.count }
        ensures links { (state : ℕ)
            → get_or self.new.links.items state 0 ≡ get_or self.old.links.items state 0 }
        ensures tree { IsFailureTree self.new }
        ensures link_room { OnOk result (self.new.count < length self.new.links.items) }
        ensures first_room { OnOk result (self.new.count < length self.new.firsts.items) }
        ensures next_room { OnOk result (self.new.count < length self.new.nexts.items) }
        ensures previous_room { OnOk result (self.new.count < length self.new.previous.items) }
    {
        let wanted = self.count + 1;
        make_room(&mut self.links, wanted)?;
        make_room(&mut self.firsts, wanted)?;
        make_room(&mut self.nexts, wanted)?;
        make_room(&mut self.previous, wanted)
    }

    /// Adds a state, for which there is room, with its link.
    pub fn add(&mut self, link: u32)
        requires count { self.old.count < 4294967295 }
        requires link_room { self.old.count < length self.old.links.items }
        requires first_room { self.old.count < length self.old.firsts.items }
        requires next_room { self.old.count < length self.old.nexts.items }
        requires previous_room { self.old.count < length self.old.previous.items }
        requires tree { IsFailureTree self.old }
        requires within { (state : ℕ) → state < self.old.count
            → get_or self.old.links.items state 0 < self.old.count }
        requires link { link < self.old.count }
        ensures count { self.new.count ≡ self.old.count + 1 }
        ensures links { self.new.links.items ≡ set self.old.links.items self.old.count link }
        ensures first { get_or self.new.firsts.items self.old.count 0 ≡ 0 }
        ensures tree { IsFailureTree self.new }
    {
        let state = self.count;
        self.links[state] = UNLINKED;
        self.firsts[state] = 0;
        self.count = state + 1;
        self.put_first(state, link);
    }

    /// Gives states, which ascend, another link, which has none yet.
    pub fn relink(&mut self, states: &[u32], link: u32)
        requires count { self.old.count ≤ 4294967295 }
        requires tree { IsFailureTree self.old }
        requires within { (state : ℕ) → state < self.old.count
            → get_or self.old.links.items state 0 < self.old.count }
        requires link { link < self.old.count }
        requires none { get_or self.old.firsts.items link 0 ≡ 0 }
        requires states { (i : ℕ) → i < length states.now
            → (0 < get_or states.now i 0) × (get_or states.now i 0 < self.old.count) }
        requires ascend { (i j : ℕ) → i ≤ j → j < length states.now
            → get_or states.now i 0 ≤ get_or states.now j 0 }
        ensures count { self.new.count ≡ self.old.count }
        ensures moved { (state : ℕ) → IsAmong states.now state
            → get_or self.new.links.items state 0 ≡ link }
        ensures others { (state : ℕ) → ¬ IsAmong states.now state
            → get_or self.new.links.items state 0 ≡ get_or self.old.links.items state 0 }
        ensures tree { IsFailureTree self.new }
    {
        for state in states {
            self.move_to(*state as usize, link);
        }
    }

    /// Gives a state a link whose states are none later.
    fn move_to(&mut self, state: usize, link: u32)
        requires count { self.old.count ≤ 4294967295 }
        requires tree { IsFailureTree self.old }
        requires some { 0 < state }
        requires state { state < self.old.count }
        requires linked { get_or self.old.links.items state 0 < self.old.count }
        requires link { link < self.old.count }
        requires later { get_or self.old.firsts.items link 0 ≤ state }
        ensures count { self.new.count ≡ self.old.count }
        ensures links { self.new.links.items ≡ set self.old.links.items state link }
        ensures first { get_or self.new.firsts.items link 0 ≤ state }
        ensures tree { IsFailureTree self.new }
    {
        if self.links[state] == link {
            return;
        }
        self.take_out(state);
        self.put_first(state, link);
    }

    /// Takes a state out of its list.
    fn take_out(&mut self, state: usize)
        requires count { self.old.count ≤ 4294967295 }
        requires tree { IsFailureTree self.old }
        requires some { 0 < state }
        requires state { state < self.old.count }
        requires linked { get_or self.old.links.items state 0 < self.old.count }
        ensures count { self.new.count ≡ self.old.count }
        ensures links { self.new.links.items ≡ set self.old.links.items state 4294967295 }
        ensures firsts { (link : ℕ) → (get_or self.old.links.items state 0 ≡ link → ⊥)
            → get_or self.new.firsts.items link 0 ≡ get_or self.old.firsts.items link 0 }
        ensures tree { IsFailureTree self.new }
    {
        let link = self.links[state] as usize;
        let next = self.nexts[state];
        let previous = self.previous[state];
        let first = self.firsts[link];
        let head = if first as usize == state { next } else { first };
        self.firsts[link] = head;
        // What is written at state 0 is of no use.
        self.nexts[previous as usize] = next;
        self.previous[next as usize] = previous;
        self.links[state] = UNLINKED;
    }

    /// Puts a state, which stands in no list, at the head of the list of a link whose states are all earlier.
    fn put_first(&mut self, state: usize, link: u32)
        requires tree { IsFailureTree self.old }
        requires some { 0 < state }
        requires state { state < self.old.count }
        requires unlinked { self.old.count ≤ get_or self.old.links.items state 0 }
        requires few { self.old.count ≤ 4294967295 }
        requires link { link < self.old.count }
        requires later { get_or self.old.firsts.items link 0 < state }
        ensures count { self.new.count ≡ self.old.count }
        ensures links { self.new.links.items ≡ set self.old.links.items state link }
        ensures firsts { self.new.firsts.items ≡ set self.old.firsts.items link state }
        ensures tree { IsFailureTree self.new }
    {
        let first = self.firsts[link as usize];
        self.firsts[link as usize] = state as u32;
        self.nexts[state] = first;
        self.previous[state] = 0;
        self.previous[first as usize] = state as u32;
        self.links[state] = link;
    }
}
