//! The automaton: its edges and steps, and how a state is added.

ghost use Rattle.std.specs.Prelude.{◌≡◌, ℕ, ◌<◌, ◌≤◌, ◌+◌, ◌^◌, [], ◌∷◌, ◌++◌, IfOk, OnOk, OnErr, IfSome, IfNone, length, get_or, set};
ghost use Rattle.kb_trie.specs.States.{Grows, HasWord, IsChild, IsNoChild, word};
ghost use Rattle.kb_trie.specs.Steps.{IsLink, IsStep};
ghost use Rattle.kb_trie.specs.Ends.{IsEnd};
ghost use Rattle.kb_trie.specs.Tries.{IsAutomaton, numbers_in, states_of, words_in};

use crate::child::child;
use crate::children::Children;
use crate::edge::Edge;
use crate::ends::Ends;
use crate::steps::Steps;
use crate::walk::Walk;
use indexmap::IndexSet;
use kb_word::{Memory, Word};
use std::alloc::Global;

/// The automaton of a trie.
#[derive(Drop)]
pub struct Automaton {
    pub edges: IndexSet<Edge>,
    pub steps: Steps,
    pub ends: Ends,
    pub children: Children,
    /// What the last walk found.
    pub walk: Walk,
}

impl Automaton {
    /// The automaton of the empty word alone, with a table for letters up to this one.
    pub fn root(alloc: Global, letters: u16) -> Result<Automaton, Memory>
        ensures words { IfOk result (λ automaton. words_in automaton ≡ [] ∷ []) }
        ensures numbers { IfOk result (λ automaton. numbers_in automaton ≡ 0 ∷ []) }
        ensures automaton { IfOk result IsAutomaton }
    {
        let steps = Steps::root(alloc, letters)?;
        let ends = Ends::root(alloc)?;
        let children = Children::root(alloc)?;
        Ok(Automaton {
            edges: IndexSet::new(alloc),
            steps,
            ends,
            children,
            walk: Walk::none(alloc),
        })
    }

    /// The same automaton.
    pub fn copy(&self, alloc: Global) -> Result<Automaton, Memory>
        requires { IsAutomaton self.now }
        ensures automaton { IfOk result IsAutomaton }
        ensures states { IfOk result (λ automaton. states_of automaton ≡ states_of self.now) }
    {
        // The set is cloned by its own allocator, and there is only this one.
        let edges = self.edges.clone()?;
        let steps = self.steps.copy(alloc)?;
        let ends = self.ends.copy(alloc)?;
        let children = self.children.copy(alloc)?;
        Ok(Automaton {
            edges,
            steps,
            ends,
            children,
            walk: Walk::none(alloc),
        })
    }

    /// How many states there are.
    pub fn count(&self) -> usize
        requires { IsAutomaton self.now }
        ensures count { result ≡ length (words_in self.now) }
        ensures numbers { length (numbers_in self.now) ≡ length (words_in self.now) }
    {
        self.edges.len() + 1
    }

    /// The state to which the letter leads from a state.
    pub fn child(&self, state: u32, letter: u16) -> Option<u32>
        requires automaton { IsAutomaton self.now }
        requires state { state < length (words_in self.now) }
        ensures some { IfSome result (IsChild (words_in self.now) state letter) }
        ensures none { IfNone result (IsNoChild (words_in self.now) state letter) }
    {
        child(&self.edges, state, letter)
    }

    /// The state after a letter more.
    pub fn step(&self, state: u32, letter: u16) -> u32
        requires automaton { IsAutomaton self.now }
        requires state { state < length (words_in self.now) }
        ensures { IsStep (words_in self.now) state letter result }
    {
        self.steps.step(&self.edges, state, letter)
    }

    /// The failure link of a state.
    pub fn link(&self, state: u32) -> u32
        requires automaton { IsAutomaton self.now }
        requires state { state < length (words_in self.now) }
        ensures { IsLink (words_in self.now) state result }
    {
        self.steps.tree.links[state as usize]
    }

    /// The length of a state's word.
    pub fn depth(&self, state: u32) -> u32
        requires automaton { IsAutomaton self.now }
        requires state { state < length (words_in self.now) }
        ensures { result ≡ length (word (words_in self.now) state) }
    {
        self.steps.depths[state as usize]
    }

    /// The number that a state keeps, or 0.
    pub fn number_at(&self, state: u32) -> u32
        requires automaton { IsAutomaton self.now }
        requires state { state < length (words_in self.now) }
        ensures { result ≡ get_or (numbers_in self.now) state 0 }
    {
        self.ends.numbers[state as usize]
    }

    /// The end of a state.
    pub fn end_at(&self, state: u32) -> u32
        requires automaton { IsAutomaton self.now }
        requires state { state < length (words_in self.now) }
        ensures { IsEnd (words_in self.now) (numbers_in self.now) state result }
    {
        self.ends.ends[state as usize]
    }

    /// Lets a state keep a number that keeps none.
    pub fn set(&mut self, state: u32, number: u32) -> Result<(), Memory>
        requires automaton { IsAutomaton self.old }
        requires state { state < length (words_in self.old) }
        requires none { get_or (numbers_in self.old) state 0 ≡ 0 }
        requires some { 0 < number }
        ensures automaton { IsAutomaton self.new }
        ensures words { words_in self.new ≡ words_in self.old }
        ensures ok { OnOk result (numbers_in self.new ≡ set (numbers_in self.old) state number) }
        ensures err { OnErr result (numbers_in self.new ≡ numbers_in self.old) }
    {
        self.walk
            .find_free(&self.edges, &self.steps.tree, &self.ends.numbers, state)?;
        self.ends.change(state, number, &self.walk.free, state);
        Ok(())
    }

    /// Takes the number from a state, if it keeps one.
    pub fn clear(&mut self, state: u32) -> Result<(), Memory>
        requires automaton { IsAutomaton self.old }
        requires state { state < length (words_in self.old) }
        ensures automaton { IsAutomaton self.new }
        ensures words { words_in self.new ≡ words_in self.old }
        ensures ok { OnOk result (numbers_in self.new ≡ set (numbers_in self.old) state 0) }
        ensures err { OnErr result (numbers_in self.new ≡ numbers_in self.old) }
    {
        let link = self.steps.tree.links[state as usize];
        let end = self.ends.ends[link as usize];
        self.walk
            .find_free(&self.edges, &self.steps.tree, &self.ends.numbers, state)?;
        self.ends.change(state, 0, &self.walk.free, end);
        Ok(())
    }

    /// Gives a state that keeps a number another one.
    pub fn renumber(&mut self, state: u32, number: u32)
        requires automaton { IsAutomaton self.old }
        requires state { state < length (words_in self.old) }
        requires old { 0 < get_or (numbers_in self.old) state 0 }
        requires some { 0 < number }
        ensures automaton { IsAutomaton self.new }
        ensures words { words_in self.new ≡ words_in self.old }
        ensures numbers { numbers_in self.new ≡ set (numbers_in self.old) state number }
    {
        self.ends.numbers[state as usize] = number;
    }

    /// Adds the state of a state's word with a letter more.
    pub fn add(&mut self, state: u32, letter: u16) -> Result<u32, Memory>
        requires automaton { IsAutomaton self.old }
        requires state { state < length (words_in self.old) }
        requires none { IsNoChild (words_in self.old) state letter }
        ensures automaton { IsAutomaton self.new }
        ensures words { OnOk result (words_in self.new
            ≡ words_in self.old ++ (word (words_in self.old) state ++ letter ∷ []) ∷ []) }
        ensures state { IfOk result (λ next. next ≡ length (words_in self.old)) }
        ensures numbers { OnOk result (numbers_in self.new ≡ numbers_in self.old ++ 0 ∷ []) }
        ensures err { OnErr result (states_of self.new ≡ states_of self.old) }
    {
        let after = self.step(state, letter);
        self.steps.make_room()?;
        self.ends.make_room(self.steps.tree.count + 1)?;
        self.children.make_room(self.steps.tree.count + 1)?;
        self.walk.find_children(
            &self.edges,
            &self.steps.tree,
            &self.ends.numbers,
            state,
            letter,
        )?;
        self.edges.insert(Edge {
            parent: state,
            letter,
        })?;
        self.ends.add(self.steps.tree.count, after);
        self.children.add(self.steps.tree.count as u32, state);
        self.steps.connect(&self.walk, state, letter, after);
        Ok(self.edges.len() as u32)
    }

    /// The state of a word, which is made where it isn't there, with those of the word's first letters.
    pub fn insert(&mut self, w: &Word) -> Result<u32, Memory>
        requires { IsAutomaton self.old }
        ensures automaton { IsAutomaton self.new }
        ensures word { IfOk result (HasWord (words_in self.new) w.now) }
        ensures grows { Grows w.now (states_of self.old) (states_of self.new) }
    {
        let mut state = 0;
        for letter in w.letters() {
            state = self.go_to(state, letter.number())?;
        }
        Ok(state)
    }

    /// The state of a state's word with a letter more, which is made if it isn't there.
    fn go_to(&mut self, state: u32, letter: u16) -> Result<u32, Memory>
        requires automaton { IsAutomaton self.old }
        requires state { state < length (words_in self.old) }
        ensures automaton { IsAutomaton self.new }
        ensures word { IfOk result (HasWord (words_in self.new)
            (word (words_in self.old) state ++ letter ∷ [])) }
        ensures grows { Grows (word (words_in self.old) state ++ letter ∷ [])
            (states_of self.old) (states_of self.new) }
    {
        if let Some(child) = self.child(state, letter) {
            return Ok(child);
        }
        let next = self.add(state, letter)?;
        Ok(next)
    }
}
