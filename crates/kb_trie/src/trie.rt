//! The trie, whose automaton is kept up to date.

ghost use Rattle.std.specs.Prelude.{◌≡◌, ◌<◌, ◌^◌, [], ◌∷◌, ◌++◌, IfOk, IfNone, IfSome, OnErr, OnOk, length, get_or, set};
ghost use Rattle.kb_trie.specs.States.{AreWords, Grows, HasWord, IsChild, IsNoChild, word};
ghost use Rattle.kb_trie.specs.Steps.{IsLink, IsStep, IsStepBeyond};
ghost use Rattle.kb_trie.specs.Adding.{Adds, AddsAscending};
ghost use Rattle.kb_trie.specs.Ends.{IsEnd};
ghost use Rattle.kb_trie.specs.Factors.{IsNumberedOver};

use crate::automaton::Automaton;
use kb_word::{Memory, Word};
use std::alloc::Global;
use std::marker::Model;

/// The automaton of a set of words. A state stands for a word that begins one of them, state 0 for the empty word.
#[derive(Drop)]
pub struct Trie {
    automaton: Automaton,
}

impl Model for Trie {
    ghost use Rattle.kb_trie.specs.States.{States};

    ghost Value = { States };

    ghost use Rattle.kb_trie.specs.Tries.{IsAutomaton, states_of};

    ghost view = { λ trie. states_of trie.automaton };

    ghost invariant = { λ trie. IsAutomaton trie.automaton };
}

impl Trie {
    /// The trie of the empty word alone. Most letters are at most this one: a step by one of those is one look
    /// into a table, as long as that isn't too large.
    pub fn new(alloc: Global, letters: u16) -> Result<Trie, Memory>
        ensures words { IfOk result (λ trie. trie.words ≡ [] ∷ []) }
        ensures numbers { IfOk result (λ trie. trie.numbers ≡ 0 ∷ []) }
    {
        let automaton = Automaton::root(alloc, letters)?;
        Ok(Trie { automaton })
    }

    /// The same trie.
    pub fn copy(&self, alloc: Global) -> Result<Trie, Memory>
        ensures { IfOk result (λ trie. trie ≡ self.now) }
    {
        let automaton = self.automaton.copy(alloc)?;
        Ok(Trie { automaton })
    }

    /// How many states there are. They are numbered from 0 on.
    pub fn count(&self) -> usize
        ensures count { result ≡ length self.now.words }
        ensures words { AreWords self.now.words }
        ensures numbers { length self.now.numbers ≡ length self.now.words }
        ensures few { result < 2 ^ 32 }
    {
        self.automaton.count()
    }

    /// The state of a state's word with the letter more.
    pub fn child(&self, state: u32, letter: u16) -> Option<u32>
        requires { state < length self.now.words }
        ensures some { IfSome result (IsChild self.now.words state letter) }
        ensures none { IfNone result (IsNoChild self.now.words state letter) }
    {
        self.automaton.child(state, letter)
    }

    /// The state after a letter more: that of the longest suffix, of the state's word with the letter more, that is a
    /// state's word.
    pub fn step(&self, state: u32, letter: u16) -> u32
        requires { state < length self.now.words }
        ensures { IsStep self.now.words state letter result }
    {
        self.automaton.step(state, letter)
    }

    /// The failure link of a state: the state of the longest proper suffix of its word that is a state's word,
    /// or state 0.
    pub fn link(&self, state: u32) -> u32
        requires { state < length self.now.words }
        ensures { IsLink self.now.words state result }
    {
        self.automaton.link(state)
    }

    /// The length of a state's word.
    pub fn depth(&self, state: u32) -> u32
        requires { state < length self.now.words }
        ensures { result ≡ length (word self.now.words state) }
    {
        self.automaton.depth(state)
    }

    /// The number that a state keeps, or 0.
    pub fn number_at(&self, state: u32) -> u32
        requires { state < length self.now.words }
        ensures { result ≡ get_or self.now.numbers state 0 }
    {
        self.automaton.number_at(state)
    }

    /// The end of a state: the state of the longest suffix of its word, the word itself among them, that keeps
    /// a number, or state 0 where there is none.
    pub fn end_at(&self, state: u32) -> u32
        requires { state < length self.now.words }
        ensures { IsEnd self.now.words self.now.numbers state result }
    {
        self.automaton.end_at(state)
    }

    /// Adds to a list the states to which a letter leads from a state, if their words are longer than `beyond`,
    /// in any order. After want of memory some of them may be there.
    pub fn add_steps_beyond(
        &self,
        state: u32,
        beyond: u32,
        found: &mut Vec<u32>,
    ) -> Result<(), Memory>
        requires { state < length self.now.words }
        ensures { OnOk result (Adds (IsStepBeyond self.now.words state beyond)
            found.old.items found.new.items) }
    {
        self.automaton.add_steps_beyond(state, beyond, found)
    }

    /// Adds to a list, ascending, the states that keep a number and whose words have a state's word as a
    /// factor: the state itself among them, if it keeps one. After want of memory some of them may be there.
    pub fn add_longer(&self, state: u32, found: &mut Vec<u32>) -> Result<(), Memory>
        requires { state < length self.now.words }
        ensures { OnOk result (AddsAscending (IsNumberedOver self.now.words self.now.numbers state)
            found.old.items found.new.items) }
    {
        self.automaton.add_longer(state, found)
    }

    /// Lets a state keep a number that keeps none.
    pub fn set(&mut self, state: u32, number: u32) -> Result<(), Memory>
        requires state { state < length self.old.words }
        requires none { get_or self.old.numbers state 0 ≡ 0 }
        requires some { 0 < number }
        ensures words { self.new.words ≡ self.old.words }
        ensures ok { OnOk result (self.new.numbers ≡ set self.old.numbers state number) }
        ensures err { OnErr result (self.new.numbers ≡ self.old.numbers) }
    {
        self.automaton.set(state, number)
    }

    /// Takes the number from a state, if it keeps one.
    pub fn clear(&mut self, state: u32) -> Result<(), Memory>
        requires { state < length self.old.words }
        ensures words { self.new.words ≡ self.old.words }
        ensures ok { OnOk result (self.new.numbers ≡ set self.old.numbers state 0) }
        ensures err { OnErr result (self.new.numbers ≡ self.old.numbers) }
    {
        self.automaton.clear(state)
    }

    /// Gives a state that keeps a number another one.
    pub fn renumber(&mut self, state: u32, number: u32)
        requires state { state < length self.old.words }
        requires old { 0 < get_or self.old.numbers state 0 }
        requires some { 0 < number }
        ensures words { self.new.words ≡ self.old.words }
        ensures numbers { self.new.numbers ≡ set self.old.numbers state number }
    {
        self.automaton.renumber(state, number);
    }

    /// Adds the state of a state's word with a letter more, which has no state yet.
    pub fn add(&mut self, state: u32, letter: u16) -> Result<u32, Memory>
        requires state { state < length self.old.words }
        requires none { IsNoChild self.old.words state letter }
        ensures words { OnOk result (self.new.words
            ≡ self.old.words ++ (word self.old.words state ++ letter ∷ []) ∷ []) }
        ensures numbers { OnOk result (self.new.numbers ≡ self.old.numbers ++ 0 ∷ []) }
        ensures state { IfOk result (λ next. next ≡ length self.old.words) }
        ensures err { OnErr result (self.new ≡ self.old) }
    {
        self.automaton.add(state, letter)
    }

    /// The state of a word, which is made where it isn't there, with those of the word's first letters. After
    /// want of memory some of these may have been made.
    pub fn insert(&mut self, w: &Word) -> Result<u32, Memory>
        ensures word { IfOk result (HasWord self.new.words w.now) }
        ensures grows { Grows w.now self.old self.new }
        ensures words { AreWords self.new.words }
    {
        self.automaton.insert(w)
    }
}
