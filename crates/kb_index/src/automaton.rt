//! The automaton of the left sides of a list of rules, which come and go.

ghost use Rattle.std.specs.Prelude.{◌≡◌, ℕ, ◌+◌, ◌<◌, ◌≤◌, ◌^◌, List, [], ◌∷◌, ◌++◌, IfOk, IfSome, OnErr, OnOk, Some, get_or, length};
ghost use Rattle.std.specs.List.{remove};
ghost use Rattle.kb_trie.specs.Adding.{Adds};
ghost use Rattle.kb_trie.specs.LeftSides.{IsLeastOf};
ghost use Rattle.kb_trie.specs.States.{AreWords, word};
ghost use Rattle.kb_trie.specs.Steps.{IsLink, IsStep, IsStepBeyond};
ghost use Rattle.kb_index.specs.Automata.{HaveLefts, IsAutomaton, Rise};
ghost use Rattle.kb_index.specs.Lefts.{AreStates, EndsAt, IsLongestLeft, StandsAt};

use kb_rules::Rule;
use kb_trie::Lookup;
use kb_word::{Memory, Word};
use std::alloc::Global;
use std::marker::Model;

/// The left sides of a list of rules, found where they end a text. A left side has a number of its own, which it keeps
/// while others come and go, and the numbers rise along the list.
#[derive(Drop)]
pub struct Automaton {
    lookup: Lookup,
    /// The numbers of the list's left sides.
    numbers: Vec<u32>,
    /// The lookup was made for the letters up to this one.
    letters: u16,
    /// No letter that came is greater.
    greatest: u16,
}

impl Model for Automaton {
    ghost use Rattle.kb_index.specs.Automata.{AreNumbers, Sides, listed};

    ghost Value = { Sides };

    ghost view = { λ automaton. record {
      words = automaton.lookup.words;
      lefts = listed automaton.lookup.lefts automaton.numbers.items;
    } };

    ghost invariant = { λ automaton. AreNumbers automaton.lookup.lefts automaton.numbers.items };
}

impl Automaton {
    /// The automaton of these rules, made for their letters.
    pub fn of(alloc: Global, rules: &[Rule]) -> Result<Automaton, Memory>
        requires { HaveLefts rules.now }
        ensures { IfOk result (IsAutomaton rules.now) }
    {
        let greatest = greatest_letter(rules);
        Automaton::for_letters(alloc, rules, greatest)
    }

    /// The automaton of these rules, made for their letters and an eighth more, which may come.
    pub fn with_room(alloc: Global, rules: &[Rule]) -> Result<Automaton, Memory>
        requires { HaveLefts rules.now }
        ensures { IfOk result (IsAutomaton rules.now) }
    {
        let greatest = greatest_letter(rules);
        Automaton::for_letters(alloc, rules, greatest.saturating_add(greatest / 8))
    }

    /// The automaton of these rules, made for the letters up to this one.
    fn for_letters(alloc: Global, rules: &[Rule], letters: u16) -> Result<Automaton, Memory>
        requires { HaveLefts rules.now }
        ensures { IfOk result (IsAutomaton rules.now) }
    {
        let mut automaton = Automaton {
            lookup: Lookup::new(alloc, letters)?,
            numbers: Vec::with_capacity(alloc, rules.len())?,
            letters,
            greatest: 0,
        };
        for rule in rules {
            automaton.push(rule.left())?;
        }
        Ok(automaton)
    }

    /// The same automaton.
    pub fn copy(&self, alloc: Global) -> Result<Automaton, Memory>
        ensures { IfOk result (λ automaton. automaton ≡ self.now) }
    {
        let lookup = self.lookup.copy(alloc)?;
        let numbers = Vec::from_slice(alloc, &self.numbers)?;
        Ok(Automaton {
            lookup,
            numbers,
            letters: self.letters,
            greatest: self.greatest,
        })
    }

    /// Adds a left side at the end of the list. After want of memory the list is as it was.
    pub fn push(&mut self, left: &Word) -> Result<(), Memory>
        requires { ¬ (left.now ≡ []) }
        ensures ok { OnOk result (self.new.lefts ≡ self.old.lefts ++ left.now ∷ []) }
        ensures err { OnErr result (self.new.lefts ≡ self.old.lefts) }
    {
        self.numbers.reserve(1)?;
        let number = self.lookup.push(left)?;
        self.numbers.push(number)?;
        self.greatest = greatest_of(left).max(self.greatest);
        Ok(())
    }

    /// Takes the left side at a place out of the list. After want of memory all is as it was.
    pub fn remove(&mut self, place: usize) -> Result<(), Memory>
        requires { place < length self.old.lefts }
        ensures ok { OnOk result (self.new.lefts ≡ remove self.old.lefts place) }
        ensures err { OnErr result (self.new.lefts ≡ self.old.lefts) }
    {
        self.lookup.remove(self.numbers[place])?;
        let _number = self.numbers.remove(place);
        Ok(())
    }

    /// Whether it should be made anew: where a letter came for which it was not made, or more left sides went than are
    /// left, and 16 more. The states of those that went stay in it.
    pub fn is_due(&self) -> bool {
        let left = self.numbers.len();
        let gone = self.lookup.count().saturating_sub(left);
        self.greatest > self.letters || gone.saturating_sub(left) > 16
    }

    /// How many states there are. They are numbered from 0 on.
    pub fn states(&self) -> usize
        ensures count { result ≡ length self.now.words }
        ensures words { AreWords self.now.words }
        ensures few { result < 2 ^ 32 }
        ensures lefts { AreStates self.now.words self.now.lefts }
    {
        let _count = self.lookup.count();
        self.lookup.states()
    }

    /// The state of the longest suffix, of a state's word with a letter more, that is a state's word.
    pub fn step(&self, state: u32, letter: u16) -> u32
        requires { state < length self.now.words }
        ensures { IsStep self.now.words state letter result }
    {
        self.lookup.step(state, letter)
    }

    /// Adds to a list the states to which a letter leads from a state, if their words are longer than `beyond`,
    /// in any order.
    pub fn add_steps_beyond(
        &self,
        state: u32,
        beyond: u32,
        found: &mut Vec<u32>,
    ) -> Result<(), Memory>
        requires { state < length self.now.words }
        ensures { OnOk result (Adds (IsStepBeyond self.now.words state beyond)
            found.old.items found.new.items) }
    {
        self.lookup.add_steps_beyond(state, beyond, found)
    }

    /// The failure link of a state: the state of the longest proper suffix of its word that is a state's word,
    /// or state 0.
    pub fn link(&self, state: u32) -> u32
        requires { state < length self.now.words }
        ensures { IsLink self.now.words state result }
    {
        self.lookup.link(state)
    }

    /// The length of a state's word.
    pub fn depth(&self, state: u32) -> u32
        requires { state < length self.now.words }
        ensures { result ≡ length (word self.now.words state) }
    {
        self.lookup.depth(state)
    }

    /// The state of the longest left side that ends a state's word, or state 0 where none does.
    pub fn end_at(&self, state: u32) -> u32
        requires { state < length self.now.words }
        ensures { IsLongestLeft self.now.words self.now.lefts state result }
    {
        self.lookup.end_at(state)
    }

    /// The first place in the list whose left side ends a state's word.
    pub fn first_ending(&self, state: u32) -> Option<usize>
        requires { state < length self.now.words }
        ensures { IsLeastOf (EndsAt self.now.lefts (word self.now.words state)) 0 result }
    {
        place_of(&self.numbers, self.lookup.first_ending(state)?)
    }

    /// The first place in the list whose left side is a state's word.
    pub fn first_at(&self, state: u32) -> Option<usize>
        requires { state < length self.now.words }
        ensures { IsLeastOf (StandsAt self.now.lefts (word self.now.words state)) 0 result }
    {
        place_of(&self.numbers, self.lookup.first_at(state)?)
    }

    /// The first place after this one that has the same left side.
    pub fn next_at(&self, place: usize) -> Option<usize>
        requires { place < length self.now.lefts }
        ensures { (left : List ℕ) → StandsAt self.now.lefts left place
            → IsLeastOf (StandsAt self.now.lefts left) (place + 1) result }
    {
        place_of(&self.numbers, self.lookup.next_at(self.numbers[place])?)
    }
}

/// The place of a number in a list of numbers that rise.
fn place_of(numbers: &[u32], number: u32) -> Option<usize>
    requires rise { Rise numbers.now }
    ensures { (place : ℕ) → place < length numbers.now → get_or numbers.now place 0 ≡ number
        → result ≡ Some place }
{
    numbers.binary_search(&number).ok()
}

/// The greatest letter of the left sides, or 0 where there are none.
fn greatest_letter(rules: &[Rule]) -> u16 {
    let mut greatest = 0;
    for rule in rules {
        greatest = greatest_of(rule.left()).max(greatest);
    }
    greatest
}

/// The greatest letter of a word, or 0 where it has none.
fn greatest_of(word: &Word) -> u16 {
    let mut greatest = 0;
    for letter in word.letters() {
        greatest = letter.number().max(greatest);
    }
    greatest
}
