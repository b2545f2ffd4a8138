//! Left sides that come and go, each with a number, found where they end a text.

ghost use Rattle.std.specs.Prelude.{◌≡◌, ℕ, ◌+◌, ◌<◌, ◌≤◌, ◌⊎◌, ◌^◌, List, [], ◌∷◌, ◌++◌, IfOk, IfSome, OnErr, OnOk, length, get_or, set};
ghost use Rattle.kb_trie.specs.declared.lookup.Entry.{Entry};
ghost use Rattle.kb_trie.specs.States.{AreWords, word};
ghost use Rattle.kb_trie.specs.Steps.{IsLink, IsStep, IsStepBeyond};
ghost use Rattle.kb_trie.specs.Adding.{Adds};
ghost use Rattle.kb_trie.specs.LeftSides.{AreLefts, HasAt, HasEnding, IsLast, IsLeastOf, IsLongestLeft};
ghost use Rattle.kb_trie.specs.Lookups.{AreEntries, IsLookup, kept, states_in};

use crate::trie::Trie;
use kb_word::{Memory, Word};
use std::alloc::Global;
use std::marker::Model;

/// A left side that is there: the state of its word, and one more than the next number that has this state, or 0.
#[derive(Clone, Copy, Debug)]
pub struct Entry {
    pub state: u32,
    pub next: u32,
}

/// Left sides that come and go, each with a number, found where they end a text. A left side that comes gets
/// the next number, from 0 on, and keeps it; one that goes leaves its number empty. Several numbers may have
/// one left side. None is empty.
///
/// A state of the trie stands for a word that begins a left side, or began one that went; state 0 stands for the empty
/// word.
#[derive(Drop)]
pub struct Lookup {
    /// Each state keeps one more than the least number that has this state.
    trie: Trie,
    /// What each number has.
    entries: Vec<Option<Entry>>,
}

impl Model for Lookup {
    ghost use Rattle.kb_trie.specs.LeftSides.{LeftSides};

    ghost Value = { LeftSides };

    ghost use Rattle.kb_trie.specs.Lookups.{IsLookup, left_sides};

    ghost view = { λ lookup. left_sides lookup.trie lookup.entries.items };

    ghost invariant = { λ lookup. IsLookup lookup.trie lookup.entries.items };
}

impl Lookup {
    /// No left sides. Most letters of those that come are at most this one: a step by one of those is one look into a
    /// table, as long as that isn't too large.
    pub fn new(alloc: Global, letters: u16) -> Result<Lookup, Memory>
        ensures words { IfOk result (λ lookup. lookup.words ≡ [] ∷ []) }
        ensures lefts { IfOk result (λ lookup. lookup.lefts ≡ []) }
    {
        let trie = Trie::new(alloc, letters)?;
        Ok(Lookup {
            trie,
            entries: Vec::new(alloc),
        })
    }

    /// The same left sides, with the same numbers and states.
    pub fn copy(&self, alloc: Global) -> Result<Lookup, Memory>
        ensures { IfOk result (λ lookup. lookup ≡ self.now) }
    {
        let trie = self.trie.copy(alloc)?;
        let entries = Vec::from_slice(alloc, &self.entries)?;
        Ok(Lookup { trie, entries })
    }

    /// How many numbers were given. The left side that comes next gets this one.
    pub fn count(&self) -> usize
        ensures count { result ≡ length self.now.lefts }
        ensures few { result + 1 < 2 ^ 32 }
        ensures lefts { AreLefts self.now.words self.now.lefts }
    {
        self.entries.len()
    }

    /// How many states the trie has. They are numbered from 0 on, and stay when left sides go.
    pub fn states(&self) -> usize
        ensures count { result ≡ length self.now.words }
        ensures words { AreWords self.now.words }
        ensures few { result < 2 ^ 32 }
    {
        self.trie.count()
    }

    /// Adds a left side, which gets the next number. After want of memory the left sides are as they were, but
    /// states may have come. There are fewer than 2^32 - 1 numbers: where more are wanted, memory is.
    pub fn push(&mut self, left: &Word) -> Result<u32, Memory>
        requires { ¬ (left.now ≡ []) }
        ensures number { IfOk result (λ number. number ≡ length self.old.lefts) }
        ensures ok { OnOk result (self.new.lefts ≡ self.old.lefts ++ Some left.now ∷ []) }
        ensures err { OnErr result (self.new.lefts ≡ self.old.lefts) }
        ensures words { (more : List (List ℕ)) × (self.new.words ≡ self.old.words ++ more) }
    {
        let state = self.trie.insert(left)?;
        self.add(state)
    }

    /// Lets the word of a state be a left side, which gets the next number.
    fn add(&mut self, state: u32) -> Result<u32, Memory>
        requires some { 0 < state }
        requires state { state < length self.old.words }
        ensures number { IfOk result (λ number. number ≡ length self.old.lefts) }
        ensures ok { OnOk result
            (self.new.lefts ≡ self.old.lefts ++ Some (word self.old.words state) ∷ []) }
        ensures err { OnErr result (self.new.lefts ≡ self.old.lefts) }
        ensures words { self.new.words ≡ self.old.words }
    {
        let number = self.entries.len();
        if number >= u32::MAX as usize - 1 {
            return Err(Memory);
        }
        let number = number as u32;
        self.entries.reserve(1)?;
        join(&mut self.trie, &mut self.entries, state, number)?;
        self.entries.push(Some(Entry { state, next: 0 }))?;
        Ok(number)
    }

    /// Takes out the left side with this number. After want of memory all is as it was.
    pub fn remove(&mut self, number: u32) -> Result<(), Memory>
        requires { (left : List ℕ) × HasAt self.old.lefts left number }
        ensures ok { OnOk result (self.new.lefts ≡ set self.old.lefts number None) }
        ensures err { OnErr result (self.new.lefts ≡ self.old.lefts) }
        ensures words { self.new.words ≡ self.old.words }
    {
        let Some(entry) = self.entries[number as usize] else {
            unreachable!()
        };
        leave(&mut self.trie, &mut self.entries, number, entry)?;
        self.entries[number as usize] = None;
        Ok(())
    }

    /// The state after a letter more: that of the longest suffix, of the state's word with the letter more, that is a
    /// state's word.
    pub fn step(&self, state: u32, letter: u16) -> u32
        requires { state < length self.now.words }
        ensures { IsStep self.now.words state letter result }
    {
        self.trie.step(state, letter)
    }

    /// The failure link of a state: the state of the longest proper suffix of its word that is a state's word,
    /// or state 0.
    pub fn link(&self, state: u32) -> u32
        requires { state < length self.now.words }
        ensures { IsLink self.now.words state result }
    {
        self.trie.link(state)
    }

    /// Adds to a list the states to which a letter leads from a state, if their words are longer than `beyond`,
    /// in any order.
    pub fn add_steps_beyond(
        &self,
        state: u32,
        beyond: u32,
        found: &mut Vec<u32>,
    ) -> Result<(), Memory>
        requires { state < length self.now.words }
        ensures { OnOk result (Adds (IsStepBeyond self.now.words state beyond)
            found.old.items found.new.items) }
    {
        self.trie.add_steps_beyond(state, beyond, found)
    }

    /// The length of a state's word.
    pub fn depth(&self, state: u32) -> u32
        requires { state < length self.now.words }
        ensures { result ≡ length (word self.now.words state) }
    {
        self.trie.depth(state)
    }

    /// The state of the longest left side that ends a state's word, or state 0 where none does.
    pub fn end_at(&self, state: u32) -> u32
        requires { state < length self.now.words }
        ensures { IsLongestLeft self.now.words self.now.lefts state result }
    {
        self.trie.end_at(state)
    }

    /// The least number whose left side ends a state's word.
    pub fn first_ending(&self, state: u32) -> Option<u32>
        requires { state < length self.now.words }
        ensures { IsLeastOf (HasEnding self.now.lefts (word self.now.words state)) 0 result }
    {
        let mut least = None;
        let mut end = self.trie.end_at(state);
        while let Some(first) = kept(self.trie.number_at(end)) {
            least = Some(lesser(first, least));
            end = self.trie.end_at(self.trie.link(end));
        }
        least
    }

    /// The least number whose left side is a state's word.
    pub fn first_at(&self, state: u32) -> Option<u32>
        requires { state < length self.now.words }
        ensures { IsLeastOf (HasAt self.now.lefts (word self.now.words state)) 0 result }
    {
        kept(self.trie.number_at(state))
    }

    /// The least number after this one that has the same left side.
    pub fn next_at(&self, number: u32) -> Option<u32>
        requires { (left : List ℕ) × HasAt self.now.lefts left number }
        ensures { (left : List ℕ) → HasAt self.now.lefts left number
            → IsLeastOf (HasAt self.now.lefts left) (number + 1) result }
    {
        next_of(&self.entries, number)
    }
}

/// What is kept of a number.
fn kept(number: u32) -> Option<u32>
    ensures { result ≡ kept number }
{
    number.checked_sub(1)
}

/// The lesser of a number and the least of some others, if there are any.
fn lesser(number: u32, least: Option<u32>) -> u32
    ensures low { result ≤ number }
    ensures lower { IfSome least (λ other. result ≤ other) }
    ensures is { (result ≡ number) ⊎ (least ≡ Some result) }
{
    match least {
        Some(other) => number.min(other),
        None => number,
    }
}

/// The next number that has the state of this one.
fn next_of(entries: &[Option<Entry>], number: u32) -> Option<u32>
    requires { number < length entries.now }
    ensures { (entry : Entry) → HasAt entries.now entry number → result ≡ kept entry.next }
{
    let entry = entries[number as usize]?;
    kept(entry.next)
}

/// The last number before the bound that has the state of this one.
fn last_before(entries: &[Option<Entry>], first: u32, bound: u32) -> u32
    requires entries { (count : ℕ) × AreEntries count entries.now }
    requires has { (state : ℕ) × HasAt (states_in entries.now) state first }
    requires before { first < bound }
    ensures { (state : ℕ) → HasAt (states_in entries.now) state first
        → IsLast (HasAt (states_in entries.now) state) bound result }
{
    let mut at = first;
    while let Some(next) = next_of(entries, at) {
        if next >= bound {
            return at;
        }
        at = next;
    }
    at
}

/// Lets the last of a state's numbers, or where there is none the state, know the number that comes, which is
/// to have the state too.
fn join(
    trie: &mut Trie,
    entries: &mut [Option<Entry>],
    state: u32,
    number: u32,
) -> Result<(), Memory>
    requires lookup { IsLookup trie.old entries.old }
    requires some { 0 < state }
    requires state { state < length trie.old.words }
    requires number { number ≡ length entries.old }
    requires few { number + 2 < 2 ^ 32 }
    ensures ok { OnOk result (IsLookup trie.new
        (entries.new ++ Some (record { state = state; next = 0 }) ∷ [])) }
    ensures err { OnErr result (IsLookup trie.new entries.new) }
    ensures words { trie.new.words ≡ trie.old.words }
    ensures states { states_in entries.new ≡ states_in entries.old }
{
    let Some(first) = kept(trie.number_at(state)) else {
        return trie.set(state, number + 1);
    };
    let last = last_before(entries, first, number);
    entries[last as usize] = Some(Entry {
        state,
        next: number + 1,
    });
    Ok(())
}

/// Lets the number before one that goes, or where there is none its state, know the number after it.
fn leave(
    trie: &mut Trie,
    entries: &mut [Option<Entry>],
    number: u32,
    entry: Entry,
) -> Result<(), Memory>
    requires lookup { IsLookup trie.old entries.old }
    requires entry { HasAt entries.old entry number }
    ensures ok { OnOk result (IsLookup trie.new (set entries.new number None)) }
    ensures err { OnErr result (IsLookup trie.new entries.new) }
    ensures words { trie.new.words ≡ trie.old.words }
    ensures states { states_in entries.new ≡ states_in entries.old }
{
    let first = trie.number_at(entry.state) - 1;
    if first == number {
        return set_first(trie, entry.state, entry.next);
    }
    let before = last_before(entries, first, number);
    entries[before as usize] = Some(entry);
    Ok(())
}

/// Lets a state that keeps a number keep another one, or none where that is 0.
fn set_first(trie: &mut Trie, state: u32, number: u32) -> Result<(), Memory>
    requires state { state < length trie.old.words }
    requires some { 0 < get_or trie.old.numbers state 0 }
    ensures words { trie.new.words ≡ trie.old.words }
    ensures ok { OnOk result (trie.new.numbers ≡ set trie.old.numbers state number) }
    ensures err { OnErr result (trie.new.numbers ≡ trie.old.numbers) }
{
    if number == 0 {
        return trie.clear(state);
    }
    trie.renumber(state, number);
    Ok(())
}
