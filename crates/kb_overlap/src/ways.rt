//! Proper overlaps, found by reading on from a left side.

ghost use Rattle.std.specs.Prelude.{◌≡◌, ℕ, List, ◌<◌, ◌+◌, IfOk, OnOk, drop, length};
ghost use Rattle.kb_word.specs.Words.{OneOf};
ghost use Rattle.kb_word.specs.Rewriting.{IsIrreducible};
ghost use Rattle.kb_index.specs.Lefts.{left_at};
ghost use Rattle.kb_index.specs.Automata.{StandsFor};
ghost use Rattle.kb_overlap.specs.Prefixes.{ArePrefixes, GoesOn};
ghost use Rattle.kb_overlap.specs.Ways.{AreReached, Gains, IsMet, IsProper};

use crate::left_sides::Overlap;
use crate::prefixes::Prefixes;
use kb_word::Memory;
use std::alloc::Global;

impl<'a> Prefixes<'a> {
    /// Adds the proper overlaps of the rule at the index that aren't composite.
    pub(crate) fn add_proper(
        &self,
        alloc: Global,
        index: usize,
        found: &mut Vec<Overlap>,
    ) -> Result<(), Memory>
        requires prefixes { ArePrefixes self.now }
        requires index { index < length self.now.rules.now }
        ensures { OnOk result
            (Gains (IsProper self.now.rules.now index) found.old.items found.new.items) }
    {
        let left = self.rules[index].left();
        let Some(state) = self.state_after(&left.letters()[1..]) else {
            return Ok(());
        };
        let mut level = self.first_level(alloc, state)?;
        let mut count = 0;
        while !level.is_empty() {
            let read = left.len() + count as usize;
            level = self.next_level(alloc, index, read, count, &level, found)?;
            count += 1;
        }
        Ok(())
    }

    /// The level of no letter after an irreducible word: the state after that word, unless the state's word is empty.
    fn first_level(&self, alloc: Global, state: u32) -> Result<Vec<u32>, Memory>
        requires prefixes { ArePrefixes self.now }
        requires state { state < length self.now.automaton.now.words }
        ensures { (tail : List ℕ) → StandsFor self.now.automaton.now.words tail state
            → IsIrreducible (OneOf self.now.rules.now) tail
            → IfOk result (λ level. AreReached self.now.rules.now
            self.now.automaton.now.words tail 0 level.items) }
    {
        let mut level = Vec::new(alloc);
        if self.automaton.depth(state) > 0 {
            level.push(state)?;
        }
        Ok(level)
    }

    /// The level of one letter more than this one, which is that of `count` letters. The overlaps with left
    /// sides that end at the states of this level are added: up to there, the left side and the way have been
    /// read.
    fn next_level(
        &self,
        alloc: Global,
        index: usize,
        read: usize,
        count: u32,
        level: &[u32],
        found: &mut Vec<Overlap>,
    ) -> Result<Vec<u32>, Memory>
        requires prefixes { ArePrefixes self.now }
        requires read { read ≡ length (left_at self.now.rules.now index) + count }
        requires level { AreReached self.now.rules.now self.now.automaton.now.words
            (drop 1 (left_at self.now.rules.now index)) count level.now }
        ensures next { IfOk result (λ next. AreReached self.now.rules.now
            self.now.automaton.now.words (drop 1 (left_at self.now.rules.now index))
            (count + 1) next.items) }
        ensures found { OnOk result
            (Gains (IsMet self.now.rules.now self.now.automaton.now.words index count)
            found.old.items found.new.items) }
    {
        let mut next = Vec::new(alloc);
        for state in level {
            self.add_endings(index, *state, read, count, found)?;
            self.go_on(*state, count + 1, &mut next)?;
        }
        Ok(next)
    }

    /// Adds the states to which a letter leads from a state, if their words are longer than `beyond`; where a
    /// left side ends at the state, none.
    fn go_on(&self, state: u32, beyond: u32, next: &mut Vec<u32>) -> Result<(), Memory>
        requires prefixes { ArePrefixes self.now }
        requires state { state < length self.now.automaton.now.words }
        ensures { OnOk result
            (Gains (GoesOn self.now.rules.now self.now.automaton.now.words state beyond)
            next.old.items next.new.items) }
    {
        if self.is_ended(state) {
            return Ok(());
        }
        self.automaton.add_steps_beyond(state, beyond, next)
    }
}
