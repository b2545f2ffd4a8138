//! Overlaps with the left sides that end what is read.

ghost use Rattle.std.specs.Prelude.{◌≡◌, ◌<◌, ◌≤◌, ◌+◌, OnOk, length};
ghost use Rattle.kb_trie.specs.States.{word};
ghost use Rattle.kb_overlap.specs.Prefixes.{ArePrefixes};
ghost use Rattle.kb_overlap.specs.Ways.{EndsRead, Gains, HasLeft, IsContained, IsOther};

use crate::left_sides::Overlap;
use crate::prefixes::Prefixes;
use kb_word::Memory;

impl<'a> Prefixes<'a> {
    /// Adds the overlaps with the left sides that are contained in that of the rule at the index.
    pub(crate) fn add_contained(&self, index: usize, found: &mut Vec<Overlap>) -> Result<(), Memory>
        requires prefixes { ArePrefixes self.now }
        requires index { index < length self.now.rules.now }
        ensures { OnOk result
            (Gains (IsContained self.now.rules.now index) found.old.items found.new.items) }
    {
        let letters = self.rules[index].left().letters();
        let mut state = 0;
        for (place, letter) in letters.iter().enumerate() {
            state = self.automaton.step(state, letter.number());
            self.add_endings(index, state, place + 1, 0, found)?;
        }
        Ok(())
    }

    /// Adds the overlaps with the left sides that end the word of a state and are longer than `beyond`. So many
    /// letters are read, and the word of the state ends them.
    pub(crate) fn add_endings(
        &self,
        index: usize,
        state: u32,
        read: usize,
        beyond: u32,
        found: &mut Vec<Overlap>,
    ) -> Result<(), Memory>
        requires prefixes { ArePrefixes self.now }
        requires state { state < length self.now.automaton.now.words }
        requires read { length (word self.now.automaton.now.words state) ≤ read }
        ensures { OnOk result (Gains
            (EndsRead self.now.rules.now index (word self.now.automaton.now.words state) read
            beyond) found.old.items found.new.items) }
    {
        let mut end = self.automaton.end_at(state);
        while self.automaton.depth(end) > beyond {
            let place = read - self.automaton.depth(end) as usize;
            self.add_at(index, end, place, found)?;
            end = self.automaton.end_at(self.automaton.link(end));
        }
        Ok(())
    }

    /// Adds the overlap at the place with each rule whose left side is the word of the state.
    fn add_at(
        &self,
        index: usize,
        state: u32,
        place: usize,
        found: &mut Vec<Overlap>,
    ) -> Result<(), Memory>
        requires prefixes { ArePrefixes self.now }
        requires state { state < length self.now.automaton.now.words }
        ensures { OnOk result (Gains
            (HasLeft self.now.rules.now index (word self.now.automaton.now.words state) place)
            found.old.items found.new.items) }
    {
        let mut next = self.automaton.first_at(state);
        while let Some(rule) = next {
            add_other(index, rule, place, found)?;
            next = self.automaton.next_at(rule);
        }
        Ok(())
    }
}

/// Adds the overlap with a rule at a place, unless it is that of the rule at the index with itself at place 0.
fn add_other(
    index: usize,
    rule: usize,
    place: usize,
    found: &mut Vec<Overlap>,
) -> Result<(), Memory>
    ensures { OnOk result (Gains (IsOther index rule place) found.old.items found.new.items) }
{
    if rule != index || place > 0 {
        found.push(Overlap { rule, place })?;
    }
    Ok(())
}
