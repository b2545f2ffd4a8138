//! Making the difference machine.

ghost use Rattle.std.specs.Prelude.{◌≡◌, ◌+◌, ◌<◌, ◌≤◌, suc, IfOk, OnOk};
ghost use Rattle.kb_diff.specs.Steps.{AreSteps};
ghost use Rattle.kb_diff.specs.Tables.{AddsRows, AddsTargets, FrontLeads, IsFront, IsNumberOf, step_in};

use crate::differences::Differences;
use crate::inverting::inverse_of_letter;
use crate::letters::letter_of;
use crate::machine::Machine;
use kb_rules::{Reducer, Workspace};
use kb_word::{Memory, Word};
use std::alloc::Global;

/// What steps are computed in. It is kept for all of them, so that it takes memory only for longer words.
#[derive(Debug, Drop)]
struct Scratch {
    /// The normal form of a difference after the inverse of the first letter.
    front: Word,
    /// The difference to which the second letter leads from there.
    target: Word,
    /// The memory that reductions work in.
    workspace: Workspace,
}

impl<R: Reducer> Differences<R> {
    /// The difference machine of the words that are kept.
    pub fn machine(&self, alloc: Global) -> Result<Machine, Memory>
        ensures { IfOk result (λ machine.
            AreSteps self.now.group self.now.words (step_in machine)) }
    {
        let letters = usize::from(self.presentation.n) + 1;
        let mut table = Vec::with_capacity(alloc, self.len() * (letters * letters))?;
        let mut scratch = Scratch {
            front: Word::new(alloc),
            target: Word::new(alloc),
            workspace: Workspace::new(alloc),
        };
        for difference in self.words.as_slice() {
            self.add_rows(difference, &mut scratch, &mut table)?;
        }
        Ok(Machine::new(self.presentation.n, table))
    }

    /// Adds where all pairs lead from a difference.
    fn add_rows(
        &self,
        difference: &Word,
        scratch: &mut Scratch,
        table: &mut Vec<u32>,
    ) -> Result<(), Memory>
        ensures { OnOk result (AddsRows self.now.group self.now.words difference.now
            (self.now.group.n + 1) table.old.items table.new.items) }
    {
        for first in 0..u32::from(self.presentation.n) + 1 {
            self.read_first(difference, first + 1, scratch)?;
            self.add_targets(scratch, table)?;
        }
        Ok(())
    }

    /// Has the front of a difference and a first letter.
    fn read_first(&self, difference: &Word, first: u32, scratch: &mut Scratch) -> Result<(), Memory>
        requires positive { 0 < first }
        requires letter { first ≤ self.now.group.n + 1 }
        ensures { OnOk result
            (IsFront self.now.group difference.now first scratch.new.front) }
    {
        let inverse = inverse_of_letter(&self.presentation, first);
        scratch.front.clear();
        scratch.front.extend_from_slice(inverse.as_slice())?;
        scratch.front.append(difference)?;
        self.reducer
            .reduce(&mut scratch.front, &mut scratch.workspace)
    }

    /// Adds where all second letters lead from the front.
    fn add_targets(&self, scratch: &mut Scratch, table: &mut Vec<u32>) -> Result<(), Memory>
        ensures { OnOk result (AddsTargets self.now.group self.now.words scratch.old.front
            (self.now.group.n + 1) table.old.items table.new.items) }
    {
        for second in 0..u32::from(self.presentation.n) + 1 {
            let target = self.target(second + 1, scratch)?;
            table.push(target)?;
        }
        Ok(())
    }

    /// To which number a second letter leads from the front.
    fn target(&self, second: u32, scratch: &mut Scratch) -> Result<u32, Memory>
        requires positive { 0 < second }
        requires letter { second ≤ self.now.group.n + 1 }
        ensures target { IfOk result (FrontLeads self.now.group self.now.words
            scratch.old.front second) }
        ensures front { OnOk result (scratch.new.front ≡ scratch.old.front) }
    {
        let letter = letter_of(self.presentation.n, second);
        scratch.target.assign(&scratch.front)?;
        scratch.target.extend_from_slice(letter.as_slice())?;
        self.reducer
            .reduce(&mut scratch.target, &mut scratch.workspace)?;
        Ok(self.number_of(&scratch.target))
    }

    /// The number of a word, and 0 where it isn't kept.
    fn number_of(&self, word: &Word) -> u32
        ensures { IsNumberOf self.now.words word.now result }
    {
        match self.words.get_index_of(word) {
            Some(index) => index as u32 + 1,
            None => 0,
        }
    }
}
