//! Adding the differences of two words.

ghost use Rattle.std.specs.Prelude.{◌≡◌, ◌↔◌, ◌+◌, IfOk, OnOk, OnErr, length, take};
ghost use Rattle.kb_word.specs.Words.{OneOf};
ghost use Rattle.kb_word.specs.Relations.{IsOver};
ghost use Rattle.kb_word.specs.Rewriting.{IsIrreducible};
ghost use Rattle.kb_diff.specs.Differences.{IsDifference, HaveDifferences};
ghost use Rattle.kb_diff.specs.Keeping.{Adds, IsFull, KeepsOne, NamesMissing};

use crate::differences::Differences;
use crate::grow::Grow;
use crate::inverting::{inverse_in_group, prefix_of};
use kb_rules::{Reducer, Workspace};
use kb_word::{Memory, Word};
use std::alloc::Global;

impl<R: Reducer> Differences<R> {
    /// Keeps the differences of u and v at the places 1, 2, .., as far as there is room. The path
    /// is that of u, x and v, where u followed by x is to be the same element as v; its differences
    /// don't depend on x. After want of memory what is kept is as it was.
    pub fn add_path(&mut self, alloc: Global, u: &Word, v: &Word, x: &Word) -> Result<Grow, Memory>
        requires first { IsOver self.old.group.n u.now }
        requires second { IsOver self.old.group.n v.now }
        ensures ok { IfOk result
            (Adds self.old.group self.old.most u.now v.now self.old.words self.new.words) }
        ensures same { IfOk result (λ answer. (answer ≡ Grow.Same)
            ↔ HaveDifferences self.old.group self.old.words u.now v.now) }
        ensures full { IfOk result (λ answer. IsFull answer
            ↔ ((length self.new.words ≡ self.old.most)
            × (¬ HaveDifferences self.old.group self.new.words u.now v.now))) }
        ensures named { IfOk result (NamesMissing self.old.group self.new.words u.now v.now) }
        ensures numbers { take (length self.old.words) self.new.words ≡ self.old.words }
        ensures group { self.new.group ≡ self.old.group }
        ensures most { self.new.most ≡ self.old.most }
        ensures err { OnErr result (self.new.words ≡ self.old.words) }
    {
        let _ = x;
        let len = self.words.len();
        let added = self.add_places(alloc, u, v);
        if added.is_err() {
            self.words.truncate(len);
        }
        added
    }

    /// Keeps the differences at the places in turn. After want of memory the words that were added before it are kept.
    fn add_places(&mut self, alloc: Global, u: &Word, v: &Word) -> Result<Grow, Memory>
        requires first { IsOver self.old.group.n u.now }
        requires second { IsOver self.old.group.n v.now }
        ensures ok { IfOk result
            (Adds self.old.group self.old.most u.now v.now self.old.words self.new.words) }
        ensures group { self.new.group ≡ self.old.group }
        ensures most { self.new.most ≡ self.old.most }
        ensures front { take (length self.old.words) self.new.words ≡ self.old.words }
    {
        let mut workspace = Workspace::new(alloc);
        let mut answer = Grow::Same;
        for place in 0..u.len().max(v.len()) {
            let word = self.difference_at(alloc, u, v, place + 1, &mut workspace)?;
            let one = self.keep(word, place as u64 + 1)?;
            answer = answer.and(one);
            if answer.is_full() {
                return Ok(answer);
            }
        }
        Ok(answer)
    }

    /// The difference of u and v at a place, from 1 on: the normal form of the inverse of the first letters of u, so
    /// many, followed by as many of v. Of a word that has fewer all are taken.
    pub fn difference_at(
        &self,
        alloc: Global,
        u: &Word,
        v: &Word,
        place: usize,
        workspace: &mut Workspace,
    ) -> Result<Word, Memory>
        requires first { IsOver self.now.group.n u.now }
        requires second { IsOver self.now.group.n v.now }
        ensures difference { IfOk result (IsDifference self.now.group u.now v.now place) }
        ensures over { IfOk result (IsOver self.now.group.n) }
    {
        let prefix = prefix_of(alloc, u, place)?;
        let mut difference = inverse_in_group(alloc, &self.presentation, &prefix)?;
        let other = prefix_of(alloc, v, place)?;
        difference.append(&other)?;
        self.reducer.reduce(&mut difference, workspace)?;
        Ok(difference)
    }

    /// Keeps a difference at a place, unless it is kept already or there is no more room.
    fn keep(&mut self, word: Word, place: u64) -> Result<Grow, Memory>
        requires over { IsOver self.old.group.n word }
        requires irreducible { IsIrreducible (OneOf self.old.group.rules) word }
        ensures ok { IfOk result
            (KeepsOne self.old.most word place self.old.words self.new.words) }
        ensures err { OnErr result (self.new.words ≡ self.old.words) }
        ensures group { self.new.group ≡ self.old.group }
        ensures most { self.new.most ≡ self.old.most }
    {
        if self.words.contains(&word) {
            return Ok(Grow::Same);
        }
        if self.words.len() >= self.most as usize {
            return Ok(Grow::Full { word, place });
        }
        self.words.insert(word)?;
        Ok(Grow::Grew)
    }
}
