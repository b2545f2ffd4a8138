//! The word differences that are kept of a group.

ghost use Rattle.std.specs.Prelude.{◌≡◌, ◌↔◌, ◌≤◌, ◌<◌, [], ◌∷◌, IfOk, IsTrue, length, slice_get};
ghost use Rattle.std.specs.Option.{option_copied};
ghost use Rattle.kb_diff.specs.Groups.{EachInverts, AreRulesOver, group_of};
ghost use Rattle.kb_diff.specs.Kept.{AreKept};
ghost use Rattle.kb_diff.specs.Keeping.{AddsPairs};

use crate::grow::Grow;
use indexmap::IndexSet;
use kb_rules::{Reducer, Rules};
use kb_word::{Memory, Presentation, Word};
use std::alloc::Global;
use std::marker::Model;

/// The word differences that are kept of a group, in the order in which they were first seen. They are numbered from 1,
/// and the first one is the empty word.
#[derive(Drop)]
pub struct Differences<R: Reducer> {
    pub(crate) presentation: Presentation,
    pub(crate) reducer: R,
    pub(crate) most: u32,
    pub(crate) words: IndexSet<Word>,
}

impl<R: Reducer> Model for Differences<R> {
    ghost use Rattle.kb_diff.specs.Groups.{group_of};
    ghost use Rattle.kb_diff.specs.Kept.{KeptDifferences, AreKept};

    ghost Value = { KeptDifferences };

    ghost view = { λ kept. record {
      group = group_of kept.presentation (R.rules kept.reducer);
      most = kept.most;
      words = kept.words.keys;
    } };

    ghost invariant = { λ kept. AreKept (record {
      group = group_of kept.presentation (R.rules kept.reducer);
      most = kept.most;
      words = kept.words.keys;
    }) };
}

impl<R: Reducer> Differences<R> {
    /// The empty word alone, of a group with rules. At most `max_diffs` words may be kept.
    pub fn new(
        alloc: Global,
        presentation: &Presentation,
        rules: &Rules,
        max_diffs: u32,
    ) -> Result<Differences<R>, Memory>
        requires group { EachInverts presentation.now.n presentation.now.inv }
        requires letters { AreRulesOver presentation.now.n rules.now.rules }
        requires most { 1 ≤ max_diffs }
        ensures group { IfOk result (λ kept.
            kept.group ≡ group_of presentation.now rules.now.rules) }
        ensures most { IfOk result (λ kept. kept.most ≡ max_diffs) }
        ensures words { IfOk result (λ kept. kept.words ≡ [] ∷ []) }
    {
        // A use of the list brings its invariant, that the rules decrease.
        let _rules = rules.as_slice();
        let presentation = presentation.copy(alloc)?;
        let reducer = R::of(alloc, rules)?;
        let words = empty_word_alone(alloc)?;
        Ok(Differences {
            presentation,
            reducer,
            most: max_diffs,
            words,
        })
    }

    /// The empty word, and the differences of both sides of each rule in order, up to the first rule that finds no more
    /// room.
    pub fn from_rules(
        alloc: Global,
        presentation: &Presentation,
        rules: &Rules,
        max_diffs: u32,
    ) -> Result<(Differences<R>, Grow), Memory>
        requires group { EachInverts presentation.now.n presentation.now.inv }
        requires letters { AreRulesOver presentation.now.n rules.now.rules }
        requires most { 1 ≤ max_diffs }
        ensures group { IfOk result (λ made.
            made.0.group ≡ group_of presentation.now rules.now.rules) }
        ensures most { IfOk result (λ made. made.0.most ≡ max_diffs) }
        ensures words { IfOk result (λ made. AddsPairs
            (group_of presentation.now rules.now.rules) max_diffs rules.now.rules
            ([] ∷ []) made.0.words made.1) }
    {
        let mut kept = Differences::new(alloc, presentation, rules, max_diffs)?;
        let empty = Word::new(alloc);
        let listed = rules.as_slice();
        for rule in listed {
            let answer = kept.add_path(alloc, rule.left(), rule.right(), &empty)?;
            if answer.is_full() {
                return Ok((kept, answer));
            }
        }
        Ok((kept, Grow::Grew))
    }

    /// What reduces words by the group's rules.
    pub fn reducer(&self) -> &R
        ensures { R.rules result.now ≡ self.now.group.rules }
    {
        &self.reducer
    }

    /// How many words are kept.
    pub fn len(&self) -> usize
        ensures count { result ≡ length self.now.words }
        ensures kept { AreKept self.now }
    {
        self.words.len()
    }

    /// How many generators the group has.
    pub fn generators(&self) -> u16
        ensures count { result ≡ self.now.group.n }
        ensures most { result ≤ 65534 }
        ensures kept { AreKept self.now }
    {
        // Each generator has a name, and a use of the names tells how many there may be.
        let _names = self.presentation.names.len();
        self.presentation.n
    }

    /// Whether no word is kept. The empty word always is.
    pub fn is_empty(&self) -> bool
        ensures { IsTrue result ↔ (self.now.words ≡ []) }
    {
        self.words.is_empty()
    }

    /// The word at an index, from 0 on: that of the next number.
    pub fn get(&self, index: usize) -> Option<&Word>
        ensures { option_copied result ≡ slice_get self.now.words index }
    {
        self.words.get_index(index)
    }
}

/// The empty word alone.
fn empty_word_alone(alloc: Global) -> Result<IndexSet<Word>, Memory>
    ensures { IfOk result (λ words. words.keys ≡ [] ∷ []) }
{
    let mut words = IndexSet::new(alloc);
    words.insert(Word::new(alloc))?;
    Ok(words)
}
