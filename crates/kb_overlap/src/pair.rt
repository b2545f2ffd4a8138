//! Pairs of words, critical pairs above all: formed, reduced and compared.

ghost use Rattle.std.specs.Prelude.{◌≡◌, ◌++◌, [], IfOk, OnOk, drop};
ghost use Rattle.kb_word.specs.Words.{Pair};
ghost use Rattle.kb_word.specs.Overlap.{Overlaps, critical_pair};
ghost use Rattle.kb_overlap.specs.Joining.{AreNormalForms, JoinSays};

use kb_rules::{Reducer, Rule, Workspace};
use kb_word::{Letter, Memory, Word};
use std::alloc::Global;
use std::marker::Model;
use std::mem::replace;

/// Whether the words of a pair have one normal form.
#[derive(Clone, Copy, Debug, PartialEq, Eq)]
pub enum Joinability {
    /// They have.
    Joined,
    /// They have different normal forms.
    Apart,
}

/// Two words that are reduced and compared, and the memory for that, kept from one pair to the next: once it has grown
/// to the longest word, no pair takes any more. After want of memory the words may be any.
#[derive(Debug, Drop)]
pub struct PairWorkspace {
    first: Word,
    second: Word,
    workspace: Workspace,
}

impl Model for PairWorkspace {
    ghost use Rattle.kb_word.specs.Words.{Pair};

    ghost Value = { Pair };

    ghost view = { λ pair. (pair.first, pair.second) };
}

impl PairWorkspace {
    /// Two empty words, and no memory taken yet.
    pub fn new(alloc: Global) -> PairWorkspace
        ensures { result ≡ ([], []) }
    {
        PairWorkspace {
            first: Word::new(alloc),
            second: Word::new(alloc),
            workspace: Workspace::new(alloc),
        }
    }

    /// The first word.
    pub fn first(&self) -> &Word
        ensures { result.now ≡ self.now.0 }
    {
        &self.first
    }

    /// The second word.
    pub fn second(&self) -> &Word
        ensures { result.now ≡ self.now.1 }
    {
        &self.second
    }

    /// Puts two words in place of its own.
    pub fn put(&mut self, first: &Word, second: &Word) -> Result<(), Memory>
        ensures { OnOk result (self.new ≡ (first.now, second.now)) }
    {
        self.first.assign(first)?;
        self.second.assign(second)
    }

    /// Puts the critical pair of the rules `l -> r` and `m -> s` in place of its words, whose left sides overlap at
    /// this place of `l`: the superposition of both left sides with the first rule applied, and with the second.
    pub fn put_critical_pair(
        &mut self,
        l: &Word,
        r: &Word,
        m: &Word,
        s: &Word,
        place: u64,
    ) -> Result<(), Memory>
        requires { Overlaps l.now m.now place }
        ensures { OnOk result
            (self.new ≡ critical_pair (l.now, r.now) (m.now, s.now) place) }
    {
        let (before, overlap) = l.letters().split_at(place as usize);
        self.first.assign(r)?;
        self.first
            .extend_from_slice(rest(m.letters(), overlap.len()))?;
        self.second.clear();
        self.second.extend_from_slice(before)?;
        self.second.append(s)?;
        self.second.extend_from_slice(rest(overlap, m.len()))
    }

    /// Replaces both words by their normal forms, and tells whether these are one word.
    pub fn reduce<R: Reducer>(&mut self, reducer: &R) -> Result<Joinability, Memory>
        ensures normal { OnOk result (AreNormalForms (R.rules reducer.now) self.old self.new) }
        ensures says { IfOk result (JoinSays (R.rules reducer.now) self.old self.new) }
    {
        reducer.reduce(&mut self.first, &mut self.workspace)?;
        reducer.reduce(&mut self.second, &mut self.workspace)?;
        Ok(if self.first == self.second {
            Joinability::Joined
        } else {
            Joinability::Apart
        })
    }

    /// Puts the normal forms of the critical pair of two rules, whose left sides overlap at this place of the first
    /// one's, in place of its words, and tells whether these are one word.
    pub fn join<R: Reducer>(
        &mut self,
        reducer: &R,
        first: &Rule,
        second: &Rule,
        place: u64,
    ) -> Result<Joinability, Memory>
        requires { Overlaps first.now.0 second.now.0 place }
        ensures normal { OnOk result
            (AreNormalForms (R.rules reducer.now) (critical_pair first.now second.now place)
            self.new) }
        ensures says { IfOk result
            (JoinSays (R.rules reducer.now) (critical_pair first.now second.now place) self.new) }
    {
        let (left, right) = (first.left(), first.right());
        self.put_critical_pair(left, right, second.left(), second.right(), place)?;
        self.reduce(reducer)
    }

    /// Hands out both words; it has two empty ones from then on.
    pub fn take(&mut self, alloc: Global) -> (Word, Word)
        ensures words { result ≡ self.old }
        ensures empty { self.new ≡ ([], []) }
    {
        let first = replace(&mut self.first, Word::new(alloc));
        let second = replace(&mut self.second, Word::new(alloc));
        (first, second)
    }
}

/// The letters from this place on, which may be past the end.
fn rest(letters: &[Letter], place: usize) -> &[Letter]
    ensures { result.now ≡ drop place letters.now }
{
    letters.get(place..).unwrap_or(&[])
}

/// The critical pair of the rules `l -> r` and `m -> s`, whose left sides overlap at this place of `l`.
/// Book, Otto, String-Rewriting Systems, 2.3.
pub fn pair_at(
    alloc: Global,
    l: &Word,
    r: &Word,
    m: &Word,
    s: &Word,
    p: u64,
) -> Result<(Word, Word), Memory>
    requires { Overlaps l.now m.now p }
    ensures { IfOk result (λ pair. pair ≡ critical_pair (l.now, r.now) (m.now, s.now) p) }
{
    let mut pair = PairWorkspace::new(alloc);
    pair.put_critical_pair(l, r, m, s, p)?;
    Ok(pair.take(alloc))
}
