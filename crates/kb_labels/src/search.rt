//! The search for first words.

ghost use Rattle.std.specs.Prelude.{◌≡◌, ◌↔◌, ◌<◌, ◌≤◌, ℕ, [], Some, None, length, get_or, List, IsTrue, IfOk, OnOk, IfSome, IfNone};
ghost use Rattle.kb_word.specs.Relations.{IsOver};
ghost use Rattle.kb_word.specs.Words.{Less, OneOf};
ghost use Rattle.kb_word.specs.Rewriting.{IsIrreducible};
ghost use Rattle.kb_fsa.specs.Table.{HasSymbols, IsLive, step};
ghost use Rattle.kb_fsa.specs.Graphs.{IsMarked};
ghost use Rattle.kb_fsa.specs.PairSymbols.{pair_symbols};
ghost use Rattle.kb_diff.specs.Groups.{EachInverts, group_of};
ghost use Rattle.kb_labels.specs.Layers.{Adds, ComesBy, ComesFrom, GoesWrong, HaveIrreducible, IsLayer, IsLeastWrong, IsNextLayer, IsWrong};
ghost use Rattle.kb_leastpair.specs.LeastPair.{IsLeastWord};

use crate::config::Config;
use crate::layer::Layer;
use crate::seconds::Seconds;
use crate::turning::{Scratch, turn};
use kb_fsa::{Fsa, PairSymbols};
use kb_rules::Reducer;
use kb_word::{Letter, Memory, Presentation, Word, less};
use std::alloc::Global;

/// What first words are searched in: the multiplier, with marks of the states that lead to acceptance, and the group
/// with what gives normal forms.
#[derive(Drop)]
pub(crate) struct Search<'a, R: Reducer> {
    /// The group.
    pub(crate) presentation: &'a Presentation,
    /// What gives normal forms.
    pub(crate) reducer: &'a R,
    /// The multiplier.
    pub(crate) multiplier: &'a Fsa,
    /// Which of its states lead to acceptance.
    pub(crate) marks: &'a [bool],
    /// The normal form of the generator.
    pub(crate) end: &'a Word,
}

impl<'a, R: Reducer> Search<'a, R> {
    /// Whether the state leads to acceptance.
    fn is_live(&self, state: u32) -> bool
        requires live { (state : ℕ) → IsMarked self.now.marks.now state
            ↔ IsLive self.now.multiplier.now.table state }
        ensures { IsTrue result ↔ IsLive self.now.multiplier.now.table state }
    {
        self.marks.get(state as usize).copied().unwrap_or(false)
    }

    /// Adds what a move gives to the next layer, from a state with a label and a word that leads there. The move is its
    /// symbol with its target.
    fn add_move(
        &self,
        alloc: Global,
        config: &Config,
        word: &Word,
        by: (u32, u32),
        scratch: &mut Scratch,
        next: &mut Layer,
    ) -> Result<(), Memory>
        requires group { EachInverts self.now.presentation.now.n self.now.presentation.now.inv }
        requires generators { self.now.presentation.now.n ≤ 65534 }
        requires live { (state : ℕ) → IsMarked self.now.marks.now state
            ↔ IsLive self.now.multiplier.now.table state }
        requires symbol { by.0 ≤ pair_symbols self.now.presentation.now.n }
        requires target { step self.now.multiplier.now.table config.now.state by.0 ≡ by.1 }
        requires one_each { length next.old.words.items ≡ length next.old.configs.keys }
        ensures { OnOk result (Adds (ComesBy
            (group_of self.now.presentation.now (R.rules self.now.reducer.now))
            self.now.multiplier.now.table config.now word.now by.0) next.old.configs.keys
            next.old.words.items next.new.configs.keys next.new.words.items) }
    {
        let n = self.presentation.n;
        let first = PairSymbols { n }.first(by.0);
        if first > u32::from(n) || !self.is_live(by.1) {
            return Ok(());
        }
        turn(
            self.presentation,
            self.reducer,
            &config.label,
            by.0,
            scratch,
        )?;
        let label = scratch.word.copy(alloc)?;
        let mut longer = word.copy(alloc)?;
        longer.push(Letter::new(first as u16))?;
        let state = by.1;
        next.add(Config { state, label }, longer)
    }

    /// Adds what the moves from a state with a label give to the next layer, with a word that leads there.
    fn add_moves(
        &self,
        alloc: Global,
        config: &Config,
        word: &Word,
        scratch: &mut Scratch,
        next: &mut Layer,
    ) -> Result<(), Memory>
        requires group { EachInverts self.now.presentation.now.n self.now.presentation.now.inv }
        requires generators { self.now.presentation.now.n ≤ 65534 }
        requires live { (state : ℕ) → IsMarked self.now.marks.now state
            ↔ IsLive self.now.multiplier.now.table state }
        requires symbols { HasSymbols (pair_symbols self.now.presentation.now.n)
            self.now.multiplier.now.table }
        requires one_each { length next.old.words.items ≡ length next.old.configs.keys }
        ensures { OnOk result (Adds (ComesFrom
            (group_of self.now.presentation.now (R.rules self.now.reducer.now))
            self.now.multiplier.now.table config.now word.now) next.old.configs.keys
            next.old.words.items next.new.configs.keys next.new.words.items) }
    {
        for (symbol, target) in self.multiplier.table().moves(config.state).as_slice() {
            let by = (*symbol, *target);
            self.add_move(alloc, config, word, by, scratch, next)?;
        }
        Ok(())
    }

    /// The layer of the words with a letter more.
    pub(crate) fn next_layer(&self, alloc: Global, layer: &Layer) -> Result<Layer, Memory>
        requires group { EachInverts self.now.presentation.now.n self.now.presentation.now.inv }
        requires generators { self.now.presentation.now.n ≤ 65534 }
        requires live { (state : ℕ) → IsMarked self.now.marks.now state
            ↔ IsLive self.now.multiplier.now.table state }
        requires symbols { HasSymbols (pair_symbols self.now.presentation.now.n)
            self.now.multiplier.now.table }
        requires one_each { length layer.now.words.items ≡ length layer.now.configs.keys }
        ensures { IfOk result (λ next. IsNextLayer
            (group_of self.now.presentation.now (R.rules self.now.reducer.now))
            self.now.multiplier.now.table layer.now.configs.keys layer.now.words.items
            next.configs.keys next.words.items) }
    {
        let mut next = Layer::new(alloc);
        let mut scratch = Scratch::new(alloc);
        for place in 0..layer.words.len() {
            let config = &layer.configs[place];
            let word = &layer.words[place];
            self.add_moves(alloc, config, word, &mut scratch, &mut next)?;
        }
        Ok(next)
    }

    /// Whether a second word goes on alone from the state with its label to another end than the wanted one.
    fn goes_wrong(&self, alloc: Global, config: &Config) -> Result<bool, Memory>
        requires generators { self.now.presentation.now.n ≤ 65534 }
        requires live { (state : ℕ) → IsMarked self.now.marks.now state
            ↔ IsLive self.now.multiplier.now.table state }
        requires label { IsIrreducible (OneOf (R.rules self.now.reducer.now)) config.now.label }
        ensures { IfOk result (λ wrong. IsTrue wrong ↔ GoesWrong
            (group_of self.now.presentation.now (R.rules self.now.reducer.now))
            self.now.multiplier.now.table self.now.end.now config.now) }
    {
        // A use of the list brings its invariant, that the rules decrease.
        let _rules = self.reducer.list().as_slice();
        let first = Word::new(alloc);
        let seconds = Seconds {
            pairs: self.multiplier,
            marks: self.marks,
            symbols: PairSymbols {
                n: self.presentation.n,
            },
            reducer: self.reducer,
            first: &first,
            state: config.state,
            word: &config.label,
            target: self.end,
        };
        match seconds.least(alloc)? {
            Some(_) => Ok(true),
            None => Ok(false),
        }
    }

    /// The layer of the empty word.
    fn first_layer(&self, alloc: Global) -> Result<Layer, Memory>
        requires live { (state : ℕ) → IsMarked self.now.marks.now state
            ↔ IsLive self.now.multiplier.now.table state }
        ensures { IfOk result (λ layer. IsLayer
            (group_of self.now.presentation.now (R.rules self.now.reducer.now))
            self.now.multiplier.now.table 0 layer.configs.keys layer.words.items) }
    {
        let mut layer = Layer::new(alloc);
        let state = self.multiplier.initial();
        if self.is_live(state) {
            let label = Word::new(alloc);
            layer.add(Config { state, label }, Word::new(alloc))?;
        }
        Ok(layer)
    }

    /// The least first word that goes wrong; `None` where none does. Where words of all lengths lead somewhere and none
    /// goes wrong, the search has no end.
    pub(crate) fn least_first(&self, alloc: Global) -> Result<Option<Word>, Memory>
        requires group { EachInverts self.now.presentation.now.n self.now.presentation.now.inv }
        requires generators { self.now.presentation.now.n ≤ 65534 }
        requires live { (state : ℕ) → IsMarked self.now.marks.now state
            ↔ IsLive self.now.multiplier.now.table state }
        requires symbols { HasSymbols (pair_symbols self.now.presentation.now.n)
            self.now.multiplier.now.table }
        ensures found { IfOk result (λ found. IfSome found (IsLeastWord (IsWrong
            (group_of self.now.presentation.now (R.rules self.now.reducer.now))
            self.now.multiplier.now.table self.now.end.now))) }
        ensures over { IfOk result (λ found. IfSome found
            (IsOver self.now.presentation.now.n)) }
        ensures none { IfOk result (λ found. IfNone found ((word : List ℕ) → ¬ IsWrong
            (group_of self.now.presentation.now (R.rules self.now.reducer.now))
            self.now.multiplier.now.table self.now.end.now word)) }
    {
        // A use of the list brings its invariant, that the rules decrease.
        let _rules = self.reducer.list().as_slice();
        let mut layer = self.first_layer(alloc)?;
        for _size in 0..u64::MAX {
            if layer.is_empty() {
                return Ok(None);
            }
            match self.least_wrong(alloc, &layer)? {
                Some(place) => {
                    let first = layer.words[place].copy(alloc)?;
                    return Ok(Some(first));
                }
                None => layer = self.next_layer(alloc, &layer)?,
            }
        }
        Err(Memory)
    }

    /// The place of the least word of the layer that goes wrong.
    pub(crate) fn least_wrong(&self, alloc: Global, layer: &Layer) -> Result<Option<usize>, Memory>
        requires generators { self.now.presentation.now.n ≤ 65534 }
        requires live { (state : ℕ) → IsMarked self.now.marks.now state
            ↔ IsLive self.now.multiplier.now.table state }
        requires one_each { length layer.now.words.items ≡ length layer.now.configs.keys }
        requires labels { HaveIrreducible (R.rules self.now.reducer.now)
            layer.now.configs.keys }
        ensures { IfOk result (IsLeastWrong
            (group_of self.now.presentation.now (R.rules self.now.reducer.now))
            self.now.multiplier.now.table self.now.end.now layer.now.configs.keys
            layer.now.words.items (length layer.now.words.items)) }
    {
        let mut found = None;
        for place in 0..layer.words.len() {
            if is_less(&layer.words, place, found) {
                let is_wrong = self.goes_wrong(alloc, &layer.configs[place])?;
                if is_wrong {
                    found = Some(place);
                }
            }
        }
        Ok(found)
    }
}

/// Whether the word at the place is less than that at the other place, if there is one.
fn is_less(words: &[Word], place: usize, found: Option<usize>) -> bool
    requires place { place < length words.now }
    requires found { (other : ℕ) → found ≡ Some other → other < length words.now }
    ensures first { found ≡ None → IsTrue result }
    ensures later { (other : ℕ) → found ≡ Some other → IsTrue result
        ↔ Less (get_or words.now place []) (get_or words.now other []) }
{
    match found {
        Some(other) => less(&words[place], &words[other]),
        None => true,
    }
}
