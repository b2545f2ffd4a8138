//! Where the middle word goes on behind both outer words.

ghost use Rattle.std.specs.Prelude.{◌≡◌, false, ◌+◌, ◌<◌, ◌≤◌, ◌^◌, ℕ, List, max, length, IfOk};
ghost use Rattle.std.proofs.Common.{rules};
ghost use Rattle.kb_fsa.specs.Table.{IsTable};
ghost use Rattle.kb_explore.specs.Machine.{AreMovesOf};
ghost use Rattle.kb_explore.specs.Exploration.{IsExploration};
ghost use Rattle.kb_compose.specs.declared.tail.Tail.{Tail as Spot};
ghost use Rattle.kb_compose.specs.declared.tail.Tail.TheVariants.{Begin, At};
ghost use Rattle.kb_compose.specs.Progress.{AreEndingBelow};
ghost use Rattle.kb_compose.specs.Tails.{AreEnding, tail_after, tails};

use crate::pair_set::{PairSet, first_state, number_of, second_state};
use crate::tail::Tail;
use kb_explore::{Det, Machine, explore};
use kb_fsa::{PairSymbols, Table, live, reversed};
use kb_word::Memory;
use std::alloc::Global;

/// The machine that goes by a number to the pair at that place, and from pair to pair by letters of the middle word.
#[derive(Drop)]
struct Tails<'a> {
    symbols: PairSymbols,
    first: &'a Table,
    second: &'a Table,
    pairs: &'a [u64],
    ghost few: { length pairs.now < 2 ^ 32 },
}

impl Machine for Tails<'_> {
    type State = Tail;

    ghost machine = { λ it. tails it.symbols.n it.first.now it.second.now it.pairs.now };

    ghost symbols = { λ it. max it.symbols.n (length it.pairs.now) };

    ghost same_state = { Prim.search rules };

    fn start(&self, _alloc: Global) -> Result<Option<Tail>, Memory> {
        Ok(Some(Tail::Begin))
    }

    fn moves(&self, alloc: Global, tail: &Tail) -> Result<Vec<(u32, Tail)>, Memory> {
        match tail {
            Tail::Begin => self.places(alloc),
            Tail::At(pair) => self.letters(alloc, *pair),
        }
    }

    fn accepts(&self, tail: &Tail) -> bool {
        match tail {
            Tail::Begin => false,
            Tail::At(pair) => {
                self.first.is_accepting(first_state(*pair))
                    && self.second.is_accepting(second_state(*pair))
            }
        }
    }
}

impl Tails<'_> {
    /// The pairs by their places.
    fn places(&self, alloc: Global) -> Result<Vec<(u32, Tail)>, Memory>
        ensures { IfOk result (λ moves. AreMovesOf
            (tails self.now.symbols.n self.now.first.now self.now.second.now self.now.pairs.now)
            (max self.now.symbols.n (length self.now.pairs.now)) Begin moves.items) }
    {
        let mut moves = Vec::new(alloc);
        let mut number = 0;
        for pair in self.pairs {
            number += 1;
            moves.push((number, Tail::At(*pair)))?;
        }
        Ok(moves)
    }

    /// Where the letters of the middle word lead from the pair.
    fn letters(&self, alloc: Global, pair: u64) -> Result<Vec<(u32, Tail)>, Memory>
        ensures { IfOk result (λ moves. AreMovesOf
            (tails self.now.symbols.n self.now.first.now self.now.second.now self.now.pairs.now)
            (max self.now.symbols.n (length self.now.pairs.now)) (At pair) moves.items) }
    {
        let padding = self.symbols.padding();
        let mut moves = Vec::new(alloc);
        if !self.may_go_on(pair) {
            return Ok(moves);
        }
        let mut letter = 1;
        while letter < padding {
            if let Some(tail) = self.after(pair, letter) {
                moves.push((letter, tail))?;
            }
            letter += 1;
        }
        Ok(moves)
    }

    /// Whether the first automaton has a move behind the first outer word. Few pairs have one.
    fn may_go_on(&self, pair: u64) -> bool
        ensures { result ≡ false → (letter : ℕ) → tail_after self.now.symbols.n self.now.first.now
            self.now.second.now pair letter ≡ None }
    {
        let others = self.symbols.padding() * u32::from(self.symbols.n);
        match self.first.moves(first_state(pair)).as_slice().last() {
            Some(entry) => entry.0 > others,
            None => false,
        }
    }

    /// Where one letter of it leads from the pair, if it leads to two states.
    fn after(&self, pair: u64, letter: u32) -> Option<Tail>
        requires positive { 0 < letter }
        requires letter { letter ≤ self.now.symbols.n }
        ensures { result ≡ tail_after
            self.now.symbols.n self.now.first.now self.now.second.now pair letter }
    {
        let padding = self.symbols.padding();
        let (p, q) = (first_state(pair), second_state(pair));
        let first = self.first.step(p, self.symbols.symbol(padding, letter));
        let second = self.second.step(q, self.symbols.symbol(letter, padding));
        if first == 0 || second == 0 {
            None
        } else {
            Some(Tail::At(number_of(first, second)))
        }
    }
}

/// Those of the pairs from which some rest of the middle word leads to acceptance: marked backwards from the pairs of
/// accepting states to which the rests lead, all at once.
pub(crate) fn ending_pairs(
    alloc: Global,
    symbols: PairSymbols,
    first: &Table,
    second: &Table,
    pairs: &PairSet,
) -> Result<PairSet, Memory>
    requires first { IsTable first.now }
    requires second { IsTable second.now }
    ensures { IfOk result (AreEnding symbols.n first.now second.now pairs.now) }
{
    let pairs = pairs.as_slice();
    if pairs.len() > u32::MAX as usize {
        return Err(Memory);
    }
    let table = tail_table(alloc, symbols, first, second, pairs)?;
    let moves = reversed(alloc, &table)?;
    let marks = live(alloc, &table, &moves)?;
    let ending = marked_pairs(alloc, &table, marks.as_slice(), pairs)?;
    Ok(PairSet::of(ending))
}

/// Those of the pairs whose state in the table of rests is marked.
fn marked_pairs(
    alloc: Global,
    table: &Table,
    marks: &[bool],
    pairs: &[u64],
) -> Result<Vec<u64>, Memory>
    requires few { length pairs.now < 2 ^ 32 }
    requires one_each { length marks.now ≡ length table.now.rows + 1 }
    ensures { IfOk result (λ ending.
        AreEndingBelow table.now marks.now pairs.now (length pairs.now) ending.items) }
{
    let mut ending = Vec::new(alloc);
    let mut number = 0;
    for pair in pairs {
        number += 1;
        if marks[table.step(table.initial(), number) as usize] {
            ending.push(*pair)?;
        }
    }
    Ok(ending)
}

/// The states to which rests lead from the pairs, each pair by its place from the initial state.
fn tail_table(
    alloc: Global,
    symbols: PairSymbols,
    first: &Table,
    second: &Table,
    pairs: &[u64],
) -> Result<Table, Memory>
    requires { length pairs.now < 2 ^ 32 }
    ensures { IfOk result (λ table. (states : List Spot) × ((origins : List (ℕ × ℕ))
        × IsExploration (tails symbols.n first.now second.now pairs.now) table states origins)) }
{
    let machine = Tails {
        symbols,
        first,
        second,
        pairs,
    };
    match explore(alloc, &machine, u32::MAX) {
        Ok(exploration) => Ok(exploration.table),
        Err(_) => Err(Memory),
    }
}
