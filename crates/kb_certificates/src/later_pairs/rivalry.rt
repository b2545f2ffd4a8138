//! The machine that guesses a rival.

ghost use Rattle.std.specs.Prelude.{◌≡◌, ◌<◌, ◌++◌, map, IfOk, OnOk};
ghost use Rattle.std.specs.List.{filter_map};
ghost use Rattle.std.proofs.Common.{rules};
ghost use Rattle.kb_fsa.specs.Table.{moves_of};
ghost use Rattle.kb_fsa.specs.PairSymbols.{first_letter, second_letter};
ghost use Rattle.kb_certificates.specs.Rivalry.{compared, goes_on, paused, rival_at, rival_by, rivals_by, rivalry, with_rival};
ghost use Rattle.kb_certificates.specs.Reading.{ReadsPairs, reads_pairs};

use crate::later_pairs::relation::Relation;
use crate::later_pairs::rivals::Rivals;
use kb_branching::Branching;
use kb_fsa::{Alphabet, Fsa, PairSymbols};
use kb_word::Memory;
use std::alloc::Global;

/// An automaton of pairs whose pairs are read beside rivals.
#[derive(Drop)]
pub(crate) struct Rivalry<'a> {
    /// The automaton.
    pub(crate) pairs: &'a Fsa,
    /// The symbols of its pairs.
    pub(crate) symbols: PairSymbols,
    pub(crate) ghost reads: { ReadsPairs symbols.n pairs.now.table },
}

impl<'a> Branching for Rivalry<'a> {
    type State = Rivals;

    ghost machine = { λ it. rivalry it.symbols.n it.pairs.now.table };

    fn alphabet(&self) -> Alphabet {
        Alphabet::Pair(self.symbols.n)
    }

    fn starts(&self, alloc: Global) -> Result<Vec<Rivals>, Memory> {
        let mut starts = Vec::new(alloc);
        let state = self.pairs.initial();
        if state != 0 {
            starts.push(Rivals {
                own: state,
                rival: state,
                relation: Relation::Same,
            })?;
        }
        Ok(starts)
    }

    fn moves(&self, alloc: Global, rivals: &Rivals) -> Result<Vec<(u32, Rivals)>, Memory> {
        let mut moves = Vec::new(alloc);
        for (symbol, own) in self.pairs.moves(rivals.own).as_slice() {
            let after = self.rivals_after(alloc, rivals, *symbol)?;
            push_each(&mut moves, *symbol, *own, after.as_slice())?;
        }
        Ok(moves)
    }

    fn accepts(&self, rivals: &Rivals) -> bool {
        let own = self.pairs.is_accepting(rivals.own);
        let rival = self.pairs.is_accepting(rivals.rival);
        own && rival && matches!(rivals.relation, Relation::Earlier | Relation::Ended)
    }

    ghost same_state = { Prim.search rules };

    ghost reads_alphabet = { λ it. reads_pairs it.symbols.n it.pairs.now.table it.reads };
}

impl<'a> Rivalry<'a> {
    /// Where the rival may be after a symbol of the pair.
    fn rivals_after(
        &self,
        alloc: Global,
        rivals: &Rivals,
        symbol: u32,
    ) -> Result<Vec<(u32, Relation)>, Memory>
        ensures { IfOk result (λ after. after.items ≡ rivals_by self.now.symbols.n
            self.now.pairs.now.table rivals.now.rival rivals.now.relation
            (first_letter self.now.symbols.n symbol) (second_letter self.now.symbols.n symbol)) }
    {
        let first = self.symbols.first(symbol);
        let second = self.symbols.second(symbol);
        let paused = self.paused(rivals.rival, first);
        if !goes_on(self.symbols, rivals.relation, second) {
            return rival_at(alloc, paused, rivals.relation);
        }
        let mut after = rival_at(alloc, paused, Relation::Ended)?;
        self.push_letters(rivals, first, second, &mut after)?;
        Ok(after)
    }

    /// Where the rival's padding leads beside a letter of the first word, or beside its padding.
    fn paused(&self, state: u32, first: u32) -> u32
        requires { 0 < first }
        ensures { result ≡ paused self.now.symbols.n self.now.pairs.now.table state first }
    {
        if first <= u32::from(self.symbols.n) {
            let symbol = self.symbols.symbol(first, self.symbols.padding());
            self.pairs.step(state, symbol)
        } else {
            state
        }
    }

    /// Adds where the rival's letters lead beside the letters of a pair.
    fn push_letters(
        &self,
        rivals: &Rivals,
        first: u32,
        second: u32,
        after: &mut Vec<(u32, Relation)>,
    ) -> Result<(), Memory>
        ensures { OnOk result (after.new.items ≡ after.old.items ++ filter_map
            (rival_by self.now.symbols.n rivals.now.relation first second)
            (moves_of self.now.pairs.now.table rivals.now.rival)) }
    {
        for entry in self.pairs.moves(rivals.rival).as_slice() {
            let next = rival_by(self.symbols, rivals.relation, first, second, *entry);
            if let Some(rival) = next {
                after.push(rival)?;
            }
        }
        Ok(())
    }
}

/// Whether the rival may have a letter beside the second word's letter or padding.
fn goes_on(symbols: PairSymbols, relation: Relation, second: u32) -> bool
    ensures { result ≡ goes_on symbols.n relation second }
{
    relation != Relation::Ended && second != symbols.padding()
}

/// Where a move leads, if it has this first letter and a letter of the rival, beside the second word's letter.
fn rival_by(
    symbols: PairSymbols,
    relation: Relation,
    first: u32,
    second: u32,
    entry: (u32, u32),
) -> Option<(u32, Relation)>
    ensures { result ≡ rival_by symbols.n relation first second entry }
{
    let (symbol, rival) = entry;
    if symbols.first(symbol) == first && !symbols.pads_second(symbol) {
        let letter = symbols.second(symbol);
        Some((rival, compared(relation, letter, second)))
    } else {
        None
    }
}

/// How the rival compares after a letter more of each.
fn compared(relation: Relation, letter: u32, second: u32) -> Relation
    ensures { result ≡ compared relation letter second }
{
    match relation {
        Relation::Same if letter < second => Relation::Earlier,
        Relation::Same if letter > second => Relation::Later,
        _ => relation,
    }
}

/// The state, if it is one, with the relation.
fn rival_at(alloc: Global, state: u32, relation: Relation) -> Result<Vec<(u32, Relation)>, Memory>
    ensures { IfOk result (λ after. after.items ≡ rival_at state relation) }
{
    let mut after = Vec::new(alloc);
    if state != 0 {
        after.push((state, relation))?;
    }
    Ok(after)
}

/// Adds the moves by one symbol, to one state after the pair.
fn push_each(
    moves: &mut Vec<(u32, Rivals)>,
    symbol: u32,
    own: u32,
    after: &[(u32, Relation)],
) -> Result<(), Memory>
    ensures { OnOk result
        (moves.new.items ≡ moves.old.items ++ map (with_rival symbol own) after.now) }
{
    for (rival, relation) in after {
        moves.push((
            symbol,
            Rivals {
                own,
                rival: *rival,
                relation: *relation,
            },
        ))?;
    }
    Ok(())
}
