//! For each length the states from which some text of that length leads to acceptance.

ghost use Rattle.std.specs.Prelude.{◌≡◌, ◌↔◌, ◌+◌, ◌<◌, ◌≤◌, ◌^◌, ◌&&◌, ◌++◌, ℕ, nat_lt, IsTrue, IfOk, IfSome, IfNone, OnOk, OnErr, length, map};
ghost use Rattle.std.specs.List.{find};
ghost use Rattle.kb_fsa.specs.Table.{Ascends, IsTable, HasSymbols};
ghost use Rattle.kb_fsadet.specs.SubsetConstruction.{is_member, set_of};
ghost use Rattle.kb_fsarat.specs.Layers.{HasText, targets_of_each, AreTurned, IsLayer, ComesRound, IsFirstMove, NoMove};

use crate::reversal::{accepting_states, reversed_rows};
use indexmap::IndexSet;
use kb_fsa::Table;
use kb_fsadet::{Branches, StateSet, moves_at};
use kb_word::Memory;
use std::alloc::Global;
use std::marker::Model;

/// The states that accept.
fn accepting_set(alloc: Global, table: &Table) -> Result<StateSet, Memory>
    requires { IsTable table.now }
    ensures { IfOk result (IsLayer table.now 0) }
{
    let states = accepting_states(alloc, table.accepting())?;
    Ok(StateSet::of(states))
}

/// The states of which some move leads to a member, by all moves turned round.
fn set_before(alloc: Global, set: &StateSet, turned: &[Branches]) -> Result<StateSet, Memory>
    ensures { IfOk result (λ before. before ≡ set_of (targets_of_each turned.now set.now)) }
{
    let mut sources = Vec::new(alloc);
    for member in set.as_slice() {
        push_targets(&mut sources, moves_at(turned, *member))?;
    }
    Ok(StateSet::of(sources))
}

/// The first of the moves, whose symbols ascend, that leads to a member by a symbol above the floor.
fn first_move_into(set: &StateSet, moves: &[(u32, u32)], floor: u32) -> Option<(u32, u32)>
    requires { Ascends moves.now }
    ensures { result ≡ find (λ move. nat_lt floor move.0 && is_member set.now move.1) moves.now }
{
    let above = moves.partition_point(|entry| entry.0 <= floor);
    moves[above..]
        .iter()
        .find(|(_, target)| set.contains(*target))
        .copied()
}

/// Adds where the moves lead.
fn push_targets(states: &mut Vec<u32>, moves: &[(u32, u32)]) -> Result<(), Memory>
    ensures { OnOk result (states.new.items ≡ states.old.items ++ map (λ move. move.1) moves.now) }
{
    for (_, target) in moves {
        states.push(*target)?;
    }
    Ok(())
}

/// The sets of a table's states for the lengths from 0 on. Set k has exactly the states from which
/// some text of length k leads to acceptance; each is made when it is asked for, from the members
/// of the one before by the moves turned round. Once the next one is the same as one that is kept
/// already, the sets from that one on repeat for all further lengths, and no more are kept.
#[derive(Drop)]
pub(crate) struct Layers<'a> {
    table: &'a Table,
    turned: Option<Vec<Branches>>,
    sets: IndexSet<StateSet>,
    /// The place of the set that comes again after the last one, once it is known.
    repeats_from: Option<usize>,
}

impl<'a> Model for Layers<'a> {
    ghost use Rattle.std.specs.Prelude.{IfSome};
    ghost use Rattle.kb_fsarat.specs.Layers.{Layering, IsLayering, AreTurned, lengths};

    ghost Value = { Layering };

    ghost view = { λ layers.
        record { table = layers.table.now; count = lengths layers.repeats_from layers.sets.keys } };

    ghost invariant = { λ layers. IsLayering layers.table.now layers.sets.keys layers.repeats_from
        × IfSome layers.turned (λ rows. AreTurned layers.table.now rows.items) };
}

impl<'a> Layers<'a> {
    /// The sets of the table, of which none is made.
    pub(crate) fn new(alloc: Global, table: &'a Table) -> Layers<'a>
        requires table { IsTable table.now }
        requires symbols { HasSymbols 65534 table.now }
        ensures { result ≡ record { table = table.now; count = 0 } }
    {
        Layers {
            table,
            turned: None,
            sets: IndexSet::new(alloc),
            repeats_from: None,
        }
    }

    /// The table.
    pub(crate) fn table(&self) -> &'a Table
        ensures { result.now ≡ self.now.table }
    {
        self.table
    }

    /// Makes the sets up to that of this length.
    pub(crate) fn reach(&mut self, alloc: Global, length: usize) -> Result<(), Memory>
        ensures table { self.new.table ≡ self.old.table }
        ensures count { self.old.count ≤ self.new.count }
        ensures ok { OnOk result (length < self.new.count) }
    {
        while !self.reaches(length) {
            self.grow(alloc)?;
        }
        Ok(())
    }

    /// Whether the set of the length is made.
    fn reaches(&self, length: usize) -> bool
        ensures { IsTrue result ↔ length < self.now.count }
    {
        self.repeats_from.is_some() || length < self.sets.len()
    }

    /// Makes the set of the next length.
    fn grow(&mut self, alloc: Global) -> Result<(), Memory>
        requires { self.old.count < 2 ^ 64 }
        ensures table { self.new.table ≡ self.old.table }
        ensures ok { OnOk result (self.old.count < self.new.count) }
        ensures err { OnErr result (self.new.count ≡ self.old.count) }
    {
        let set = self.next(alloc)?;
        let (place, is_new) = self.sets.insert_full(set)?;
        if !is_new {
            self.repeats_from = Some(place);
        }
        Ok(())
    }

    /// The set of the next length.
    fn next(&mut self, alloc: Global) -> Result<StateSet, Memory>
        requires { self.old.count < 2 ^ 64 }
        ensures layers { self.new ≡ self.old }
        ensures set { IfOk result (IsLayer self.old.table self.old.count) }
    {
        let Some(last) = self.sets.last() else {
            return accepting_set(alloc, self.table);
        };
        let turned = reversed_once(alloc, self.table, self.turned.take())?;
        let set = set_before(alloc, last, turned.as_slice());
        self.turned = Some(turned);
        set
    }

    /// The set of the length.
    fn set(&self, length: usize) -> &StateSet
        requires { length < self.now.count }
        ensures layer { IsLayer self.now.table length result.now }
        ensures table { IsTable self.now.table }
        ensures symbols { HasSymbols 65534 self.now.table }
    {
        &self.sets[place_of(length, self.sets.len(), self.repeats_from)]
    }

    /// Whether no text of the length leads to acceptance from any state.
    pub(crate) fn is_empty(&self, length: usize) -> bool
        requires { length < self.now.count }
        ensures { IsTrue result ↔ ((state : ℕ) → ¬ HasText self.now.table length state) }
    {
        self.set(length).is_empty()
    }

    /// Whether some text of the length leads to acceptance from the state.
    pub(crate) fn contains(&self, length: usize, state: u32) -> bool
        requires { length < self.now.count }
        ensures { IsTrue result ↔ HasText self.now.table length state }
    {
        self.set(length).contains(state)
    }

    /// The state's first move by a symbol above the floor to a state from which some text of the
    /// length leads to acceptance.
    pub(crate) fn first_move(&self, length: usize, state: u32, floor: u32) -> Option<(u32, u32)>
        requires { length < self.now.count }
        ensures some { IfSome result (IsFirstMove self.now.table length state floor) }
        ensures none { IfNone result (NoMove self.now.table length state floor) }
        ensures table { IsTable self.now.table }
    {
        first_move_into(self.set(length), self.table.moves(state).as_slice(), floor)
    }
}

/// The table's moves turned round, which may be made already.
fn reversed_once(
    alloc: Global,
    table: &Table,
    made: Option<Vec<Branches>>,
) -> Result<Vec<Branches>, Memory>
    requires table { IsTable table.now }
    requires made { IfSome made (λ rows. AreTurned table.now rows.items) }
    ensures { IfOk result (λ rows. AreTurned table.now rows.items) }
{
    match made {
        Some(rows) => Ok(rows),
        None => reversed_rows(alloc, table.rows()),
    }
}

/// Where the set of the length is kept, of so many that are. Past the last of them those from a place on repeat.
fn place_of(length: usize, kept: usize, repeats_from: Option<usize>) -> usize
    requires start { IfSome repeats_from (λ start. start < kept) }
    requires within { IfNone repeats_from (length < kept) }
    ensures none { IfNone repeats_from (result ≡ length) }
    ensures some { IfSome repeats_from (λ start. ComesRound start kept length result) }
{
    match repeats_from {
        Some(start) if kept <= length => start + (length - start) % (kept - start),
        _ => length,
    }
}
