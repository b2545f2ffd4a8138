//! The moves of states, side by side.

ghost use Rattle.std.specs.Prelude.{◌≡◌, ◌≤◌, [], ◌∷◌, ◌++◌, All, IfOk, OnOk, OnErr, length, get_or};
ghost use Rattle.kb_fsa.specs.Table.{IsRow, IsSplit, target};

use kb_ragged::Ragged;
use kb_word::Memory;
use std::alloc::Global;
use std::marker::Model;

/// The moves of states, one state's behind another's: a row is symbols, ascending, each with the state to which it
/// leads. They stand in one array, so that a state takes four bytes beside its moves.
#[derive(Debug, Drop)]
pub struct Rows {
    lists: Ragged<(u32, u32)>,
}

impl Model for Rows {
    ghost use Rattle.std.specs.Prelude.{List, All};
    ghost use Rattle.kb_fsa.specs.Table.{Moves, IsRow};

    ghost Value = { List Moves };

    ghost view = { λ rows. rows.lists };

    ghost invariant = { λ rows. All IsRow rows.lists };
}

impl Rows {
    /// No rows.
    pub fn new(alloc: Global) -> Result<Rows, Memory>
        ensures { IfOk result (λ rows. rows ≡ []) }
    {
        let lists = Ragged::new(alloc)?;
        Ok(Rows { lists })
    }

    /// How many rows there are.
    pub fn len(&self) -> usize
        ensures { result ≡ length self.now }
    {
        self.lists.len()
    }

    /// The row at a place; no moves past the last one.
    pub fn get(&self, place: usize) -> &[(u32, u32)]
        ensures moves { result.now ≡ get_or self.now place [] }
        ensures row { IsRow result.now }
        ensures rows { All IsRow self.now }
    {
        match self.lists.get(place) {
            Some(row) => row,
            None => &[],
        }
    }

    /// Adds a row at the end. Where memory runs out, the rows are as they were.
    pub fn push(&mut self, row: &[(u32, u32)]) -> Result<(), Memory>
        requires { IsRow row.now }
        ensures pushed { OnOk result (self.new ≡ self.old ++ row.now ∷ []) }
        ensures kept { OnErr result (self.new ≡ self.old) }
    {
        self.lists.push(row)
    }

    /// The same rows.
    pub fn copy(&self, alloc: Global) -> Result<Rows, Memory>
        ensures { IfOk result (λ rows. rows ≡ self.now) }
    {
        let mut copies = Rows::new(alloc)?;
        for place in 0..self.len() {
            copies.push(self.get(place))?;
        }
        Ok(copies)
    }
}

/// Where the moves of a state lead by the symbol, and 0 where there is no move by it. The search halves the row at each
/// look.
pub fn target_of(moves: &[(u32, u32)], symbol: u32) -> u32
    requires { IsRow moves.now }
    ensures { result ≡ target moves.now symbol }
{
    match moves.binary_search_by_key(&symbol, |entry| entry.0) {
        Ok(place) => moves[place].1,
        Err(_) => 0,
    }
}

/// Where moves by ascending symbols, none below this one, lead by the symbol, or 0, and the moves by greater symbols.
pub fn split_at_symbol(moves: &[(u32, u32)], symbol: u32) -> (u32, &[(u32, u32)])
    requires row { IsRow moves.now }
    requires low { All (λ move. symbol ≤ move.0) moves.now }
    ensures { IsSplit moves.now symbol result.0 result.1.now }
{
    match moves.split_first() {
        Some((least, rest)) if least.0 == symbol => (least.1, rest),
        _ => (0, moves),
    }
}
