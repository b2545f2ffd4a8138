//! Tables of deterministic automata.

ghost use Rattle.std.specs.Prelude.{◌≡◌, ◌↔◌, ◌≤◌, [], length, IsTrue, IfOk};
ghost use Rattle.std.specs.Slice.Iter.{iter_rest};
ghost use Rattle.kb_fsa.specs.Table.{Table, IsTable, IsRow, moves_of, is_accepting, step, after, AcceptsFrom};

use crate::rows::{Rows, target_of};
use kb_word::Memory;
use std::alloc::Global;
use std::marker::Model;
use std::slice::Iter;

/// The states of an automaton, numbered from 1, with their moves. State 0 stands for none.
#[derive(Debug, Drop)]
pub struct Table {
    initial: u32,
    rows: Rows,
    accepting: Vec<bool>,
}

impl Model for Table {
    ghost use Rattle.kb_fsa.specs.Table.{IsTable};

    ghost Value = { Rattle.kb_fsa.specs.Table.Table };

    ghost view = { λ table.
        record {
          initial = table.initial;
          rows = table.rows;
          accepting =
              table.accepting.items;
        } };

    ghost invariant = { λ table. IsTable
        (record {
          initial = table.initial;
          rows = table.rows;
          accepting =
              table.accepting.items;
        }) };
}

impl Table {
    /// The table with these parts: the initial state, or 0, and each state's row and whether it accepts.
    pub fn new(initial: u32, rows: Rows, accepting: Vec<bool>) -> Table
        requires { IsTable
            (record { initial = initial; rows = rows; accepting = accepting.items }) }
        ensures { result
            ≡ record { initial = initial; rows = rows; accepting = accepting.items } }
    {
        Table {
            initial,
            rows,
            accepting,
        }
    }

    /// The initial state, and 0 where there is none.
    pub fn initial(&self) -> u32
        ensures initial { result ≡ self.now.initial }
        ensures table { IsTable self.now }
    {
        self.initial
    }

    /// How many states there are.
    pub fn len(&self) -> u32
        ensures count { result ≡ length self.now.rows }
        ensures table { IsTable self.now }
    {
        self.rows.len() as u32
    }

    /// Whether there are no states.
    pub fn is_empty(&self) -> bool
        ensures { IsTrue result ↔ (self.now.rows ≡ []) }
    {
        self.rows.len() == 0
    }

    /// The rows of states 1, 2, and so on.
    pub fn rows(&self) -> &Rows
        ensures rows { result.now ≡ self.now.rows }
        ensures table { IsTable self.now }
    {
        &self.rows
    }

    /// Whether states 1, 2, and so on accept.
    pub fn accepting(&self) -> &[bool]
        ensures accepting { result.now ≡ self.now.accepting }
        ensures table { IsTable self.now }
    {
        self.accepting.as_slice()
    }

    /// The moves of a state, one after another, by ascending symbols; none where there is no such state.
    pub fn moves(&self, state: u32) -> Iter<'_, (u32, u32)>
        ensures moves { iter_rest result ≡ moves_of self.now state }
        ensures row { IsRow (moves_of self.now state) }
        ensures table { IsTable self.now }
    {
        self.row(state).iter()
    }

    /// Whether the state accepts.
    pub fn is_accepting(&self, state: u32) -> bool
        ensures { result ≡ is_accepting self.now state }
    {
        match state.checked_sub(1) {
            Some(place) => self.accepting.get(place as usize).copied().unwrap_or(false),
            None => false,
        }
    }

    /// The state to which a state's move by the symbol leads, and 0 where it has none.
    pub fn step(&self, state: u32, symbol: u32) -> u32
        ensures step { result ≡ step self.now state symbol }
        ensures within { result ≤ length self.now.rows }
    {
        target_of(self.row(state), symbol)
    }

    /// The same table.
    pub fn copy(&self, alloc: Global) -> Result<Table, Memory>
        ensures { IfOk result (λ table. table ≡ self.now) }
    {
        let rows = self.rows.copy(alloc)?;
        let mut accepting = Vec::with_capacity(alloc, self.accepting.len())?;
        accepting.extend_from_slice(self.accepting.as_slice())?;
        Ok(Table::new(self.initial, rows, accepting))
    }

    /// The moves of a state, by ascending symbols; none where there is no such state.
    pub fn row(&self, state: u32) -> &[(u32, u32)]
        ensures moves { result.now ≡ moves_of self.now state }
        ensures row { IsRow (moves_of self.now state) }
        ensures table { IsTable self.now }
    {
        match state.checked_sub(1) {
            Some(place) => self.rows.get(place as usize),
            None => &[],
        }
    }
}
