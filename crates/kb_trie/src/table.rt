//! The steps by the letters of a short alphabet, in a table.

ghost use Rattle.std.specs.Prelude.{◌≡◌, ℕ, List, ◌<◌, ◌≤◌, ◌+◌, ◌*◌, ◌⊎◌, [], ◌∷◌, IfOk, IfSome, IfNone, OnOk, length, get_or};
ghost use Rattle.kb_trie.specs.Steps.{AreSteps, IsStep};
ghost use Rattle.kb_trie.specs.Walks.{IsAmong};

use crate::room::make_room;
use kb_word::Memory;
use std::alloc::Global;

/// How many entries a table may have, of four bytes each.
const MOST_ENTRIES: usize = 4_194_304;

/// For each state a row with the states after it by the letters below the width, or nothing, with a width of 0, where
/// that would be too large.
#[derive(Debug, Drop)]
pub struct Table {
    pub width: usize,
    /// The rows, one after another. There may be room for more.
    pub rows: Vec<u32>,
}

impl Table {
    /// The table of state 0 alone, for letters up to this one.
    pub fn root(alloc: Global, letters: u16) -> Result<Table, Memory>
        ensures width { IfOk result (λ table. table.width ≤ 65536) }
        ensures steps { IfOk result (λ table. AreSteps ([] ∷ []) table.width table.rows.items) }
    {
        let width = letters as usize + 1;
        let rows = vec![in alloc; 0; width]?;
        Ok(Table { width, rows })
    }

    /// The same table.
    pub fn copy(&self, alloc: Global) -> Result<Table, Memory>
        ensures width { IfOk result (λ table. table.width ≡ self.now.width) }
        ensures rows { IfOk result (λ table. table.rows.items ≡ self.now.rows.items) }
    {
        let rows = Vec::from_slice(alloc, &self.rows)?;
        Ok(Table {
            width: self.width,
            rows,
        })
    }

    /// The state after a letter more, if the letter is below the width.
    pub fn after(&self, state: u32, letter: u16) -> Option<u32>
        requires { (words : List (List ℕ)) × (state < length words)
            × AreSteps words self.now.width self.now.rows.items }
        ensures some { (words : List (List ℕ)) → state < length words
            → AreSteps words self.now.width self.now.rows.items
            → IfSome result (IsStep words state letter) }
        ensures none { IfNone result (self.now.width ≤ letter) }
    {
        let column = letter as usize;
        if column < self.width {
            Some(self.rows[state as usize * self.width + column])
        } else {
            None
        }
    }

    /// Makes room for the rows of so many states. Where they would be too many, the table goes.
    pub fn make_room(&mut self, states: usize) -> Result<(), Memory>
        ensures width { (self.new.width ≡ self.old.width) ⊎ (self.new.width ≡ 0) }
        ensures same { self.new.width ≡ self.old.width → (place : ℕ)
            → get_or self.new.rows.items place 0 ≡ get_or self.old.rows.items place 0 }
        ensures longer { self.new.width ≡ self.old.width
            → length self.old.rows.items ≤ length self.new.rows.items }
        ensures room { OnOk result (states * self.new.width ≤ length self.new.rows.items) }
    {
        match states.checked_mul(self.width) {
            Some(entries) if entries <= MOST_ENTRIES => make_room(&mut self.rows, entries),
            _ => {
                self.width = 0;
                self.rows.clear();
                self.rows.shrink_to_fit();
                Ok(())
            }
        }
    }

    /// Gives these states this step by a letter, if it is below the width.
    pub fn set_steps(&mut self, states: &[u32], letter: u16, after: u32)
        requires { (i : ℕ) → i < length states.now
            → get_or states.now i 0 * self.old.width + self.old.width ≤ length self.old.rows.items }
        ensures width { self.new.width ≡ self.old.width }
        ensures count { length self.new.rows.items ≡ length self.old.rows.items }
        ensures set { (state : ℕ) → IsAmong states.now state → letter < self.new.width
            → get_or self.new.rows.items (state * self.new.width + letter) 0 ≡ after }
        ensures others { (state other : ℕ) → other < self.new.width
            → (IsAmong states.now state → other ≡ letter → ⊥)
            → get_or self.new.rows.items (state * self.new.width + other) 0
            ≡ get_or self.old.rows.items (state * self.new.width + other) 0 }
    {
        if letter as usize >= self.width {
            return;
        }
        for state in states {
            self.rows[*state as usize * self.width + letter as usize] = after;
        }
    }

    /// Gives a state the steps of another one.
    pub fn copy_row(&mut self, from: u32, to: u32)
        requires from { from * self.old.width + self.old.width ≤ length self.old.rows.items }
        requires to { to * self.old.width + self.old.width ≤ length self.old.rows.items }
        requires apart { from < to }
        ensures width { self.new.width ≡ self.old.width }
        ensures count { length self.new.rows.items ≡ length self.old.rows.items }
        ensures row { (letter : ℕ) → letter < self.new.width
            → get_or self.new.rows.items (to * self.new.width + letter) 0
            ≡ get_or self.old.rows.items (from * self.new.width + letter) 0 }
        ensures others { (state letter : ℕ) → state < to → letter < self.new.width
            → get_or self.new.rows.items (state * self.new.width + letter) 0
            ≡ get_or self.old.rows.items (state * self.new.width + letter) 0 }
    {
        for column in 0..self.width {
            let after = self.rows[from as usize * self.width + column];
            self.rows[to as usize * self.width + column] = after;
        }
    }
}
