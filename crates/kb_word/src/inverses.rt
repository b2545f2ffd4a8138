//! The generators' inverses.

ghost use Rattle.std.specs.Prelude.{◌≡◌, ◌↔◌, [], length, slice_get, IsTrue, IfOk};
ghost use Rattle.kb_word.specs.Relations.{inverse_letter};

use crate::letter::Letter;
use crate::memory::Memory;
use std::alloc::Global;
use std::marker::Model;

/// The inverse of each generator that has one, in the order of their letters. Contracts see the list.
#[derive(Debug, Drop)]
pub struct Inverses {
    inverses: Vec<Option<Letter>>,
}

impl Model for Inverses {
    ghost use Rattle.std.specs.Prelude.{ℕ, List, Option};

    ghost Value = { List (Option ℕ) };

    ghost view = { λ inverses. inverses.inverses.items };
}

impl Inverses {
    /// These inverses, the first being that of letter 1.
    pub fn from_vec(inverses: Vec<Option<Letter>>) -> Inverses
        ensures { result ≡ inverses.items }
    {
        Inverses { inverses }
    }

    /// The inverses, given back without taking memory.
    pub fn into_vec(self) -> Vec<Option<Letter>>
        ensures { result.items ≡ self }
    {
        self.inverses
    }

    /// The inverses in the order of their letters.
    pub fn as_slice(&self) -> &[Option<Letter>]
        ensures { result.now ≡ self.now }
    {
        self.inverses.as_slice()
    }

    /// How many generators there are.
    pub fn len(&self) -> usize
        ensures { result ≡ length self.now }
    {
        self.inverses.len()
    }

    /// Whether there are no generators.
    pub fn is_empty(&self) -> bool
        ensures { IsTrue result ↔ (self.now ≡ []) }
    {
        self.inverses.is_empty()
    }

    /// The inverse of a letter, and `None` where it has none or is no generator.
    pub fn get(&self, letter: Letter) -> Option<Letter>
        ensures { result ≡ inverse_letter self.now letter }
    {
        let place = letter.number().checked_sub(1)?;
        self.inverses.get(place as usize).copied().flatten()
    }

    /// The same inverses.
    pub fn copy(&self, alloc: Global) -> Result<Inverses, Memory>
        ensures { IfOk result (λ inverses. inverses ≡ self.now) }
    {
        let inverses = Vec::from_slice(alloc, self.inverses.as_slice())?;
        Ok(Inverses { inverses })
    }
}
