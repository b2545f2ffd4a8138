//! The equations of a presentation: pairs of words.

ghost use Rattle.std.specs.Prelude.{◌≡◌, ◌↔◌, [], length, slice_get, IsTrue, IfOk};
ghost use Rattle.std.specs.Option.{option_copied};

use crate::memory::Memory;
use crate::word::Word;
use std::alloc::Global;
use std::marker::Model;

/// Equations, each a pair of words, left side first. Contracts see the list of pairs.
#[derive(Debug, Drop)]
pub struct Equations {
    equations: Vec<(Word, Word)>,
}

impl Model for Equations {
    ghost use Rattle.std.specs.Prelude.{ℕ, List};

    ghost Value = { List (List ℕ × List ℕ) };

    ghost view = { λ equations. equations.equations.items };
}

impl Equations {
    /// These equations.
    pub fn from_vec(equations: Vec<(Word, Word)>) -> Equations
        ensures { result ≡ equations.items }
    {
        Equations { equations }
    }

    /// The equations, given back without taking memory.
    pub fn into_vec(self) -> Vec<(Word, Word)>
        ensures { result.items ≡ self }
    {
        self.equations
    }

    /// The equations in order.
    pub fn as_slice(&self) -> &[(Word, Word)]
        ensures { result.now ≡ self.now }
    {
        self.equations.as_slice()
    }

    /// How many equations there are.
    pub fn len(&self) -> usize
        ensures { result ≡ length self.now }
    {
        self.equations.len()
    }

    /// Whether there are no equations.
    pub fn is_empty(&self) -> bool
        ensures { IsTrue result ↔ (self.now ≡ []) }
    {
        self.equations.is_empty()
    }

    /// The equation at a place, counted from 0.
    pub fn get(&self, place: usize) -> Option<&(Word, Word)>
        ensures { option_copied result ≡ slice_get self.now place }
    {
        self.equations.get(place)
    }

    /// The same equations.
    pub fn copy(&self, alloc: Global) -> Result<Equations, Memory>
        ensures { IfOk result (λ equations. equations ≡ self.now) }
    {
        let equations = copy_pairs(alloc, self.equations.as_slice())?;
        Ok(Equations { equations })
    }
}

/// A pair of the same words.
pub fn copy_pair(alloc: Global, pair: &(Word, Word)) -> Result<(Word, Word), Memory>
    ensures { IfOk result (λ copy. copy ≡ pair.now) }
{
    let left = pair.0.copy(alloc)?;
    let right = pair.1.copy(alloc)?;
    Ok((left, right))
}

/// The same pairs of words, in order.
pub fn copy_pairs(alloc: Global, pairs: &[(Word, Word)]) -> Result<Vec<(Word, Word)>, Memory>
    ensures { IfOk result (λ copies. copies.items ≡ pairs.now) }
{
    let mut copies = Vec::with_capacity(alloc, pairs.len())?;
    for pair in pairs {
        copies.push(copy_pair(alloc, pair)?)?;
    }
    Ok(copies)
}
