//! The generators' names.

ghost use Rattle.std.specs.Prelude.{◌≡◌, ◌≢◌, ◌↔◌, ℕ, ◌+◌, ◌<◌, ◌≤◌, [], ◌∷◌, ◌++◌, length, slice_get, Some, IsTrue, IsFalse, IfOk, IfSome, IfNone, OnErr, Contains};
ghost use Rattle.std.specs.Option.{option_copied};
ghost use Rattle.std.specs.String.{string_bytes};
ghost use Rattle.kb_word.specs.Names.{name_of, AreApart};

use crate::letter::Letter;
use crate::memory::Memory;
use indexmap::IndexSet;
use std::alloc::Global;
use std::marker::Model;

/// The names of at most 65,534 generators, in the order of their letters, and no name twice. Contracts see
/// the list of the names' bytes.
///
/// They stand in an index set: a look-up by name takes one hash of the name, and a letter's name is read at
/// its place.
#[derive(Debug, Drop)]
pub struct Names {
    names: IndexSet<String>,
}

impl Model for Names {
    ghost use Rattle.std.specs.Prelude.{ℕ, List, map, length, ◌≤◌};
    ghost use Rattle.std.specs.String.{string_bytes};
    ghost use Rattle.kb_word.specs.Names.{AreApart};

    ghost Value = { List (List ℕ) };

    ghost view = { λ names. map string_bytes names.names.keys };

    ghost invariant = { λ names. (length names.names.keys ≤ 65534)
        × AreApart (map string_bytes names.names.keys) };
}

impl Names {
    /// No names.
    pub fn new(alloc: Global) -> Names
        ensures { result ≡ [] }
    {
        Names {
            names: IndexSet::new(alloc),
        }
    }

    /// Appends a name, and returns whether it wasn't there; one that was there is not appended again.
    ///
    /// Where memory runs out, the names are as they were.
    pub fn push(&mut self, name: String) -> Result<bool, Memory>
        requires { length self.old < 65534 }
        ensures new { IfOk result (λ new. IsTrue new
            → (¬ Contains self.old (string_bytes name))
            × (self.new ≡ self.old ++ string_bytes name ∷ [])) }
        ensures known { IfOk result (λ new. IsFalse new
            → Contains self.old (string_bytes name) × (self.new ≡ self.old)) }
        ensures kept { OnErr result (self.new ≡ self.old) }
    {
        Ok(self.names.insert(name)?)
    }

    /// How many names there are.
    pub fn len(&self) -> usize
        ensures count { result ≡ length self.now }
        ensures most { result ≤ 65534 }
        ensures apart { AreApart self.now }
    {
        self.names.len()
    }

    /// Whether there are no names.
    pub fn is_empty(&self) -> bool
        ensures { IsTrue result ↔ (self.now ≡ []) }
    {
        self.names.is_empty()
    }

    /// The name at a place, counted from 0: that of the letter with the next number.
    pub fn get(&self, place: usize) -> Option<&str>
        ensures { option_copied result ≡ slice_get self.now place }
    {
        self.names.get_index(place).map(|name| name.as_str())
    }

    /// The name of a letter, and `None` exactly where it has none.
    pub fn name_of(&self, letter: Letter) -> Option<&str>
        ensures { option_copied result ≡ name_of self.now letter }
    {
        let place = letter.number().checked_sub(1)?;
        self.get(place as usize)
    }

    /// The letter with this name, and `None` exactly where there is none.
    pub fn number_of(&self, name: &str) -> Option<Letter>
        ensures found { IfSome result (λ letter. name_of self.now letter ≡ Some name.now) }
        ensures first { IfSome result
            (λ letter. (earlier : ℕ) → earlier < letter
            → name_of self.now earlier ≢ Some name.now) }
        ensures none { IfNone result (¬ Contains self.now name.now) }
    {
        let place = self.names.get_index_of(name)?;
        Some(Letter::new(place as u16 + 1))
    }

    /// The same names.
    pub fn copy(&self, _alloc: Global) -> Result<Names, Memory>
        ensures { IfOk result (λ names. names ≡ self.now) }
    {
        // The set is cloned by its own allocator, and there is only this one.
        Ok(Names {
            names: self.names.clone()?,
        })
    }
}
