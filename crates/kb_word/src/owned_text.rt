//! Texts that statuses and refusals hold.

ghost use Rattle.std.specs.Prelude.{◌≡◌, IfOk, string_bytes};

use crate::memory::Memory;
use std::alloc::Global;
use std::fmt;
use std::marker::Model;

/// A text that is owned, seen by contracts as its bytes.
#[derive(Drop)]
pub struct OwnedText {
    string: String,
}

impl Model for OwnedText {
    ghost use Rattle.std.specs.Prelude.{ℕ, List, string_bytes};

    ghost Value = { List ℕ };

    ghost view = { λ text. string_bytes text.string };
}

impl OwnedText {
    /// The text of a string, made without taking memory.
    pub fn from_string(string: String) -> OwnedText
        ensures { result ≡ string_bytes string }
    {
        OwnedText { string }
    }

    /// The string, given back without taking memory.
    pub fn into_string(self) -> String
        ensures { string_bytes result ≡ self }
    {
        self.string
    }

    /// A copy of the text.
    pub fn from_str(alloc: Global, text: &str) -> Result<OwnedText, Memory>
        ensures { IfOk result (λ copy. copy ≡ text.now) }
    {
        Ok(OwnedText {
            string: String::from_str(alloc, text)?,
        })
    }

    /// The text itself.
    pub fn as_str(&self) -> &str
        ensures { result.now ≡ self.now }
    {
        self.string.as_str()
    }

    /// A text of the same bytes.
    pub fn copy(&self, alloc: Global) -> Result<OwnedText, Memory>
        ensures { IfOk result (λ copy. copy ≡ self.now) }
    {
        OwnedText::from_str(alloc, self.as_str())
    }
}

impl fmt::Display for OwnedText {
    fn fmt<W: fmt::Write>(&self, f: &mut fmt::Formatter<W>) -> fmt::Result {
        f.write_str(self.as_str())
    }
}

impl fmt::Debug for OwnedText {
    fn fmt<W: fmt::Write>(&self, f: &mut fmt::Formatter<W>) -> fmt::Result {
        f.write_str(self.as_str())
    }
}
