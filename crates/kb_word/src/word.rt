//! Words: lists of letters.

ghost use Rattle.std.specs.Prelude.{◌≡◌, ◌↔◌, ◌<◌, ◌≤◌, ◌^◌, [], ◌∷◌, ◌++◌, IsTrue, IfOk, OnOk, OnErr, IfSome, IfNone, IsNone, length, All, take, reverse};
ghost use Rattle.kb_word.specs.Words.{EndsWith};

use crate::letter::Letter;
use crate::memory::Memory;
use std::alloc::Global;
use std::marker::Model;

/// A word: its letters from left to right. The empty word is printed `IdWord`.
#[derive(Debug, Drop)]
pub struct Word {
    letters: Vec<Letter>,
}

impl Model for Word {
    ghost use Rattle.std.specs.Prelude.{ℕ, List, All, ◌<◌, ◌^◌};

    ghost Value = { List ℕ };

    ghost view = { λ word. word.letters.items };

    ghost invariant = { λ word. All (λ letter. letter < 2 ^ 16) word.letters.items };
}

impl Word {
    /// The empty word.
    pub fn new(alloc: Global) -> Word
        ensures { result ≡ [] }
    {
        Word {
            letters: Vec::new(alloc),
        }
    }

    /// The word of these letters.
    pub fn from_vec(letters: Vec<Letter>) -> Word
        requires { All (λ letter. letter < 2 ^ 16) letters.items }
        ensures { result ≡ letters.items }
    {
        Word { letters }
    }

    /// The letters, given back without taking memory.
    pub fn into_vec(self) -> Vec<Letter>
        ensures letters { result.items ≡ self }
        ensures range { All (λ letter. letter < 2 ^ 16) result.items }
    {
        self.letters
    }

    /// The letters from left to right.
    pub fn letters(&self) -> &[Letter]
        ensures letters { result.now ≡ self.now }
        ensures range { All (λ letter. letter < 2 ^ 16) self.now }
    {
        self.letters.as_slice()
    }

    /// How many letters the word has.
    pub fn len(&self) -> usize
        ensures { result ≡ length self.now }
    {
        self.letters.len()
    }

    /// Whether this is the empty word.
    pub fn is_empty(&self) -> bool
        ensures { IsTrue result ↔ (self.now ≡ []) }
    {
        self.letters.is_empty()
    }

    /// Adds a letter at the end.
    pub fn push(&mut self, letter: Letter) -> Result<(), Memory>
        ensures ok { OnOk result (self.new ≡ self.old ++ letter ∷ []) }
        ensures err { OnErr result (self.new ≡ self.old) }
    {
        let _number = letter.number();
        self.letters.push(letter)?;
        Ok(())
    }

    /// Adds the letters of another word at the end.
    pub fn append(&mut self, other: &Word) -> Result<(), Memory>
        ensures ok { OnOk result (self.new ≡ self.old ++ other.now) }
        ensures err { OnErr result (self.new ≡ self.old) }
    {
        self.letters.extend_from_slice(other.letters())?;
        Ok(())
    }

    /// Adds these letters at the end. After want of memory some of them may stand there.
    pub fn extend_from_slice(&mut self, letters: &[Letter]) -> Result<(), Memory>
        ensures { OnOk result (self.new ≡ self.old ++ letters.now) }
    {
        for letter in letters {
            self.push(*letter)?;
        }
        Ok(())
    }

    /// Becomes a word of the same letters as another, and keeps its memory.
    pub fn assign(&mut self, other: &Word) -> Result<(), Memory>
        ensures ok { OnOk result (self.new ≡ other.now) }
        ensures err { OnErr result (self.new ≡ []) }
    {
        self.clear();
        self.append(other)
    }

    /// Becomes the empty word, and keeps its memory.
    pub fn clear(&mut self)
        ensures { self.new ≡ [] }
    {
        self.letters.clear();
    }

    /// Keeps the first letters only, as many as are named.
    pub fn truncate(&mut self, len: usize)
        ensures { self.new ≡ take len self.old }
    {
        self.letters.truncate(len);
    }

    /// Turns the order of the letters round.
    pub fn reverse(&mut self)
        ensures { self.new ≡ reverse self.old }
    {
        self.letters.reverse();
    }

    /// Whether the word ends with these letters. Every word ends with the empty word.
    pub fn ends_with(&self, suffix: &Word) -> bool
        ensures { IsTrue result ↔ EndsWith self.now suffix.now }
    {
        self.letters().ends_with(suffix.letters())
    }

    /// A word of the same letters.
    pub fn copy(&self, alloc: Global) -> Result<Word, Memory>
        ensures { IfOk result (λ word. word ≡ self.now) }
    {
        let mut word = Word::new(alloc);
        word.append(self)?;
        Ok(word)
    }
}
