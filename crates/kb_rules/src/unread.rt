//! The part of a word that is still to be read.

ghost use Rattle.std.specs.Prelude.{◌≡◌, ◌<◌, ◌^◌, [], ◌∷◌, ◌++◌, OnOk, IfSome, IfNone, ◌≤◌, All, length, take, drop, reverse};

use kb_word::{Letter, Memory, Word};
use std::alloc::Global;
use std::marker::Model;

/// The letters that are still to be read. They are kept in a stack, the next one on top.
#[derive(Debug, Drop)]
pub struct Unread {
    stack: Vec<Letter>,
}

impl Model for Unread {
    ghost use Rattle.std.specs.Prelude.{ℕ, List, All, ◌<◌, ◌^◌, reverse};

    ghost Value = { List ℕ };

    ghost view = { λ unread. reverse unread.stack.items };

    ghost invariant = { λ unread. All (λ letter. letter < 2 ^ 16) (reverse unread.stack.items) };
}

impl Unread {
    /// No letters. It takes no memory.
    pub fn new(alloc: Global) -> Unread
        ensures { result ≡ [] }
    {
        Unread {
            stack: Vec::new(alloc),
        }
    }

    /// Has all letters of a word to read, and those alone.
    pub fn start(&mut self, word: &Word) -> Result<(), Memory>
        ensures ok { OnOk result (self.new ≡ word.now) }
        ensures range { All (λ letter. letter < 2 ^ 16) word.now }
    {
        self.stack.clear();
        self.put_back(word)
    }

    /// Reads the next letter.
    pub fn next(&mut self) -> Option<Letter>
        ensures some { IfSome result (λ letter. self.old ≡ letter ∷ self.new) }
        ensures none { IfNone result (self.old ≡ []) }
        ensures rest { IfNone result (self.new ≡ []) }
        ensures range { All (λ letter. letter < 2 ^ 16) self.old }
    {
        self.stack.pop()
    }

    /// Puts a word in front of what is still to be read.
    pub fn put_back(&mut self, word: &Word) -> Result<(), Memory>
        ensures ok { OnOk result (self.new ≡ word.now ++ self.old) }
        ensures range { All (λ letter. letter < 2 ^ 16) word.now }
    {
        let old_len = self.stack.len();
        self.stack.extend_from_slice(word.letters())?;
        reverse_from(&mut self.stack, old_len);
        Ok(())
    }
}

/// Reverses what stands from an index on.
fn reverse_from(letters: &mut [Letter], start: usize)
    requires { start ≤ length letters.old }
    ensures { letters.new ≡ take start letters.old ++ reverse (drop start letters.old) }
{
    letters[start..].reverse();
}
