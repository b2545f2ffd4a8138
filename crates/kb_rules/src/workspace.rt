//! The memory that reductions work in.

ghost use Rattle.std.specs.Prelude.{◌≡◌, ◌<◌, ◌^◌, [], OnOk, All};

use crate::unread::Unread;
use kb_word::{Memory, Word};
use std::alloc::Global;

/// The memory that a reduction works in, kept for the next one. What it holds before and after counts for nothing.
#[derive(Debug, Drop)]
pub struct Workspace {
    /// What is read of the word.
    pub front: Word,
    /// What is still to be read.
    pub unread: Unread,
    /// The states of an automaton after none of the letters that are read, after the first, and so on.
    pub states: Vec<u32>,
}

impl Workspace {
    /// A workspace that has taken no memory yet.
    pub fn new(alloc: Global) -> Workspace {
        Workspace {
            front: Word::new(alloc),
            unread: Unread::new(alloc),
            states: Vec::new(alloc),
        }
    }

    /// Has a word to read, of which nothing is read yet.
    pub fn start(&mut self, word: &Word) -> Result<(), Memory>
        ensures front { self.new.front ≡ [] }
        ensures unread { OnOk result (self.new.unread ≡ word.now) }
        ensures states { self.new.states.items ≡ [] }
        ensures range { All (λ letter. letter < 2 ^ 16) word.now }
    {
        self.front.clear();
        self.states.clear();
        self.unread.start(word)
    }
}
