//! What answers a word.

ghost use Rattle.std.specs.Prelude.{◌≡◌, ℕ, List, length, OnOk};
ghost use Rattle.kb_word.specs.Presentations.{PresentationParts, parts_of};
ghost use Rattle.kb_word.specs.Relations.{IsOver};

use kb_word::{Memory, Word};
use kb_wordreader::WordReader;
use std::alloc::Global;

/// Answers words over the letters of a presentation, each with a word.
pub trait Answerer {
    /// The memory that it works in, kept from word to word. What it holds before and after counts for nothing.
    type Workspace: Drop;

    /// The presentation.
    ghost parts: { Self → PresentationParts };

    /// The second word is an answer to the first.
    ghost answers: { Self → List ℕ → List ℕ → Type 0 };

    /// The reader of words by the presentation, by whose names they are also printed.
    fn reader(&self) -> &WordReader
        ensures { parts_of result.now.presentation ≡ parts self.now };

    /// A workspace that has taken no memory yet.
    fn workspace(&self, alloc: Global) -> Self::Workspace;

    /// Replaces a word by an answer to it. After want of memory the word is of no use.
    fn answer(&self, word: &mut Word, workspace: &mut Self::Workspace) -> Result<(), Memory>
        requires over { IsOver (length (parts self.now).names) word.old }
        ensures { OnOk result (answers self.now word.old word.new) };
}
