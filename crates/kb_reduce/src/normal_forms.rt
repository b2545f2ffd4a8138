//! The answers of rules: normal forms.

use kb_index::Index;
use kb_lines::Answerer;
use kb_rules::{Reducer, Workspace};
use kb_word::{Memory, Word};
use kb_wordreader::WordReader;
use std::alloc::Global;

/// Answers a word of a presentation with its normal form by rules.
#[derive(Drop)]
pub struct NormalForms {
    /// The reader of words by the presentation.
    pub reader: WordReader,
    /// The rules.
    pub index: Index,
}

impl Answerer for NormalForms {
    ghost use Rattle.kb_word.specs.Presentations.{parts_of};
    ghost use Rattle.kb_word.specs.Rewriting.{NormalForm};

    type Workspace = Workspace;

    ghost parts = { λ it. parts_of it.reader.presentation };

    ghost answers = { λ it. NormalForm it.index.rules };

    fn reader(&self) -> &WordReader {
        &self.reader
    }

    fn workspace(&self, alloc: Global) -> Workspace {
        Workspace::new(alloc)
    }

    fn answer(&self, word: &mut Word, workspace: &mut Workspace) -> Result<(), Memory> {
        self.index.reduce(word, workspace)
    }
}
