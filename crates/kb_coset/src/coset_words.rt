//! The answers of cosets: their least words.

ghost use Rattle.std.specs.Prelude.{◌≡◌};
ghost use Rattle.kb_word.specs.Presentations.{parts_of};
ghost use Rattle.kb_coset.specs.CosetWords.{AreCosetRules};

use crate::marker::{add_marker, remove_marker};
use kb_index::Index;
use kb_lines::Answerer;
use kb_reduced::reduced_complete_systems_are_complete;
use kb_rules::{Reducer, Workspace as Reducing};
use kb_word::{Memory, Word};
use kb_wordreader::WordReader;
use std::alloc::Global;
use std::marker::Model;

/// Answers a word of a presentation with the least word of its right coset, by the reduced complete system of the
/// presentation that marks the cosets. Contracts see the presentation's parts and the subgroup's generators.
#[derive(Drop)]
pub struct CosetWords {
    reader: WordReader,
    generators: Vec<Word>,
    index: Index,
}

impl Model for CosetWords {
    ghost use Rattle.kb_word.specs.Presentations.{parts_of};
    ghost use Rattle.kb_coset.specs.CosetWords.{Cosets, AreCosetRules};

    ghost Value = { Cosets };

    ghost view = { λ it.
        record { parts = parts_of it.reader.presentation; generators = it.generators.items } };

    ghost invariant = { λ it. AreCosetRules it.reader.presentation.n
        (record { parts = parts_of it.reader.presentation; generators = it.generators.items })
        it.index.rules };
}

/// The memory that words are answered in, kept from word to word.
#[derive(Drop)]
pub struct Workspace {
    marked: Word,
    reducing: Reducing,
}

impl CosetWords {
    /// Answers words of the reader's presentation by these rules, which are those of the cosets of what the words
    /// generate.
    pub fn new(reader: WordReader, generators: Vec<Word>, index: Index) -> CosetWords
        requires { AreCosetRules reader.presentation.n
            (record { parts = parts_of reader.presentation; generators = generators.items })
            index.rules }
        ensures { result
            ≡ record { parts = parts_of reader.presentation; generators = generators.items } }
    {
        CosetWords {
            reader,
            generators,
            index,
        }
    }
}

impl Answerer for CosetWords {
    ghost use Rattle.kb_coset.specs.CosetWords.{IsLeastOf};

    type Workspace = Workspace;

    ghost parts = { λ cosets. cosets.parts };

    ghost answers = { IsLeastOf };

    fn reader(&self) -> &WordReader {
        &self.reader
    }

    fn workspace(&self, alloc: Global) -> Workspace {
        Workspace {
            marked: Word::new(alloc),
            reducing: Reducing::new(alloc),
        }
    }

    fn answer(&self, word: &mut Word, workspace: &mut Workspace) -> Result<(), Memory> {
        reduced_complete_systems_are_complete();
        let Workspace { marked, reducing } = workspace;
        add_marker(self.reader.presentation.n, word, marked)?;
        self.index.reduce(marked, reducing)?;
        remove_marker(marked, word)
    }
}
