//! The answers of a group's own automatic structure: least words.

ghost use Rattle.std.specs.Prelude.{◌≡◌};
ghost use Rattle.kb_word.specs.Presentations.{parts_of};
ghost use Rattle.kb_reduce.specs.Leading.{LeadToLeastWords};

use kb_fsa::Fsa;
use kb_lines::Answerer;
use kb_relations::{Workspace, own_structures_lead_to_least_words, reduce};
use kb_word::{Memory, Word};
use kb_wordreader::WordReader;
use std::alloc::Global;
use std::marker::Model;

/// Answers a word of a group's presentation with its least word, by the group's own word acceptor and multipliers.
/// Contracts see the parts of the presentation.
#[derive(Drop)]
pub struct LeastWords {
    reader: WordReader,
    acceptor: Fsa,
    multipliers: Vec<Fsa>,
}

impl Model for LeastWords {
    ghost use Rattle.kb_word.specs.Presentations.{PresentationParts, parts_of};
    ghost use Rattle.kb_reduce.specs.Leading.{LeadToLeastWords};

    ghost Value = { PresentationParts };

    ghost view = { λ it. parts_of it.reader.presentation };

    ghost invariant = { λ it. LeadToLeastWords it.reader.presentation it.acceptor
        it.multipliers.items };
}

impl LeastWords {
    /// Answers words of the reader's presentation by these automata, which are its group's own.
    pub fn new(reader: WordReader, acceptor: Fsa, multipliers: Vec<Fsa>) -> LeastWords
        requires { LeadToLeastWords reader.presentation acceptor multipliers.items }
        ensures { result ≡ parts_of reader.presentation }
    {
        LeastWords {
            reader,
            acceptor,
            multipliers,
        }
    }
}

impl Answerer for LeastWords {
    ghost use Rattle.kb_word.specs.Congruence.{IsLeast};
    ghost use Rattle.kb_word.specs.Relations.{relations_of};
    ghost use Rattle.kb_word.specs.WordOrders.{Below};

    type Workspace = Workspace;

    ghost parts = { λ parts. parts };

    ghost answers = { λ parts. IsLeast (Below parts.order)
        (relations_of parts.inverses parts.equations) };

    fn reader(&self) -> &WordReader {
        &self.reader
    }

    fn workspace(&self, alloc: Global) -> Workspace {
        Workspace::new(alloc)
    }

    fn answer(&self, word: &mut Word, workspace: &mut Workspace) -> Result<(), Memory> {
        own_structures_lead_to_least_words();
        let alloc = workspace.allocator();
        reduce(alloc, &self.acceptor, &self.multipliers, word, workspace)
    }
}
