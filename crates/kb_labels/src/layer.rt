//! First words of one length.

ghost use Rattle.std.specs.Prelude.{◌≡◌, ◌↔◌, ◌<◌, [], length, IsTrue, OnOk};
ghost use Rattle.kb_labels.specs.Layers.{Adds, IsOne, KeepsLesser};

use crate::config::Config;
use indexmap::IndexSet;
use kb_word::{Memory, Word, less};
use std::alloc::Global;

/// States with labels, and for each the least word of one length that leads there.
#[derive(Drop)]
pub(crate) struct Layer {
    /// The states with their labels.
    pub(crate) configs: IndexSet<Config>,
    /// The words, in the same order.
    pub(crate) words: Vec<Word>,
}

impl Layer {
    /// No words.
    pub(crate) fn new(alloc: Global) -> Layer
        ensures configs { result.configs.keys ≡ [] }
        ensures words { result.words.items ≡ [] }
    {
        Layer {
            configs: IndexSet::new(alloc),
            words: Vec::new(alloc),
        }
    }

    /// Whether there are no words.
    pub(crate) fn is_empty(&self) -> bool
        ensures { IsTrue result ↔ (self.now.words.items ≡ []) }
    {
        self.words.is_empty()
    }

    /// Adds a word beside a state with a label. Where one stands there already, the lesser one stays.
    pub(crate) fn add(&mut self, config: Config, word: Word) -> Result<(), Memory>
        requires { length self.old.words.items ≡ length self.old.configs.keys }
        ensures { OnOk result (Adds (IsOne config word) self.old.configs.keys
            self.old.words.items self.new.configs.keys self.new.words.items) }
    {
        let (index, is_new) = self.configs.insert_full(config)?;
        if is_new {
            self.words.push(word)?;
        } else {
            keep_lesser(&mut self.words, index, word);
        }
        Ok(())
    }
}

/// Keeps the lesser of the word at the index and another one.
fn keep_lesser(words: &mut Vec<Word>, index: usize, word: Word)
    requires { index < length words.old.items }
    ensures { KeepsLesser words.old.items index word words.new.items }
{
    if less(&word, &words[index]) {
        words[index] = word;
    }
}
