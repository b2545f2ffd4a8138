//! What is answered where the differences of two words are added.

ghost use Rattle.std.specs.Prelude.{◌≡◌, ◌↔◌, IsTrue};
ghost use Rattle.kb_diff.specs.Keeping.{IsFull, both_answers};

use kb_word::Word;

/// What came of adding the differences of two words.
#[derive(Debug, Drop)]
pub enum Grow {
    /// All are kept, and some of them were not before.
    Grew,
    /// All were kept before.
    Same,
    /// As many words are kept as there may be, and there is another difference.
    Full {
        /// The first such difference.
        word: Word,
        /// The first place at which it is, from 1 on.
        place: u64,
    },
}

impl Grow {
    /// Whether there was no more room for a word.
    pub fn is_full(&self) -> bool
        ensures { IsTrue result ↔ IsFull self.now }
    {
        matches!(self, Grow::Full { .. })
    }

    /// The answer to this and the next: the next one, unless that is `Same`.
    pub(crate) fn and(self, next: Grow) -> Grow
        ensures { result ≡ both_answers self next }
    {
        match next {
            Grow::Same => self,
            next => next,
        }
    }
}
