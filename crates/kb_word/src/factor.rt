//! Factors of words.

ghost use Rattle.std.specs.Prelude.{ℕ, ◌<◌, IfSome, IfNone};
ghost use Rattle.kb_word.specs.Words.{StandsAt, IsFactor};

use crate::word::Word;

/// The first place at which a word stands in another, counted from 0. The empty word stands at place 0.
/// Answers `None` exactly where it is no factor.
pub fn factor_at(word: &Word, factor: &Word) -> Option<usize>
    ensures found { IfSome result (λ place. StandsAt word.now factor.now place) }
    ensures first { IfSome result
        (λ place. (earlier : ℕ) → earlier < place → ¬ StandsAt word.now factor.now earlier) }
    ensures none { IfNone result (¬ IsFactor word.now factor.now) }
{
    let (letters, sought) = (word.letters(), factor.letters());
    for place in 0..letters.len() + 1 {
        if letters[place..].starts_with(sought) {
            return Some(place);
        }
    }
    None
}
