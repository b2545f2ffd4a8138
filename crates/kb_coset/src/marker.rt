//! The marker in front of a word.

ghost use Rattle.std.specs.Prelude.{◌≡◌, ◌<◌, drop, OnOk};
ghost use Rattle.kb_coset.specs.Marked.{marked_word};

use kb_word::{Letter, Memory, Word};

/// Becomes the word with the marker in front, which is the letter after the n generators.
pub(crate) fn add_marker(n: u16, word: &Word, marked: &mut Word) -> Result<(), Memory>
    requires { n < 65534 }
    ensures { OnOk result (marked.new ≡ marked_word n word.now) }
{
    marked.clear();
    marked.push(Letter::new(n + 1))?;
    marked.append(word)
}

/// Becomes what stands behind the first letter of a marked word.
pub(crate) fn remove_marker(marked: &Word, word: &mut Word) -> Result<(), Memory>
    ensures { OnOk result (word.new ≡ drop 1 marked.now) }
{
    word.clear();
    match marked.letters().split_first() {
        Some((_marker, behind)) => word.extend_from_slice(behind),
        None => Ok(()),
    }
}
