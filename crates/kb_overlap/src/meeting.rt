//! Whether two words overlap at a place.

ghost use Rattle.std.specs.Prelude.{◌≡◌, ◌↔◌, ◌<◌, ◌≤◌, ℕ, IsTrue, length, slice_get};
ghost use Rattle.kb_word.specs.Overlap.{Overlaps};
ghost use Rattle.kb_rules.specs.Agreement.{AgreeAsFar};

use kb_word::{Letter, Word};

/// Whether the words overlap at this place of `l`: from there on the letters of `l` are those of `m`, as
/// far as both go. So a word overlaps with itself at place 0, and nothing overlaps past the end of `l`.
pub fn meets(l: &Word, m: &Word, p: u64) -> bool
    ensures { IsTrue result ↔ Overlaps l.now m.now p }
{
    let place = p as usize;
    place < l.len() && agree(&l.letters()[place..], m.letters())
}

/// Whether the letters agree as far as both lists go.
fn agree(first: &[Letter], second: &[Letter]) -> bool
    ensures { IsTrue result ↔ AgreeAsFar first.now second.now }
{
    first.iter().zip(second).all(|(x, y)| x == y)
}
