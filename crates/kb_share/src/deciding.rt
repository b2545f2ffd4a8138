//! What decides confluence.

ghost use Rattle.std.specs.Prelude.{◌<◌, ℕ, length};
ghost use Rattle.kb_word.specs.Overlap.{IsConfluent};
ghost use Rattle.kb_machine.specs.States.{live_rules};
ghost use Rattle.kb_share.specs.Primes.{PrimesOfRowAreJoined};

use crate::sound::book_is_sound;
use kb_book::Book;
use kb_overlap::composite_overlaps_need_no_look;
use kb_rules::Reducer;

/// Where the prime overlaps of all rows of a book's live rules are joined, these rules are confluent: composite
/// overlaps need no look. It does nothing when it runs.
pub fn prime_overlaps_decide<R: Reducer>(book: &Book<R>)
    ensures { let rules = live_rules book.now.course.state in
        ((index : ℕ) → index < length rules → PrimesOfRowAreJoined rules index)
        → IsConfluent rules }
{
    composite_overlaps_need_no_look();
    book_is_sound(book);
}
