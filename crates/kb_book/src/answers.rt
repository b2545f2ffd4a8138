//! What the calls of a book answer.

use kb_machine::Halt;
use kb_word::Memory;

/// Why nothing was entered.
#[derive(Clone, Copy, Debug, PartialEq, Eq)]
pub enum EnterFault {
    /// The book has no two lines with these numbers that overlap at the place.
    NotOverlap,
    /// Memory ran out.
    Memory,
}

/// Whether an overlap became the first pending pair.
#[derive(Clone, Copy, Debug, PartialEq, Eq)]
pub enum Balance {
    /// It did.
    Balanced,
    /// The book has no two lines with these numbers that overlap at the place, or is halted.
    Stays,
}

/// What was made of the first pending pair.
#[derive(Debug, Drop)]
pub enum Make {
    /// The line with this number.
    Made(u32),
    /// Nothing: its words have one normal form.
    Dropped,
    /// Nothing is pending.
    Idle,
    /// Nothing: the book is halted, with the pair that waits.
    Halted(Halt),
}

/// Whether a line was taken away.
#[derive(Clone, Copy, Debug, PartialEq, Eq)]
pub enum Kill {
    /// It was live, and is no longer.
    Killed,
    /// It isn't live, or no other live left side is a factor of its left side.
    Stays,
}

/// Whether a line was replaced by one with a lesser right side.
#[derive(Clone, Copy, Debug, PartialEq, Eq)]
pub enum Shorten {
    /// By the line with this number.
    Shortened(u32),
    /// It isn't live, or the other live rules don't reduce its right side.
    Least,
    /// They do, but no line can be made any more.
    NoRoom,
}

impl From<Memory> for EnterFault {
    ghost use Rattle.std.specs.Prelude.{◌≡◌};
    ghost use Rattle.kb_book.specs.declared.answers.EnterFault.TheVariants as fault;

    ghost from_gives = { λ _ answer. answer ≡ fault.Memory };

    fn from(_: Memory) -> EnterFault {
        EnterFault::Memory
    }
}
