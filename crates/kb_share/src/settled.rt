//! What settling answers.

use kb_machine::Halt;

/// How far a book came by itself.
#[derive(Debug, Drop)]
pub enum Settled {
    /// Nothing is pending any more.
    Done,
    /// Nothing was pending.
    Nothing,
    /// The book is halted.
    Halted(Halt),
}
