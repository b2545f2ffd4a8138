//! What the comparison of two languages finds.

use kb_fsa::Symbols;

/// What the comparison of two languages finds.
#[derive(Debug, Drop)]
pub enum Equality {
    /// They are the same.
    Equal,
    /// The shortlex least text in exactly one of them.
    Differ(Symbols),
}
