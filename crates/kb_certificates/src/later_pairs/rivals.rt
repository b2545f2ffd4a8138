//! The states of the machine.

use crate::later_pairs::relation::Relation;

/// Where the automaton is after a pair, and after the pair of the same first word with its rival.
#[derive(Clone, Copy, Debug, PartialEq, Eq, Hash)]
pub(crate) struct Rivals {
    /// The state after the pair.
    pub own: u32,
    /// The state after the pair with the rival.
    pub rival: u32,
    /// How the rival compares with the second word.
    pub relation: Relation,
}
