//! The states of a composite.

use crate::pair_set::PairSet;
use kb_fsa::Ended;

/// The pairs of states to which a text leads, with which of its words has ended.
#[derive(Debug, Drop, PartialEq, Eq, Hash)]
pub struct Place {
    /// Which outer word has ended.
    pub ended: Ended,
    /// The pairs.
    pub pairs: PairSet,
}
