//! The rivals of one difference.

use crate::comparisons::Comparisons;

/// The rivals of one difference.
#[derive(Clone, Copy, Debug, PartialEq, Eq, Hash)]
pub struct Rivals {
    /// The number of the difference.
    pub difference: u32,
    /// How they compare with their suffixes.
    pub comparisons: Comparisons,
}
