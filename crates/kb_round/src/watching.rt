//! Those who watch rounds.

use crate::answers::Figures;

/// Sees the progress of rounds.
pub trait WatchRounds {
    /// A round was made by so many rules, and its automata were so large.
    fn round_made(&mut self, rules: usize, figures: &Figures);
}
