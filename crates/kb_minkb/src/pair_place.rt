//! What is known of a pair of words that may be a rule, or become one.

use crate::place::LeftPlace;
use crate::state_list::StateList;

/// What is known of a pair of words that may be a rule, or become one.
#[derive(Debug, Drop, PartialEq, Eq, Hash)]
pub struct PairPlace {
    /// The place of the first word; `End` where the pair is a rule.
    pub left: LeftPlace,
    /// The multipliers' states after the pair's text; none are listed where it is a rule.
    pub states: StateList,
}
