//! Boolean operations on automata, and the comparison of their languages.
//!
//! The public contract: `and`, `or`, `not` and `symmetric_difference` give an automaton of exactly the stated
//! language, `not` for pairs among the padded texts, and `equal` says that two languages are the same or gives the
//! shortlex least text in exactly one. Each answers `TooManyStates` exactly where its construction counts more states
//! than the limit, by the definitions in `specs/Counted.antt` of `kb_fsa`.
//!
//! Each operation is a machine that `kb_explore` explores: pairs of states, or a state with which words of a
//! pair have ended. Rows are merged move by move, so that nothing costs states times symbols, but for `not`,
//! whose answer has a move by each symbol.
//!
//! In `specs/`, `Answers` has what each operation returns, `Products` and `Complements` the machines. In `proofs/`,
//! `RowMerges` has the merging of rows, `ProductLemmas` and `ComplementLemmas` the languages and the counts, and
//! `Differences` the least text.
//!
//! Below are `kb_fsa` and `kb_explore`.
#![tactic(auto)]

mod comparison;
mod complement;
mod connective;
mod difference;
mod equality;
mod intersection;
mod merging;
mod place;
mod product;
mod union;

pub use comparison::equal;
pub use complement::not;
pub use difference::symmetric_difference;
pub use equality::Equality;
pub use intersection::and;
pub use kb_explore::Det;
pub use union::or;
