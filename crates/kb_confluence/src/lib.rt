//! Confluence of rules: the test, and what it is good for.
//!
//! The public contract: `check` answers `Yes` exactly where the critical pair of each overlap is joined, and
//! otherwise names the first overlap whose pair is apart, with its two normal forms; the workers of a crew
//! share the test, and come to the same verdict whatever their number. By the law
//! `normal_forms_by_confluent_rules_are_least` each word's normal form is then the least word that is congruent
//! to it; `least_by_the_same_congruence` carries that over to any other list of pairs that generates the same
//! congruence, such as a presentation's relations.
//!
//! # How it goes
//!
//! First the prime overlaps are tested alone, which are few (`kb_overlap::PrimeOverlaps`): where each of them
//! is joined the rules are confluent, since composite overlaps need no look
//! (`kb_overlap::composite_overlaps_need_no_look`). Where one of them is apart, all overlaps are tested in
//! their order, to find the first one that is.
//!
//! A rule's row has the overlaps in which its left side begins first: the prime ones, or all of them, ascending
//! by the second rule and then by the place; a rule with itself at place 0 is left out. So in the rows of all
//! overlaps the first critical pair whose words have different normal forms is the one to name.
//!
//! The rows are work that `kb_draw::share_out` shares out, so each row is done in some worker's share. A share
//! of the rows of prime overlaps says whether those that it took are joined, and once one isn't, the share
//! tests no more of them. A share of the rows of all overlaps has the earliest row that isn't joined, and
//! doesn't test the rows after it; the earliest of the shares' verdicts is the verdict, the same for every
//! number of workers. Few rules are tested by one worker.
//!
//! # The proofs
//!
//! `specs/Rows.antt` says what a verdict on a row is, and `specs/PrimeRows.antt` the same of prime overlaps;
//! what is sound and done in a share stands beside the code, in `rows` and `prime_rows`. `proofs/Checking.antt`
//! follows the test of a row, `proofs/RowVerdicts.antt` puts the shares' verdicts together, and
//! `proofs/PrimeRows.antt` does both for prime overlaps. That a word has one normal form where the critical
//! pairs are joined is proved in `kb_overlap`, and `proofs/LeastWords.antt` has what follows.
//!
//! Below are `kb_word`, `kb_io`, for the gate, `kb_draw`, `kb_rules` and `kb_overlap`.
#![tactic(auto)]

mod confluence;
mod laws;
mod prime_rows;
mod rows;
mod shares;

pub use confluence::{Verdict, check};
pub use laws::{least_by_the_same_congruence, normal_forms_by_confluent_rules_are_least};
