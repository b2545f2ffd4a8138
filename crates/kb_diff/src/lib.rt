//! Word differences of a group.
//!
//! Two words u and v are read side by side, letter by letter. After each letter there is the element that leads from
//! what is read of u to what is read of v; its normal form by a list of rules is the *word difference* at that place.
//! Where the words of a group that differ by a generator have finitely many differences, automata can tell which words
//! are least and which differ by a generator (Epstein et al., Word Processing in Groups, 2.3; Holt, Eick, O'Brien,
//! Handbook of Computational Group Theory, 13.2).
//!
//! The public contract: [`Differences`] keeps word differences in the order in which they were
//! first seen, the empty word first, and at most so many as its maker said.
//! [`Differences::from_rules`] keeps those of both sides of each rule, and
//! [`Differences::add_path`] those of two words more. What they answer is exact: [`Grow::Same`]
//! exactly where all differences of the words are kept already, and [`Grow::Full`] exactly where as
//! many words are kept as there may be and the words have another difference, which it names with
//! its first place. After want of memory what is kept is as it was; after `Full` the differences
//! before that place are kept.
//!
//! [`Differences::machine`] makes the difference machine of what is kept: [`Machine::step`] leads
//! from the number of the difference d by the letters a and b to the number of the normal form of
//! a^-1 d b, and to 0 where that isn't kept. The padding, letter n + 1 of n, counts as nothing. All
//! steps are computed once, in rows: a row has the normal form of a^-1 d before all letters b,
//! which is right since first rewrites read a word from its front. So d differences over n
//! generators take about d (n + 1)^2 short reductions, and no memory for each of them.
//!
//! The definitions are in `specs`: `Differences` has the difference of two words at a place,
//! `Keeping` what is kept and answered, `Steps` the difference machine, whose states are the
//! differences, `Tables` the table that holds its steps, and `Languages` the words that the
//! acceptor and the multipliers of these differences accept. Of the proofs, `StepRuns` is for
//! other crates: words lead alike by differences and by their numbers.
//!
//! Below are `kb_word`, with words and their inverses, and `kb_rules`, with the contract of all programs that
//! reduce words: differences are the same by each of them.
#![tactic(auto)]

mod adding;
mod differences;
mod grow;
mod inverting;
mod letters;
mod machine;
mod stepping;

pub use differences::Differences;
pub use grow::Grow;
pub use machine::Machine;
