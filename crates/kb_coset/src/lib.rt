//! Right cosets of subgroups, by a marker in front of words.
//!
//! A subgroup is given by words that generate it. The marked presentation of [`marked`] has one more generator, the
//! marker `_H`, and the equation `_H*h = _H` for each word h of the subgroup's generators. Words `_H*u` and `_H*v` are
//! congruent by it exactly where u and v are in one right coset of the subgroup. So a confluent system of the marked
//! presentation decides whether words are in one coset, and reduces a marked word to the marker and the least word of
//! the coset.
//!
//! The public contract: [`marked`] makes the marked presentation (`marked_parts` of `specs/Marked.antt`) and says what
//! it is for (`MarksCosets`), and [`marked_word`] puts the marker in front of a word. The laws speak of definitions
//! alone, `SameCoset` of `specs/Cosets.antt` and `IsInSubgroup` of `specs/Subgroups.antt`:
//! [`marked_words_are_congruent_within_cosets`], [`cosets_are_those_of_the_subgroup`],
//! [`least_marked_words_are_least_in_cosets`] and [`cosets_are_told_by_their_least_words`].
//!
//! [`CosetWords`] answers a word of a presentation (`Answerer` of `kb_lines`) with the least word of its right coset
//! (`IsLeastOf` of `specs/CosetWords.antt`), by the reduced complete system of the marked presentation. The marker comes
//! in front of the word, the rules reduce that, and what then stands behind the marker is the answer. The word becomes
//! its answer in place, in memory that serves for all words.
//!
//! A right coset is taken for any presentation by steps: a relation is applied, or a generator of the subgroup comes
//! or goes in front. No inverse is needed for that. Where each generator has one, the words of a coset are those that
//! differ in front by a product of the subgroup's generators and their inverses.
//!
//! That congruent marked words are in one coset is seen in the words between them. Each has the marker once; what
//! stands before the marker is whatever the inverse relations put there, and what stands behind it stays in the coset
//! (`proofs/Behind.antt`).
//!
//! Below are `kb_word`, with presentations and congruence, `kb_reduced`, by whose law normal forms are least, `kb_index`,
//! and `kb_lines`, which reads and answers the lines.
#![tactic(auto)]

mod coset_words;
mod laws;
mod marker;
mod marking;

pub use coset_words::{CosetWords, Workspace};
pub use laws::{
    cosets_are_those_of_the_subgroup, cosets_are_told_by_their_least_words,
    least_marked_words_are_least_in_cosets, marked_words_are_congruent_by_the_subgroup,
    marked_words_are_congruent_within_cosets,
};
pub use marking::{marked, marked_word};
