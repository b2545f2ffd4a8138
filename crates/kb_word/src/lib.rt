//! Words over the generators of a presentation, and the mathematics that all crates share.
//!
//! A word is seen by contracts as the list of its letters' numbers, a relation or a rule as a pair of
//! words. The definitions of the shortlex order, of the congruence that relations generate, of rewriting,
//! overlaps and confluence stand here, in `specs/`, since all other crates cite them. The crate's public
//! contract: `less` decides the shortlex order, which is a reduction order along which `rank` falls,
//! `factor_at` finds the first place of a factor, and a `Presentation`, with its names, inverses and
//! equations, lists its defining relations and inverts words. `Names` has no name twice and finds a name's
//! letter by hash. `print_word` appends a word as it is printed.
//! Any call that allocates may fail for want of memory; no other failure is unspecified.
//!
//! Lemmas that proofs of other crates may cite stand in `proofs/`: on paths and congruence in `PathLemmas`, on the
//! order in `Shortlex`, on the places of factors in `Places`.
//!
//! Below is `indexmap` alone.
#![tactic(auto)]

mod equations;
mod factor;
mod inverses;
mod letter;
mod memory;
mod names;
mod order;
mod owned_text;
mod presentation;
mod printed;
mod word;
mod word_order;

pub use equations::{Equations, copy_pair, copy_pairs};
pub use factor::factor_at;
pub use inverses::Inverses;
pub use letter::Letter;
pub use memory::Memory;
pub use names::Names;
pub use order::{less, rank_falls_along_shortlex, shortlex_is_a_reduction_order};
pub use owned_text::OwnedText;
pub use presentation::{Presentation, none_where_a_letter_has_no_inverse};
pub use printed::print_word;
pub use word::Word;
pub use word_order::{Order, ShortLex, WordOrder, WtLex};
