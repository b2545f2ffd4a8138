//! Words reduced to least words: word lines answered with normal forms, or by a group's automatic structure.
//!
//! The public contract: both answer a word of a presentation (`Answerer` of `kb_lines`); the word becomes its answer in
//! place, in memory that serves for all words.
//!
//! - [`NormalForms`] answers it with its normal form by the rules of an index.
//! - [`LeastWords`] answers it with the least word of its class, by the presented group's own word acceptor and
//!   multipliers (`specs/Leading.antt`).
//!
//! Words that are given together are reduced by the workers of a crew, and each has the very answer that it has
//! alone, in the order of the words (`specs/Batches.antt`): [`batch_rules`] makes their normal forms, and
//! [`batch_multipliers`] follows them by multipliers.
//!
//! Below are `kb_lines`, which reads and answers the lines, `kb_index`, `kb_relations`, which follows words by
//! multipliers, and `kb_draw`, by which workers share the words of a batch.
#![tactic(auto)]

mod batches;
mod least_words;
mod normal_forms;

pub use batches::{batch_multipliers, batch_rules};
pub use least_words::LeastWords;
pub use normal_forms::NormalForms;
