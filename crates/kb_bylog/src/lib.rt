//! Answers by the lines of a justified log.
//!
//! The lines of a justified log are rules, and both sides of each are congruent in the presentation. Where no
//! relation and no overlap is apart by them, they are a confluent system of the presentation, as that which a
//! completion ends with.
//!
//! # The public contract
//!
//! [`index_of`] makes a reducer of the lines, and [`settles`] says whether they settle the relations (`Settles` of
//! `specs/LogLines.antt`): both sides of each have one normal form, and the lines are confluent. By
//! [`the_lines_of_a_justified_log_follow`] both sides of each line are congruent by the relations, and by
//! [`lines_that_settle_generate_the_congruence`] lines that settle the relations generate their congruence.
//!
//! Below are `kb_proof` with logs, `kb_index`, which reduces, and `kb_confluence`.
#![tactic(auto)]

mod laws;
mod lines;
mod settling;

pub use laws::{lines_that_settle_generate_the_congruence, the_lines_of_a_justified_log_follow};
pub use lines::index_of;
pub use settling::settles;
