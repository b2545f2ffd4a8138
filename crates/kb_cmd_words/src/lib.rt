//! `wordreduce FILE [--log]`: the least words of word lines, by a presentation whose oriented relations are
//! confluent, or by the lines of its log.
//!
//! The public contract is that of [`WordReduce`] as a command (`Task` of kb_task): `specs/WordReduce.antt` is what
//! each status means. By the relations (`specs/ByRelations.antt`) a run orients the defining relations of the
//! presentation and checks that they are confluent. By the log (`specs/ByLog.antt`) it checks that the log is
//! justified, that both sides of each relation have one normal form by its lines, and that these are confluent
//! (`Decides` of `specs/LogLines.antt`). Then it answers each word line with the normal form of its word, which is
//! the least word that the relations make congruent to it; or it prints what shows that the rules don't decide.
//!
//! - `word_reduce` is the command, and `run` a run of it.
//! - `orienting` orients the relations.
//! - `by_log` answers by the lines of a log. `joining` looks for a relation that doesn't follow from them;
//!   `objection` is what stands against a log, with its line.
//! - By the laws of `laws` no presentation's oriented relations are confluent and not, and where the lines of a log
//!   decide, normal forms by them are least words; what is found of a log is found in one way.
//!
//! Below are `kb_task`, `kb_evidence`, which names the log's file, `kb_proof`, which checks logs, `kb_bylog`, which
//! makes their lines rules, `kb_lines`, `kb_reduce` and `kb_confluence`.
#![tactic(auto)]

mod by_log;
mod joining;
mod laws;
mod objection;
mod orienting;
mod run;
mod word_reduce;

pub use laws::{
    lines_generate_the_congruence, lines_that_decide_give_least_words,
    no_presentation_is_confluent_and_not, the_lines_of_a_log_have_one_answer,
};
pub use objection::Objection;
pub use orienting::{
    oriented, oriented_relations_are_one_list, oriented_relations_keep_the_congruence,
    oriented_rules_decrease,
};
pub use word_reduce::WordReduce;
