//! What commands have in common: the trait `Task` of a command, how a run ends, and what commands load, store and
//! print.
//!
//! The public contract is that of [`Task`]. A command is a value that runs over the outside once, and keeps its
//! `promise`: what each status of a run means, what it may store, the files that it reads, the first of them that has a
//! fault and is refused, when nothing of what it reads is refused, with which statuses it then ends, which statuses
//! the files settle, and which commands are the same but for options that change no answer. Its laws (`lawful`) are
//! over these: where nothing is refused there is an answer (`complete`), a file that is refused is the first that has
//! a fault (`refused`), and where one has a fault it is refused for that (`exact`), the files settle which of the
//! statuses that they settle there is (`settled`), and what status 0 writes, and stores under the names that it
//! settles, is one function of command, files and input (`one_function`). `specs/Promises.antt` has both. Every run
//! also keeps what `IsRun` of `specs/Runs.antt` states once for all commands: the cause of a fault, that counts never
//! fall, and that other files stay.
//!
//! - `status` is how a run ends, with its exit status and its messages.
//! - `loading` loads files, and the presentations, automata and logs that they hold; [`load_language`] loads an
//!   automaton for its language alone, which takes less memory. By [`stored_logs_are_read`] the log of a
//!   completion that is stored beside its presentation can be read (`specs/StoredLogs.antt`). By the laws
//!   (`laws`) a file is refused for one reason at most: [`a_presentation_is_refused_for_one_reason`],
//!   [`a_group_is_refused_for_one_reason`], [`an_automaton_is_refused_for_one_reason`],
//!   [`a_second_automaton_is_refused_for_one_reason`], [`a_log_is_refused_for_one_reason`]; and by
//!   [`files_are_refused_for_one_reason`] for none where it holds what is needed. `storing` stores files, and
//!   an automaton in its canonical form; `lines` prints the line of an answer, and `stopping` is how a run ends
//!   where the word lines stop.
//!
//! Below are the readers and printers of files and the canonical form of automata.
#![tactic(auto)]

mod laws;
mod lines;
mod loading;
mod status;
mod stopping;
mod storing;
mod task;

pub use laws::{
    a_group_is_refused_for_one_reason, a_log_is_refused_for_one_reason,
    a_presentation_is_refused_for_one_reason, a_second_automaton_is_refused_for_one_reason,
    an_automaton_is_refused_for_one_reason, files_are_refused_for_one_reason,
};
pub use lines::{print_limit, print_line, undecided_line, undecided_words_line, unjustified_line};
pub use loading::automata::{
    Kind, Loaded, load_acceptor, load_automaton, load_language, load_multiplier, load_second,
};
pub use loading::logs::{load_derivations, load_log, stored_logs_are_read};
pub use loading::presentations::{load_group, load_presentation, load_shortlex};
pub use loading::subgroups::{load_markable, load_subgroup};
pub use loading::{LoadStop, load_text};
pub use status::{Cert, Construction, FileFault, Limit, Refusal, Status, Which};
pub use stopping::status_of;
pub use storing::{TextFile, canonical_text, store_canonical, store_texts};
pub use task::Task;
