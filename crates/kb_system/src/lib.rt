//! Completed presentations: the rules and the word acceptor of one, or what shows that a limit was reached.
//!
//! The public contract is that of [`complete_presentation`]: `EndsAs` of `specs/Ended.antt` says
//! what each [`Ending`] is. A completed presentation has its reduced complete system and the
//! canonical automaton of its least words (`specs/Completed.antt`), which is made of no more states
//! than there may be (`IsCompletionWithin`). At a limit there is evidence
//! (`specs/Evidence.antt`): the log, which is justified line by line and with the line that waits;
//! the live rules, which cover it; and why the limit is reached.
//!
//! [`complete_with_log`] keeps the log of a completion that came to its end too, which certifies what was found
//! (`EndsLogged` of `specs/Logged.antt`): each line follows from the relations and the lines before it, and the
//! rules of the lines are confluent and generate the congruence of the relations.
//!
//! A presentation has one completion, and is never both completed within limits and too large for them
//! (`specs/OneCompletion.antt`).
//!
//! [`word_acceptor`] makes the word acceptor of the reduced complete system, in three steps: the left sides have no
//! other letters than the relations, the automaton of the irreducible words accepts exactly the least ones, and the
//! canonical automaton of that language is the word acceptor. Where the automaton of the left sides has no more
//! states than the acceptor may have, the log can't be asked for any more, and is let go before. [`halted`] reads the
//! evidence from the book of a completion that halted, for which `kb_machine::courses_are_sound` has said all along
//! that it holds.
//!
//! Below are `kb_complete`, which completes, and `kb_wa` and `kb_fsamin`, which make the acceptor.
#![tactic(auto)]

mod accepting;
mod ending;
mod halting;
mod logged;

pub use accepting::word_acceptor;
pub use ending::{Ending, Halted, Reached, complete_presentation};
pub use halting::halted;
pub use logged::{LoggedEnding, complete_with_log};
