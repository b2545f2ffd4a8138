//! The completion machine and its log: what a completion may do in each state, what it leaves in its
//! log, and what holds whatever it does.
//!
//! # The log
//!
//! A line is a rule with its origin, which names a pair of words (the sides of a defining relation,
//! the critical pair of two lines, the sides of a line that was replaced), and with derivations:
//! the steps, each by a line before it, that lead from the words of the pair to its sides. So each
//! line can be checked by whoever reads the log, without repeating the completion.
//!
//! What a log has to say is `IsJustified` of `specs/Justified.antt`: each line follows from the
//! relations and the lines before it. By the law [`justified_lines_are_congruent`] the sides of
//! each line are then congruent by the relations, and by [`justified_lines_bring_no_letters`] over
//! the letters of the relations, which by [`relations_are_over_the_generators`] are the generators of
//! a presentation. `specs/Lines.antt` has the numbers of lines and their rules,
//! `specs/Derivations.antt` the steps by lines, `specs/Letters.antt` what is over n letters.
//!
//! # The machine
//!
//! A completion has a state: its lines, which of them are live, the pairs that are still to be
//! looked at, the versions that were published, and a halt. An event changes it, as
//! `specs/Machine.antt` says; a list of events from the start is a run. The machine leaves open
//! which reducts are taken and which lines are replaced when, and each event is one step, so that
//! what is shown of every run holds of any interleaving of workers.
//!
//! The public contract is the law [`courses_are_sound`]: along every course the live rules and the pending pairs
//! generate the congruence of the relations, the log is justified line by line, each left side has a live one as a
//! factor, and a halt has its limit and a pair that waits. By [`courses_bring_no_letters`] all words are over the
//! letters of the relations. `specs/States.antt` has the states, `specs/Course.antt` what is said of courses.
//! `proofs/Invariant.antt` has what each event keeps, from which soundness follows; there is a file of lemmas for
//! each event or two.
//!
//! Below are `kb_word` and `kb_rules`.
#![tactic(auto)]

mod event;
mod halt;
mod laws;
mod line;
mod log_law;
mod origin;

pub use event::Event;
pub use halt::Halt;
pub use laws::{courses_are_sound, courses_bring_no_letters};
pub use line::{Line, LogStep};
pub use log_law::{
    justified_lines_are_congruent, justified_lines_bring_no_letters,
    relations_are_over_the_generators,
};
pub use origin::Origin;
