//! How a long run ended, in figures.

use kb_answering::limit_of_log;
use kb_auto::{Autgroup as Answer, Checked};
use kb_book::Limits;
use kb_progress::{Evidence, Limit, Summary};
use kb_task::Status;

/// What the check of automata came to, for the last line of a long run.
pub(crate) fn figures_of_check(checked: &Checked, limits: &Limits) -> Summary {
    match checked {
        Checked::Yes => Summary::Own,
        Checked::No(_) => Summary::NotOwn,
        Checked::TooManyStates { .. } => too_many_states(limits),
        Checked::Halted(halted) => Summary::Limit {
            limit: limit_of_log(halted, limits),
            evidence: Evidence::Rules,
        },
    }
}

/// What came of making the reduced complete system of a group's own automata, for the last line of a long run: yes, or
/// a limit of states.
pub(crate) fn figures_of_system(status: &Status, limits: &Limits) -> Summary {
    match status {
        Status::Yes => Summary::ReducedSystem,
        _ => too_many_states(limits),
    }
}

/// A construction would have more states than it may have. Nothing is stored.
fn too_many_states(limits: &Limits) -> Summary {
    Summary::Limit {
        limit: Limit::States(limits.states),
        evidence: Evidence::Nothing,
    }
}

/// What the search for an automatic structure came to, for the last line of a long run.
pub(crate) fn figures_of_search(answer: &Answer, limits: &Limits) -> Summary {
    match answer {
        Answer::Own(structure) => Summary::Structure {
            states: structure.acceptor.len(),
            multipliers: structure.multipliers.len(),
        },
        Answer::Halted { halted, .. } => at_limit(limit_of_log(halted, limits)),
        Answer::TooManyDifferences { .. } => at_limit(Limit::Differences(limits.diffs)),
        Answer::TooManyStates { .. } => at_limit(Limit::States(limits.states)),
    }
}

/// The limit that a search reached, and what shows that.
fn at_limit(limit: Limit) -> Summary {
    Summary::Limit {
        limit,
        evidence: Evidence::Differences,
    }
}
