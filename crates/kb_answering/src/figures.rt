//! How a completion ended, in figures.

use kb_book::Limits;
use kb_progress::{Evidence, Limit, Stored, Summary};
use kb_system::{Ending, Halted, Reached};

/// The figures of an ending within limits, for the last line of a long run by a command that stores this where the
/// completion comes to its end.
pub fn figures_of(ending: &Ending, limits: &Limits, stored: Stored) -> Summary {
    match ending {
        Ending::Completed { rules, acceptor } => Summary::Completed {
            rules: rules.len(),
            states: acceptor.len(),
            stored,
        },
        Ending::Halted(halted) => Summary::Limit {
            limit: limit_of_log(halted, limits),
            evidence: Evidence::Rules,
        },
        Ending::TooLarge { .. } => Summary::Limit {
            limit: Limit::AcceptorStates(limits.states),
            evidence: Evidence::Rules,
        },
    }
}

/// The limit of its log at which a completion halted.
pub fn limit_of_log(halted: &Halted, limits: &Limits) -> Limit {
    match halted.reached {
        Reached::Lines => Limit::Lines(limits.rules),
        Reached::Letters => Limit::Letters(limits.len),
    }
}
