//! What is answered.

use kb_axioms::Construction;
use kb_kept::Listing;
use kb_machine::Line;
use kb_round::{Construction as RoundConstruction, Structure};
use kb_rules::Rules;
use kb_structure::Cert;
use kb_system::Halted;
use kb_word::{Letter, Word};

/// What is found of automata that may be a group's own automatic structure.
#[derive(Drop)]
pub enum Checked {
    /// They are.
    Yes,
    /// They aren't: the first certificate.
    No(Cert),
    /// A construction would have more states than it may have, and no certificate comes before it.
    TooManyStates { which: Construction },
    /// The completion reached a limit, and its rules don't settle it.
    Halted(Halted),
}

/// What a completion shows of multipliers.
#[derive(Drop)]
pub(crate) enum Decision {
    /// They relate only words that differ by their generators.
    True,
    /// A multiplier relates words that don't differ by its generator.
    Different {
        /// The first such multiplier's generator.
        x: Letter,
        /// The least first word of such a pair.
        u: Word,
        /// The least second word beside it.
        v: Word,
    },
    /// The completion reached a limit, and its rules don't settle it.
    Halted(Halted),
}

/// What the search for a group's automatic structure comes to.
#[derive(Drop)]
pub enum Autgroup {
    /// It is this.
    Own(Structure),
    /// The completion reached a limit, and the automata of its live rules' differences were tried.
    Halted {
        halted: Halted,
        listing: Listing,
    },
    /// As many word differences are kept as may be, and another one is needed.
    TooManyDifferences {
        /// The log.
        lines: Vec<Line>,
        /// The rules by which the differences are taken.
        rules: Rules,
        /// Whether they are the reduced complete system.
        confluent: bool,
        /// The differences.
        listing: Listing,
    },
    /// By the reduced complete system, a construction would have more states than it may have.
    TooManyStates {
        which: RoundConstruction,
        lines: Vec<Line>,
        rules: Rules,
        listing: Listing,
    },
}
