//! What the check answers.

use kb_structure::Cert;
use kb_word::{Letter, Word};

/// What counts states in the check.
#[derive(Clone, Copy, Debug, PartialEq, Eq)]
pub enum Construction {
    /// The first words of the multiplier of a generator.
    Images(Letter),
    /// The composites along both sides of the relation with this number, from 1 on, or their comparison.
    Relation(usize),
}

/// What is found of automata, whatever the rules of the group are.
#[derive(Debug, Drop, PartialEq, Eq)]
pub enum Automata {
    /// There is no certificate but perhaps of the kind N3.
    Pass,
    /// The first certificate.
    No(Cert),
    /// A construction would have more states than it may have, and no certificate comes before it.
    TooManyStates { which: Construction },
}

/// What rules show of multipliers: whether they relate only words that differ by their generators.
#[derive(Debug, Drop, PartialEq, Eq)]
pub enum Truth {
    /// All label words of each state have one normal form.
    True,
    /// The rules are confluent, and a multiplier relates words that don't differ by its generator.
    Different {
        /// The first such multiplier's generator.
        x: Letter,
        /// The least first word of such a pair.
        u: Word,
        /// The least second word beside it.
        v: Word,
    },
    /// The label words of a state have different normal forms, by rules that aren't known to be confluent.
    Unresolved {
        /// The first such multiplier's generator.
        x: Letter,
        /// Its first such state, in the order of the least texts that lead to the states.
        state: u32,
        /// The state's label.
        label: Word,
        /// The least other normal form.
        other: Word,
    },
}

/// What the check answers.
#[derive(Debug, Drop, PartialEq, Eq)]
pub enum Axioms {
    /// The automata are the group's own.
    Yes,
    /// They aren't: the first certificate.
    No(Cert),
    /// There is no certificate but perhaps of the kind N3, and the rules, which aren't known to be confluent, give
    /// label words of a state different normal forms.
    Unresolved {
        /// The first such multiplier's generator.
        x: Letter,
        /// Its first such state, in the order of the least texts that lead to the states.
        state: u32,
        /// The state's label.
        label: Word,
        /// The least other normal form.
        other: Word,
    },
    /// A construction would have more states than it may have, and no certificate comes before it.
    TooManyStates {
        which: Construction,
    },
}
