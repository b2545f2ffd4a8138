//! One round of making a group's automatic structure: automata from word differences, and whether they are the
//! group's own.
//!
//! # The public contract
//!
//! [`round`] is given word differences of a group (`kb_diff`), by rules whose sides are the same elements. It makes the
//! word acceptor and the multipliers of these differences, canonical all of them, and checks the axioms of an automatic
//! structure. `RoundSays` of `specs/Rounds.antt` says what each answer is:
//!
//! - [`Round::Own`]: they are the group's own automatic structure.
//! - [`Round::Refuted`]: there is a certificate against them, the first in the order of the check; and the two words
//!   of it that are the same element, so that their differences may be kept for the next round (`ShowsEquality`).
//! - [`Round::TooManyStates`]: a construction counts more states than it may, which comes before any certificate.
//!
//! By the reduced complete system of a group, with all word differences of its rules, a round can fail in one way
//! alone: the difference of a word and its image isn't kept yet. [`rounds_by_reduced_systems_lack_images`] is the law
//! that a certificate is then of the kind N4, a word without image, and [`rounds_by_reduced_systems_keep_more`] the
//! law that the words of its equality are irreducible, and have a difference that isn't kept. So each such round keeps
//! one more, or finds no room for it.
//!
//! # Why passing is enough
//!
//! Multipliers that are made of differences relate only words that differ by their generators, whatever the rules
//! are, as long as the sides of each rule are the same element: each step of the difference machine is a normal form
//! of the element that leads from one word to the other. So there is no certificate N3 against them, and automata
//! that pass the rest of the check are the group's own. There is none of the kinds N1 and N2 either: which words are
//! accepted depends on their factors, and a pair is accepted only where both of its words are.
//!
//! # Where things are
//!
//! In `specs/`, `Rounds` has what each answer says, `Reduced` what canonical automata of the texts with labels are,
//! and `Shown` which certificates have an equality. In `proofs/`, `LedWords` shows that words which lead from one
//! difference to another are the same element but for the two, and `DifferenceStructures` what is always so of these
//! automata: that they are true to the group, and that there is no certificate N1 or N2 against them.
//! `CanonicalForms` has that those of multipliers with labels are multipliers.
//!
//! Of rounds by a reduced complete system `specs/Kept.antt` says what is known of the rules and the differences. In
//! `proofs/`, `Elements` has words as elements of the group, and their normal forms; `Leading` that words which lead by
//! differences differ by what they lead to, and `KeptDifferences` that words whose differences are kept do lead so.
//! `LeastWords` has which words are accepted: a word that isn't least has a left side as a factor, and the differences
//! of its rule show that it is greater than the right side. `GeneratorForms` has that the normal form of each generator
//! is kept, and `Extensions` where a word with its extension leads. By these the automata are a sound structure
//! (`MadeStructures`), against which no certificate but a word without image is possible (`SoundStructures`,
//! `Certificates`).
//!
//! Below are `kb_diffwa`, which makes the automata, all multipliers as one with labels (`kb_labelled`), `kb_fsamin`,
//! which makes that one small and each multiplier canonical, `kb_draw`, by which several workers do so, `kb_axioms` with
//! the check, and `kb_reduced` with the law that reduced complete systems are complete.
#![tactic(auto)]

mod answers;
mod laws;
mod making;
mod rounds;
mod showing;
mod watching;

pub use answers::{Axiom, Construction, Figures, Round, Structure};
pub use laws::{rounds_by_reduced_systems_keep_more, rounds_by_reduced_systems_lack_images};
pub use rounds::round;
pub use watching::WatchRounds;
