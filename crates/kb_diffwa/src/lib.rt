//! The word acceptor and the multipliers of a group, made from word differences.
//!
//! # The word acceptor
//!
//! Word differences that are kept of a group show of some words that another word, which is less, is the same element:
//! a word s is read beside a word v, letter by letter, and where the two lead by kept differences from the empty
//! difference back to it, they are one element. The *word acceptor* accepts the words of which no factor is shown to be
//! greater than another word so. Where all differences are kept that a group needs, these are its least words (Epstein
//! et al., Word Processing in Groups, 2.3 and 6; Holt, Eick, O'Brien, Handbook of Computational Group Theory, 13.2).
//!
//! The public contract: [`acceptor`] returns the automaton of exactly these words, by the shortlex order. It answers
//! `TooManyStates` exactly where accepted words have more different sets of rivals than the limit. A *rival* of a word
//! is another word that is read beside one of its suffixes, and no longer than that suffix; what counts of it is the
//! number of their difference, and how it compares with the suffix.
//!
//! The sets of rivals are the states of a machine that `kb_explore` explores. By a letter it leads each rival on,
//! beside each letter and the padding by which the difference machine leads to a difference that is kept, and a new
//! suffix begins; where a rival is less and back at the empty difference, it leads nowhere. A set has the rivals of
//! each difference together, since only four things can be true of how one compares. The steps that lead to kept
//! differences, which are few of all, are listed first, so that a set is made in one pass over those of its
//! differences, with no sort.
//!
//! # The multipliers
//!
//! An acceptor of a group's words and word differences that are kept give, for each generator x, an automaton of pairs
//! of words: its *multiplier*. It accepts the pairs (u, v) of accepted words that lead, read side by side, from the
//! empty difference to the normal form of x, each difference on the way being kept. So v is the element u x. An
//! acceptor of one word for each element, with a multiplier of each generator, is an automatic structure.
//!
//! The public contract: [`multiplier`] returns the automaton of exactly these pairs, and [`multipliers`] one
//! automaton with labels, in which the pairs of each generator's multiplier have a label of their own. Each answers
//! `TooManyStates` exactly where texts of pairs lead to more different places than the limit. A place is where the
//! reading of two words stands: the acceptor's state after each word, or that the word has ended, which it may where
//! it is accepted, and the number of the difference. Over the acceptor of the same differences the pairs are those of
//! `DifferenceMultiplier` of `kb_diff`, as the law [`pairs_over_the_difference_acceptor`] says.
//!
//! Places are the states of a machine that `kb_explore` explores. Its moves from a place are those of two tracks
//! crossed, each track with the acceptor's moves and with padding where its word may end, by ascending symbols; the
//! difference machine's table tells which of them lead to a difference that is kept. Which places texts lead to does
//! not depend on the generator, so that one exploration serves all multipliers: they have one set of moves, and
//! differ in the difference at which they accept. Its number is the label (`kb_labelled`), and the moves are there
//! once. Nothing is reduced to the fewest states: `kb_fsamin` does that, of all multipliers together.
//!
//! # Where things are
//!
//! In `specs/`, `Rivals` has what a rival is and what is counted, `Comparing` how words compare as both go on, and
//! `RivalMoves` how a rival goes on; `RivalSets` has the sets, the rows of which they are made and the machine, and
//! `SameSets` that sets tested as equal are the same. `Tracks` has where the track of a word stands, `Pairs` the
//! machine and its moves, and `Multipliers` what is returned and counted.
//!
//! In `proofs/`, `ComparisonRuns` has how words compare letter by letter, and `RivalRuns` and `RivalWords` that the
//! first rival runs to the rivals that a word has; `RivalSteps` has those of a word with a letter more. `AllCompared`
//! has that comparisons kept together go on as each does, `Rows` which rivals rows and sets have, `StepPairs` the
//! steps as they are listed and `LetterMoves` the moves of a set. `RivalSetRuns` has that the machine leads to the sets
//! of rivals, and `Acceptance` the language and the counts. `Crossing` has the crossing of two rows and `TrackMoves`
//! the moves of a place; `TrackRuns` and `PairRuns` have where a word's track and the machine lead along a pair of
//! words; `Ends` has at which places pairs are accepted and which labels they have, `Multiplying` the language and the
//! counts, and `AllGenerators` the one exploration for all generators.
//! `Members` has what lists contain.
//!
//! Below are `kb_diff`, with the differences and their machine, `kb_explore`, with the exploration, `kb_labelled`, with
//! labels, and `kb_ragged`, with lists side by side.
#![tactic(auto)]

mod avoiding_rivals;
mod comparisons;
mod laws;
mod multiplication;
mod pairs;
mod place;
mod rival_set;
mod rival_sets;
mod rivals;
mod sparse_steps;

pub use avoiding_rivals::acceptor;
pub use kb_explore::Det;
pub use laws::pairs_over_the_difference_acceptor;
pub use multiplication::{AllMultipliers, multiplier, multipliers};
