//! The labels of a multiplier's states, by which its words are seen to differ by its generator.
//!
//! A multiplier of a group is to relate only words that differ by its generator. To see whether it does, words are read
//! side by side: the *label* of a state is the element that leads from what is read of the first word to what is read
//! of the second, as a normal form by a list of rules, along the least text that leads to the state. The *label words*
//! of a state are its label; the empty word at the initial state; the generator at an accepting one; and for each move
//! into it by letters a and b, from a state with label d, the word a^-1 d b. Only states on accepted texts count, and
//! moves between them. Where all label words of a state are one element, for each state, the multiplier relates only
//! words that differ by its generator. Epstein et al., Word Processing in Groups, 2.3; Holt, Eick, O'Brien, Handbook of
//! Computational Group Theory, 13.2.
//!
//! # The public contract
//!
//! [`check`] answers [`Labels::Agree`] exactly where the label words of each state have its label as their normal form.
//! Otherwise it answers [`Labels::Differ`] with the first state that has another, in the order of the least texts that
//! lead to the states, its label, and the least of the other normal forms. Labels are unique ([`labels_are_unique`]),
//! so that no answer depends on how they are found. Where both sides of each rule are the same element and the answer
//! is `Agree`, the multiplier relates only words that differ by its generator (the clause `sound`). Where it relates
//! only such words, and words that are the same element have one normal form, as by confluent rules of the group, the
//! answer is `Agree` (`complete`).
//!
//! Where a multiplier relates words u and v so that u followed by the generator x and v have different normal forms,
//! [`least_unequal_second`] returns the least such v beside a given u, and `None` exactly where there is none. It asks
//! nothing of the rules but that they decrease, and speaks of normal forms alone. [`least_unequal_pair`] returns a first
//! word with its least such second word. Where both sides of each rule are the same element, and words that are the
//! same element have one normal form, it is the least pair, and `None` is returned only where there is none. But a
//! multiplier without such a pair that relates words of all lengths is searched without an end, so the call is for
//! multipliers whose labels are known to differ.
//!
//! # How it works
//!
//! The moves of the multiplier are taken backwards once, to mark the states that lead to acceptance. These are explored
//! breadth first, so that they come in the order of the least texts that lead to them, each with its origin: the state
//! before it and the last symbol. A label comes from that of the origin by one reduction. Then each move is looked at
//! once: but for the one that gave the label, it takes one reduction, whose word is compared with the label of its
//! target. Of the words that differ only the first is kept. No text is copied, and no memory is taken for a move.
//!
//! Beside one first word the second words are read letter by letter, each with its normal form and the state of the
//! multiplier, and explored breadth first, between states that lead to acceptance alone. The first words come in
//! layers, one for each length. A layer has the states to which first words of the length lead, the second word being
//! no longer, each with a label: the element that leads from the first word to the second, as a normal form. Beside
//! each of them stands the least word that leads there. The next layer comes by the moves with a letter of the first
//! word, one reduction each. From a state with a label a second word may go on alone. It is explored as above, beside
//! the empty word. The first layer from which a word ends wrong has the least first word.
//!
//! # Where things are
//!
//! In `specs/`, `Labels` has labels and answers, `LivePart` the machine that is explored, `Places` the states in their
//! order with their labels, and `Comparing` what is compared. `Unequal` has the pairs of unequal elements, `Seconds` the
//! machine of second words, `Layers` first words and their layers, and `OrderProps` that rules decrease in one way at
//! most, so that structs may keep it.
//!
//! In `proofs/`, `MarkedMoves` has the moves of the machine, `LiveStates` that it has the states on accepted texts in
//! the order of their least texts, `Placing` that they are found there, and `LabelTexts` that labels which come from
//! their origins are those along these texts. `Comparisons` has the first word apart as more words are compared, and
//! `MoveWords` the words of ends and moves. `Answering` goes from there to the answer, and `Consequences` from the
//! answer to the words that are related. `SecondMoves` has the moves of the machine of second words, `SecondRuns` what
//! it accepts, and `UnequalPairs` that these make the pairs. `Adding` has words that are added to a layer, `LayerMoves`
//! those that moves give and the least that goes wrong, and `Layering` one layer after another. `WrongPairs` goes from
//! words that go wrong to the pairs.
//!
//! Below are `kb_rules`, with the contract of all programs that reduce words, `kb_explore`, `kb_leastpair`, and
//! `kb_structure`, whose laws say what label words are good for.
#![tactic(auto)]

mod apart;
mod comparing;
mod config;
mod labels;
mod laws;
mod layer;
mod live_part;
mod placed;
mod reading;
mod search;
mod seconds;
mod turning;
mod unequal;

pub use labels::{Labels, check};
pub use laws::labels_are_unique;
pub use turning::{Scratch, turn};
pub use unequal::{least_unequal_pair, least_unequal_second};
