//! The first certificates against an automatic structure.
//!
//! A word acceptor and a multiplier for each generator are a structure, which may be a group's own automatic
//! structure. What speaks against that is a certificate: words for which an axiom of automatic structures doesn't
//! hold (`kb_structure`). This crate looks for the certificates that the automata alone can give:
//!
//! - N1, [`prefix_not_accepted`]: an accepted word with a prefix that isn't accepted, or the empty word, which isn't;
//! - N2, [`pair_outside_acceptor`]: a pair of a multiplier with a word that isn't accepted;
//! - N4, [`check_images`]: an accepted word that a multiplier relates to none;
//! - N5, [`two_images`]: a word that a multiplier relates to two;
//! - N6, [`missing_extension`]: a word accepted with a generator after it, to which its multiplier doesn't lead;
//! - N7, [`image_not_least`]: a pair whose second word is greater than the first with the generator after it.
//!
//! # The public contract
//!
//! Each returns the first certificate of its kind: that of the least generator that has one, with the least first
//! word, the least second word beside it, and so on, in the shortlex order; and `None` exactly where there is none.
//! What the certificates say doesn't depend on the relations, nor on the order of words but for N7, which is of the
//! shortlex order. All but the first go over the generators, which the workers of a
//! crew share: their number changes nothing of the answer. Want of memory is the one error. For N4 the projection of
//! each generator's multiplier is made before that generator's certificate is looked for: the answer is
//! [`Images::TooManyStates`] exactly where that has more sets of states than the limit, and neither has an earlier
//! generator's nor has one a certificate; and [`Images::Given`] says that each accepted word has images.
//!
//! # How they are found
//!
//! A machine follows an automaton, its leader, along texts: it keeps what the leader doesn't tell, and tells at the end
//! of a text whether that is a certificate (`cascade`). It follows the acceptor along words: whether some prefix wasn't
//! accepted (N1), where the multiplier is after the pair of the word with itself (N6), or where the projection of the
//! multiplier is after the word (N4). Or it follows a multiplier along pairs: where the acceptor is after both words
//! (N2), or how the words compare so far (N7). The least word is that of the least text, and the least pair is found by
//! `kb_leastpair`.
//!
//! A word has two images (N5) where it is the first word of a later pair: the multiplier has another pair with it,
//! whose second word is less. A branching machine reads a pair of the multiplier and guesses the lesser word, and so
//! the later pairs have a nondeterministic automaton (`later_pairs`). Another one, with no more states, has their first
//! words: it accepts where letters of the second word alone lead to acceptance (`first_words`). `kb_fsaleast` finds the
//! least of them, and `kb_leastpair` the least image of that word. Then a machine follows the multiplier along pairs,
//! and tells whose second word is another: the next image is the least of these beside the word.
//!
//! A generator's multiplier is asked without regard to the others, so each kind but N1 is a search of `kb_draw`,
//! whose places are the generators (`automata`); a multiplier that has a certificate brings its least one.
//!
//! # Where things are
//!
//! In `specs/`, `First` has what is the first certificate, `Places` what one generator has, and `Images` what is
//! answered of N4. `Cascade` has the cascade product and what it accepts, `LedStates` when its states are the same,
//! `Followers` the machines that follow, and `LedPairs` the pairs that they accept. `Later` has what later pairs are,
//! `Rivalry` the machine that guesses, `Containing` what lists have that are made from others, `Reading` that the
//! machine reads pairs alone, and `FirstWords` the automaton of first words and what it accepts.
//!
//! In `proofs/`, `Prefixes` (N1), `OutsidePairs` (N2), `WithoutImages` (N4), `OtherWords` and `TwoImages` (N5),
//! `Extensions` (N6) and `GreaterImages` (N7) have that these are the certificates; `Leasts` and `LedWords` what the
//! least of them are, and `Loops` the way from what each generator has to what is first. `LedMoves` has the moves of
//! the product, and `LedRuns` where texts lead in it. `RivalMoves` has moves of the machine that guesses,
//! `RivalComparing` how a rival, which is its guess, compares letter by letter, `RivalRuns` what it accepts, and
//! `LaterPairs` what is said of pairs. `Tails` has where letters of the second word alone lead to acceptance, and
//! `FirstWords` that the automaton accepts the first words.
//!
//! Below are `kb_structure`, with the certificates, `kb_explore`, which explores the product, `kb_branching`, which
//! explores the machine that guesses, `kb_fsadet`, `kb_fsaleast`, `kb_leastpair` and `kb_draw`.
#![tactic(auto)]

mod agreement;
mod automata;
mod cascade;
mod comparison;
mod extension;
mod first_words;
mod greater;
mod image;
mod later_pairs;
mod least;
mod other;
mod outside;
mod prefix;
mod two;
mod word_states;

pub use extension::missing_extension;
pub use greater::image_not_least;
pub use image::{Images, check_images};
pub use outside::pair_outside_acceptor;
pub use prefix::prefix_not_accepted;
pub use two::two_images;
