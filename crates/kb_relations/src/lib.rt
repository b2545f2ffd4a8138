//! Words followed by multipliers: certificates N8, relations whose sides don't act alike; and least words.
//!
//! A structure is a word acceptor and a multiplier for each generator. From an accepted word the multiplier of a letter
//! leads to its image, which is accepted too. The letters of a word are followed by their multipliers, one after
//! another. The two sides of a relation act alike where they lead from each accepted word to the same word. Where the
//! structure is the group's own, the letters of a word lead from the empty word to the least word of its element.
//!
//! # The public contract
//!
//! All of it is for automata by which each accepted word has exactly one image under each generator, which is accepted:
//! there are no certificates N2, N4 and N5, and images are given (`CanBeFollowed` of `specs/Images.antt`).
//!
//! - [`follow`] returns the word to which following a word leads from an accepted word.
//! - [`broken_relation`] says that both sides of each relation act alike; or it names the first relation whose sides
//!   don't, with the least word from which they lead to different words, and these two; or it names the first relation
//!   for which more states than the limit are counted, where no earlier one is broken (`IsActing` of
//!   `specs/Acts.antt`). The relations are shared by the workers of a crew; their
//!   number changes nothing of the answer.
//! - [`by_multipliers`] returns the word to which following a word leads from the empty word, and [`reduce`] makes it of
//!   the word in place, in a [`Workspace`] that its caller keeps for many words. They are for automata that accept the
//!   empty word.
//! - [`automata_without_certificates_can_be_followed`] is the law that these premises are what a check of the automata
//!   finds, and [`own_structures_lead_to_least_words`] the law that what is reached is the least word of the word's
//!   class where the structure is the group's own automatic structure.
//!
//! For each relation the composites along both sides are counted, and then their comparison, before its certificate is
//! looked for (`CountedRelation` of `specs/Composites.antt`). A relation with equal sides is counted too.
//!
//! # How it works
//!
//! The composite along a word has exactly the pairs of an accepted word and of the word to which it leads. So the sides
//! act alike where their composites are of one language. Otherwise the words from which they lead apart are the first
//! words of the symmetric difference. The least of them is no part of the least text of the difference: padding is the
//! last letter, so that a text with a longer first word may come first. From the least word both sides are then
//! followed.
//!
//! One relation is asked without regard to the others, so this is a search of `kb_draw` whose places are the
//! relations. A place has where the search stops (`specs/Stops.antt`): the word, or the count. Both sides are
//! followed after the search, at the first relation alone.
//!
//! In a hyperbolic group an image mostly differs from its word near the end alone. So the word that is reached is
//! kept, and beside it, for each multiplier, the states in which it reads that word beside itself, from letter to
//! letter, as far as they are known: its trail (`specs/Trails.antt`). First it is tried whether the image has the
//! letter behind the word, or the word's last letter gone. Otherwise an image is looked for that keeps the whole word
//! and has letters behind it; then one that keeps all of it but its last letter, its last three, its last seven, and
//! so on. Each time the multiplier goes on from the state that its trail has there. Where no image is found that
//! keeps some letters, the least second word beside the whole word is the image. When the word has changed from some
//! place on, each trail is cut there. So the time for a letter grows with how far from its end the word changes, and
//! with the states that the multiplier has beside that end; no clause says so. `docs/performance.md` has figures.
//!
//! # Where the proofs are
//!
//! - `UniqueImages`: where images are unique, words lead somewhere, to accepted words, and to one alone.
//! - `LeastImages`: the image is the least second word beside a word; from letter to letter.
//! - `Composites`: following in the automata and in the structure is the same; a word has one composite, so that the
//!   comparison of composites is counted by the words alone.
//! - `LedApart`: the first words of the symmetric difference.
//! - `Searching`: from what is found of each relation to what is first.
//! - `Beside`: how the text of a pair begins where both words begin alike.
//! - `TrailLemmas`: trails that grow, and that are cut.
//! - `Images`: the image of a word by its end, and the walk from letter to letter.
//! - `OwnLeast`: the law of least words.
//!
//! Below are `kb_structure` with the definitions, `kb_compose`, `kb_fsabool`, `kb_leastpair` and `kb_draw`.
#![tactic(auto)]

mod acting;
mod change;
mod following;
mod laws;
mod products;
mod search;
mod sides;
mod stop;
mod trail;
mod workspace;

pub use acting::Acting;
pub use following::follow;
pub use laws::{automata_without_certificates_can_be_followed, own_structures_lead_to_least_words};
pub use products::{by_multipliers, reduce};
pub use search::broken_relation;
pub use workspace::Workspace;
