//! Overlaps of words, and the critical pairs of rules whose left sides overlap.
//!
//! Two words overlap at a place of the first where from there on their letters agree as far as both go; so
//! containment and equal words are overlaps. Whether rules are confluent is decided by the critical pairs of all
//! overlaps of their left sides.
//!
//! # The public contract
//!
//! - `LeftSides::of` takes any list of rules: left sides may be equal, or contain one another, or be empty.
//!   `LeftSides::overlaps` then finds all overlaps of a word with them: `AreOverlaps` (specs/Overlapping.antt) says
//!   that they are exactly the overlaps, strictly ascending by the rule's index and then by the place. A caller
//!   leaves out a rule with itself at place 0.
//! - `PrimeOverlaps::by` takes rules and the automaton of their left sides. `PrimeOverlaps::of_rule` then finds
//!   the prime overlaps in which one of them begins first: `ArePrimeOverlaps` (specs/Composite.antt) says that
//!   they are exactly these. A rule with itself at place 0 is none.
//! - `meets` tells whether two words overlap at a place.
//! - A `PairWorkspace` has two words, reduces them by a `kb_rules::Reducer`, and tells whether they are joined or
//!   apart: whether their normal forms are one word or two (`specs/Joining.antt`). It is kept for one pair after
//!   another. `PairWorkspace::join` does all that for the critical pair of two rules at a place; `pair_at` returns
//!   that pair, and `overlaps_are_superpositions` says what that pair is: the superposition with one left side
//!   replaced.
//! - `composite_overlaps_need_no_look` is the law that rules are confluent where the critical pair of each prime
//!   overlap is joined (`specs/Composite.antt`). It holds of all rules that decrease along an order, whether or not a
//!   left side is contained in another.
//!
//! # How all overlaps are found
//!
//! In lexicographic order, with a prefix before its extensions, the left sides serve as a trie: those that begin
//! with given letters stand side by side, and first among them those that are these letters. From each place of
//! the word on a walk reads its letters, and narrows the part of left sides that begin with what was read by binary
//! search (src/walk.rt). Left sides that end on the way are contained in the word; those that are left at the end
//! of the word overlap with that end. The walk ends where no left side is left. So a letter that is read costs a few
//! binary searches, and left sides that don't overlap cost nothing.
//!
//! # How prime overlaps are found
//!
//! By the automaton of the left sides, in which each prefix of a left side is a state's word: the state after a
//! word is that of its longest suffix that is a state's word (src/prefixes.rt, and `kb_index`).
//!
//! A left side that is contained in `l` ends where some first letters of `l` are read, so along the ends of the state
//! after them all such left sides are met (src/endings.rt).
//!
//! The superposition of a proper overlap is `l u`, and the overlap is prime where no left side stands in `l u`
//! without its first and last letter. So where `l` without its first letter is reducible, no proper overlap is
//! prime. Else the automaton reads on from the state after `l` without its first letter, level by level
//! (src/ways.rt). At the level of k letters stand the states after all ways `u` of k letters on which no left
//! side ended earlier and whose word is longer than `u`, so that a left side that began in `l` may still go on.
//! Where a left side ends at a state, the way ends too: each left side that ends there and is longer than `u`
//! gives a prime overlap. Elsewhere the way goes on to the states after a letter more whose words are longer
//! than `u` with that letter. Where no left side contains another one, and each state's word is a prefix of a
//! left side, each way leads to an overlap. So the cost is that of the letters on the ways to the overlaps
//! found, however many composite overlaps there are.
//!
//! # The proofs
//!
//! `proofs/Walking.antt` follows the walk at one place, `proofs/Collecting.antt` goes over the places, and
//! `proofs/Indexing.antt` has what sorting gives: the left sides in order, and the overlaps with left sides as
//! overlaps with rules. `proofs/Superposed.antt` of `kb_rules` has the equations of critical pairs, and
//! `proofs/Joined.antt` what the normal forms of a pair's words say of it.
//!
//! The law of composite overlaps: two replacements in one word are apart, or their left sides overlap
//! (`proofs/Occurrences.antt`), and lead to a common reduct where they are apart or the critical pair is joined
//! (`proofs/Replacements.antt`). In a composite overlap an inner left side makes with either outer one two
//! replacements in a shorter word (`proofs/Inside.antt`, `proofs/Narrowed.antt`). So by induction on the length what
//! two replacements give is connected by words that are all below the word (`proofs/Criterion.antt`), and by
//! well-founded induction each word has one normal form (`proofs/Connected.antt`).
//!
//! For prime overlaps, `proofs/Suffixed.antt` has the left sides as states' words, `proofs/Ended.antt` follows
//! the left sides that end a state's word, `proofs/Reached.antt` the ways from level to level, and
//! `proofs/Sweeping.antt` all levels together. `proofs/Sticking.antt` and `proofs/Prefixed.antt` say that what
//! is met are the prime overlaps. Each function says what a list gained (`Gains` of specs/Ways.antt), and
//! `proofs/Gaining.antt` puts such facts together.
//!
//! Below are `kb_word`, with the definitions of overlap and critical pair, `kb_rules`, `kb_trie`, with the
//! states of an automaton, and `kb_index`, with the automaton of left sides.
#![tactic(auto)]

mod endings;
mod laws;
mod left_sides;
mod meeting;
mod pair;
mod prefixes;
mod prime;
mod walk;
mod ways;

pub use laws::{composite_overlaps_need_no_look, overlaps_are_superpositions};
pub use left_sides::{LeftSides, Overlap};
pub use meeting::meets;
pub use pair::{Joinability, PairWorkspace, pair_at};
pub use prime::PrimeOverlaps;
