//! The axioms of automatic structures, and what they are good for.
//!
//! A structure is a word acceptor and a multiplier for each generator. It is the group's own where exactly the
//! least words are accepted, and each multiplier has exactly the pairs of least words that differ by its generator
//! (`IsAutomaticStructure` of `specs/Structure.antt`). That is a statement on the whole group. The axioms are
//! statements on the structure, most of which are decided by looking at automata alone (`SatisfiesAxioms` of
//! `specs/Axioms.antt`):
//!
//! - the accepted words are closed under prefixes, and the empty word is one;
//! - a multiplier relates accepted words alone, each to exactly one word;
//! - it leads from a word to its extension by the generator, where that is accepted, and to nothing greater in any
//!   case;
//! - both sides of each relation act alike: followed by the multipliers from an accepted word they lead to the
//!   same word;
//! - a multiplier relates only words that differ by its generator in the group.
//!
//! # The public contract
//!
//! It is laws, and the type [`Cert`] of certificates. By [`axioms_make_automatic_structures`] a structure that
//! satisfies the axioms is the group's own, and by [`automatic_structures_satisfy_the_axioms`] the group's own
//! satisfies them, if its images are given. What speaks against an axiom is a certificate, of one of the kinds N1 to
//! N8 (`specs/Certificates.antt`). By [`automatic_structures_have_no_certificate`] there is none against the group's
//! own structure, and by [`axioms_hold_without_certificate`] the axioms hold where there is none. Two of them have to
//! be given for that, since no certificate shows only that they can't fail: that accepted words have images, and that
//! the multipliers are true to the group. The latter holds exactly where label words agree, which are finitely many
//! for each state of a multiplier (`specs/Labels.antt`): by [`label_words_make_multipliers_true`], and by
//! [`label_words_of_true_multipliers_agree`] for labels that are differences of words.
//!
//! The laws hold by any order of words that a presentation may have. But for those on labels they don't ask for
//! inverses, and hold of a monoid's relations too.
//!
//! # How the law of the axioms is proved
//!
//! A word acts on the accepted words by following its letters. It leads from each of them to a word, which is
//! accepted, and to one alone (`leads_somewhere`, `leads_inside` and `leads_to_one` of `proofs/Following.antt`).
//! Congruent words act alike, since along the path between them one side of a relation stands in for the other
//! (`leads_equally` of `proofs/Acting.antt`). An accepted word leads from the empty word to itself, prefix by
//! prefix (`leads_to_itself`). Any word leads from the empty word to one that is congruent to it and not greater
//! (`leads_to_equal`, `leads_to_no_greater`).
//!
//! So an accepted word is least (`accepted_is_least` of `proofs/OwnStructure.antt`): a congruent word leads to it
//! as well, and to nothing greater. A least word is accepted (`least_is_accepted`): it leads to an accepted word
//! that is congruent, and so to itself. The pairs of a multiplier are products (`multiplied_is_product`), and a
//! product is in the multiplier (`product_is_multiplied`), since the image is least and of its class. That images
//! are single follows from the others, and is an axiom all the same: two images are a certificate.
//!
//! `proofs/Refuting.antt` shows of each certificate that there is none against the group's own structure. No
//! decision procedure for the congruence is asked for: an accepted word can't be without an image, since a class
//! can't be without a least word (`proofs/Representatives.antt`). `proofs/Holding.antt` has the axioms where there
//! is no certificate: a structure's tests decide which words and pairs are accepted. In `proofs/LabelWords.antt` two
//! words are read side by side, and the label of the state stays what they differ by. In `proofs/TrueLabels.antt` a
//! label word and the label have the same words behind them on an accepted text, which cancel
//! (`proofs/Cancelling.antt`).
//!
//! Below are `kb_word`, and `kb_fsa` for the labels of automata.
#![tactic(auto)]

mod cert;
mod laws;

pub use cert::Cert;
pub use laws::{
    automatic_structures_have_no_certificate, automatic_structures_satisfy_the_axioms,
    axioms_hold_without_certificate, axioms_make_automatic_structures,
    label_words_make_multipliers_true, label_words_of_true_multipliers_agree,
};
