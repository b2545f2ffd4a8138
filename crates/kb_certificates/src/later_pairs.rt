//! The least first word beside which an automaton of pairs accepts two second words.
//!
//! A pair is later where the automaton accepts it, and one with the same first word and a lesser second word, in the
//! shortlex order. A branching machine reads a pair, and guesses the lesser word, its rival, letter by letter. Its
//! states are those of the automaton after the pair and after the pair with the rival, with how the rival compares with
//! the second word. A lesser word is no longer, so that the rival ends where the text of the pair does, at the latest.
//!
//! `kb_branching` explores the machine. What comes of it isn't made deterministic: `first_words` reads its first words,
//! and `kb_fsaleast` finds the least of them. So the time grows with the states of the machine and their moves
//! (transitions); no clause says so.

ghost use Rattle.std.specs.Prelude.{◌≡◌, ℕ, List, IfOk, IfSome, IfNone};
ghost use Rattle.kb_fsa.specs.Language.{generators};
ghost use Rattle.kb_fsa.specs.declared.alphabet.Alphabet.TheVariants.{Pair};
ghost use Rattle.kb_leastpair.specs.LeastPair.{IsLeastWord};
ghost use Rattle.kb_certificates.specs.FirstWords.{HasSecond};
ghost use Rattle.kb_certificates.specs.Later.{HasLater};

mod relation;
mod rivalry;
mod rivals;

use crate::first_words::first_words;
use crate::later_pairs::rivalry::Rivalry;
use kb_branching::explore_branches;
use kb_fsa::{Fsa, PairSymbols, word_of};
use kb_fsadet::Nfa;
use kb_fsaleast::least_text;
use kb_word::{Memory, Word};
use std::alloc::Global;

/// The least first word of an accepted pair beside which a pair with the same first word and a lesser second word is
/// accepted.
pub(crate) fn least_later_first(alloc: Global, pairs: &Fsa) -> Result<Option<Word>, Memory>
    requires { pairs.now.alphabet ≡ Pair (generators pairs.now.alphabet) }
    ensures found { IfOk result (λ found. IfSome found (IsLeastWord (HasLater pairs.now))) }
    ensures none { IfOk result (λ found. IfNone found
        ((first : List ℕ) → ¬ HasLater pairs.now first)) }
{
    let n = pairs.alphabet().generators();
    let machine = Rivalry {
        pairs,
        symbols: PairSymbols { n },
    };
    match explore_branches(alloc, &machine, u32::MAX) {
        Ok(explored) => least_first(alloc, &explored.nfa),
        Err(_) => Err(Memory),
    }
}

/// The least word beside which a nondeterministic automaton of pairs accepts some second word.
fn least_first(alloc: Global, pairs: &Nfa) -> Result<Option<Word>, Memory>
    requires { (n : ℕ) × (pairs.now.alphabet ≡ Pair n) }
    ensures found { IfOk result (λ found. IfSome found (IsLeastWord (HasSecond pairs.now))) }
    ensures none { IfOk result (λ found. IfNone found
        ((word : List ℕ) → ¬ HasSecond pairs.now word)) }
{
    let words = first_words(alloc, pairs)?;
    match least_text(alloc, &words)? {
        Some(text) => Ok(Some(word_of(alloc, text.as_slice())?)),
        None => Ok(None),
    }
}
