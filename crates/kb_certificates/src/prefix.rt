//! Certificates N1: accepted words with a prefix that isn't accepted.

ghost use Rattle.std.specs.Prelude.{◌≡◌, ℕ, List, IfOk, IfSome, IfNone};
ghost use Rattle.std.proofs.Common.{rules};
ghost use Rattle.kb_fsa.specs.Language.{Automaton, generators};
ghost use Rattle.kb_fsa.specs.declared.alphabet.Alphabet.TheVariants.{Plain};
ghost use Rattle.kb_structure.specs.Certificates.{PrefixNotAccepted};
ghost use Rattle.kb_leastpair.specs.LeastPair.{IsLeastWord};
ghost use Rattle.kb_structure.specs.StructureOf.{OfAutomata};
ghost use Rattle.kb_certificates.specs.Followers.{rejected_prefix};

use crate::cascade::Follower;
use crate::least::least_word;
use kb_fsa::Fsa;
use kb_word::{Memory, Word};
use std::alloc::Global;

/// Along the acceptor's words, whether a proper prefix isn't accepted.
#[derive(Drop)]
struct RejectedPrefix<'a> {
    acceptor: &'a Fsa,
}

impl<'a> Follower for RejectedPrefix<'a> {
    type State = bool;

    ghost follower = { λ it. rejected_prefix it.acceptor.now.table };

    fn start(&self) -> bool {
        false
    }

    fn next(&self, leader: u32, rejected: &bool, _symbol: u32) -> bool {
        *rejected || !self.acceptor.is_accepting(leader)
    }

    fn accepts(&self, leader: u32, rejected: &bool) -> bool {
        self.acceptor.is_accepting(leader) && *rejected
    }

    ghost same_state = { Prim.search rules };
}

/// The least word that is accepted and has a prefix that isn't; and the empty word, where it isn't accepted.
pub fn prefix_not_accepted(alloc: Global, acceptor: &Fsa) -> Result<Option<Word>, Memory>
    requires { acceptor.now.alphabet ≡ Plain (generators acceptor.now.alphabet) }
    ensures found { IfOk result (λ found. IfSome found (λ u. (multipliers : List Automaton)
        → OfAutomata acceptor.now multipliers
        (λ structure. IsLeastWord (PrefixNotAccepted structure) u))) }
    ensures none { IfOk result (λ found. IfNone found ((multipliers : List Automaton)
        → OfAutomata acceptor.now multipliers
        (λ structure. (u : List ℕ) → ¬ PrefixNotAccepted structure u))) }
{
    if !acceptor.is_accepting(acceptor.initial()) {
        return Ok(Some(Word::new(alloc)));
    }
    least_word(alloc, acceptor, &RejectedPrefix { acceptor })
}
