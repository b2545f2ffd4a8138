//! The two sides of one relation.

ghost use Rattle.std.specs.Prelude.{◌≡◌, ℕ, Err, IsOk, IfOk, IfSome, IfNone};
ghost use Rattle.kb_word.specs.Relations.{IsOver};
ghost use Rattle.kb_fsa.specs.Language.{IsAutomaton, generators};
ghost use Rattle.kb_explore.specs.declared.det.Det.TheVariants.{TooManyStates};
ghost use Rattle.kb_leastpair.specs.LeastPair.{IsLeastWord};
ghost use Rattle.kb_structure.specs.StructureOf.{FitTogether, OfAutomata};
ghost use Rattle.kb_structure.specs.Axioms.{ActAlike};
ghost use Rattle.kb_compose.specs.Along.{CountedAlong, identity_on};
ghost use Rattle.kb_relations.specs.Images.{CanBeFollowed};
ghost use Rattle.kb_relations.specs.Composites.{IsCompositeAlong, CountedRelation};
ghost use Rattle.kb_relations.specs.Acts.{LeadApart};

use kb_compose::along;
use kb_explore::Det;
use kb_fsa::{Alphabet, Fsa};
use kb_fsabool::symmetric_difference;
use kb_leastpair::least_first;
use kb_word::Word;
use std::alloc::Global;

/// The least accepted word from which the sides of a relation lead to different words, where words can be followed by
/// the automata. The composites along both sides, and their comparison, are counted before.
pub(crate) fn least_led_apart(
    alloc: Global,
    acceptor: &Fsa,
    multipliers: &[Fsa],
    relation: &(Word, Word),
    limit: u32,
) -> Result<Option<Word>, Det>
    requires fit { FitTogether acceptor.now multipliers.now }
    requires left { IsOver (generators acceptor.now.alphabet) relation.now.0 }
    requires right { IsOver (generators acceptor.now.alphabet) relation.now.1 }
    ensures found { CanBeFollowed acceptor.now multipliers.now
        → IfOk result (λ found. IfSome found (λ word.
        OfAutomata acceptor.now multipliers.now (λ structure.
        IsLeastWord (LeadApart structure relation.now.0 relation.now.1) word))) }
    ensures none { CanBeFollowed acceptor.now multipliers.now
        → IfOk result (λ found. IfNone found
        (OfAutomata acceptor.now multipliers.now (λ structure.
        ActAlike structure relation.now.0 relation.now.1))) }
    ensures few { IsOk result
        → ¬ CountedRelation acceptor.now multipliers.now relation.now limit }
    ensures many { (most : ℕ) → result ≡ Err (TooManyStates most)
        → CountedRelation acceptor.now multipliers.now relation.now limit }
{
    let left = composite(alloc, acceptor, multipliers, &relation.0, limit)?;
    let right = composite(alloc, acceptor, multipliers, &relation.1, limit)?;
    let difference = symmetric_difference(alloc, &left, &right, limit)?;
    Ok(least_first(alloc, &difference)?)
}

/// The composite along a word.
fn composite(
    alloc: Global,
    acceptor: &Fsa,
    multipliers: &[Fsa],
    word: &Word,
    limit: u32,
) -> Result<Fsa, Det>
    requires fit { FitTogether acceptor.now multipliers.now }
    requires word { IsOver (generators acceptor.now.alphabet) word.now }
    ensures composite { IfOk result (IsCompositeAlong acceptor.now multipliers.now word.now) }
    ensures acceptor { IsAutomaton acceptor.now }
    ensures few { IsOk result
        → ¬ CountedAlong multipliers.now limit (identity_on acceptor.now) word.now }
    ensures many { (most : ℕ) → result ≡ Err (TooManyStates most)
        → CountedAlong multipliers.now limit (identity_on acceptor.now) word.now }
{
    prove!(acceptor.alphabet().generators() as usize == multipliers.len());
    let composite = along(alloc, acceptor, multipliers, word, limit)?;
    prove!(composite.alphabet() == Alphabet::Pair(acceptor.alphabet().generators()));
    Ok(composite)
}
