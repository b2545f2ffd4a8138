//! Composites along a word.

ghost use Rattle.std.specs.Prelude.{◌≡◌, ◌≢◌, ℕ, [], Err, IsOk, IfOk, length, All};
ghost use Rattle.kb_word.specs.Relations.{IsOver};
ghost use Rattle.kb_fsa.specs.Canonical.{IsCanonical};
ghost use Rattle.kb_fsa.specs.declared.alphabet.Alphabet.TheVariants.{Plain, Pair};
ghost use Rattle.kb_explore.specs.declared.det.Det.TheVariants.{TooManyStates};
ghost use Rattle.kb_compose.specs.Along.{CountedAlong, IsAlong, IsCanonicalComposite, identity_on};
ghost use Rattle.kb_compose.specs.Composition.{CountedComposite};

use crate::composite::compose;
use crate::identity::identity;
use kb_explore::Det;
use kb_fsa::Fsa;
use kb_fsamin::canonical;
use kb_word::Word;
use std::alloc::Global;

/// An automaton of the pairs (u, v) of words such that the acceptor accepts u and following the word's letters from
/// u, by their multipliers, leads to v: the canonical one, but where the word is empty the identity with the
/// acceptor's states.
pub fn along(
    alloc: Global,
    acceptor: &Fsa,
    multipliers: &[Fsa],
    word: &Word,
    limit: u32,
) -> Result<Fsa, Det>
    requires plain { acceptor.now.alphabet ≡ Plain (length multipliers.now) }
    requires pairs { All (λ multiplier. multiplier.alphabet ≡ Pair (length multipliers.now))
        multipliers.now }
    requires letters { IsOver (length multipliers.now) word.now }
    ensures language { IfOk result (IsAlong acceptor.now multipliers.now word.now) }
    ensures alphabet { IfOk result (λ along. along.alphabet ≡ Pair (length multipliers.now)) }
    ensures identity { IfOk result (λ along. word.now ≡ [] → along ≡ identity_on acceptor.now) }
    ensures canonical { IfOk result (λ along. word.now ≢ [] → IsCanonical along.table) }
    ensures few { IsOk result
        → ¬ CountedAlong multipliers.now limit (identity_on acceptor.now) word.now }
    ensures many { (most : ℕ) → result ≡ Err (TooManyStates most) → (most ≡ limit)
        × CountedAlong multipliers.now limit (identity_on acceptor.now) word.now }
{
    let mut along = identity(alloc, acceptor)?;
    for letter in word.letters() {
        let multiplier = &multipliers[usize::from(letter.number()) - 1];
        along = canonical_composite(alloc, &along, multiplier, limit)?;
    }
    Ok(along)
}

/// The canonical automaton of the composite of the two.
fn canonical_composite(alloc: Global, first: &Fsa, second: &Fsa, limit: u32) -> Result<Fsa, Det>
    requires pairs { (n : ℕ) × (first.now.alphabet ≡ Pair n) }
    requires alike { second.now.alphabet ≡ first.now.alphabet }
    ensures composite { IfOk result (IsCanonicalComposite first.now second.now) }
    ensures few { IsOk result → ¬ CountedComposite first.now second.now limit }
    ensures many { (most : ℕ) → result ≡ Err (TooManyStates most)
        → (most ≡ limit) × CountedComposite first.now second.now limit }
{
    let composite = compose(alloc, first, second, limit)?;
    let result = canonical(alloc, &composite)?;
    prove!(result.alphabet() == first.alphabet());
    Ok(result)
}
