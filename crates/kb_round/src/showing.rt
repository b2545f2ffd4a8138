//! The equalities of certificates.

ghost use Rattle.std.specs.Prelude.{◌≡◌, [], ◌∷◌, ◌++◌, None, Some, IfOk};
ghost use Rattle.kb_word.specs.Rewriting.{NormalForm};
ghost use Rattle.kb_kept.specs.Listed.{equality_of};
ghost use Rattle.kb_structure.specs.declared.cert.Cert.TheVariants.{N4, N7};
ghost use Rattle.kb_round.specs.Figures.{Breaks};
ghost use Rattle.kb_round.specs.Rounds.{ShowsEquality};
ghost use Rattle.kb_round.specs.Shown.{HasEquality};

use crate::answers::Axiom;
use kb_kept::Equality;
use kb_rules::Reducer;
use kb_structure::Cert;
use kb_word::{Letter, Memory, Word};
use std::alloc::Global;

/// The equality of a certificate: its two words that are the same element, whose differences the automata lack.
pub(crate) fn equality_of<R: Reducer>(
    alloc: Global,
    reducer: &R,
    cert: Cert,
) -> Result<Equality, Memory>
    requires { HasEquality cert }
    ensures { IfOk result (ShowsEquality (R.rules reducer.now) cert) }
{
    match cert {
        Cert::N4 { x, u } => without_image(alloc, reducer, x, u),
        Cert::N5 { v, other, .. } => Ok(equality_between(v, other)),
        Cert::N6 { x, prefix } => without_extension(alloc, x, prefix),
        Cert::N7 { x, u, v } => not_least(alloc, reducer, x, u, v),
        Cert::N8 { a, b, .. } => Ok(equality_between(a, b)),
        Cert::N1 { .. } | Cert::N2 { .. } | Cert::N3 { .. } => unreachable!(),
    }
}

/// The axiom that a certificate breaks.
pub(crate) fn axiom_of(cert: &Cert) -> Axiom
    requires { HasEquality cert.now }
    ensures { Breaks cert.now result }
{
    match cert {
        Cert::N4 { .. } => Axiom::N4,
        Cert::N5 { .. } => Axiom::N5,
        Cert::N6 { .. } => Axiom::N6,
        Cert::N7 { .. } => Axiom::N7,
        Cert::N8 { .. } => Axiom::N8,
        Cert::N1 { .. } | Cert::N2 { .. } | Cert::N3 { .. } => unreachable!(),
    }
}

/// The equality of a word without image: from the word to the normal form of its product by the generator.
fn without_image<R: Reducer>(
    alloc: Global,
    reducer: &R,
    x: Letter,
    u: Word,
) -> Result<Equality, Memory>
    ensures { IfOk result (ShowsEquality (R.rules reducer.now) (N4 x u)) }
{
    let v = reducer.nf(alloc, &extended(alloc, &u, x)?)?;
    Ok(Equality { u, v, x: Some(x) })
}

/// The equality of a word whose extension is missing: from the word to its extension.
fn without_extension(alloc: Global, x: Letter, u: Word) -> Result<Equality, Memory>
    ensures { IfOk result (λ equality. equality ≡ equality_of u (u ++ x ∷ []) (Some x)) }
{
    let v = extended(alloc, &u, x)?;
    Ok(Equality { u, v, x: Some(x) })
}

/// The equality of an image that isn't least: from the image to the normal form of the product.
fn not_least<R: Reducer>(
    alloc: Global,
    reducer: &R,
    x: Letter,
    u: Word,
    v: Word,
) -> Result<Equality, Memory>
    ensures { IfOk result (ShowsEquality (R.rules reducer.now) (N7 x u v)) }
{
    let least = reducer.nf(alloc, &extended(alloc, &u, x)?)?;
    Ok(equality_between(v, least))
}

/// The equality of two words that are the same element.
fn equality_between(u: Word, v: Word) -> Equality
    ensures { result ≡ equality_of u v None }
{
    Equality { u, v, x: None }
}

/// The word followed by the letter.
fn extended(alloc: Global, u: &Word, x: Letter) -> Result<Word, Memory>
    ensures { IfOk result (λ word. word ≡ u.now ++ x ∷ []) }
{
    let mut word = u.copy(alloc)?;
    word.push(x)?;
    Ok(word)
}
