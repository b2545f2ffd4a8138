//! The marked presentation.

ghost use Rattle.std.specs.Prelude.{◌≡◌, ℕ, ◌+◌, ◌<◌, [], ◌∷◌, ◌++◌, length, map, None, IfOk, All, Contains};
ghost use Rattle.kb_word.specs.Relations.{IsOver};
ghost use Rattle.kb_word.specs.Presentations.{parts_of};
ghost use Rattle.kb_coset.specs.Marked.{MarksCosets, marked_order, marked_parts, marked_word as marked_letters, marker_equation, marker_name};

use kb_word::{
    Equations, Inverses, Letter, Memory, Names, Presentation, Word, WordOrder, WtLex, copy_pairs,
};
use std::alloc::Global;

/// The presentation with the marker `_H` of the cosets of a subgroup, which these words generate: `_H` is its last
/// generator, without an inverse, and after the equations comes `_H*h = _H` for each word h.
///
/// The generators are fewer than 65,534, and none is named `_H`.
pub fn marked(
    alloc: Global,
    presentation: &Presentation,
    generators: &[Word],
) -> Result<Presentation, Memory>
    requires few { presentation.now.n < 65534 }
    requires unnamed { ¬ Contains presentation.now.names marker_name }
    requires letters { All (IsOver presentation.now.n) generators.now }
    ensures n { IfOk result (λ marked. marked.n ≡ presentation.now.n + 1) }
    ensures parts { IfOk result (λ marked. parts_of marked
        ≡ marked_parts presentation.now.n generators.now (parts_of presentation.now)) }
    ensures cosets { IfOk result (λ marked. MarksCosets presentation.now.n generators.now
        (parts_of presentation.now) (parts_of marked)) }
{
    let order = with_marker_weight(alloc, &presentation.order)?;
    let names = with_marker_name(alloc, &presentation.names)?;
    let inv = without_marker_inverse(alloc, &presentation.inv)?;
    let eqs = with_marker_equations(alloc, presentation.n, &presentation.eqs, generators)?;
    Ok(Presentation::new(presentation.n + 1, order, names, inv, eqs))
}

/// A word with the marker in front, which is the letter after the n generators.
pub fn marked_word(alloc: Global, n: u16, word: &Word) -> Result<Word, Memory>
    requires { n < 65534 }
    ensures { IfOk result (λ marked. marked ≡ marked_letters n word.now) }
{
    let mut marked = Word::new(alloc);
    marked.push(Letter::new(n + 1))?;
    marked.append(word)?;
    Ok(marked)
}

/// The same order, by which the marker weighs 1.
fn with_marker_weight(alloc: Global, order: &WordOrder) -> Result<WordOrder, Memory>
    ensures { IfOk result (λ marked. marked ≡ marked_order order.now) }
{
    Ok(match order {
        WordOrder::ShortLex => WordOrder::ShortLex,
        WordOrder::WtLex(by_weight) => WordOrder::WtLex(with_weight_one(alloc, by_weight)?),
    })
}

/// The same weights, and 1 for one more generator.
fn with_weight_one(alloc: Global, by_weight: &WtLex) -> Result<WtLex, Memory>
    ensures { IfOk result (λ longer. longer ≡ by_weight.now ++ 1 ∷ []) }
{
    let mut weights = Vec::from_slice(alloc, by_weight.weights())?;
    weights.push(1)?;
    Ok(WtLex::from_vec(weights))
}

/// The names, and the marker's.
fn with_marker_name(alloc: Global, names: &Names) -> Result<Names, Memory>
    requires few { length names.now < 65534 }
    requires unnamed { ¬ Contains names.now marker_name }
    ensures { IfOk result (λ longer. longer ≡ names.now ++ marker_name ∷ []) }
{
    let mut longer = names.copy(alloc)?;
    longer.push(String::from_str(alloc, "_H")?)?;
    Ok(longer)
}

/// The inverses, and none for the marker.
fn without_marker_inverse(alloc: Global, inverses: &Inverses) -> Result<Inverses, Memory>
    ensures { IfOk result (λ longer. longer ≡ inverses.now ++ None ∷ []) }
{
    let mut longer = Vec::from_slice(alloc, inverses.as_slice())?;
    longer.push(None)?;
    Ok(Inverses::from_vec(longer))
}

/// The equations, and those of the marker.
fn with_marker_equations(
    alloc: Global,
    n: u16,
    equations: &Equations,
    generators: &[Word],
) -> Result<Equations, Memory>
    requires { n < 65534 }
    ensures { IfOk result (λ longer. longer
        ≡ equations.now ++ map (marker_equation n) generators.now) }
{
    let mut longer = copy_pairs(alloc, equations.as_slice())?;
    for generator in generators {
        longer.push(absorbs(alloc, n, generator)?)?;
    }
    Ok(Equations::from_vec(longer))
}

/// The equation by which the marker absorbs a word.
fn absorbs(alloc: Global, n: u16, word: &Word) -> Result<(Word, Word), Memory>
    requires { n < 65534 }
    ensures { IfOk result (λ equation. equation ≡ marker_equation n word.now) }
{
    let left = marked_word(alloc, n, word)?;
    let right = marked_word(alloc, n, &Word::new(alloc))?;
    Ok((left, right))
}
