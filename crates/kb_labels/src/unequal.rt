//! The least pair of words that don't differ by the generator.

ghost use Rattle.std.specs.Prelude.{◌≡◌, ℕ, List, IfOk, IfSome, IfNone};
ghost use Rattle.kb_word.specs.Relations.{IsOver, relations_of};
ghost use Rattle.kb_fsa.specs.Language.{generators};
ghost use Rattle.kb_fsa.specs.declared.alphabet.Alphabet.TheVariants.{Pair};
ghost use Rattle.kb_diff.specs.Groups.{EachInverts};
ghost use Rattle.kb_labels.specs.Labels.{AreEqualSides, HaveOneNormalForm};
ghost use Rattle.kb_leastpair.specs.LeastPair.{IsLeastPair};
ghost use Rattle.kb_labels.specs.Unequal.{IsLeastUnequalSecond, IsUnequalPair};

use crate::search::Search;
use crate::seconds::Seconds;
use kb_fsa::{Fsa, PairSymbols, live, reversed};
use kb_rules::Reducer;
use kb_word::{Letter, Memory, Presentation, Word};
use std::alloc::Global;

/// The least second word that the multiplier of x has beside a first word and whose normal form is another than that of
/// the first word followed by x; `None` where there is none.
pub fn least_unequal_second<R: Reducer>(
    alloc: Global,
    x: Letter,
    multiplier: &Fsa,
    reducer: &R,
    first: &Word,
) -> Result<Option<Word>, Memory>
    requires alphabet { (n : ℕ) × (multiplier.now.alphabet ≡ Pair n) }
    requires first { IsOver (generators multiplier.now.alphabet) first.now }
    ensures found { IfOk result (λ found. IfSome found (IsLeastUnequalSecond
        (R.rules reducer.now) multiplier.now x first.now)) }
    ensures none { IfOk result (λ found. IfNone found ((second : List ℕ)
        → ¬ IsUnequalPair (R.rules reducer.now) multiplier.now x first.now second)) }
{
    // A use of the list brings its invariant, that the rules decrease.
    let _rules = reducer.list().as_slice();
    let n = multiplier.alphabet().generators();
    let moves = reversed(alloc, multiplier.table())?;
    let marks = live(alloc, multiplier.table(), &moves)?;
    let mut product = first.copy(alloc)?;
    product.push(x)?;
    let target = reducer.nf(alloc, &product)?;
    let word = Word::new(alloc);
    let seconds = Seconds {
        pairs: multiplier,
        marks: marks.as_slice(),
        symbols: PairSymbols { n },
        reducer,
        first,
        state: multiplier.initial(),
        word: &word,
        target: &target,
    };
    seconds.least(alloc)
}

/// The least pair of words that the multiplier of x relates and of which the second has another normal form than the
/// first followed by x: the least first word, and the least second word beside it. `None` where there is none; if first
/// words of all lengths are related and none of their pairs is such a one, it doesn't end.
pub fn least_unequal_pair<R: Reducer>(
    alloc: Global,
    presentation: &Presentation,
    x: Letter,
    multiplier: &Fsa,
    reducer: &R,
) -> Result<Option<(Word, Word)>, Memory>
    requires group { EachInverts presentation.now.n presentation.now.inv }
    requires alphabet { multiplier.now.alphabet ≡ Pair presentation.now.n }
    ensures unequal { IfOk result (λ found. IfSome found (λ pair. IsLeastUnequalSecond
        (R.rules reducer.now) multiplier.now x pair.0 pair.1)) }
    ensures found { AreEqualSides (relations_of presentation.now.inv presentation.now.eqs)
        (R.rules reducer.now)
        → HaveOneNormalForm (relations_of presentation.now.inv presentation.now.eqs)
        (R.rules reducer.now)
        → IfOk result (λ found. IfSome found (λ pair. IsLeastPair
        (IsUnequalPair (R.rules reducer.now) multiplier.now x) pair.0 pair.1)) }
    ensures none { AreEqualSides (relations_of presentation.now.inv presentation.now.eqs)
        (R.rules reducer.now)
        → HaveOneNormalForm (relations_of presentation.now.inv presentation.now.eqs)
        (R.rules reducer.now)
        → IfOk result (λ found. IfNone found ((first second : List ℕ)
        → ¬ IsUnequalPair (R.rules reducer.now) multiplier.now x first second)) }
{
    // A use of the list brings its invariant, that the rules decrease.
    let _rules = reducer.list().as_slice();
    let moves = reversed(alloc, multiplier.table())?;
    let marks = live(alloc, multiplier.table(), &moves)?;
    let mut generator = Word::new(alloc);
    generator.push(x)?;
    let end = reducer.nf(alloc, &generator)?;
    let search = Search {
        presentation,
        reducer,
        multiplier,
        marks: marks.as_slice(),
        end: &end,
    };
    match search.least_first(alloc)? {
        None => Ok(None),
        Some(first) => match least_unequal_second(alloc, x, multiplier, reducer, &first)? {
            Some(second) => Ok(Some((first, second))),
            None => Ok(None),
        },
    }
}
