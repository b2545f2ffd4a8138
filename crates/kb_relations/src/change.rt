//! How a word changes at its end where it is multiplied.

ghost use Rattle.std.specs.Prelude.{◌≡◌, ℕ, ◌<◌, ◌≤◌, [], ◌∷◌, ◌++◌, suc, List, IsTrue, length, take, IfOk};
ghost use Rattle.kb_word.specs.Relations.{IsOver};
ghost use Rattle.kb_fsa.specs.Language.{generators};
ghost use Rattle.kb_fsa.specs.declared.alphabet.Alphabet.TheVariants.{Pair};
ghost use Rattle.kb_leastpair.specs.LeastPair.{IsAccepted, IsEnd};
ghost use Rattle.kb_relations.specs.Trails.{IsTrail};

use crate::trail::Trail;
use kb_fsa::{Fsa, PairSymbols};
use kb_leastpair::{least_end, least_second};
use kb_word::{Letter, Memory, Word};
use std::alloc::Global;

/// How a word becomes its image.
#[derive(Drop)]
pub(crate) struct Change {
    /// So many first letters are kept.
    pub(crate) kept: usize,
    /// The letters that come behind them.
    pub(crate) end: Word,
}

/// How a word becomes its image under a generator, by the generator's multiplier and its trail along the word.
pub(crate) fn image(
    alloc: Global,
    multiplier: &Fsa,
    letter: Letter,
    trail: &Trail,
    word: &Word,
) -> Result<Change, Memory>
    requires alphabet { (n : ℕ) × (multiplier.now.alphabet ≡ Pair n) }
    requires letter { (0 < letter) × (letter ≤ generators multiplier.now.alphabet) }
    requires word { IsOver (generators multiplier.now.alphabet) word.now }
    requires image { ¬ ((second : List ℕ) → ¬ IsAccepted multiplier.now word.now second) }
    requires trail { IsTrail multiplier.now word.now trail.now }
    requires whole { length trail.now ≡ suc (length word.now) }
    ensures kept { IfOk result (λ change. change.kept ≤ length word.now) }
    ensures image { IfOk result (λ change.
        IsAccepted multiplier.now word.now (take change.kept word.now ++ change.end)) }
{
    let len = word.len();
    if is_lengthened(multiplier, trail.state(len), letter) {
        let mut end = Word::new(alloc);
        end.push(letter)?;
        return Ok(Change { kept: len, end });
    }
    if len > 0 && is_shortened(multiplier, trail.state(len - 1), word.letters()[len - 1]) {
        let end = Word::new(alloc);
        return Ok(Change { kept: len - 1, end });
    }
    search(alloc, multiplier, trail, word)
}

/// Whether the multiplier goes from the state to acceptance by the letter, as it stands in the second word alone. Then
/// an image has it behind the word.
fn is_lengthened(multiplier: &Fsa, state: u32, letter: Letter) -> bool
    requires letter { (0 < letter) × (letter ≤ generators multiplier.now.alphabet) }
    ensures { IsTrue result → IsEnd multiplier.now state [] (letter ∷ []) }
{
    let symbols = PairSymbols {
        n: multiplier.alphabet().generators(),
    };
    let symbol = symbols.symbol(symbols.padding(), u32::from(letter.number()));
    let longer = multiplier.step(state, symbol);
    multiplier.is_accepting(longer)
}

/// Whether the multiplier goes from the state to acceptance by the last letter, as it stands in the first word alone.
/// Then an image is the word without it.
fn is_shortened(multiplier: &Fsa, state: u32, last: Letter) -> bool
    requires last { (0 < last) × (last ≤ generators multiplier.now.alphabet) }
    ensures { IsTrue result → IsEnd multiplier.now state (last ∷ []) [] }
{
    let symbols = PairSymbols {
        n: multiplier.alphabet().generators(),
    };
    let symbol = symbols.symbol(u32::from(last.number()), symbols.padding());
    let shorter = multiplier.step(state, symbol);
    multiplier.is_accepting(shorter)
}

/// The image of a word that keeps all of it, or all but its last letter, or all but its last three, and so on: the
/// first that is found.
fn search(alloc: Global, multiplier: &Fsa, trail: &Trail, word: &Word) -> Result<Change, Memory>
    requires alphabet { (n : ℕ) × (multiplier.now.alphabet ≡ Pair n) }
    requires word { IsOver (generators multiplier.now.alphabet) word.now }
    requires image { ¬ ((second : List ℕ) → ¬ IsAccepted multiplier.now word.now second) }
    requires trail { IsTrail multiplier.now word.now trail.now }
    requires whole { length trail.now ≡ suc (length word.now) }
    ensures kept { IfOk result (λ change. change.kept ≤ length word.now) }
    ensures image { IfOk result (λ change.
        IsAccepted multiplier.now word.now (take change.kept word.now ++ change.end)) }
{
    let mut kept = word.len();
    let mut fewer = 1;
    while kept > 0 {
        if let Some(end) = least_end(alloc, multiplier, word, kept, trail.state(kept))? {
            return Ok(Change { kept, end });
        }
        kept = kept.saturating_sub(fewer);
        fewer = fewer.saturating_mul(2);
    }
    match least_second(alloc, multiplier, word)? {
        Some(end) => Ok(Change { kept: 0, end }),
        None => unreachable!(),
    }
}
