//! Following words by multipliers.

ghost use Rattle.std.specs.Prelude.{◌≡◌, ℕ, ◌<◌, ◌≤◌, IfOk};
ghost use Rattle.kb_word.specs.Relations.{IsOver};
ghost use Rattle.kb_fsa.specs.Language.{Accepts, generators};
ghost use Rattle.kb_structure.specs.Structure.{Follows, Multiplies};
ghost use Rattle.kb_structure.specs.StructureOf.{OfAutomata};
ghost use Rattle.kb_relations.specs.Images.{CanBeFollowed};

use kb_fsa::Fsa;
use kb_leastpair::least_second;
use kb_word::{Letter, Memory, Word};
use std::alloc::Global;

/// The word to which following a word's letters leads from an accepted word, by their multipliers one after another. It
/// is the only one, since each accepted word has one image alone under each generator.
pub fn follow(
    alloc: Global,
    acceptor: &Fsa,
    multipliers: &[Fsa],
    word: &Word,
    from: &Word,
) -> Result<Word, Memory>
    requires automata { CanBeFollowed acceptor.now multipliers.now }
    requires word { IsOver (generators acceptor.now.alphabet) word.now }
    requires from { Accepts acceptor.now from.now }
    ensures { IfOk result (λ end. OfAutomata acceptor.now multipliers.now
        (λ structure. Follows structure word.now from.now end)) }
{
    let mut end = from.copy(alloc)?;
    let letters = word.letters();
    for letter in letters {
        end = image(alloc, acceptor, multipliers, *letter, &end)?;
    }
    Ok(end)
}

/// The image of an accepted word under a generator.
fn image(
    alloc: Global,
    acceptor: &Fsa,
    multipliers: &[Fsa],
    letter: Letter,
    word: &Word,
) -> Result<Word, Memory>
    requires automata { CanBeFollowed acceptor.now multipliers.now }
    requires letter { (0 < letter) × (letter ≤ generators acceptor.now.alphabet) }
    requires word { Accepts acceptor.now word.now }
    ensures { IfOk result (λ image. OfAutomata acceptor.now multipliers.now
        (λ structure. Multiplies structure letter word.now image)) }
{
    prove!(acceptor.alphabet().generators() as usize == multipliers.len());
    let multiplier = &multipliers[usize::from(letter.number()) - 1];
    match least_second(alloc, multiplier, word)? {
        Some(image) => Ok(image),
        None => unreachable!(),
    }
}
