//! Words followed from the empty word.

ghost use Rattle.std.specs.Prelude.{◌≡◌, ℕ, ◌<◌, ◌≤◌, [], IfOk, OnOk};
ghost use Rattle.kb_word.specs.Relations.{IsOver};
ghost use Rattle.kb_fsa.specs.Language.{Accepts, generators};
ghost use Rattle.kb_structure.specs.Structure.{Follows, Multiplies};
ghost use Rattle.kb_structure.specs.StructureOf.{OfAutomata};
ghost use Rattle.kb_relations.specs.Images.{CanBeFollowed};
ghost use Rattle.kb_relations.specs.Trails.{AreTrails};

use crate::change::image;
use crate::trail::{Trail, cut};
use crate::workspace::{Workspace, start};
use kb_fsa::Fsa;
use kb_word::{Letter, Memory, Word};
use std::alloc::Global;

/// The word to which following a word's letters leads from the empty word, by their multipliers one after another.
pub fn by_multipliers(
    alloc: Global,
    acceptor: &Fsa,
    multipliers: &[Fsa],
    word: &Word,
) -> Result<Word, Memory>
    requires automata { CanBeFollowed acceptor.now multipliers.now }
    requires empty_word { Accepts acceptor.now [] }
    requires word { IsOver (generators acceptor.now.alphabet) word.now }
    ensures { IfOk result (λ end. OfAutomata acceptor.now multipliers.now
        (λ structure. Follows structure word.now [] end)) }
{
    let mut end = word.copy(alloc)?;
    reduce(
        alloc,
        acceptor,
        multipliers,
        &mut end,
        &mut Workspace::new(alloc),
    )?;
    Ok(end)
}

/// Replaces a word by the one to which following its letters leads from the empty word. Where one workspace serves for
/// many words, no memory is taken for the word and the trails any more once they have grown to the longest one. After
/// want of memory the word may be empty.
pub fn reduce(
    alloc: Global,
    acceptor: &Fsa,
    multipliers: &[Fsa],
    word: &mut Word,
    workspace: &mut Workspace,
) -> Result<(), Memory>
    requires automata { CanBeFollowed acceptor.now multipliers.now }
    requires empty_word { Accepts acceptor.now [] }
    requires word { IsOver (generators acceptor.now.alphabet) word.old }
    ensures { OnOk result (OfAutomata acceptor.now multipliers.now
        (λ structure. Follows structure word.old [] word.new)) }
{
    let Workspace { reached, trails } = workspace;
    reached.clear();
    start(alloc, trails, multipliers.len())?;
    for letter in word.letters() {
        multiply(
            alloc,
            acceptor,
            multipliers,
            *letter,
            reached,
            trails.as_mut_slice(),
        )?;
    }
    word.assign(reached)
}

/// Replaces an accepted word by its image under a generator, and cuts the trails to what both have in common.
fn multiply(
    alloc: Global,
    acceptor: &Fsa,
    multipliers: &[Fsa],
    letter: Letter,
    reached: &mut Word,
    trails: &mut [Trail],
) -> Result<(), Memory>
    requires automata { CanBeFollowed acceptor.now multipliers.now }
    requires letter { (0 < letter) × (letter ≤ generators acceptor.now.alphabet) }
    requires reached { Accepts acceptor.now reached.old }
    requires trails { AreTrails multipliers.now reached.old trails.old }
    ensures image { OnOk result (OfAutomata acceptor.now multipliers.now
        (λ structure. Multiplies structure letter reached.old reached.new)) }
    ensures trails { OnOk result (AreTrails multipliers.now reached.new trails.new) }
{
    prove!(acceptor.alphabet().generators() as usize == multipliers.len());
    let index = usize::from(letter.number()) - 1;
    let multiplier = &multipliers[index];
    trails[index].extend(multiplier, reached)?;
    let change = image(alloc, multiplier, letter, &trails[index], reached)?;
    reached.truncate(change.kept);
    reached.append(&change.end)?;
    cut(trails, change.kept);
    Ok(())
}
