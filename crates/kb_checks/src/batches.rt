//! Words that are answered together, by two workers who meet before they draw a word.

ghost use Rattle.std.specs.Prelude.{[], IfOk, IsTrue};
ghost use Rattle.kb_word.specs.Relations.{IsOver};
ghost use Rattle.kb_fsa.specs.Language.{Accepts, generators};
ghost use Rattle.kb_structure.specs.StructureOf.{FitTogether};
ghost use Rattle.kb_relations.specs.Images.{CanBeFollowed};

use crate::meeting::Meeting;
use kb_axioms::fit_together;
use kb_certificates::{
    Images, check_images, pair_outside_acceptor, prefix_not_accepted, two_images,
};
use kb_draw::Crew;
use kb_fsa::Fsa;
use kb_fsafile::read;
use kb_io::OpenGate;
use kb_reduce::{batch_multipliers, batch_rules};
use kb_relations::{automata_without_certificates_can_be_followed, by_multipliers};
use kb_rules::Reducer;
use kb_word::{Letter, Memory, Word};
use std::alloc::Global;
use std::sync::Wait;
use std::thread::Threads;

/// The word acceptor of the group of order two, whose generator is a.
const ACCEPTOR: &str = "_FSA := rec(isFSA := true, \
    alphabet := rec(type := \"identifiers\", size := 1, names := [a]), \
    states := rec(type := \"simple\", size := 2), initial := [1], accepting := [1,2], \
    table := rec(format := \"dense deterministic\", transitions := [[2],[0]]));";

/// Its multiplier. Symbol 2 is the letter beside padding, and 3 padding beside the letter.
const MULTIPLIER: &str = "_FSA := rec(isFSA := true, \
    alphabet := rec(type := \"product\", size := 3, arity := 2, padding := _, \
    base := rec(type := \"identifiers\", size := 1, names := [a])), \
    states := rec(type := \"simple\", size := 2), initial := [1], accepting := [2], \
    table := rec(format := \"dense deterministic\", transitions := [[0,2,2],[0,0,0]]));";

/// Whether a reducer's normal forms of two words are those that each has alone.
pub(crate) fn rules_answer<R: Reducer + Sync, T: Threads + Wait + Sync>(
    rt: &T,
    alloc: Global,
    reducer: &R,
    first: Word,
    second: Word,
) -> Result<bool, Memory> {
    let alone = [reducer.nf(alloc, &first)?, reducer.nf(alloc, &second)?];
    let meeting = Meeting::new();
    let crew = Crew::new(2, &meeting);
    let together = batch_rules(rt, alloc, reducer, &[first, second], &crew)?;
    Ok(!meeting.was_missed() && together.as_slice() == alone.as_slice())
}

/// Whether copies of the automata of the group of order two lead two powers of its generator to the words to which they
/// lead each alone, and the first to the generator.
pub(crate) fn multipliers_answer<T: Threads + Wait + Sync>(
    rt: &T,
    alloc: Global,
    first: usize,
    second: usize,
) -> Result<bool, Memory> {
    let (Ok((_, acceptor)), Ok((_, multiplier))) = (
        read(alloc, ACCEPTOR.as_bytes()),
        read(alloc, MULTIPLIER.as_bytes()),
    ) else {
        return Ok(false);
    };
    let acceptor = acceptor.copy(alloc)?;
    let multipliers = [multiplier.copy(alloc)?];
    if !fit_together(&acceptor, &multipliers) {
        return Ok(false);
    }
    let first = power(alloc, &acceptor, first)?;
    let second = power(alloc, &acceptor, second)?;
    lead_alike(rt, alloc, &acceptor, &multipliers, first, second)
}

/// A power of the first letter that the automaton reads, if it reads one.
fn power(alloc: Global, acceptor: &Fsa, exponent: usize) -> Result<Word, Memory>
    ensures { IfOk result (IsOver (generators acceptor.now.alphabet)) }
{
    let mut word = Word::new(alloc);
    for _ in 0..exponent {
        if acceptor.alphabet().generators() > 0 {
            word.push(Letter::new(1))?;
        }
    }
    Ok(word)
}

/// Whether automata without a certificate lead two words to those to which they lead each alone.
fn lead_alike<T: Threads + Wait + Sync>(
    rt: &T,
    alloc: Global,
    acceptor: &Fsa,
    multipliers: &[Fsa],
    first: Word,
    second: Word,
) -> Result<bool, Memory>
    requires fit { FitTogether acceptor.now multipliers.now }
    requires first { IsOver (generators acceptor.now.alphabet) first }
    requires second { IsOver (generators acceptor.now.alphabet) second }
{
    if !can_be_followed(rt, alloc, acceptor, multipliers)? {
        return Ok(false);
    }
    let meeting = Meeting::new();
    let crew = Crew::new(2, &meeting);
    let one = by_multipliers(alloc, acceptor, multipliers, &first)?;
    let other = by_multipliers(alloc, acceptor, multipliers, &second)?;
    let words = [first, second];
    let ends = batch_multipliers(rt, alloc, acceptor, multipliers, &words, &crew)?;
    let is_generator = one.letters() == [Letter::new(1)].as_slice();
    let alike = ends.as_slice() == [one, other].as_slice();
    Ok(alike && is_generator && !meeting.was_missed())
}

/// Whether there is none of the certificates by which words can't be followed by automata that fit together.
fn can_be_followed<T: Threads + Wait + Sync>(
    rt: &T,
    alloc: Global,
    acceptor: &Fsa,
    multipliers: &[Fsa],
) -> Result<bool, Memory>
    requires { FitTogether acceptor.now multipliers.now }
    ensures { IfOk result (λ answer. IsTrue answer
        → CanBeFollowed acceptor.now multipliers.now × Accepts acceptor.now []) }
{
    automata_without_certificates_can_be_followed();
    let crew = Crew::new(1, &OpenGate);
    let None = prefix_not_accepted(alloc, acceptor)? else {
        return Ok(false);
    };
    let None = pair_outside_acceptor(rt, alloc, acceptor, multipliers, &crew)? else {
        return Ok(false);
    };
    let Images::Given = check_images(rt, alloc, acceptor, multipliers, 100, &crew)? else {
        return Ok(false);
    };
    let None = two_images(rt, alloc, acceptor, multipliers, &crew)? else {
        return Ok(false);
    };
    Ok(true)
}
