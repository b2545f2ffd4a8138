//! Whether what is checked fits together, for those who read it from files.

ghost use Rattle.std.specs.Prelude.{◌≡◌, ◌↔◌, IsTrue, All};
ghost use Rattle.kb_fsa.specs.declared.alphabet.Alphabet.TheVariants.{Pair};
ghost use Rattle.kb_diff.specs.Groups.{EachInverts};
ghost use Rattle.kb_structure.specs.StructureOf.{FitTogether};
ghost use Rattle.kb_axioms.specs.Truth.{AreMultipliers};

use kb_fsa::{Alphabet, Fsa};
use kb_word::{Letter, Presentation};

/// Whether the acceptor reads words, and there is one multiplier for each of its generators, which reads pairs of words
/// over as many.
pub fn fit_together(acceptor: &Fsa, multipliers: &[Fsa]) -> bool
    ensures { IsTrue result ↔ FitTogether acceptor.now multipliers.now }
{
    match acceptor.alphabet() {
        Alphabet::Plain(n) => are_multipliers(n, multipliers),
        Alphabet::Pair(_) => false,
    }
}

/// Whether there is one multiplier for each of so many generators, which reads pairs of words over as many.
pub fn are_multipliers(n: u16, multipliers: &[Fsa]) -> bool
    ensures { IsTrue result ↔ AreMultipliers n multipliers.now }
{
    multipliers.len() == usize::from(n) && read_pairs(n, multipliers)
}

/// Whether each of the automata reads pairs of words over so many generators.
fn read_pairs(n: u16, automata: &[Fsa]) -> bool
    ensures { IsTrue result ↔ All (λ automaton. automaton.alphabet ≡ Pair n) automata.now }
{
    for automaton in automata {
        if automaton.alphabet() != Alphabet::Pair(n) {
            return false;
        }
    }
    true
}

/// Whether each generator has an inverse, as those of a group have.
pub fn is_group(presentation: &Presentation) -> bool
    ensures { IsTrue result ↔ EachInverts presentation.now.n presentation.now.inv }
{
    for place in 0..presentation.n {
        let generator = Letter::new(place + 1);
        if presentation.letter_inverse(generator).is_none() {
            return false;
        }
    }
    true
}
