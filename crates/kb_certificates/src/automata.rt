//! The automata that are searched for certificates.

ghost use Rattle.std.specs.Prelude.{◌≡◌, ◌+◌, ◌^◌, ◌<◌, Some, length};
ghost use Rattle.kb_structure.specs.StructureOf.{FitTogether, multiplier_of};

use kb_fsa::Fsa;
use kb_word::Letter;

/// A word acceptor, and a multiplier for each generator.
#[derive(Drop)]
pub(crate) struct Automata<'a> {
    pub acceptor: &'a Fsa,
    pub multipliers: &'a [Fsa],
    ghost fit: { FitTogether acceptor.now multipliers.now },
}

impl<'a> Automata<'a> {
    /// How many generators there are, each with a place.
    pub fn places(&self) -> u64
        ensures count { result ≡ length self.now.multipliers.now }
        ensures few { result < 2 ^ 16 }
    {
        let n = self.acceptor.alphabet().generators();
        u64::from(n)
    }

    /// The generator of a place, and its multiplier.
    pub fn at(&self, place: u64) -> (Letter, &'a Fsa)
        requires { place < length self.now.multipliers.now }
        ensures number { result.0 ≡ place + 1 }
        ensures multiplier { multiplier_of self.now.multipliers.now (place + 1)
            ≡ Some result.1.now }
    {
        let n = self.acceptor.alphabet().generators();
        let place = place as usize;
        prove!(place < usize::from(n));
        (Letter::new(place as u16 + 1), &self.multipliers[place])
    }
}
