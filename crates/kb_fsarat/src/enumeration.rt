//! The enumeration of accepted words.

ghost use Rattle.std.specs.Prelude.{◌≡◌, ℕ, None, IfOk, IfSome, OnErr};
ghost use Rattle.std.specs.Option.{option_copied};
ghost use Rattle.kb_fsa.specs.declared.alphabet.Alphabet.TheVariants.{Plain};
ghost use Rattle.kb_fsarat.specs.Enumeration.{Enumeration, IsStepOf};
ghost use Rattle.kb_fsarat.specs.Enumerating.{IsGiven, IsNextOf};

use crate::layers::Layers;
use crate::successor::{first_of_length, next_of_length};
use kb_fsa::Fsa;
use kb_word::{Memory, Word};
use std::alloc::Global;
use std::marker::Model;

/// The accepted words of some lengths, one after another; made by `new`. It holds the last word, and for each length up
/// to its own the states from which some text of that length leads to acceptance; from the first length where they are
/// those of an earlier one they repeat, and it holds no further ones.
#[derive(Drop)]
pub struct Enumerate<'a> {
    fsa: &'a Fsa,
    min: u16,
    max: u16,
    layers: Option<Layers<'a>>,
    given: Option<Word>,
}

impl<'a> Model for Enumerate<'a> {
    ghost use Rattle.kb_fsarat.specs.Enumeration.{Enumeration};
    ghost use Rattle.kb_fsarat.specs.Enumerating.{IsEnumerating};

    ghost Value = { Enumeration };

    ghost view = { λ e.
        record { automaton = e.fsa.now; min = e.min; max = e.max; given = e.given } };

    ghost invariant = { λ e. IsEnumerating e.fsa.now e.min e.max e.layers e.given };
}

impl<'a> Enumerate<'a> {
    /// The words that a plain automaton accepts, of length `min` to `max`, of which none is given yet. Takes no memory.
    pub fn new(fsa: &'a Fsa, min: u16, max: u16) -> Enumerate<'a>
        requires { (n : ℕ) × (fsa.now.alphabet ≡ Plain n) }
        ensures { result ≡ record { automaton = fsa.now; min = min; max = max; given = None } }
    {
        Enumerate {
            fsa,
            min,
            max,
            layers: None,
            given: None,
        }
    }

    /// The next word, and `None` exactly after the last.
    pub fn next_word(&mut self, alloc: Global) -> Result<Option<Word>, Memory>
        ensures step { IfOk result (λ word. IsStepOf self.old word self.new) }
        ensures err { OnErr result (self.new ≡ self.old) }
    {
        let mut layers = match self.layers.take() {
            Some(layers) => layers,
            None => Layers::new(alloc, self.fsa.table()),
        };
        let found = next_after(
            alloc,
            self.fsa,
            &mut layers,
            self.given.as_ref(),
            self.min,
            self.max,
        );
        self.layers = Some(layers);
        let Some(word) = found? else {
            return Ok(None);
        };
        let given = word.copy(alloc)?;
        self.given = Some(given);
        Ok(Some(word))
    }
}

/// The least accepted word of the lengths after the one that was given last.
fn next_after(
    alloc: Global,
    fsa: &Fsa,
    layers: &mut Layers<'_>,
    given: Option<&Word>,
    min: u16,
    max: u16,
) -> Result<Option<Word>, Memory>
    requires table { layers.old.table ≡ fsa.now.table }
    requires given { IfSome (option_copied given) (IsGiven fsa.now min max) }
    ensures table { layers.new.table ≡ layers.old.table }
    ensures next { IfOk result (IsNextOf (record {
      automaton = fsa.now;
      min = min;
      max = max;
      given = option_copied given.entry;
    })) }
{
    match given {
        None => first_of_length(alloc, layers, usize::from(min), usize::from(max)),
        Some(word) => match next_of_length(alloc, layers, word)? {
            Some(next) => Ok(Some(next)),
            None => first_of_length(alloc, layers, word.len() + 1, usize::from(max)),
        },
    }
}
