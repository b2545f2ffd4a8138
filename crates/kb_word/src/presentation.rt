//! Presentations of monoids and groups by generators and relations.

ghost use Rattle.std.specs.Prelude.{[], ◌∷◌, ◌≡◌, ◌↔◌, ℕ, List, Option, None, IfOk, IsNone, Any};
ghost use Rattle.kb_word.specs.Relations.{IsPresentation, relations_of, inverse_letter, inverse_word};

use crate::equations::{Equations, copy_pairs};
use crate::inverses::Inverses;
use crate::letter::Letter;
use crate::memory::Memory;
use crate::names::Names;
use crate::word::Word;
use crate::word_order::WordOrder;
use std::alloc::Global;

/// A presentation: generators with their names, inverses, and the equations that hold besides.
///
/// Each generator has one name, one weight where the order goes by weight, and at most one inverse; inverses are
/// mutual, and each letter of an equation is a generator.
#[derive(Debug, Drop)]
pub struct Presentation {
    /// How many generators there are: letters 1 to `n`.
    pub n: u16,
    /// The order of words.
    pub order: WordOrder,
    /// The generators' names.
    pub names: Names,
    /// The generators' inverses.
    pub inv: Inverses,
    /// The equations, in order.
    pub eqs: Equations,
    pub ghost is_presentation: { IsPresentation n order names inv eqs },
}

impl Presentation {
    /// The presentation with these parts.
    pub fn new(
        n: u16,
        order: WordOrder,
        names: Names,
        inv: Inverses,
        eqs: Equations,
    ) -> Presentation
        requires { IsPresentation n order names inv eqs }
        ensures n { result.n ≡ n }
        ensures order { result.order ≡ order }
        ensures names { result.names ≡ names }
        ensures inv { result.inv ≡ inv }
        ensures eqs { result.eqs ≡ eqs }
    {
        Presentation {
            n,
            order,
            names,
            inv,
            eqs,
        }
    }

    /// The same presentation.
    pub fn copy(&self, alloc: Global) -> Result<Presentation, Memory>
        ensures n { IfOk result (λ copy. copy.n ≡ self.now.n) }
        ensures order { IfOk result (λ copy. copy.order ≡ self.now.order) }
        ensures names { IfOk result (λ copy. copy.names ≡ self.now.names) }
        ensures inv { IfOk result (λ copy. copy.inv ≡ self.now.inv) }
        ensures eqs { IfOk result (λ copy. copy.eqs ≡ self.now.eqs) }
    {
        let order = self.order.copy(alloc)?;
        let names = self.names.copy(alloc)?;
        let inv = self.inv.copy(alloc)?;
        let eqs = self.eqs.copy(alloc)?;
        Ok(Presentation::new(self.n, order, names, inv, eqs))
    }

    /// The inverse of a letter, and `None` where it has none or is no generator.
    pub fn letter_inverse(&self, letter: Letter) -> Option<Letter>
        ensures { result ≡ inverse_letter self.now.inv letter }
    {
        self.inv.get(letter)
    }

    /// The inverse of a word: the inverses of its letters, in reverse order. `None` comes exactly where a
    /// letter has no inverse.
    pub fn inverse_of(&self, alloc: Global, word: &Word) -> Result<Option<Word>, Memory>
        ensures { IfOk result (λ inverse. inverse ≡ inverse_word self.now.inv word.now) }
    {
        let mut inverse = Word::new(alloc);
        for letter in word.letters() {
            let Some(inverse_letter) = self.letter_inverse(*letter) else {
                return Ok(None);
            };
            inverse.push(inverse_letter)?;
        }
        inverse.reverse();
        Ok(Some(inverse))
    }

    /// The defining relations: the equations in order, and then `x*y = IdWord` for each letter x with an
    /// inverse y, in the order of the letters.
    pub fn relations(&self, alloc: Global) -> Result<Vec<(Word, Word)>, Memory>
        ensures { IfOk result
            (λ relations. relations.items ≡ relations_of self.now.inv self.now.eqs) }
    {
        let mut relations = copy_pairs(alloc, self.eqs.as_slice())?;
        for (place, inverse) in self.inv.as_slice().iter().enumerate() {
            if let Some(inverse) = *inverse {
                let letter = Letter::new(place as u16 + 1);
                relations.push(inverse_relation(alloc, letter, inverse)?)?;
            }
        }
        Ok(relations)
    }
}

/// The relation that says which letter is inverse to a letter.
fn inverse_relation(alloc: Global, letter: Letter, inverse: Letter) -> Result<(Word, Word), Memory>
    ensures { IfOk result (λ relation. relation ≡ (letter ∷ inverse ∷ [], [])) }
{
    let mut product = Word::new(alloc);
    product.push(letter)?;
    product.push(inverse)?;
    Ok((product, Word::new(alloc)))
}

/// A word has no inverse exactly where one of its letters has none.
pub fn none_where_a_letter_has_no_inverse()
    ensures { (inverses : List (Option ℕ)) (w : List ℕ)
        → IsNone (inverse_word inverses w) ↔ Any (λ x. inverse_letter inverses x ≡ None) w }
{}
