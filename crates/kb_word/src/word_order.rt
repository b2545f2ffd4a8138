//! The orders of words that a presentation may have.

ghost use Rattle.std.specs.Prelude.{◌≡◌, ◌↔◌, ◌≤◌, IsTrue, IfOk, All};
ghost use Rattle.kb_word.specs.Weights.{IsWeight, LessByWeight, letter_weight, word_weight};

use crate::letter::Letter;
use crate::memory::Memory;
use crate::order::less;
use crate::word::Word;
use std::alloc::Global;
use std::cmp::Ordering;
use std::marker::Model;

/// A reduction order of words: total, well-founded, and kept by adding words on both sides.
pub trait Order: Drop {
    ghost use Rattle.std.specs.Prelude.{ℕ, List};
    ghost use Rattle.kb_word.specs.WordOrders.{AreReductionOrders};

    /// The order: the first word comes before the second.
    ghost below: { Self → List ℕ → List ℕ → Type 0 };

    /// Whether u comes before v. Takes no memory.
    fn less(&self, u: &Word, v: &Word) -> bool
        ensures { IsTrue result ↔ below self.now u.now v.now };

    /// It is a reduction order, on the words over all numbers.
    ghost is_reduction_order: { AreReductionOrders below };
}

/// The shortlex order: a shorter word comes first, and of two words of one length the one with the earlier
/// generator at the first difference. Epstein et al., Word Processing in Groups, 2.5.
#[derive(Clone, Copy, Debug)]
pub struct ShortLex;

/// The order by weight, wtlex: a lighter word comes first, and of two words of one weight the one with the earlier
/// generator at the first difference. Contracts see the list of the generators' weights, each 1 to 1,000.
#[derive(Debug, Drop)]
pub struct WtLex {
    weights: Vec<u16>,
}

/// The order of words that a presentation has.
#[derive(Debug, Drop)]
pub enum WordOrder {
    /// The shortlex order
    ShortLex,
    /// The order by these weights
    WtLex(WtLex),
}

impl Model for WtLex {
    ghost use Rattle.std.specs.Prelude.{ℕ, List, All};
    ghost use Rattle.kb_word.specs.Weights.{IsWeight};

    ghost Value = { List ℕ };

    ghost view = { λ order. order.weights.items };

    ghost invariant = { λ order. All IsWeight order.weights.items };
}

impl WtLex {
    /// The order by these weights, the first being that of letter 1.
    pub fn from_vec(weights: Vec<u16>) -> WtLex
        requires { All IsWeight weights.items }
        ensures { result ≡ weights.items }
    {
        WtLex { weights }
    }

    /// The weights, given back without taking memory.
    pub fn into_vec(self) -> Vec<u16>
        ensures weights { result.items ≡ self }
        ensures range { All IsWeight result.items }
    {
        self.weights
    }

    /// The generators' weights, in the order of their letters.
    pub fn weights(&self) -> &[u16]
        ensures weights { result.now ≡ self.now }
        ensures range { All IsWeight self.now }
    {
        self.weights.as_slice()
    }

    /// The same order.
    pub fn copy(&self, alloc: Global) -> Result<WtLex, Memory>
        ensures { IfOk result (λ order. order ≡ self.now) }
    {
        let weights = Vec::from_slice(alloc, self.weights())?;
        Ok(WtLex { weights })
    }
}

/// What a letter weighs.
fn weight_of_letter(weights: &[u16], letter: Letter) -> u16
    requires { All IsWeight weights.now }
    ensures weight { result ≡ letter_weight weights.now letter }
    ensures most { result ≤ 1000 }
{
    match letter.number().checked_sub(1) {
        Some(place) => weights.get(place as usize).copied().unwrap_or(1),
        None => 1,
    }
}

/// What the word's letters weigh together.
fn weight_of_word(weights: &[u16], word: &Word) -> u128
    requires { All IsWeight weights.now }
    ensures { result ≡ word_weight weights.now word.now }
{
    let mut weight = 0;
    for letter in word.letters() {
        weight += u128::from(weight_of_letter(weights, *letter));
    }
    weight
}

/// How u compares with v in the order by these weights.
fn compare_by_weight(weights: &[u16], u: &Word, v: &Word) -> Ordering
    requires { All IsWeight weights.now }
    ensures { (result ≡ Ordering.Less) ↔ LessByWeight weights.now u.now v.now }
{
    let by_weight = weight_of_word(weights, u).cmp(&weight_of_word(weights, v));
    by_weight.then(u.letters().cmp(v.letters()))
}

/// Whether u comes before v in the order by these weights.
fn less_by_weight(weights: &[u16], u: &Word, v: &Word) -> bool
    requires { All IsWeight weights.now }
    ensures { IsTrue result ↔ LessByWeight weights.now u.now v.now }
{
    compare_by_weight(weights, u, v) == Ordering::Less
}

impl Order for ShortLex {
    ghost use Rattle.kb_word.specs.Words.{Less};
    ghost use Rattle.kb_word.specs.ShortlexLaws.{shortlex_order};

    ghost below = { λ _. Less };

    fn less(&self, u: &Word, v: &Word) -> bool {
        less(u, v)
    }

    ghost is_reduction_order = { λ _. shortlex_order };
}

impl Order for WtLex {
    ghost use Rattle.kb_word.specs.Weights.{LessByWeight};
    ghost use Rattle.kb_word.specs.WeightLaws.{by_weight_order};

    ghost below = { LessByWeight };

    fn less(&self, u: &Word, v: &Word) -> bool {
        less_by_weight(self.weights(), u, v)
    }

    ghost is_reduction_order = { by_weight_order };
}

impl Order for WordOrder {
    ghost use Rattle.kb_word.specs.WordOrders.{Below};
    ghost use Rattle.kb_word.specs.WordOrderLaws.{word_orders};

    ghost below = { Below };

    fn less(&self, u: &Word, v: &Word) -> bool {
        match self {
            WordOrder::ShortLex => less(u, v),
            WordOrder::WtLex(order) => order.less(u, v),
        }
    }

    ghost is_reduction_order = { word_orders };
}

impl WordOrder {
    /// The same order.
    pub fn copy(&self, alloc: Global) -> Result<WordOrder, Memory>
        ensures { IfOk result (λ order. order ≡ self.now) }
    {
        Ok(match self {
            WordOrder::ShortLex => WordOrder::ShortLex,
            WordOrder::WtLex(order) => WordOrder::WtLex(order.copy(alloc)?),
        })
    }
}
