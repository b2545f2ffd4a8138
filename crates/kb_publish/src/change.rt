//! What changes from one version of a book to the next.

ghost use Rattle.std.specs.Prelude.{◌≡◌};
ghost use Rattle.kb_word.specs.WordOrders.{Below};

use kb_rules::Rule;
use std::marker::{Brand, Model, PhantomData};

/// The order along which all rules of a book decrease. Versions of a book, and what changes between them, are of a type
/// with this name. No value of it is made.
pub trait Ordered {
    ghost use Rattle.kb_word.specs.declared.word_order.WordOrder.{WordOrder};

    ghost order: { WordOrder };
}

impl Ordered for Brand {
    ghost use Rattle.kb_word.specs.declared.word_order.WordOrder.TheVariants.{ShortLex};

    ghost order = { ShortLex };
}

/// A line that has become live: its number and its rule.
#[derive(Drop)]
pub struct LiveLine<N: Ordered> {
    number: u32,
    rule: Rule,
    order: PhantomData<N>,
}

impl<N: Ordered> Model for LiveLine<N> {
    ghost use Rattle.kb_word.specs.WordOrders.{Below};
    ghost use Rattle.kb_publish.specs.LiveLines.{NumberedRule};

    ghost Value = { NumberedRule };

    ghost view = { λ line. record { number = line.number; rule = line.rule } };

    ghost invariant = { λ line. Below N.order line.rule.1 line.rule.0 };
}

impl<N: Ordered> LiveLine<N> {
    /// The line with this number and this rule.
    pub fn new(number: u32, rule: Rule) -> LiveLine<N>
        requires { Below N.order rule.1 rule.0 }
        ensures { result ≡ record { number = number; rule = rule } }
    {
        LiveLine {
            number,
            rule,
            order: PhantomData,
        }
    }

    /// Its number.
    pub fn number(&self) -> u32
        ensures { result ≡ self.now.number }
    {
        self.number
    }

    /// Its rule.
    pub fn rule(&self) -> &Rule
        ensures rule { result.now ≡ self.now.rule }
        ensures falls { Below N.order result.now.1 result.now.0 }
    {
        &self.rule
    }
}

/// A change of the live lines.
#[derive(Drop)]
pub enum Change<N: Ordered> {
    /// The line at this place among them is no longer live.
    Gone(usize),
    /// A line has become live, and comes last.
    Live(LiveLine<N>),
    /// They are a version of their own, with the next number.
    Published,
}
