//! Letters: the generators' numbers.

ghost use Rattle.std.specs.Prelude.{◌≡◌};

use std::marker::Model;

/// A generator by its number, from 1 on, in the order of the presentation's generators.
#[derive(Clone, Copy, Debug, PartialEq, Eq, PartialOrd, Ord, Hash)]
pub struct Letter(u16);

impl Model for Letter {
    ghost use Rattle.std.specs.Prelude.{ℕ};

    ghost Value = { ℕ };

    ghost view = { λ letter. letter.0 };

    ghost inverse = { λ number. record { 0 = number } };
}

impl Letter {
    /// The letter with this number.
    pub fn new(number: u16) -> Letter
        ensures { result ≡ number }
    {
        Letter(number)
    }

    /// The letter's number.
    pub fn number(self) -> u16
        ensures { result ≡ self }
    {
        self.0
    }
}
