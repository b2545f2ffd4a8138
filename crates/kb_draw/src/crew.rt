//! The workers that do a work.

ghost use Rattle.std.specs.Prelude.{◌≡◌, ◌≤◌};

use kb_io::Gate;
use std::marker::Model;

/// So many workers, from 1 to 64, who pass this gate. One works in the caller's thread; several are a thread each.
#[derive(Drop)]
pub struct Crew<'g, G: Gate> {
    count: u32,
    gate: &'g G,
}

/// A crew is how many workers it has.
impl<'g, G: Gate> Model for Crew<'g, G> {
    ghost use Rattle.std.specs.Prelude.{ℕ, ◌≤◌};

    ghost Value = { ℕ };

    ghost view = { λ crew. crew.count };

    ghost invariant = { λ crew. (1 ≤ crew.count) × (crew.count ≤ 64) };
}

impl<'g, G: Gate> Crew<'g, G> {
    /// So many workers, who pass this gate.
    pub fn new(count: u32, gate: &'g G) -> Crew<'g, G>
        requires { (1 ≤ count) × (count ≤ 64) }
        ensures { result ≡ count }
    {
        Crew { count, gate }
    }

    /// How many workers there are.
    pub fn count(&self) -> u32
        ensures number { result ≡ self.now }
        ensures bounds { (1 ≤ result) × (result ≤ 64) }
    {
        self.count
    }

    /// The gate that they pass.
    pub fn gate(&self) -> &'g G {
        self.gate
    }

    /// The first of them alone.
    pub fn first(&self) -> Crew<'g, G>
        ensures { result ≡ 1 }
    {
        Crew {
            count: 1,
            gate: self.gate,
        }
    }

    /// The same workers.
    pub fn copy(&self) -> Crew<'g, G>
        ensures { result ≡ self.now }
    {
        Crew {
            count: self.count,
            gate: self.gate,
        }
    }
}
