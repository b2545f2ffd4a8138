//! The difference machine.

ghost use Rattle.std.specs.Prelude.{◌≡◌, ◌↔◌, IsTrue};
ghost use Rattle.kb_diff.specs.Tables.{is_pair_letter, step_in};

use std::marker::Model;

/// The difference machine: from the number of a difference each pair of letters leads to a number, or to 0.
///
/// It holds an entry of four bytes for each number and each pair of letters, the padding among them: 4 d (n + 1)^2
/// bytes for d differences over n generators.
#[derive(Debug, Drop)]
pub struct Machine {
    n: u16,
    table: Vec<u32>,
}

impl Model for Machine {
    ghost use Rattle.kb_diff.specs.Tables.{StepTable};

    ghost Value = { StepTable };

    ghost view = { λ machine. record { n = machine.n; entries = machine.table.items } };
}

impl Machine {
    /// The machine with this table.
    pub(crate) fn new(n: u16, table: Vec<u32>) -> Machine
        ensures { result ≡ record { n = n; entries = table.items } }
    {
        Machine { n, table }
    }

    /// To which number the pair of letters a and b leads from d, and 0 where it leads to no
    /// difference that is kept. From no number, and by what are no letters, it leads to 0 too.
    pub fn step(&self, d: u32, a: u16, b: u16) -> u32
        ensures { result ≡ step_in self.now d a b }
    {
        if d == 0 || !is_letter(self.n, a) || !is_letter(self.n, b) {
            return 0;
        }
        let letters = usize::from(self.n) + 1;
        let row = usize::from(a - 1) * letters + usize::from(b - 1);
        let entry = (d - 1) as usize * (letters * letters) + row;
        self.table.get(entry).copied().unwrap_or(0)
    }
}

/// Whether this is one of n letters or the padding.
fn is_letter(n: u16, letter: u16) -> bool
    ensures { result ≡ is_pair_letter n letter }
{
    letter > 0 && u32::from(letter) <= u32::from(n) + 1
}
