//! The canonical automaton.

ghost use Rattle.std.specs.Prelude.{◌≡◌, ◌≤◌, IfOk};
ghost use Rattle.kb_fsa.specs.Language.{SameLanguage, generators};
ghost use Rattle.kb_fsa.specs.Canonical.{IsCanonical};
ghost use Rattle.kb_fsamin.specs.Empty.{empty_table};

use crate::classes::representatives;
use crate::labels::Labels;
use crate::quotient::Quotient;
use kb_explore::{Det, explore};
use kb_fsa::{Alphabet, Fsa, Rows, Table};
use kb_word::Memory;
use std::alloc::Global;

/// The canonical automaton of the same language: reached, trim, with no two states of one right language, and
/// numbered in the shortlex order of the least texts that lead to its states.
pub fn canonical(alloc: Global, fsa: &Fsa) -> Result<Fsa, Memory>
    ensures canonical { IfOk result (λ c. IsCanonical c.table) }
    ensures language { IfOk result (λ c. SameLanguage fsa.now c) }
    ensures alphabet { IfOk result (λ c. c.alphabet ≡ fsa.now.alphabet) }
{
    let labels = Labels::one(fsa.table().rows().len());
    let listed = representatives(alloc, fsa.table(), &labels)?;
    let quotient = Quotient {
        fsa,
        representatives: listed.as_slice(),
    };
    match explore(alloc, &quotient, fsa.len()) {
        Ok(exploration) => {
            // No text leads to acceptance where no state is left.
            let table = exploration.table;
            if table.is_empty() {
                empty(alloc, fsa.alphabet())
            } else {
                Ok(Fsa::new(fsa.alphabet(), table))
            }
        }
        // Each class has its representative among the states.
        Err(Det::TooManyStates { .. }) => unreachable!(),
        Err(Det::Memory) => Err(Memory),
    }
}

/// The canonical automaton of the empty language.
fn empty(alloc: Global, alphabet: Alphabet) -> Result<Fsa, Memory>
    requires { generators alphabet ≤ 65534 }
    ensures { IfOk result (λ fsa. fsa ≡ record { alphabet = alphabet; table = empty_table }) }
{
    let mut rows = Rows::new(alloc)?;
    rows.push(&[])?;
    let mut accepting = Vec::new(alloc);
    accepting.push(false)?;
    Ok(Fsa::new(alphabet, Table::new(1, rows, accepting)))
}
