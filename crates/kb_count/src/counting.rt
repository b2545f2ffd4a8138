//! How many texts an automaton accepts.

ghost use Rattle.std.specs.Prelude.{◌≡◌, IfOk};
ghost use Rattle.kb_fsa.specs.Language.{AcceptsText};
ghost use Rattle.kb_fsa.specs.Canonical.{IsCanonical};
ghost use Rattle.kb_count.specs.Counts.{IsCountOf};

use crate::natural::Natural;
use crate::totals::totals_of;
use kb_fsa::Fsa;
use kb_fsamin::canonical;
use kb_word::Memory;
use std::alloc::Global;

/// How many there are.
#[derive(Debug, Drop)]
pub enum Count {
    /// So many.
    Finite(Natural),
    /// Infinitely many.
    Infinite,
}

/// How many texts the automaton accepts.
pub fn count_accepted(alloc: Global, fsa: &Fsa) -> Result<Count, Memory>
    ensures { IfOk result (IsCountOf (AcceptsText fsa.now)) }
{
    let least = canonical(alloc, fsa)?;
    Ok(count_canonical(alloc, &least)?)
}

/// How many texts the canonical automaton accepts.
fn count_canonical(alloc: Global, fsa: &Fsa) -> Result<Count, Memory>
    requires { IsCanonical fsa.now.table }
    ensures { IfOk result (IsCountOf (AcceptsText fsa.now)) }
{
    let totals = totals_of(alloc, fsa.table())?;
    match totals.of_state(fsa.initial()) {
        Some(number) => Ok(Count::Finite(number.copy(alloc)?)),
        None => Ok(Count::Infinite),
    }
}
