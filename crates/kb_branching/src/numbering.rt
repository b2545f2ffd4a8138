//! The numbers of states.

ghost use Rattle.std.specs.Prelude.{◌≡◌, ◌≤◌, ℕ, Err, length, IfOk, OnOk};
ghost use Rattle.kb_explore.specs.Progress.{AreDistinct, IsOneTooMany};
ghost use Rattle.kb_explore.specs.declared.det.Det.TheVariants.{TooManyStates};
ghost use Rattle.kb_branching.specs.Progress.{HasNumber};

use crate::machine::Branching;
use indexmap::IndexSet;
use kb_explore::Det;

/// The number of the state among those that are seen so far. One that wasn't seen before is added.
pub(crate) fn number<M: Branching>(
    limit: u32,
    states: &mut IndexSet<M::State>,
    state: M::State,
) -> Result<u32, Det>
    requires { length states.old.keys ≤ limit }
    ensures numbers { IfOk result (HasNumber states.old.keys state states.new.keys) }
    ensures distinct { OnOk result (AreDistinct states.new.keys) }
    ensures room { OnOk result (length states.new.keys ≤ limit) }
    ensures many { (most : ℕ) → result ≡ Err (TooManyStates most)
        → (most ≡ limit) × IsOneTooMany limit states.old.keys state }
{
    let (index, _) = states.insert_full(state)?;
    if states.len() > limit as usize {
        return Err(Det::TooManyStates { limit });
    }
    Ok(index as u32 + 1)
}
