//! The states that are seen so far.

ghost use Rattle.std.specs.Prelude.{◌≡◌, ◌≤◌, ℕ, Err, [], IfOk, OnOk};
ghost use Rattle.kb_explore.specs.FirstAccepted.{HasMoreStatesBefore};
ghost use Rattle.kb_explore.specs.Machine.{HasMoreStates};
ghost use Rattle.kb_explore.specs.Progress.{AreDistinct, HasNumber, IsOneTooMany, IsUnderWay, seen_count};
ghost use Rattle.kb_explore.specs.declared.det.Det.TheVariants.{TooManyStates};

use crate::det::Det;
use crate::machine::Machine;
use indexmap::IndexSet;
use std::alloc::Global;
use std::hash::Hash;

/// The states that are seen so far, in the order in which they were first seen.
#[derive(Drop)]
pub struct Seen<S: Eq + Hash + Drop> {
    /// The states.
    pub states: IndexSet<S>,
    /// For each of them, the number of the state from which it was first seen, and the symbol that led to it.
    pub origins: Vec<(u32, u32)>,
}

/// The initial state, where there is one.
pub fn start<M: Machine>(alloc: Global, machine: &M, limit: u32) -> Result<Seen<M::State>, Det>
    ensures progress { IfOk result (λ seen.
        IsUnderWay (M.machine machine.now) (M.symbols machine.now) seen []) }
    ensures room { IfOk result (λ seen. seen_count seen ≤ limit) }
    ensures many { (most : ℕ) → result ≡ Err (TooManyStates most)
        → (most ≡ limit) × HasMoreStates (M.machine machine.now) limit }
    ensures before { (most : ℕ) → result ≡ Err (TooManyStates most)
        → HasMoreStatesBefore (M.machine machine.now) limit }
{
    let mut seen = Seen {
        states: IndexSet::new(alloc),
        origins: Vec::new(alloc),
    };
    let Some(state) = machine.start(alloc)? else {
        return Ok(seen);
    };
    number::<M>(limit, &mut seen, state, (0, 0))?;
    Ok(seen)
}

/// The number of the state. One that wasn't seen before is added, with its origin.
pub fn number<M: Machine>(
    limit: u32,
    seen: &mut Seen<M::State>,
    state: M::State,
    origin: (u32, u32),
) -> Result<u32, Det>
    requires { seen_count seen.old ≤ limit }
    ensures numbers { IfOk result (HasNumber seen.old state origin seen.new) }
    ensures distinct { OnOk result (AreDistinct seen.new.states.keys) }
    ensures room { OnOk result (seen_count seen.new ≤ limit) }
    ensures many { (most : ℕ) → result ≡ Err (TooManyStates most)
        → (most ≡ limit) × IsOneTooMany limit seen.old.states.keys state }
{
    let (index, is_new) = seen.states.insert_full(state)?;
    if !is_new {
        return Ok(index as u32 + 1);
    }
    if seen.states.len() > limit as usize {
        return Err(Det::TooManyStates { limit });
    }
    seen.origins.push(origin)?;
    Ok(index as u32 + 1)
}
