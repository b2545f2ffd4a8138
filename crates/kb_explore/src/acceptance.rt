//! The least accepted text.

ghost use Rattle.std.specs.Prelude.{◌≡◌, ◌<◌, ◌≤◌, ℕ, suc, true, false, List, Err, Some, slice_get, IsOk, IfOk, IfSome, IfNone, OnOk};
ghost use Rattle.kb_explore.specs.Machine.{MachineAccepts};
ghost use Rattle.kb_explore.specs.FirstAccepted.{IsLeastAccepted, HasMoreStatesBefore};
ghost use Rattle.kb_explore.specs.Progress.{seen_count};
ghost use Rattle.kb_explore.specs.Search.{IsSearchedTo, IsFoundLast};
ghost use Rattle.kb_explore.specs.declared.det.Det.TheVariants.{TooManyStates};

use crate::det::Det;
use crate::exploration::text_to;
use crate::machine::Machine;
use crate::seen::{Seen, number, start};
use indexmap::IndexSet;
use std::alloc::Global;

/// The least text that the machine accepts, in the shortlex order; `None` where it accepts none. It
/// explores no further than that.
pub fn first_accepted<M: Machine>(
    alloc: Global,
    machine: &M,
    limit: u32,
) -> Result<Option<Vec<u32>>, Det>
    ensures found { IfOk result (λ found. IfSome found (λ text.
        IsLeastAccepted (M.machine machine.now) text.items)) }
    ensures none { IfOk result (λ found. IfNone found
        ((text : List ℕ) → ¬ MachineAccepts (M.machine machine.now) text)) }
    ensures few { IsOk result → ¬ HasMoreStatesBefore (M.machine machine.now) limit }
    ensures many { (most : ℕ) → result ≡ Err (TooManyStates most)
        → (most ≡ limit) × HasMoreStatesBefore (M.machine machine.now) limit }
{
    let mut seen = start(alloc, machine, limit)?;
    if accepts_at(machine, &seen.states, 0) {
        return Ok(Some(Vec::new(alloc)));
    }
    let mut done = 0;
    while done < seen.states.len() {
        if next_accepts(alloc, machine, limit, &mut seen, done)? {
            let text = text_to(alloc, &seen.origins, seen.states.len() as u32)?;
            return Ok(Some(text));
        }
        done += 1;
    }
    Ok(None)
}

/// Adds the states to which the moves of the state at the place lead, up to the first that accepts;
/// whether there is one, which is then the last.
fn next_accepts<M: Machine>(
    alloc: Global,
    machine: &M,
    limit: u32,
    seen: &mut Seen<M::State>,
    done: usize,
) -> Result<bool, Det>
    requires searched { IsSearchedTo (M.machine machine.now) (M.symbols machine.now) seen.old done }
    requires more { done < seen_count seen.old }
    requires room { seen_count seen.old ≤ limit }
    ensures searched { IfOk result (λ found. found ≡ false
        → IsSearchedTo (M.machine machine.now) (M.symbols machine.now) seen.new (suc done)) }
    ensures found { IfOk result (λ found. found ≡ true
        → IsFoundLast (M.machine machine.now) seen.new) }
    ensures room { OnOk result (seen_count seen.new ≤ limit) }
    ensures many { (most : ℕ) → result ≡ Err (TooManyStates most)
        → (most ≡ limit) × HasMoreStatesBefore (M.machine machine.now) limit }
{
    let moves = machine.moves(alloc, &seen.states[done])?;
    for (symbol, state) in moves {
        let known = seen.states.len();
        number::<M>(limit, seen, state, (done as u32 + 1, symbol))?;
        if accepts_at(machine, &seen.states, known) {
            return Ok(true);
        }
    }
    Ok(false)
}

/// Whether there is a state at the place, and it accepts.
fn accepts_at<M: Machine>(machine: &M, states: &IndexSet<M::State>, place: usize) -> bool
    ensures yes { result ≡ true → (state : M.State) × (slice_get states.now.keys place ≡ Some state)
        × ((M.machine machine.now).accepts state ≡ true) }
    ensures no { result ≡ false → (state : M.State) → slice_get states.now.keys place ≡ Some state
        → (M.machine machine.now).accepts state ≡ false }
{
    place < states.len() && machine.accepts(&states[place])
}
