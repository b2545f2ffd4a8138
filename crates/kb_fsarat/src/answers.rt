//! For each state whether it accepts.

ghost use Rattle.std.specs.Prelude.{◌≡◌, ◌++◌, ◌≤◌, false, IfOk, replicate};
ghost use Rattle.kb_fsarat.specs.Reversal.{only};

use kb_word::Memory;
use std::alloc::Global;

/// For each of so many states whether it is this one.
pub(crate) fn only_state(alloc: Global, state: u32, count: usize) -> Result<Vec<bool>, Memory>
    requires { state ≤ count }
    ensures { IfOk result (λ answers. answers.items ≡ only state count) }
{
    let mut answers = vec![in alloc; false; count]?;
    if let Some(place) = state.checked_sub(1) {
        answers[place as usize] = true;
    }
    Ok(answers)
}

/// The answers after those of so many states that don't accept.
pub(crate) fn after_falses(
    alloc: Global,
    count: usize,
    accepting: &[bool],
) -> Result<Vec<bool>, Memory>
    ensures { IfOk result (λ answers. answers.items ≡ replicate count false ++ accepting.now) }
{
    let mut answers = vec![in alloc; false; count]?;
    answers.extend_from_slice(accepting)?;
    Ok(answers)
}
