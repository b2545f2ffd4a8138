//! The steps of the difference machine that lead to a difference that is kept.

ghost use Rattle.std.specs.Prelude.{◌≡◌, ◌<◌, ◌≤◌, IfOk};
ghost use Rattle.kb_diff.specs.Tables.{step_in};
ghost use Rattle.kb_diffwa.specs.RivalSets.{AreAllSteps, ArePairs, AreStepsBy};

use kb_diff::Machine;
use kb_ragged::Ragged;
use kb_word::Memory;
use std::alloc::Global;

/// For each difference in turn, the letters, or the padding, that lead on from there beside one letter, each with the
/// number of the difference to which it leads.
pub(crate) type Steps = Ragged<(u16, u32)>;

/// The steps by each letter in turn, from so many differences.
pub(crate) fn all_steps(
    alloc: Global,
    n: u16,
    differences: u32,
    machine: &Machine,
) -> Result<Vec<Steps>, Memory>
    requires { n ≤ 65534 }
    ensures { IfOk result (λ letters.
        AreAllSteps n (step_in machine.now) differences letters.items) }
{
    let mut letters = Vec::with_capacity(alloc, usize::from(n))?;
    for index in 0..n {
        letters.push(steps_by(alloc, n, differences, machine, index + 1)?)?;
    }
    Ok(letters)
}

/// The steps by the letter a.
fn steps_by(
    alloc: Global,
    n: u16,
    differences: u32,
    machine: &Machine,
    a: u16,
) -> Result<Steps, Memory>
    requires { n ≤ 65534 }
    ensures { IfOk result (AreStepsBy n (step_in machine.now) differences a) }
{
    let mut steps = Ragged::new(alloc)?;
    for index in 0..differences {
        let pairs = pairs_of(alloc, n, machine, index + 1, a)?;
        steps.push(pairs.as_slice())?;
    }
    Ok(steps)
}

/// The steps from a difference by the letter a.
fn pairs_of(
    alloc: Global,
    n: u16,
    machine: &Machine,
    difference: u32,
    a: u16,
) -> Result<Vec<(u16, u32)>, Memory>
    requires { n ≤ 65534 }
    ensures { IfOk result (λ pairs. ArePairs n (step_in machine.now) difference a pairs.items) }
{
    let mut pairs = Vec::new(alloc);
    for index in 0..n + 1 {
        let b = index + 1;
        let target = machine.step(difference, a, b);
        if target != 0 {
            pairs.push((b, target))?;
        }
    }
    Ok(pairs)
}

/// For each letter whether from difference 1, from difference 2, and so on, its steps lead to the first difference.
pub(crate) fn all_marks(alloc: Global, letters: &[Steps]) -> Result<Vec<Vec<bool>>, Memory> {
    let mut all = Vec::with_capacity(alloc, letters.len())?;
    for steps in letters {
        all.push(marks(alloc, steps)?)?;
    }
    Ok(all)
}

/// Whether from difference 1, from difference 2, and so on, the steps lead to the first difference.
fn marks(alloc: Global, steps: &Steps) -> Result<Vec<bool>, Memory> {
    let mut marks = Vec::with_capacity(alloc, steps.len())?;
    for index in 0..steps.len() {
        let leads = match steps.get(index) {
            Some(pairs) => pairs.iter().any(|pair| pair.1 == 1),
            None => false,
        };
        marks.push(leads)?;
    }
    Ok(marks)
}
