//! States that are in no class yet.

ghost use Rattle.std.specs.Prelude.{length, All, IfOk};
ghost use Rattle.kb_fsadet.specs.Nondeterministic.{IsOneOf};
ghost use Rattle.kb_fsaleast.specs.Marks.{AreUnseen};

use kb_word::Memory;
use std::alloc::Global;

/// Those of the states that have no mark, each once. From now on they have one.
pub(crate) fn unseen(
    alloc: Global,
    seen: &mut Vec<bool>,
    states: &[u32],
) -> Result<Vec<u32>, Memory>
    requires { All (IsOneOf (length seen.old.items)) states.now }
    ensures { IfOk result (λ fresh.
        AreUnseen seen.old.items states.now fresh.items seen.new.items) }
{
    let mut fresh = Vec::new(alloc);
    for state in states {
        let place = *state as usize - 1;
        if !seen[place] {
            seen[place] = true;
            fresh.push(*state)?;
        }
    }
    Ok(fresh)
}
