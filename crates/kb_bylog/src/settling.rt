//! Whether the lines of a log settle the relations.

ghost use Rattle.std.specs.Prelude.{◌≡◌, ◌↔◌, ◌≤◌, ◌^◌, IfOk, IsTrue, length};
ghost use Rattle.kb_word.specs.Overlap.{IsConfluent, IsResolved};
ghost use Rattle.kb_word.specs.Presentations.{parts_of};
ghost use Rattle.kb_bylog.specs.LogLines.{AreJoined, Settles, relations};

use kb_confluence::{Verdict, check};
use kb_draw::Crew;
use kb_index::Index;
use kb_io::Gate;
use kb_rules::Reducer;
use kb_word::{Memory, Presentation, Word};
use std::alloc::Global;
use std::sync::Wait;
use std::thread::Threads;

/// Whether no relation and no overlap of the rules is apart by them. Several workers are a thread each; their number
/// changes nothing of the answer.
pub fn settles<G: Gate, T: Threads + Wait + Sync>(
    rt: &T,
    alloc: Global,
    presentation: &Presentation,
    index: &Index,
    crew: &Crew<'_, G>,
) -> Result<bool, Memory>
    requires few { length index.now.rules ≤ 2 ^ 31 }
    ensures { IfOk result (λ settles. IsTrue settles
        ↔ Settles index.now.rules (relations (parts_of presentation.now))) }
{
    let joined = are_relations_joined(alloc, presentation, index)?;
    if joined {
        is_confluent(rt, alloc, index, crew)
    } else {
        Ok(false)
    }
}

/// Whether both sides of each relation of the presentation have one normal form.
fn are_relations_joined(
    alloc: Global,
    presentation: &Presentation,
    index: &Index,
) -> Result<bool, Memory>
    ensures { IfOk result (λ joined. IsTrue joined
        ↔ AreJoined index.now.rules (relations (parts_of presentation.now))) }
{
    let relations = presentation.relations(alloc)?;
    are_joined(alloc, relations.as_slice(), index)
}

/// Whether both sides of each pair have one normal form.
fn are_joined(alloc: Global, pairs: &[(Word, Word)], index: &Index) -> Result<bool, Memory>
    ensures { IfOk result (λ joined. IsTrue joined ↔ AreJoined index.now.rules pairs.now) }
{
    for pair in pairs {
        let joined = is_joined(alloc, pair, index)?;
        if !joined {
            return Ok(false);
        }
    }
    Ok(true)
}

/// Whether both words have one normal form.
fn is_joined(alloc: Global, pair: &(Word, Word), index: &Index) -> Result<bool, Memory>
    ensures { IfOk result (λ joined. IsTrue joined ↔ IsResolved index.now.rules pair.now) }
{
    let u = index.nf(alloc, &pair.0)?;
    let v = index.nf(alloc, &pair.1)?;
    Ok(u == v)
}

/// Whether the rules are confluent.
fn is_confluent<G: Gate, T: Threads + Wait + Sync>(
    rt: &T,
    alloc: Global,
    index: &Index,
    crew: &Crew<'_, G>,
) -> Result<bool, Memory>
    requires few { length index.now.rules ≤ 2 ^ 31 }
    ensures { IfOk result (λ confluent. IsTrue confluent ↔ IsConfluent index.now.rules) }
{
    match check(rt, alloc, index.list(), index, crew) {
        Ok(Verdict::Yes) => Ok(true),
        Ok(Verdict::No { .. }) => Ok(false),
        Err(Memory) => Err(Memory),
    }
}
