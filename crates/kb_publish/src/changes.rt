//! The changes from one list of live lines to another.

ghost use Rattle.std.specs.Prelude.{◌≡◌, ◌≤◌, ℕ, IfOk, IsTrue, OnOk, Some, fold, length, map, slice_get, take};
ghost use Rattle.kb_word.specs.Words.{Pair};
ghost use Rattle.kb_word.specs.WordOrders.{Below};
ghost use Rattle.kb_word.specs.Rewriting.{AreDecreasing};
ghost use Rattle.kb_publish.specs.declared.edition.Lines.{Lines};
ghost use Rattle.kb_publish.specs.Editions.{changed, lines_by};

use crate::change::{Change, LiveLine, Ordered};
use kb_rules::Rule;
use kb_word::Memory;
use std::alloc::Global;

/// The changes from some lines, by their numbers, to the live lines, whose rules these are.
pub(crate) fn changes_to<N: Ordered>(
    alloc: Global,
    numbers: &[u32],
    live: &[u32],
    rules: &[Rule],
) -> Result<Vec<Change<N>>, Memory>
    requires falling { AreDecreasing (Below N.order) rules.now }
    requires one_each { length live.now ≡ length rules.now }
    ensures { IfOk result (λ changes. (version : ℕ) (rule : ℕ → Pair)
        → rules.now ≡ map rule live.now
        → fold changed (lines_by rule version numbers.now) changes.items
        ≡ lines_by rule version live.now) }
{
    let (mut changes, kept) = gone_of(alloc, numbers, live)?;
    add_live(alloc, &mut changes, live, rules, kept)?;
    Ok(changes)
}

/// The changes that leave the first so many of the live lines.
fn gone_of<N: Ordered>(
    alloc: Global,
    numbers: &[u32],
    live: &[u32],
) -> Result<(Vec<Change<N>>, usize), Memory>
    ensures within { IfOk result (λ made. made.1 ≤ length live.now) }
    ensures left { IfOk result (λ made. (version : ℕ) (rule : ℕ → Pair)
        → fold changed (lines_by rule version numbers.now) made.0.items
        ≡ lines_by rule version (take made.1 live.now)) }
{
    let mut changes = Vec::new(alloc);
    let mut kept = 0;
    for number in numbers {
        if stands_at(live, kept, *number) {
            kept += 1;
        } else {
            changes.push(Change::Gone(kept))?;
        }
    }
    Ok((changes, kept))
}

/// Whether the number stands at the place.
fn stands_at(live: &[u32], place: usize, number: u32) -> bool
    ensures { IsTrue result → slice_get live.now place ≡ Some number }
{
    match live.get(place) {
        Some(own) => *own == number,
        None => false,
    }
}

/// Adds the changes that add the live lines from a place on.
fn add_live<N: Ordered>(
    alloc: Global,
    changes: &mut Vec<Change<N>>,
    live: &[u32],
    rules: &[Rule],
    from: usize,
) -> Result<(), Memory>
    requires falling { AreDecreasing (Below N.order) rules.now }
    requires one_each { length live.now ≡ length rules.now }
    requires within { from ≤ length live.now }
    ensures { (start : Lines) (version : ℕ) (rule : ℕ → Pair)
        → rules.now ≡ map rule live.now
        → fold changed start changes.old.items ≡ lines_by rule version (take from live.now)
        → OnOk result (fold changed start changes.new.items ≡ lines_by rule version live.now) }
{
    for place in from..live.len() {
        let rule = rules[place].copy(alloc)?;
        changes.push(Change::Live(LiveLine::new(live[place], rule)))?;
    }
    Ok(())
}
