//! Classes of states that have one least text.

ghost use Rattle.std.specs.Prelude.{◌≡◌, ◌<◌, ◌+◌, map, length, All, IfOk, OnOk};
ghost use Rattle.kb_fsadet.specs.Nondeterministic.{IsNondeterministic, IsOneOf};
ghost use Rattle.kb_fsaleast.specs.Classes.{IsAdded, IsUnderWay, NoneAccepts, class_count, mark_count};

use crate::unseen::unseen;
use kb_fsadet::{Nfa, StateSet};
use kb_word::Memory;
use std::alloc::Global;

/// The classes that are found so far, in the order of their words.
#[derive(Drop)]
pub(crate) struct Classes {
    /// The states of each class.
    pub(crate) members: Vec<StateSet>,
    /// For each class, the number of the class from which it was found, and the symbol that led to
    /// it; (0, 0) for that of the initial states. Classes are numbered from 1.
    pub(crate) origins: Vec<(u32, u32)>,
    /// For states 1, 2, and so on whether they are in a class.
    pub(crate) seen: Vec<bool>,
}

/// The class of the initial states, where there are any.
pub(crate) fn start(alloc: Global, nfa: &Nfa) -> Result<Classes, Memory>
    ensures progress { IfOk result (λ classes. IsUnderWay nfa.now classes 0) }
    ensures automaton { IsNondeterministic nfa.now }
{
    let mut classes = Classes {
        members: Vec::new(alloc),
        origins: Vec::new(alloc),
        seen: vec![in alloc; false; nfa.rows().len()]?,
    };
    add(alloc, &mut classes, nfa.initial(), (0, 0))?;
    Ok(classes)
}

/// Adds the classes to which the moves of a class lead, by ascending symbols.
pub(crate) fn follow(
    alloc: Global,
    nfa: &Nfa,
    classes: &mut Classes,
    followed: usize,
) -> Result<(), Memory>
    requires progress { IsUnderWay nfa.now classes.old followed }
    requires more { followed < class_count classes.old }
    requires rejects { NoneAccepts nfa.now classes.old.members.items followed }
    ensures { OnOk result (IsUnderWay nfa.now classes.new (followed + 1)) }
{
    let mut moves = nfa.moves_of_each(alloc, classes.members[followed].as_slice())?;
    moves.sort_unstable_by_key(|entry| entry.0);
    let mut rest = moves.as_slice();
    while let Some(first) = rest.first() {
        let symbol = first.0;
        let count = rest.partition_point(|entry| entry.0 <= symbol);
        let (group, others) = rest.split_at(count);
        let targets = targets_of(alloc, group)?;
        let origin = (followed as u32 + 1, symbol);
        add(alloc, classes, targets.as_slice(), origin)?;
        rest = others;
    }
    Ok(())
}

/// Adds a class of those of the states that are in none, where there are any.
fn add(
    alloc: Global,
    classes: &mut Classes,
    states: &[u32],
    origin: (u32, u32),
) -> Result<(), Memory>
    requires { All (IsOneOf (mark_count classes.old)) states.now }
    ensures { OnOk result (IsAdded classes.old states.now origin classes.new) }
{
    let fresh = unseen(alloc, &mut classes.seen, states)?;
    if !fresh.is_empty() {
        classes.members.push(StateSet::of(fresh))?;
        classes.origins.push(origin)?;
    }
    Ok(())
}

/// Where the moves lead.
fn targets_of(alloc: Global, moves: &[(u32, u32)]) -> Result<Vec<u32>, Memory>
    ensures { IfOk result (λ targets. targets.items ≡ map (λ entry. entry.1) moves.now) }
{
    let mut targets = Vec::with_capacity(alloc, moves.len())?;
    for (_, target) in moves {
        targets.push(*target)?;
    }
    Ok(targets)
}
