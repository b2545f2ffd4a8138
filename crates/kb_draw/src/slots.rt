//! What workers made, in the order of its places.

ghost use Rattle.std.specs.Prelude.{◌≡◌, ◌<◌, All, IfOk, length, map, Some};
ghost use Rattle.kb_draw.specs.Sharing.{IsShared};
ghost use Rattle.kb_draw.specs.Shares.{AreInOrder, AreWithin, HasMade, IsAmong, IsMadeBy};
ghost use Rattle.kb_draw.specs.Slots.{AreEmpty, AreFull, IsFilled};

use crate::making_share::{MakingShare, Placed};
use kb_word::Memory;
use std::alloc::Global;

/// What the shares have for each of so many places, in the order of the places.
pub(crate) fn in_order<M: Drop>(
    alloc: Global,
    places: u64,
    shares: Vec<MakingShare<M>>,
) -> Result<Vec<M>, Memory>
    requires within { All (λ share. AreWithin places share.made.items) shares.items }
    requires all { IsShared places HasMade shares.items }
    ensures { IfOk result (λ list. AreInOrder places shares.items list.items) }
{
    let mut slots = empty(alloc, places)?;
    fill_all(&mut slots, shares);
    taken_out(alloc, slots)
}

/// So many empty slots.
fn empty<M: Drop>(alloc: Global, places: u64) -> Result<Vec<Option<M>>, Memory>
    ensures { IfOk result (λ slots. AreEmpty places slots.items) }
{
    let mut slots = Vec::with_capacity(alloc, places as usize)?;
    while (slots.len() as u64) < places {
        slots.push(None)?;
    }
    Ok(slots)
}

/// Puts what all shares have into the slots of its places.
fn fill_all<M: Drop>(slots: &mut Vec<Option<M>>, mut shares: Vec<MakingShare<M>>)
    requires { All (λ share. AreWithin (length slots.old.items) share.made.items) shares.items }
    ensures { IsFilled (IsMadeBy shares.items) slots.old.items slots.new.items }
{
    while let Some(share) = shares.pop() {
        fill(slots, share.made);
    }
}

/// Puts all that was made into the slots of its places.
fn fill<M: Drop>(slots: &mut Vec<Option<M>>, mut all: Vec<Placed<M>>)
    requires { AreWithin (length slots.old.items) all.items }
    ensures { IsFilled (IsAmong all.items) slots.old.items slots.new.items }
{
    while let Some(one) = all.pop() {
        let Placed { place, made } = one;
        slots[place as usize] = Some(made);
    }
}

/// What is in the slots, none of which is empty.
fn taken_out<M: Drop>(alloc: Global, slots: Vec<Option<M>>) -> Result<Vec<M>, Memory>
    requires { AreFull slots.items }
    ensures { IfOk result (λ list. map Some list.items ≡ slots.items) }
{
    let mut list = Vec::with_capacity(alloc, slots.len())?;
    for slot in slots {
        let Some(made) = slot else { unreachable!() };
        list.push(made)?;
    }
    Ok(list)
}
