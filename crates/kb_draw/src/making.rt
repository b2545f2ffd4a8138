//! What is made place by place, and the list of all of it.

ghost use Rattle.std.specs.Prelude.{◌≡◌, ℕ, ◌^◌, ◌<◌, ◌≤◌, IfOk};
ghost use Rattle.kb_draw.specs.Made.{AreMadeInOrder};

use crate::crew::Crew;
use crate::making_share::{MakingShare, Placed};
use crate::slots::in_order;
use crate::work::{Work, share_out};
use kb_io::Gate;
use kb_word::Memory;
use std::alloc::Global;
use std::sync::Wait;
use std::thread::Threads;

/// What is made place by place. Places are numbered from 0 on.
pub trait Making {
    /// What is made for a place.
    type Made: Drop;

    /// How many places there are.
    ghost places: { Self → ℕ };

    /// This is what belongs at the place.
    ghost is: { Self → ℕ → Self.Made → Type 0 };

    /// How many places there are.
    fn places(&self) -> u64
        ensures { result ≡ places self.now };

    /// Makes what belongs at the place.
    fn make(&self, alloc: Global, place: u64) -> Result<Self::Made, Memory>
        requires { place < places self.now }
        ensures { IfOk result (is self.now place) };
}

/// The places of a making, as work.
#[derive(Drop)]
struct Places<'a, M: Making> {
    alloc: Global,
    making: &'a M,
}

/// A part is a place.
impl<'a, M: Making> Work for Places<'a, M> {
    ghost use Rattle.kb_draw.specs.Shares.{HasMade, IsSound};

    type Share = MakingShare<M::Made>;

    ghost parts = { λ it. M.places it.making.now };

    ghost sound = { λ it share.
        IsSound (M.places it.making.now) (M.is it.making.now) share };

    ghost done = { λ it share place. HasMade share place };

    fn parts(&self) -> u64 {
        self.making.places()
    }

    fn begin(&self, alloc: Global, _worker: u32) -> Result<MakingShare<M::Made>, Memory> {
        Ok(MakingShare {
            made: Vec::new(alloc),
        })
    }

    fn take(&self, place: u64, share: &mut MakingShare<M::Made>) -> Result<(), Memory> {
        let made = self.making.make(self.alloc, place)?;
        share.made.push(Placed { place, made })?;
        Ok(())
    }
}

/// Makes one for each place, in the order of the places, by the workers of a crew.
pub fn make_all<M: Making + Sync, G: Gate, T: Threads + Wait + Sync>(
    rt: &T,
    alloc: Global,
    making: &M,
    crew: &Crew<'_, G>,
) -> Result<Vec<M::Made>, Memory>
where
    M::Made: Send,
    requires { M.places making.now ≤ 2 ^ 62 }
    ensures { IfOk result (λ list.
        AreMadeInOrder (M.places making.now) (M.is making.now) list.items) }
{
    let shares = share_out(rt, alloc, &Places { alloc, making }, crew)?;
    in_order(alloc, making.places(), shares)
}
