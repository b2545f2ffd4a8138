//! The moves by the states that they lead to.

ghost use Rattle.std.specs.Prelude.{◌<◌, ◌^◌, length, All, IfOk};
ghost use Rattle.kb_fsamin.specs.Splitting.{AreIncoming};

use kb_word::Memory;
use std::alloc::Global;

/// Which moves lead to which states. Moves are numbered from 1, and 0 stands for none. The numbers take half of what
/// those of `kb_fsa::Links` do, since fewer than 2^32 moves are split.
#[derive(Drop)]
pub(crate) struct Incoming {
    /// For each state, the last move that leads to it.
    pub(crate) last: Vec<u32>,
    /// For each move, the one before it that leads to the same state.
    pub(crate) earlier: Vec<u32>,
}

impl Incoming {
    /// The moves by the states that they lead to, each of which is below the count.
    pub(crate) fn new(
        alloc: Global,
        edges: &[(u32, u32)],
        states: usize,
    ) -> Result<Incoming, Memory>
        requires few { length edges.now < 2 ^ 32 }
        requires known { All (λ edge. edge.0 < states) edges.now }
        ensures { IfOk result (AreIncoming edges.now states) }
    {
        let mut last = vec![in alloc; 0; states]?;
        let mut earlier = Vec::with_capacity(alloc, edges.len())?;
        for edge in edges {
            let to = edge.0 as usize;
            earlier.push(last[to])?;
            last[to] = earlier.len() as u32;
        }
        Ok(Incoming { last, earlier })
    }
}
