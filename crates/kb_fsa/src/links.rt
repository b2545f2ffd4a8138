//! The edges of a graph, found by the things that they lead from.

ghost use Rattle.std.specs.Prelude.{◌<◌, All, IfOk};
ghost use Rattle.kb_fsa.specs.Graphs.{AreLinksOf};

use kb_word::Memory;
use std::alloc::Global;

/// Which edges lead from which things. Edges are numbered from 1, and 0 stands for none.
#[derive(Drop)]
pub struct Links {
    /// For each thing, the last edge that leads from it.
    pub last: Vec<usize>,
    /// For each edge, the one before it that leads from the same thing.
    pub earlier: Vec<usize>,
}

/// The links of the edges, each a pair of things below the count.
pub fn link(alloc: Global, edges: &[(u32, u32)], count: usize) -> Result<Links, Memory>
    requires { All (λ edge. edge.0 < count) edges.now }
    ensures { IfOk result (AreLinksOf edges.now count) }
{
    let mut last = vec![in alloc; 0; count]?;
    let mut earlier = Vec::new(alloc);
    for edge in edges {
        let from = edge.0 as usize;
        earlier.push(last[from])?;
        last[from] = earlier.len();
    }
    Ok(Links { last, earlier })
}
