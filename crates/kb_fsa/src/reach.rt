//! What the edges of a graph lead to.

ghost use Rattle.std.specs.Prelude.{◌≡◌, ◌↔◌, ◌<◌, ◌≤◌, ◌^◌, ℕ, length, All, IfOk};
ghost use Rattle.kb_fsa.specs.Graphs.{IsMarked, IsReached, IsListing};

use crate::links::link;
use kb_word::Memory;
use std::alloc::Global;

/// The marks of the things to which a path of edges leads from a seed, each seed itself among them. Things are numbered
/// from 0, and a mark of each says whether it is a seed.
pub fn reached(alloc: Global, edges: &[(u32, u32)], seeds: &[bool]) -> Result<Vec<bool>, Memory>
    requires count { length seeds.now ≤ 2 ^ 32 }
    requires edges { All (λ edge. (edge.0 < length seeds.now) × (edge.1 < length seeds.now))
        edges.now }
    ensures one_each { IfOk result (λ marks. length marks.items ≡ length seeds.now) }
    ensures reached { IfOk result (λ marks. (x : ℕ)
        → IsMarked marks.items x ↔ IsReached edges.now seeds.now x) }
{
    let links = link(alloc, edges, seeds.len())?;
    let mut marks = Vec::from_slice(alloc, seeds)?;
    let mut pending = marked(alloc, seeds)?;
    while let Some(from) = pending.pop() {
        let mut number = links.last[from as usize];
        while number != 0 {
            let to = edges[number - 1].1;
            if !marks[to as usize] {
                marks[to as usize] = true;
                pending.push(to)?;
            }
            number = links.earlier[number - 1];
        }
    }
    Ok(marks)
}

/// The things that are marked.
fn marked(alloc: Global, marks: &[bool]) -> Result<Vec<u32>, Memory>
    requires { length marks.now ≤ 2 ^ 32 }
    ensures { IfOk result (λ listed. IsListing marks.now (length marks.now) listed.items) }
{
    let mut listed = Vec::new(alloc);
    for (x, mark) in marks.iter().enumerate() {
        if *mark {
            listed.push(x as u32)?;
        }
    }
    Ok(listed)
}
