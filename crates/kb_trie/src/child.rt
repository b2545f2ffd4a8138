//! The children of the states, and the steps along failure links.

ghost use Rattle.std.specs.Prelude.{◌≡◌, ℕ, ◌<◌, ◌≤◌, IfSome, IfNone, length};
ghost use Rattle.kb_trie.specs.States.{IsChild, IsNoChild};
ghost use Rattle.kb_trie.specs.Edges.{IsTree, words_of};
ghost use Rattle.kb_trie.specs.Steps.{AreLinks, IsStep};

use crate::edge::Edge;
use indexmap::IndexSet;

/// The state to which the letter leads from a state.
pub fn child(edges: &IndexSet<Edge>, state: u32, letter: u16) -> Option<u32>
    requires states { IsTree edges.now.keys }
    requires state { state < length (words_of edges.now.keys) }
    ensures some { IfSome result (IsChild (words_of edges.now.keys) state letter) }
    ensures none { IfNone result (IsNoChild (words_of edges.now.keys) state letter) }
{
    let edge = Edge {
        parent: state,
        letter,
    };
    let place = edges.get_index_of(&edge)?;
    Some(place as u32 + 1)
}

/// The state after a letter more: the child by the letter of the first state that has one, along the links.
pub fn step_by_links(edges: &IndexSet<Edge>, links: &[u32], state: u32, letter: u16) -> u32
    requires states { IsTree edges.now.keys }
    requires links { AreLinks (words_of edges.now.keys) links.now }
    requires room { length (words_of edges.now.keys) ≤ length links.now }
    requires state { state < length (words_of edges.now.keys) }
    ensures { IsStep (words_of edges.now.keys) state letter result }
{
    let mut at = state;
    while at > 0 {
        if let Some(child) = child(edges, at, letter) {
            return child;
        }
        at = links[at as usize];
    }
    child(edges, 0, letter).unwrap_or(0)
}
