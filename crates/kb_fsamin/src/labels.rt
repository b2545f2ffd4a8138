//! Labels of states.

ghost use Rattle.std.specs.Prelude.{◌≡◌, get_or, replicate};

use std::marker::Model;

/// The labels in a list, and 0 for so many states after it. So it takes no list to give all states one label.
#[derive(Drop)]
pub(crate) struct Labels<'a> {
    listed: &'a [u32],
    after: usize,
}

impl<'a> Model for Labels<'a> {
    ghost use Rattle.std.specs.Prelude.{ℕ, List, ◌++◌, replicate};

    ghost Value = { List ℕ };

    ghost view = { λ labels. labels.listed.now ++ replicate labels.after 0 };
}

impl<'a> Labels<'a> {
    /// The labels in the list.
    pub(crate) fn listed(listed: &'a [u32]) -> Labels<'a>
        ensures { result ≡ listed.now }
    {
        Labels { listed, after: 0 }
    }

    /// One label for so many states.
    pub(crate) fn one(states: usize) -> Labels<'a>
        ensures { result ≡ replicate states 0 }
    {
        Labels {
            listed: &[],
            after: states,
        }
    }

    /// The label of the state at a place; 0 past the last one.
    pub(crate) fn label(&self, place: usize) -> u32
        ensures { result ≡ get_or self.now place 0 }
    {
        self.listed.get(place).copied().unwrap_or(0)
    }
}
