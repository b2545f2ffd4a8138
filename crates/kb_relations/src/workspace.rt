//! The memory that words are followed in.

ghost use Rattle.std.specs.Prelude.{◌≡◌, ℕ, [], length, get_or, OnOk};

use crate::trail::{Trail, cut};
use kb_word::{Memory, Word};
use std::alloc::Global;

/// The memory that words are followed in, kept for the next one. What it holds before and after counts for nothing.
#[derive(Drop)]
pub struct Workspace {
    /// The word that is reached.
    pub(crate) reached: Word,
    /// For each multiplier, its trail along that word.
    pub(crate) trails: Vec<Trail>,
}

impl Workspace {
    /// A workspace that has taken no memory yet.
    pub fn new(alloc: Global) -> Workspace {
        Workspace {
            reached: Word::new(alloc),
            trails: Vec::new(alloc),
        }
    }

    /// Whence it takes memory, for those who have no allocator of their own.
    pub fn allocator(&self) -> Global {
        *self.trails.allocator()
    }
}

/// Makes as many trails, none of which knows a state.
pub(crate) fn start(alloc: Global, trails: &mut Vec<Trail>, count: usize) -> Result<(), Memory>
    ensures one_each { OnOk result (length trails.new.items ≡ count) }
    ensures empty { OnOk result ((index : ℕ) → get_or trails.new.items index [] ≡ []) }
{
    trails.truncate(count);
    cut(trails.as_mut_slice(), 0);
    while trails.len() < count {
        trails.push(Trail::new(alloc))?;
    }
    Ok(())
}
