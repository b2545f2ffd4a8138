//! How many lines are answered together.

ghost use Rattle.std.specs.Prelude.{◌≡◌};

use kb_draw::Crew;
use kb_io::Gate;

/// So many lines are taken, and then they are answered by the workers of a crew.
#[derive(Drop)]
pub struct Batches<'g, G: Gate> {
    /// How many lines make a batch.
    pub size: u32,
    crew: Crew<'g, G>,
}

impl<'g, G: Gate> Batches<'g, G> {
    /// Batches of so many lines, each of which these workers answer. By 1, and by 0, each line is answered
    /// alone, in the caller's thread.
    pub fn of(size: u32, crew: Crew<'g, G>) -> Batches<'g, G>
        ensures { result.size ≡ size }
    {
        Batches { size, crew }
    }

    /// The workers.
    pub fn crew(&self) -> &Crew<'g, G> {
        &self.crew
    }

    /// How many lines a block has before its last, so that each worker has several blocks. No answer depends on it.
    pub(crate) fn block(&self) -> u32 {
        let share = self.size / (4 * self.crew.count());
        if share < MOST_IN_BLOCK {
            share
        } else {
            MOST_IN_BLOCK
        }
    }
}

/// The most lines of a block before its last.
const MOST_IN_BLOCK: u32 = 63;
