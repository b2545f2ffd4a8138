//! The first label word that differs from its label.

ghost use Rattle.std.specs.Prelude.{◌≡◌, ◌↔◌, IsTrue, OnOk};
ghost use Rattle.kb_labels.specs.Comparing.{ComesBefore, Keeps};

use kb_word::{Memory, Order, Word, WordOrder};
use std::alloc::Global;

/// A word that differs from the label of the state at a place.
#[derive(Debug, Drop)]
pub(crate) struct Apart {
    /// The place of the state, in the order of the least texts that lead to the states.
    pub(crate) place: usize,
    /// The word.
    pub(crate) word: Word,
}

/// Keeps the word at the place if it differs from the label and comes before what is kept.
pub(crate) fn keep(
    alloc: Global,
    order: &WordOrder,
    label: &Word,
    place: usize,
    word: &Word,
    found: &mut Option<Apart>,
) -> Result<(), Memory>
    ensures { OnOk result (Keeps order.now label.now place word.now found.old found.new) }
{
    if *word == *label {
        return Ok(());
    }
    let is_first = match found {
        None => true,
        Some(apart) => comes_before(order, place, word, apart),
    };
    if is_first {
        let word = word.copy(alloc)?;
        *found = Some(Apart { place, word });
    }
    Ok(())
}

/// Whether the word at the place comes before the one that is apart.
fn comes_before(order: &WordOrder, place: usize, word: &Word, apart: &Apart) -> bool
    ensures { IsTrue result ↔ ComesBefore order.now place word.now apart.now.place apart.now.word }
{
    place < apart.place || (place == apart.place && order.less(word, &apart.word))
}
