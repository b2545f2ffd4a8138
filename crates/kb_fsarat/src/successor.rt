//! The first accepted word of some lengths, and the next one of its length after a word.

ghost use Rattle.std.specs.Prelude.{◌≡◌, ◌+◌, ◌<◌, ◌≤◌, ◌^◌, IfOk, IfSome, IfNone, length};
ghost use Rattle.kb_fsarat.specs.Layers.{HasText};
ghost use Rattle.kb_fsarat.specs.Successors.{IsCompleted, NoneLater, IsNextFrom, AreStatesAlong, NoneOfLength, IsFirstOfLength};

use crate::layers::Layers;
use kb_fsa::Table;
use kb_word::{Letter, Memory, Word};
use std::alloc::Global;

/// The least accepted word of a length in the range.
pub(crate) fn first_of_length(
    alloc: Global,
    layers: &mut Layers<'_>,
    low: usize,
    high: usize,
) -> Result<Option<Word>, Memory>
    requires { high < 2 ^ 63 }
    ensures table { layers.new.table ≡ layers.old.table }
    ensures some { IfOk result (λ found. IfSome found (IsFirstOfLength layers.old.table low high)) }
    ensures none { IfOk result (λ found.
        IfNone found (NoneOfLength layers.old.table low (high + 1))) }
{
    for length in low..high + 1 {
        layers.reach(alloc, length)?;
        // Where no text of this length leads to acceptance, no longer one does.
        if layers.is_empty(length) {
            return Ok(None);
        }
        let initial = layers.table().initial();
        if layers.contains(length, initial) {
            let word = completed(layers, Word::new(alloc), initial, length)?;
            return Ok(Some(word));
        }
    }
    Ok(None)
}

/// The next accepted word of the same length.
pub(crate) fn next_of_length(
    alloc: Global,
    layers: &mut Layers<'_>,
    word: &Word,
) -> Result<Option<Word>, Memory>
    ensures table { layers.new.table ≡ layers.old.table }
    ensures some { IfOk result (λ found.
        IfSome found (IsNextFrom layers.old.table layers.old.table.initial word.now)) }
    ensures none { IfOk result (λ found.
        IfNone found (NoneLater layers.old.table layers.old.table.initial word.now)) }
{
    layers.reach(alloc, word.len())?;
    let states = states_along(alloc, layers.table(), word)?;
    next_along(alloc, layers, word, states.as_slice())
}

/// The states before each letter of the word.
fn states_along(alloc: Global, table: &Table, word: &Word) -> Result<Vec<u32>, Memory>
    ensures along { IfOk result (λ states. AreStatesAlong table.now word.now states.items) }
    ensures count { IfOk result (λ states. length states.items ≡ length word.now) }
{
    let mut states = Vec::with_capacity(alloc, word.len())?;
    let mut state = table.initial();
    for letter in word.letters() {
        states.push(state)?;
        state = table.step(state, u32::from(letter.number()));
    }
    Ok(states)
}

/// The next accepted word of the same length: from the last place at which a greater letter leads on to acceptance, by
/// the first such letter and then by the least ones.
fn next_along(
    alloc: Global,
    layers: &Layers<'_>,
    word: &Word,
    states: &[u32],
) -> Result<Option<Word>, Memory>
    requires layers { length word.now < layers.now.count }
    requires along { AreStatesAlong layers.now.table word.now states.now }
    requires count { length states.now ≡ length word.now }
    ensures some { IfOk result (λ found.
        IfSome found (IsNextFrom layers.now.table layers.now.table.initial word.now)) }
    ensures none { IfOk result (λ found.
        IfNone found (NoneLater layers.now.table layers.now.table.initial word.now)) }
{
    let letters = word.letters();
    for place in (0..letters.len()).rev() {
        let rest = letters.len() - 1 - place;
        let floor = u32::from(letters[place].number());
        if let Some((symbol, target)) = layers.first_move(rest, states[place], floor) {
            let mut front = word.copy(alloc)?;
            front.truncate(place);
            front.push(Letter::new(symbol as u16))?;
            let next = completed(layers, front, target, rest)?;
            return Ok(Some(next));
        }
    }
    Ok(None)
}

/// The word and then the least text of the length that leads from the state to acceptance.
fn completed(
    layers: &Layers<'_>,
    mut word: Word,
    mut state: u32,
    length: usize,
) -> Result<Word, Memory>
    requires layers { length ≤ layers.now.count }
    requires live { HasText layers.now.table length state }
    ensures { IfOk result (IsCompleted layers.now.table length state word) }
{
    for rest in (0..length).rev() {
        match layers.first_move(rest, state, 0) {
            Some((symbol, target)) => {
                word.push(Letter::new(symbol as u16))?;
                state = target;
            }
            None => unreachable!(),
        }
    }
    Ok(word)
}
