//! From a label to the next, by a pair of letters.

ghost use Rattle.std.specs.Prelude.{◌≡◌, ◌+◌, ◌≤◌, ◌<◌, Some, OnOk};
ghost use Rattle.kb_word.specs.Relations.{inverse_word};
ghost use Rattle.kb_fsa.specs.Padding.{letters_of};
ghost use Rattle.kb_fsa.specs.PairSymbols.{pair_symbols};
ghost use Rattle.kb_diff.specs.Groups.{EachInverts, group_of};
ghost use Rattle.kb_diff.specs.Tables.{listed};
ghost use Rattle.kb_labels.specs.Labels.{Turns};

use kb_fsa::PairSymbols;
use kb_rules::{Reducer, Workspace};
use kb_word::{Letter, Memory, Presentation, Word};
use std::alloc::Global;

/// What labels are computed in. It is kept for all of them, so that it takes memory only for longer words.
#[derive(Debug, Drop)]
pub struct Scratch {
    /// The word to which a pair of letters turned a label.
    pub word: Word,
    /// The memory that reductions work in.
    workspace: Workspace,
}

impl Scratch {
    /// No memory is taken yet.
    pub fn new(alloc: Global) -> Scratch {
        Scratch {
            word: Word::new(alloc),
            workspace: Workspace::new(alloc),
        }
    }
}

/// Has the word to which the pair of letters of the symbol turns the label.
pub fn turn<R: Reducer>(
    presentation: &Presentation,
    reducer: &R,
    label: &Word,
    symbol: u32,
    scratch: &mut Scratch,
) -> Result<(), Memory>
    requires group { EachInverts presentation.now.n presentation.now.inv }
    requires generators { presentation.now.n ≤ 65534 }
    requires symbol { symbol ≤ pair_symbols presentation.now.n }
    ensures { OnOk result (Turns (group_of presentation.now (R.rules reducer.now)) label.now symbol
        scratch.new.word) }
{
    let symbols = PairSymbols { n: presentation.n };
    let inverse = inverse_of(presentation, symbols.first(symbol));
    let letter = letter_of(presentation.n, symbols.second(symbol));
    scratch.word.clear();
    scratch.word.extend_from_slice(inverse.as_slice())?;
    scratch.word.append(label)?;
    scratch.word.extend_from_slice(letter.as_slice())?;
    reducer.reduce(&mut scratch.word, &mut scratch.workspace)
}

/// The letter with this number, or none where it is the padding.
fn letter_of(n: u16, number: u32) -> Option<Letter>
    requires { number ≤ n + 1 }
    ensures { listed result ≡ letters_of n number }
{
    if number <= u32::from(n) {
        Some(Letter::new(number as u16))
    } else {
        None
    }
}

/// The inverse of the letter with this number: none where it is the padding, which counts as nothing.
fn inverse_of(presentation: &Presentation, number: u32) -> Option<Letter>
    requires group { EachInverts presentation.now.n presentation.now.inv }
    requires positive { 0 < number }
    requires letter { number ≤ presentation.now.n + 1 }
    ensures { inverse_word presentation.now.inv (letters_of presentation.now.n number)
        ≡ Some (listed result) }
{
    let letter = letter_of(presentation.n, number)?;
    match presentation.letter_inverse(letter) {
        Some(inverse) => Some(inverse),
        None => unreachable!(),
    }
}
