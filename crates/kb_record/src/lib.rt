//! Words and records as text: from bytes to trees, and from the trees of words to words of a presentation.
//!
//! A text is `NAME := rec( FIELDS )`, with `;` behind it or nothing; a field is `NAME := VALUE`. A value is
//! a number, a string, a record, a list in square brackets, of which places may be empty, a range
//! `[m..n]`, or a word. A word is factors joined by `*`, and a factor is a name or a word in round
//! brackets, with a power `^n` or none. Blanks, and comments from `#` to the end of their line, may stand
//! between tokens.
//!
//! # The public contract
//!
//! [`parse`] returns the one tree that the bytes have, or their one fault with its place: they are no text, and the
//! longest front of them with which some text begins has so many bytes; or a front with which some text, however
//! deep, begins has a 65th bracket open, and the first such bracket stands there. [`parse_expr`] does the same for a
//! word alone. A word in a tree is kept as it is written, as the text that begins with it. The laws
//! [`a_text_has_one_tree`], [`a_text_has_one_fault`] and [`a_text_that_is_read_has_no_fault`], and those of words,
//! say that the tree is unique, that bytes have one fault at most, and that no bytes are both read and refused.
//! [`word_of`] evaluates a word over a presentation, or returns the first fault from the left, and [`parse_word`] is
//! both in one call. By [`a_word_that_is_read_has_no_fault`] bytes that mean a word are not refused but for want of
//! memory, by [`a_word_has_one_meaning`] they mean one word, and by [`a_word_has_one_fault`] others have one fault.
//!
//! A list is one tree, in whichever form it is kept: [`Value::place_count`](Value) and [`Value::place`](Value)
//! read it place by place, and [`Place`] hands out a row of numbers, or of pairs, as it stands. Any other list
//! keeps where in the text each of its places begins ([`WrittenPlaces`]): four bytes a place, whatever stands
//! there. Who needs a place takes the text that begins with it ([`PlaceText`]), and reads it again.
//! [`PlaceText::repeated_name`](PlaceText) answers the name that stands twice in a record there, nested ones
//! too, whatever is inside.
//!
//! A field of a record is kept as it is written where its text is short, and its value is kept where it is long
//! ([`RecordField`]): so a record of many short fields takes no more memory than a list of as many places, and a long
//! value isn't read again. [`RecordField::name`](Field) and [`RecordField::value`](Field) are the field's name and its
//! value, in whichever form it is kept.
//!
//! Want of memory may be returned by each call that takes memory, and by no other.
//!
//! # How it is made
//!
//! - `kb_lexing` makes the tokens of the bytes one by one, each as long as possible, up to the first byte that belongs
//!   to none; so tokens take no memory.
//! - `cursor` goes over the tokens; `records` reads trees by recursive descent, and `passing` passes the words in
//!   them: a word is checked, and kept as the text that begins with it. They recurse into brackets alone, of which 64
//!   may be open; what is joined by `*` or `,` is read in loops. Each function is proved to compute a function on
//!   token lists of `specs/Reading.antt`, and what those say of the grammar, `specs/Grammar.antt`, is proved in
//!   `proofs/`.
//! - `passed` goes over the tokens of refused bytes once more, up to the last one that was passed: `kb_lexing` says
//!   its place.
//! - `numbers` reads a list of numbers, or of lists of numbers or of pairs, into arrays (`kb_ragged`), in which
//!   a number takes 8 bytes. It gives up at the first token that doesn't fit, and then the list is read from
//!   its beginning as any other: `records` reads each place, and keeps where it begins alone. So a table of
//!   numbers is gone through once, and no token is made more than five times. `listed` reads the places of a
//!   list in any form.
//! - `fields` reads again the name and the value of a field that is kept as it is written.
//! - `repeats` goes over the tokens of a place once, with the names of each record that is open, for a name that stands
//!   there twice; only where it finds one is the place read, to see that it can be.
//! - `evaluation` evaluates a word as it is read, without a tree, so that a line takes no memory but that of its
//!   words; `meaning` has what its names, powers and products mean. `written` reads a word of a tree again: it
//!   evaluates it, tells whether it is a name, and has `words` make the tree of its factors for who prints it. It also
//!   reads what stands at a place of a list: a number, a word, or any value, of which the lists keep where they begin.
//!
//! # Where the proofs are
//!
//! - `proofs/ReadingForms.antt`, with `RowForms`, `WordForms`, `ValueForms`, `ValueParts` and `TextForms`: the tree
//!   that is read has the tokens; where the reading can't go on, or a bracket is too deep, what was passed begins
//!   some tree's tokens, completed by those of `PlainTokens`. `LastRec`: no word or value ends with `rec`.
//! - `proofs/Elsewhere.antt`, with `KeptTokens`, `KeptWords`, `KeptValues` and `KeptLists`: tokens are read in the
//!   same way before others that can't be read there either, and with other names. `Halting`, with `RawForms`: so
//!   where the reading can't go on, with which tokens some word or text goes on there, and with which none does.
//! - `proofs/FormFaults.antt`, with `ByteFaults` and `LastPassed`: so the bytes have the fault that is named, with
//!   its place. `OneFault`: they have one at most.
//! - `proofs/Finds.antt`, with `FoundWords` and `FoundValues`: the tokens of a tree are read as that tree, unless it
//!   nests too deep. `Unique`: so tokens have one tree.
//! - `proofs/OpenBrackets.antt`, with `Balanced`: no front of a tree's tokens has more brackets open than the tree
//!   nests. `Shallow`: so a text that nests no deeper than it may isn't too deep.
//! - `proofs/TokensToBytes.antt`: from what is read of the tokens to what the bytes are. `TextFronts`: how many
//!   brackets are open.
//! - `proofs/Deeper.antt`: a word or a value that is read within other brackets is read alone; `PlaceTexts`: so the
//!   text of a place tells what stands there. `FieldTexts`: and that of a field its name and its value. `BareNames`:
//!   when a word is a name. `NumberLists`: the tokens of lists of numbers.
//! - `proofs/MetLemmas.antt`: the names that a pass over a value's tokens meets are those of its fields; `OpenLemmas`:
//!   the sets that the pass keeps. `NamingLemmas`, `BeforeLemmas`, `OnceLemmas`: names that stand twice in a record,
//!   and the first of them in the text; `PlaceRepeats`: so the pass finds the first at a place.
//! - `proofs/WordMeanings.antt`, `proofs/WordFaults.antt`: names, repetitions and powers; bytes that mean a word have
//!   no fault.
//! - `proofs/ReadRows.antt`, `PassedMarks`, `Depths`, `Views`: one step of the functions and of the trees. `Nested`:
//!   the parts of a value nest no deeper than it does.
//!
//! Below are `kb_lexing`, `kb_ragged`, and `kb_word`, whose words and presentations are the answers.
#![tactic(auto)]

mod cursor;
mod error;
mod evaluation;
mod fields;
mod laws;
mod listed;
mod meaning;
mod next;
mod numbers;
mod parser;
mod passed;
mod passing;
mod records;
mod repeats;
mod tree;
mod words;
mod written;

pub use error::{RecordError, WordError};
pub use fields::FoundValue;
pub use laws::{
    a_shallow_text_is_not_too_deep, a_shallow_word_is_not_too_deep, a_text_has_one_fault,
    a_text_has_one_tree, a_text_that_is_read_has_no_fault, a_word_has_one_fault,
    a_word_has_one_meaning, a_word_has_one_tree, a_word_that_is_read_has_no_fault,
    a_word_that_is_read_is_not_refused,
};
pub use listed::Place;
pub use parser::{parse, parse_expr, parse_word};
pub use tree::{Expr, Factor, Field, FieldText, PlaceText, Rec, RecordField, Value, WrittenPlaces};
pub use written::word_of;
