//! Words and places of lists as they are written, read again by who needs them.
//!
//! A text that begins with no word stands for no factors, and one that begins with no value for an empty string: so
//! each of these calls has an answer. Neither text is met in a tree that was read.

ghost use Rattle.std.specs.Prelude.{◌≡◌, ◌≢◌, ◌<◌, ℕ, ℤ, List, Some, None, length, drop, slice_get, IfOk, IfSome, IfNone};
ghost use Rattle.std.specs.Bool.{MatchBool};
ghost use Rattle.std.specs.Option.{option_map};
ghost use Rattle.kb_lexing.proofs.FrontTokens.{tokens_of};
ghost use Rattle.kb_record.specs.Tree.{Factors, number_value, word_value};
ghost use Rattle.kb_record.specs.Nesting.{deepest};
ghost use Rattle.kb_record.specs.Reading.{read_value};
ghost use Rattle.kb_record.specs.Meaning.{word_meaning};
ghost use Rattle.kb_record.specs.View.{factors_view, one_name, value_in, value_view, word_view, written_place, written_places};
ghost use Rattle.kb_record.specs.Faults.{Evaluates};

use crate::cursor::{Cursor, Mark, Stop};
use crate::error::WordError;
use crate::evaluation::product;
use crate::parser::DEEPEST;
use crate::records::value;
use crate::tree::{Expr, Factor, PlaceText, Value, WrittenPlaces};
use crate::words::word;
use kb_word::{Memory, Presentation, Word};
use std::alloc::Global;

impl<'a> Expr<'a> {
    /// The name that the word is, where it is one factor, a name without a power.
    pub fn bare_name(&self) -> Option<&'a str>
        ensures found { IfSome result (λ name. word_view self.now ≡ one_name name.now) }
        ensures none { IfNone result ((name : List ℕ) → word_view self.now ≢ one_name name) }
    {
        let mut tokens = Cursor::new(self.text);
        let name = tokens.take_name()?;
        if tokens.take(Mark::Star) {
            return None;
        }
        if tokens.take(Mark::Caret) {
            return None;
        }
        Some(name)
    }

    /// The trees of the word's factors.
    pub fn factors(&self, alloc: Global) -> Result<Vec<Factor<'a>>, Memory>
        ensures { IfOk result (λ factors. factors_view factors.items ≡ word_view self.now) }
    {
        let mut tokens = Cursor::new(self.text);
        match word(alloc, &mut tokens, DEEPEST) {
            Ok(factors) => Ok(factors),
            Err(Stop::Memory) => Err(Memory),
            Err(_) => Ok(Vec::new(alloc)),
        }
    }
}

impl<'a> WrittenPlaces<'a> {
    /// How many places there are.
    pub fn len(&self) -> usize
        ensures { result ≡ length (written_places self.now) }
    {
        self.begins.len()
    }

    /// The place of this number.
    pub fn get(&self, place: usize) -> PlaceText<'a>
        requires { place < length (written_places self.now) }
        ensures { slice_get (written_places self.now) place ≡ Some (written_place result) }
    {
        PlaceText {
            text: text_from(self.text, self.begins[place] as usize),
        }
    }
}

/// The text behind so many bytes.
fn text_from(text: &[u8], begin: usize) -> &[u8]
    ensures { result.now ≡ drop begin text.now }
{
    if begin > text.len() {
        return &[];
    }
    &text[begin..]
}

impl<'a> PlaceText<'a> {
    /// Whether the place is empty.
    pub fn is_empty(&self) -> bool
        ensures { MatchBool result (written_place self.now ≡ None)
            (written_place self.now ≢ None) }
    {
        let tokens = Cursor::new(self.text);
        tokens.ends_place()
    }

    /// The number that stands there.
    pub fn number(&self) -> Option<i64>
        ensures found { IfSome result
            (λ number. written_place self.now ≡ Some (number_value number)) }
        ensures none { IfNone result
            ((number : ℤ) → written_place self.now ≢ Some (number_value number)) }
    {
        let mut tokens = Cursor::new(self.text);
        tokens.take_number()
    }

    /// The word that stands there.
    pub fn word(&self) -> Option<Expr<'a>>
        ensures found { IfSome result
            (λ word. written_place self.now ≡ Some (word_value (word_view word))) }
        ensures none { IfNone result
            ((word : Factors) → written_place self.now ≢ Some (word_value word)) }
    {
        let tokens = Cursor::new(self.text);
        if !tokens.begins_word() {
            return None;
        }
        Some(tokens.word())
    }

    /// The value that stands there, if the place isn't empty. The places of a list in it are kept as they are written.
    pub fn value(&self, alloc: Global) -> Result<Option<Value<'a>>, Memory>
        ensures { IfOk result (λ value. option_map value_view value ≡ written_place self.now) }
    {
        let tokens = Cursor::new(self.text);
        if tokens.ends_place() {
            return Ok(None);
        }
        if tokens.begins_word() {
            return Ok(Some(Value::Word(tokens.word())));
        }
        let value = value_of(alloc, self.text)?;
        Ok(Some(value))
    }
}

/// The value that stands first in a text.
fn value_of<'a>(alloc: Global, text: &'a [u8]) -> Result<Value<'a>, Memory>
    ensures { IfOk result
        (λ value. value_view value ≡ value_in (read_value deepest (tokens_of text.now))) }
{
    let mut tokens = Cursor::new(text);
    match value(alloc, &mut tokens, DEEPEST) {
        Ok(value) => Ok(value),
        Err(Stop::Memory) => Err(Memory),
        Err(_) => Ok(Value::String("")),
    }
}

/// The word that a tree stands for: a name is its generator or, as `IdWord`, the empty word, and a power
/// below 0 repeats the inverse.
///
/// The first fault that is met from the left is returned: a name that is no generator's, a letter without
/// inverse under a power below 0, or more than 65,535 letters.
pub fn word_of(alloc: Global, tree: &Expr, presentation: &Presentation) -> Result<Word, WordError>
    ensures { Evaluates
        (word_meaning presentation.now.names presentation.now.inv (word_view tree.now)) result }
{
    let mut tokens = Cursor::new(tree.text);
    match product(alloc, presentation, &mut tokens, DEEPEST, true) {
        Ok(outcome) => outcome,
        Err(Stop::Memory) => Err(WordError::Memory),
        Err(_) => Ok(Word::new(alloc)),
    }
}
