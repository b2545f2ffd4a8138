//! From bytes to trees.

ghost use Rattle.std.specs.Prelude.{◌≡◌, ◌≤◌, IfOk, IfErr, OnErr};
ghost use Rattle.kb_record.specs.Grammar.{TextOf, WordOf};
ghost use Rattle.kb_record.specs.Nesting.{deepest, text_nesting, word_nesting};
ghost use Rattle.kb_record.specs.Faults.{HasTextFault, HasTreeFault, HasWordFault, Meaning};
ghost use Rattle.kb_record.specs.Reading.{Reads, Says, remaining, finished, read_text, read_ended, read_word};
ghost use Rattle.kb_record.specs.View.{text_view, word_view, rec_view};
ghost use Rattle.kb_record.specs.Meaning.{word_meaning};
ghost use Rattle.kb_record.specs.Faults.{Evaluates};
ghost use Rattle.kb_record.specs.Evaluation.{ReadsFor};

use crate::cursor::{Cursor, Mark, Stop};
use crate::error::{RecordError, WordError};
use crate::evaluation::product;
use crate::passed::last_passed;
use crate::passing::pass_word;
use crate::records::fields;
use crate::tree::{Expr, Rec};
use kb_lexing::{Expected, has_tokens, last_place, syntax_place};
use kb_word::{Presentation, Word};
use std::alloc::Global;

/// Brackets in brackets may stand this deep.
pub(crate) const DEEPEST: usize = 64;

/// Reads a text: a name, `:=` and a record, with `;` behind it or nothing.
///
/// The tree borrows its names and strings from the bytes. The bytes are refused exactly where they have
/// a fault, but for want of memory: by `a_text_has_one_tree` the tree that is answered is the only one, by
/// `a_text_that_is_read_has_no_fault` bytes with a tree that nests no more than 64 deep have no fault, and by
/// `a_text_has_one_fault` bytes have one at most, with its place.
pub fn parse<'a>(alloc: Global, bytes: &'a [u8]) -> Result<Rec<'a>, RecordError>
    ensures read { IfOk result (λ text. TextOf bytes.now (text_view text)) }
    ensures shallow { IfOk result (λ text. text_nesting (text_view text) ≤ deepest) }
    ensures fault { IfErr result (HasTextFault bytes.now) }
{
    let mut tokens = Cursor::new(bytes);
    match whole_text(alloc, &mut tokens, has_tokens(bytes)) {
        Ok(text) => Ok(text),
        Err(stop) => Err(error_at(bytes, tokens.passed(bytes), stop)),
    }
}

/// Reads a word, alone or as a line of its own.
///
/// As with [`parse`], the bytes are refused exactly where they have a fault, with its place.
pub fn parse_expr<'a>(bytes: &'a [u8]) -> Result<Expr<'a>, RecordError>
    ensures read { IfOk result (λ word. WordOf bytes.now (word_view word)) }
    ensures shallow { IfOk result (λ word. word_nesting (word_view word) ≤ deepest) }
    ensures fault { IfErr result (HasTreeFault bytes.now) }
{
    let mut tokens = Cursor::new(bytes);
    match whole_word(&mut tokens, has_tokens(bytes)) {
        Ok(word) => Ok(word),
        Err(stop) => Err(error_at(bytes, tokens.passed(bytes), stop)),
    }
}

/// Reads a word of a presentation: the word that the bytes stand for, or the refusal of the bytes, or of the
/// first fault of the word that is met from the left.
///
/// By `a_word_that_is_read_has_no_fault` the bytes are refused exactly where they have a fault, but for want of
/// memory, and by `a_word_has_one_fault` they have one at most.
pub fn parse_word(
    alloc: Global,
    bytes: &[u8],
    presentation: &Presentation,
) -> Result<Word, WordError>
    ensures read { IfOk result
        (λ word. Meaning bytes.now presentation.now.names presentation.now.inv (Ok word)) }
    ensures fault { IfErr result
        (HasWordFault bytes.now presentation.now.names presentation.now.inv) }
{
    let mut tokens = Cursor::new(bytes);
    match whole_product(alloc, presentation, &mut tokens, has_tokens(bytes)) {
        Ok(outcome) => outcome,
        Err(stop) => Err(WordError::from(error_at(bytes, tokens.passed(bytes), stop))),
    }
}

/// The refusal of bytes whose reading stops where so many tokens were passed.
fn error_at(bytes: &[u8], passed: usize, stop: Stop) -> RecordError
    ensures { Says bytes.now passed stop result }
{
    match stop {
        Stop::Unexpected(expected) => RecordError::Syntax {
            at: syntax_place(bytes, last_passed(bytes, passed), expected),
        },
        Stop::TooDeep => RecordError::TooDeep {
            at: last_place(bytes, last_passed(bytes, passed)),
        },
        Stop::Memory => RecordError::Memory,
    }
}

/// Reads a text that goes to the end of the tokens, which are all that the bytes have.
fn whole_text<'a>(alloc: Global, tokens: &mut Cursor<'a>, whole: bool) -> Result<Rec<'a>, Stop>
    ensures { Reads (finished whole (read_ended deepest (remaining tokens.old))) rec_view result
        (remaining tokens.new) }
{
    let text = text(alloc, tokens)?;
    let _semicolon = tokens.take(Mark::Semicolon);
    tokens.end(whole)?;
    Ok(text)
}

/// Reads a name, `:=` and a record.
fn text<'a>(alloc: Global, tokens: &mut Cursor<'a>) -> Result<Rec<'a>, Stop>
    ensures { Reads (read_text deepest (remaining tokens.old)) rec_view result
        (remaining tokens.new) }
{
    let name = tokens.name()?;
    tokens.expect(Mark::Assign, Expected::Assign)?;
    tokens.expect(Mark::Rec, Expected::Rec)?;
    tokens.expect(Mark::OpenRound, Expected::Mark)?;
    let fields = fields(alloc, tokens, DEEPEST)?;
    Ok(Rec { name, fields })
}

/// Reads a word that goes to the end of the tokens, which are all that the bytes have.
fn whole_word<'a>(tokens: &mut Cursor<'a>, whole: bool) -> Result<Expr<'a>, Stop>
    ensures { Reads (finished whole (read_word deepest (remaining tokens.old))) word_view result
        (remaining tokens.new) }
{
    let word = tokens.word();
    pass_word(tokens, DEEPEST)?;
    tokens.end(whole)?;
    Ok(word)
}

/// Reads a word that goes to the end of the tokens, which are all that the bytes have, and evaluates it.
fn whole_product(
    alloc: Global,
    presentation: &Presentation,
    tokens: &mut Cursor<'_>,
    whole: bool,
) -> Result<Result<Word, WordError>, Stop>
    ensures { ReadsFor (finished whole (read_word deepest (remaining tokens.old)))
        (λ tree. Evaluates (word_meaning presentation.now.names presentation.now.inv tree))
        result (remaining tokens.new) }
{
    let outcome = product(alloc, presentation, tokens, DEEPEST, true)?;
    tokens.end(whole)?;
    Ok(outcome)
}
