//! Where a text stops being the beginning of one that is well written.

ghost use Rattle.std.specs.Prelude.{◌≡◌, ◌↔◌, ◌-◌, ◌==◌, IsTrue, length, take_while, zip};
ghost use Rattle.kb_lexing.specs.Lexemes.{BeginsWith, IsLongestFront, IsString, token_view};
ghost use Rattle.kb_lexing.specs.Possible.{BeginsExpected, BeginsToken, IsExpectedPlace, IsPlace, MayBeName, last_place_of};

use crate::fronts::{begins_names, behind_gap};
use crate::lexer::{digits_len, name_rest_len, string_len};
use crate::token::{Lexeme, Token};

/// What may come next where the reading stops, of the tokens that have more than one byte.
#[derive(Clone, Copy, Debug)]
pub enum Expected {
    /// A name, or an open bracket.
    Name,
    /// A number.
    Number,
    /// A number, a string, a name, `rec`, or an open bracket.
    Value,
    /// `:=`
    Assign,
    /// `..`, or marks of one byte.
    Dots,
    /// `rec`
    Rec,
    /// The open bracket behind the `rec` of a value, which might also go on as a name.
    Fields,
    /// Marks of one byte alone.
    Mark,
}

/// The length of the longest front of the bytes with which some text begins, where the tokens up to the last one
/// begin some text, with the next one they don't, and `expected` is what may come behind them.
///
/// What a text is the caller says: by `longest_possible` of `proofs/LongestPossible.antt` this is the longest
/// front with which some text of a form begins, whatever the form, where the reading of tokens of the form
/// stops there (`Stops`).
pub fn syntax_place(bytes: &[u8], last: Option<Lexeme<'_>>, expected: Expected) -> usize
    ensures { IsPlace bytes.now last.entry expected result }
{
    let Some(last) = last else {
        return expected_place(bytes, bytes, expected);
    };
    if may_be_name(last.token, expected) && matches!(last.rest, [b'.', ..]) {
        return place_of(bytes, last.rest) + 1;
    }
    expected_place(bytes, last.rest, expected)
}

/// The place in the bytes of the last token that was passed.
pub fn last_place(bytes: &[u8], last: Option<Lexeme<'_>>) -> usize
    ensures { result ≡ last_place_of bytes.now last.entry }
{
    match last {
        Some(last) => place_of(bytes, last.text),
        None => 0,
    }
}

/// Where the rest of the bytes begins.
fn place_of(bytes: &[u8], rest: &[u8]) -> usize
    ensures { result ≡ length bytes.now - length rest.now }
{
    bytes.len().saturating_sub(rest.len())
}

/// Whether a name may stand in place of the token.
fn may_be_name(token: Token<'_>, expected: Expected) -> bool
    ensures { IsTrue result ↔ MayBeName (token_view token.entry) expected }
{
    match token {
        Token::Name(_) => true,
        Token::Rec => matches!(expected, Expected::Fields),
        _ => false,
    }
}

/// The place in the bytes up to which the rest of them goes on: over blanks and comments, and over
/// the beginning of a token that is expected.
fn expected_place(bytes: &[u8], rest: &[u8], expected: Expected) -> usize
    ensures { IsExpectedPlace bytes.now rest.now expected result }
{
    let token = behind_gap(rest);
    let begun = expected_front(token, expected);
    place_of(bytes, token) + begun
}

/// How many bytes the longest front has that begins some token that is expected.
fn expected_front(bytes: &[u8], expected: Expected) -> usize
    ensures { IsLongestFront (BeginsExpected expected) bytes.now result }
{
    match expected {
        Expected::Name => name_front(bytes),
        Expected::Number => number_front(bytes),
        Expected::Value => value_front(bytes),
        Expected::Assign => common_front(bytes, b":="),
        Expected::Dots => common_front(bytes, b".."),
        Expected::Rec => common_front(bytes, b"rec"),
        Expected::Fields | Expected::Mark => 0,
    }
}

/// How many bytes the longest front has that begins some name, number or string, or `rec`.
fn value_front(bytes: &[u8]) -> usize
    ensures { IsLongestFront (BeginsExpected Expected.Value) bytes.now result }
{
    name_front(bytes)
        .max(number_front(bytes))
        .max(string_front(bytes))
}

/// How many bytes the longest front has that begins some name.
fn name_front(bytes: &[u8]) -> usize
    ensures { IsLongestFront (BeginsExpected Expected.Name) bytes.now result }
{
    let [first, rest @ ..] = bytes else {
        return 0;
    };
    if !begins_names(*first) {
        return 0;
    }
    let len = name_rest_len(rest);
    if begins_with(&rest[len..], b'.') {
        len + 2
    } else {
        len + 1
    }
}

/// How many bytes the longest front has that begins some number.
fn number_front(bytes: &[u8]) -> usize
    ensures { IsLongestFront (BeginsExpected Expected.Number) bytes.now result }
{
    if begins_with(bytes, b'-') {
        digits_len(&bytes[1..]) + 1
    } else {
        digits_len(bytes)
    }
}

/// How many bytes the longest front has that begins some string.
fn string_front(bytes: &[u8]) -> usize
    ensures { IsLongestFront (BeginsToken IsString) bytes.now result }
{
    if !begins_with(bytes, b'"') {
        return 0;
    }
    let text = &bytes[1..];
    let len = string_len(text);
    if begins_with(&text[len..], b'"') {
        len + 2
    } else {
        len + 1
    }
}

/// Whether the byte stands first.
fn begins_with(bytes: &[u8], byte: u8) -> bool
    ensures { IsTrue result ↔ BeginsWith byte bytes.now }
{
    match bytes {
        [first, ..] => *first == byte,
        [] => false,
    }
}

/// How many bytes the longest front has with which the spelling begins.
fn common_front(bytes: &[u8], spelling: &[u8]) -> usize
    ensures { result ≡ length (take_while (λ pair. pair.0 == pair.1) (zip spelling.now bytes.now)) }
{
    spelling
        .iter()
        .zip(bytes)
        .take_while(|(wanted, byte)| **wanted == **byte)
        .count()
}
