//! From bytes to tokens.

ghost use Rattle.std.specs.Prelude.{◌≡◌, ◌≢◌, ◌↔◌, ℕ, ◌<◌, ◌≤◌, false, IsTrue, [], IfSome, pos, List, Some, length, slice_index, take, drop, take_while};
ghost use Rattle.std.specs.Char.{is_ascii_digit};
ghost use Rattle.std.specs.List.{AllByRecursion};
ghost use Rattle.kb_lexing.specs.Token.{Token as TreeToken};
ghost use Rattle.kb_lexing.specs.Spelling.{TokensOf, after_gap, after_comment, BeginsNames, IsNameByte, IsDigit, GoesOnAsName, value_after};
ghost use Rattle.kb_lexing.specs.Lexemes.{token_view, IsFirstLexeme, IsFirst, IsLongestFront, GoesOnAt, AreFewDigits, is_string_byte};

use crate::token::{Lexeme, Token};

/// The token that comes first in a text, behind blanks and comments. It is as long as possible.
pub fn first_lexeme<'a>(text: &'a [u8]) -> Option<Lexeme<'a>>
    ensures first { IsFirstLexeme text.now result }
    ensures text { IfSome result (λ lexeme. lexeme.text.now ≡ after_gap text.now) }
    ensures shorter { IfSome result (λ lexeme. length lexeme.rest.now < length text.now) }
{
    match text {
        [b',', rest @ ..] => Some(lexeme(Token::Comma, text, rest)),
        [b'[', rest @ ..] => Some(lexeme(Token::OpenSquare, text, rest)),
        [b']', rest @ ..] => Some(lexeme(Token::CloseSquare, text, rest)),
        _ => any_lexeme(text),
    }
}

/// The token of these parts.
fn lexeme<'a>(token: Token<'a>, text: &'a [u8], rest: &'a [u8]) -> Lexeme<'a>
    ensures token { token_view result.token ≡ token_view token.entry }
    ensures text { result.text.now ≡ text.now }
    ensures rest { result.rest.now ≡ rest.now }
{
    Lexeme { token, text, rest }
}

/// The token that comes first in a text, whichever it is.
fn any_lexeme<'a>(text: &'a [u8]) -> Option<Lexeme<'a>>
    ensures first { IsFirstLexeme text.now result }
    ensures text { IfSome result (λ lexeme. lexeme.text.now ≡ after_gap text.now) }
    ensures shorter { IfSome result (λ lexeme. length lexeme.rest.now < length text.now) }
{
    let text = &text[gap_end(text, 0)..];
    let Some((token, len)) = first_token(text) else {
        return None;
    };
    Some(Lexeme {
        token,
        text,
        rest: &text[len..],
    })
}

/// Whether the bytes have tokens: each byte belongs to a token, a blank or a comment.
pub fn has_tokens(bytes: &[u8]) -> bool
    ensures all { IsTrue result → (tokens : List TreeToken) × TokensOf bytes.now tokens }
    ensures none { result ≡ false → (tokens : List TreeToken) → ¬ TokensOf bytes.now tokens }
{
    let mut rest = bytes;
    while let Some(lexeme) = first_lexeme(rest) {
        rest = lexeme.rest;
    }
    is_blank(rest)
}

/// Whether the bytes are blanks and comments alone.
pub fn is_blank(bytes: &[u8]) -> bool
    ensures { IsTrue result ↔ (after_gap bytes.now ≡ []) }
{
    gap_end(bytes, 0) == bytes.len()
}

/// The place behind the blanks and comments that stand at a place.
pub(crate) fn gap_end(bytes: &[u8], from: usize) -> usize
    requires { from ≤ length bytes.now }
    ensures within { (from ≤ result) × (result ≤ length bytes.now) }
    ensures rest { drop result bytes.now ≡ after_gap (drop from bytes.now) }
{
    let mut at = from;
    while at < bytes.len() {
        match bytes[at] {
            b' ' | b'\t' | b'\n' | b'\r' => at += 1,
            b'#' => at = comment_end(bytes, at + 1),
            _ => return at,
        }
    }
    at
}

/// The place behind a comment's line.
fn comment_end(bytes: &[u8], from: usize) -> usize
    requires { from ≤ length bytes.now }
    ensures within { (from ≤ result) × (result ≤ length bytes.now) }
    ensures rest { after_gap (drop result bytes.now) ≡ after_comment (drop from bytes.now) }
{
    let mut at = from;
    while at < bytes.len() {
        at += 1;
        if bytes[at - 1] == b'\n' {
            return at;
        }
    }
    at
}

/// The token at the front of a text, and how many bytes spell it.
fn first_token<'a>(text: &'a [u8]) -> Option<(Token<'a>, usize)>
    ensures { IsFirst text.now result }
{
    match text.first()? {
        b'a'..=b'z' | b'A'..=b'Z' | b'_' => Some(name(text)),
        b'0'..=b'9' => number(text),
        b'-' => negative_number(text),
        b'"' => string(text),
        _ => mark(text),
    }
}

/// The name or `rec` that begins with the text's letter or `_`.
fn name<'a>(text: &'a [u8]) -> (Token<'a>, usize)
    requires { BeginsNames (slice_index text.now 0) }
    ensures { IsFirst text.now (Some result) }
{
    let len = 1 + name_rest_len(&text[1..]);
    let spelling = ascii(&text[..len]);
    if spelling == "rec" {
        (Token::Rec, len)
    } else {
        (Token::Name(spelling), len)
    }
}

/// How many bytes at the front of a text go on a name.
pub(crate) fn name_rest_len(text: &[u8]) -> usize
    ensures { IsLongestFront GoesOnAsName text.now result }
{
    let mut len = 0;
    while goes_on_name(&text[len..]) {
        len += 1;
    }
    len
}

/// Whether a text's first byte goes on a name: a name byte, or a dot before one.
fn goes_on_name(text: &[u8]) -> bool
    ensures { IsTrue result ↔ GoesOnAt text.now }
{
    match text {
        [b'.', next, ..] => is_name_byte(*next),
        [byte, ..] => is_name_byte(*byte),
        [] => false,
    }
}

/// Whether the byte is a letter, a digit or `_`.
fn is_name_byte(byte: u8) -> bool
    ensures { IsTrue result ↔ IsNameByte byte }
{
    byte.is_ascii_alphanumeric() || byte == b'_'
}

/// The text of ASCII bytes.
fn ascii<'a>(bytes: &'a [u8]) -> &'a str
    requires { AllByRecursion (λ byte. byte < 128) bytes.now }
    ensures { result.now ≡ bytes.now }
{
    std::str::from_utf8(bytes).unwrap()
}

/// The number that begins with the text's digit.
pub(crate) fn number<'a>(text: &'a [u8]) -> Option<(Token<'a>, usize)>
    requires { IsDigit (slice_index text.now 0) }
    ensures { IsFirst text.now result }
{
    let len = digits_len(text);
    Some((Token::Number(digits_value(&text[..len])), len))
}

/// The number that begins with the text's `-`, if there is one.
pub(crate) fn negative_number<'a>(text: &'a [u8]) -> Option<(Token<'a>, usize)>
    requires { slice_index text.now 0 ≡ 45 }
    ensures { IsFirst text.now result }
{
    let digits = &text[1..];
    let len = digits_len(digits);
    if len == 0 {
        return None;
    }
    Some((Token::Number(-digits_value(&digits[..len])), 1 + len))
}

/// How many of the first 18 bytes of a text are digits, up to the first that is none.
pub(crate) fn digits_len(text: &[u8]) -> usize
    ensures { result ≡ length (take_while is_ascii_digit (take 18 text.now)) }
{
    text.iter()
        .take(18)
        .take_while(|byte| byte.is_ascii_digit())
        .count()
}

/// The number that 1 to 18 digits stand for.
fn digits_value(digits: &[u8]) -> i64
    requires { AreFewDigits digits.now }
    ensures { result ≡ pos (value_after 0 digits.now) }
{
    let mut value = 0;
    for digit in digits {
        value = value * 10 + i64::from(digit - b'0');
    }
    value
}

/// The string that begins with the text's `"`, if it ends.
fn string<'a>(text: &'a [u8]) -> Option<(Token<'a>, usize)>
    requires { slice_index text.now 0 ≡ 34 }
    ensures { IsFirst text.now result }
{
    let len = string_len(&text[1..]);
    let close = 1 + len;
    if close == text.len() || text[close] != b'"' {
        return None;
    }
    Some((Token::String(ascii(&text[1..close])), len + 2))
}

/// How many bytes at the front of a text may stand in a string.
pub(crate) fn string_len(text: &[u8]) -> usize
    ensures { result ≡ length (take_while is_string_byte text.now) }
{
    text.iter()
        .take_while(|byte| matches!(byte, b' '..=b'~') && **byte != b'"')
        .count()
}

/// The mark at the front of a text, if there is one.
fn mark<'a>(text: &[u8]) -> Option<(Token<'a>, usize)>
    requires no_name { ¬ BeginsNames (slice_index text.now 0) }
    requires no_number { ¬ IsDigit (slice_index text.now 0) × (slice_index text.now 0 ≢ 45) }
    requires no_string { slice_index text.now 0 ≢ 34 }
    ensures { IsFirst text.now result }
{
    match text {
        [b':', b'=', ..] => Some((Token::Assign, 2)),
        [b'.', b'.', ..] => Some((Token::Dots, 2)),
        [b'(', ..] => Some((Token::OpenRound, 1)),
        [b')', ..] => Some((Token::CloseRound, 1)),
        [b'[', ..] => Some((Token::OpenSquare, 1)),
        [b']', ..] => Some((Token::CloseSquare, 1)),
        [b',', ..] => Some((Token::Comma, 1)),
        [b';', ..] => Some((Token::Semicolon, 1)),
        [b'*', ..] => Some((Token::Star, 1)),
        [b'^', ..] => Some((Token::Caret, 1)),
        _ => None,
    }
}
