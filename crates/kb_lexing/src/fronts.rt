//! What stands at the front of a text: a gap, or a name.

ghost use Rattle.std.specs.Prelude.{◌≡◌, ◌↔◌, ◌<◌, ℕ, List, [], ◌∷◌, IsTrue, Some, IfSome, IfNone};
ghost use Rattle.std.specs.List.{AllByRecursion};
ghost use Rattle.kb_lexing.specs.Token.{name, number};
ghost use Rattle.kb_lexing.specs.Lexemes.{GoesOnAt, IsFirst};
ghost use Rattle.kb_lexing.specs.Spelling.{BeginsNames, FirstToken, after_gap};

use crate::lexer::{gap_end, name_rest_len, negative_number, number};
use crate::token::Token;

/// The text behind the blanks and comments at its front.
pub fn behind_gap(text: &[u8]) -> &[u8]
    ensures { result.now ≡ after_gap text.now }
{
    match text {
        [first, ..] if *first > b'#' => text,
        _ => &text[gap_end(text, 0)..],
    }
}

/// The name with which a text begins and what stands behind it, and `None` exactly where it begins with none.
pub fn first_name(text: &[u8]) -> Option<(&[u8], &[u8])>
    ensures some { IfSome result (λ found. FirstToken text.now (name found.0.now) found.1.now) }
    ensures ascii { IfSome result (λ found. AllByRecursion (λ byte. byte < 128) found.0.now) }
    ensures none { IfNone result
        ((spelling rest : List ℕ) → ¬ FirstToken text.now (name spelling) rest) }
{
    if !begins_names(*text.first()?) {
        return None;
    }
    let (spelling, rest) = text.split_at(1 + name_rest_len(&text[1..]));
    if spelling == b"rec".as_slice() {
        return None;
    }
    Some((spelling, rest))
}

/// The name of one byte with which a text begins, and what stands behind it: `*`, `^`, `)` or nothing.
///
/// No gap stands before it, and [`first_name`] finds the same; this way is shorter.
pub fn short_name(text: &[u8]) -> Option<(u8, &[u8])>
    ensures some { IfSome result
        (λ found. FirstToken (after_gap text.now) (name (found.0 ∷ [])) found.1.now) }
    ensures ascii { IfSome result (λ found. found.0 < 128) }
{
    let [byte, rest @ ..] = text else {
        return None;
    };
    if begins_names(*byte) && ends_name(rest) {
        Some((*byte, rest))
    } else {
        None
    }
}

/// The name of one byte with which a text begins, where `*` stands directly behind it, and what stands behind that.
pub fn starred_name(text: &[u8]) -> Option<(u8, &[u8])>
    ensures some { IfSome result
        (λ found. FirstToken (after_gap text.now) (name (found.0 ∷ [])) (42 ∷ found.1.now)) }
    ensures ascii { IfSome result (λ found. found.0 < 128) }
    ensures none { IfNone result
        ((byte : ℕ) (rest : List ℕ) → text.now ≡ byte ∷ 42 ∷ rest → ¬ BeginsNames byte) }
{
    match text {
        [byte, b'*', rest @ ..] if begins_names(*byte) => Some((*byte, rest)),
        _ => None,
    }
}

/// The number with which a text begins and what stands behind it; `None` where it begins with none.
pub fn first_number(text: &[u8]) -> Option<(i64, &[u8])>
    ensures some { IfSome result (λ found. FirstToken text.now (number found.0) found.1.now) }
{
    match number_token(text)? {
        (Token::Number(value), len) => Some((value, &text[len..])),
        _ => None,
    }
}

/// The number at the front of a text as a token, and how many bytes spell it.
fn number_token<'a>(text: &'a [u8]) -> Option<(Token<'a>, usize)>
    ensures { IfSome result (λ found. IsFirst text.now (Some found)) }
{
    match text.first()? {
        b'0'..=b'9' => number(text),
        b'-' => negative_number(text),
        _ => None,
    }
}

/// Whether a text that stands behind a name byte ends the name at once: nothing, or `*`, `^` or `)`.
fn ends_name(text: &[u8]) -> bool
    ensures { IsTrue result → ¬ GoesOnAt text.now }
{
    matches!(text, [] | [b'*' | b'^' | b')', ..])
}

/// Whether names begin with this byte.
pub(crate) fn begins_names(byte: u8) -> bool
    ensures { IsTrue result ↔ BeginsNames byte }
{
    byte.is_ascii_alphabetic() || byte == b'_'
}
