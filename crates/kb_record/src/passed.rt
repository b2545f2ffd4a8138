//! Which token was passed last, found again where bytes are refused.

ghost use Rattle.std.specs.Prelude.{◌≡◌, length};
ghost use Rattle.kb_lexing.proofs.FrontTokens.{tokens_of};
ghost use Rattle.kb_record.specs.Reading.{StandsBehind};

use kb_lexing::{Lexeme, first_lexeme};

/// How many tokens stand first in the text.
pub(crate) fn token_count(text: &[u8]) -> usize
    ensures { result ≡ length (tokens_of text.now) }
{
    let mut count = 0;
    let mut rest = text;
    while count < text.len() {
        let Some(lexeme) = first_lexeme(rest) else {
            return count;
        };
        rest = lexeme.rest;
        count += 1;
    }
    count
}

/// The last of so many tokens that stand first in the bytes.
pub(crate) fn last_passed<'a>(bytes: &'a [u8], passed: usize) -> Option<Lexeme<'a>>
    ensures { StandsBehind bytes.now passed result }
{
    let mut steps = passed;
    let mut last = None;
    let mut rest = bytes;
    while steps > 0 {
        let Some(lexeme) = first_lexeme(rest) else {
            return last;
        };
        rest = lexeme.rest;
        last = Some(lexeme);
        steps -= 1;
    }
    last
}
