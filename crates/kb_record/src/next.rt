//! Places in a text, each with the token that comes next there.

ghost use Rattle.std.specs.Prelude.{◌≡◌, Some};
ghost use Rattle.kb_lexing.proofs.FrontTokens.{tokens_from, tokens_of};
ghost use Rattle.kb_lexing.specs.declared.token.Lexeme.{Lexeme};
ghost use Rattle.kb_record.specs.Ends.{EndsWith};

use kb_lexing::{Lexeme, first_lexeme};

/// A place in a text, and the token that comes next there, if one does.
#[derive(Clone, Copy)]
pub(crate) struct Next<'a> {
    /// The text from its beginning on.
    pub(crate) whole: &'a [u8],
    /// The text from the place on.
    pub(crate) text: &'a [u8],
    /// The token, and where it stands.
    pub(crate) lexeme: Option<Lexeme<'a>>,
    pub(crate) ghost first: { tokens_from lexeme ≡ tokens_of text.now },
    pub(crate) ghost ends: { EndsWith whole.now text.now },
    pub(crate) ghost behind: { (found : Lexeme) → lexeme ≡ Some found
        → EndsWith whole.now found.rest.now },
}

/// The first place in the end of a text.
pub(crate) fn next_in<'a>(whole: &'a [u8], text: &'a [u8]) -> Next<'a>
    requires { EndsWith whole.now text.now }
    ensures first { tokens_from result.lexeme ≡ tokens_of text.now }
    ensures whole { result.whole.now ≡ whole.now }
{
    Next {
        whole,
        text,
        lexeme: first_lexeme(text),
    }
}
