//! Tokens, with their places in the text.

/// A token of a word or a record. Names and strings borrow from the text.
#[derive(Clone, Copy, Debug)]
pub enum Token<'a> {
    Name(&'a str),
    Number(i64),
    String(&'a str),
    Assign,
    OpenRound,
    CloseRound,
    OpenSquare,
    CloseSquare,
    Comma,
    Semicolon,
    Star,
    Caret,
    Dots,
    Rec,
}

/// A token, and where it stands in a text.
#[derive(Clone, Copy, Debug)]
pub struct Lexeme<'a> {
    pub token: Token<'a>,
    /// The text from the first byte of the token on.
    pub text: &'a [u8],
    /// The text behind the token.
    pub rest: &'a [u8],
}
