//! The tokens that are still to be read, made one by one.

ghost use Rattle.std.specs.Prelude.{◌≡◌, ◌∷◌, [], Some, None, MatchOption, MatchResult, true, length, ◌-◌};
ghost use Rattle.kb_record.specs.declared.cursor.Stop.TheVariants as stops;
ghost use Rattle.std.specs.Bool.{MatchBool};
ghost use Rattle.kb_record.specs.Nesting.{deepest};
ghost use Rattle.kb_record.specs.View.{factors_in, first_field_in, first_place_in, place_from, value_view, word_view, written_field, written_place};
ghost use Rattle.kb_lexing.specs.Lexemes.{token_view};
ghost use Rattle.kb_lexing.proofs.FrontTokens.{tokens_of};
ghost use Rattle.kb_record.specs.Reading.{Reads, remaining, whole_of, behind_next, is_mark, behind, read_name, read_number, read_scalar, begins_word, first_name, first_number, read_word, ends_place, ended, passes_comma};

use crate::next::{Next, next_in};
use crate::passed::token_count;
use crate::tree::{Expr, FieldText, PlaceText, Value};
use kb_lexing::{Expected, Token};
use kb_word::Memory;
use std::alloc::{AllocError, AllocFailed};

/// The tokens that are spelled in one way.
#[derive(Clone, Copy, Debug)]
pub(crate) enum Mark {
    Assign,
    OpenRound,
    CloseRound,
    OpenSquare,
    CloseSquare,
    Comma,
    Semicolon,
    Star,
    Caret,
    Dots,
    Rec,
}

impl Mark {
    /// Whether the token is this mark.
    fn is(self, token: Token<'_>) -> bool
        ensures { result ≡ is_mark self (token_view token.entry) }
    {
        match self {
            Mark::Assign => matches!(token, Token::Assign),
            Mark::OpenRound => matches!(token, Token::OpenRound),
            Mark::CloseRound => matches!(token, Token::CloseRound),
            Mark::OpenSquare => matches!(token, Token::OpenSquare),
            Mark::CloseSquare => matches!(token, Token::CloseSquare),
            Mark::Comma => matches!(token, Token::Comma),
            Mark::Semicolon => matches!(token, Token::Semicolon),
            Mark::Star => matches!(token, Token::Star),
            Mark::Caret => matches!(token, Token::Caret),
            Mark::Dots => matches!(token, Token::Dots),
            Mark::Rec => matches!(token, Token::Rec),
        }
    }
}

/// Why the reading stops.
#[derive(Clone, Copy, Debug)]
pub(crate) enum Stop {
    /// The next token is none of those that may come.
    Unexpected(Expected),
    /// The bracket that was just passed nests too deep.
    TooDeep,
    /// Memory ran out.
    Memory,
}

impl From<Memory> for Stop {
    ghost from_gives = { λ _ stop. stop ≡ stops.Memory };

    fn from(_: Memory) -> Stop {
        Stop::Memory
    }
}

impl From<AllocError> for Stop {
    ghost from_gives = { λ _ stop. stop ≡ stops.Memory };

    fn from(_: AllocError) -> Stop {
        Stop::Memory
    }
}

impl<T: Drop> From<AllocFailed<T>> for Stop {
    ghost from_gives = { λ _ stop. stop ≡ stops.Memory };

    fn from(_: AllocFailed<T>) -> Stop {
        Stop::Memory
    }
}

/// Goes over the tokens of a text, which it makes one by one.
#[derive(Clone, Copy)]
pub(crate) struct Cursor<'a> {
    next: Next<'a>,
}

impl<'a> Cursor<'a> {
    /// Before the first token of a text.
    pub fn new(text: &'a [u8]) -> Cursor<'a>
        ensures { remaining result ≡ tokens_of text.now }
    {
        Cursor {
            next: next_in(text, text),
        }
    }

    /// The next token.
    pub fn peek(&self) -> Option<Token<'a>>
        ensures { MatchOption result (remaining self.now ≡ [])
            (λ token. remaining self.now ≡ token_view token ∷ behind_next self.now) }
    {
        let lexeme = self.next.lexeme.as_ref()?;
        Some(lexeme.token)
    }

    /// Passes the next token.
    pub fn advance(&mut self)
        ensures passes { remaining self.new ≡ behind_next self.old }
        ensures whole { whole_of self.new ≡ whole_of self.old }
    {
        if let Some(lexeme) = self.next.lexeme {
            self.next = next_in(self.next.whole, lexeme.rest);
        }
    }

    /// Passes the mark, if it comes next.
    pub fn take(&mut self, mark: Mark) -> bool
        ensures passes { MatchBool result
            (behind mark (remaining self.old) ≡ Some (remaining self.new))
            ((behind mark (remaining self.old) ≡ None)
            × (remaining self.new ≡ remaining self.old)) }
        ensures whole { whole_of self.new ≡ whole_of self.old }
    {
        let Some(token) = self.peek() else {
            return false;
        };
        if !mark.is(token) {
            return false;
        }
        self.advance();
        true
    }

    /// Passes the mark, which has to come next.
    pub fn expect(&mut self, mark: Mark, expected: Expected) -> Result<(), Stop>
        ensures passes { MatchResult result
            (λ _. behind mark (remaining self.old) ≡ Some (remaining self.new))
            (λ stop. (behind mark (remaining self.old) ≡ None)
            × (remaining self.new ≡ remaining self.old) × (stop ≡ stops.Unexpected expected)) }
        ensures whole { whole_of self.new ≡ whole_of self.old }
    {
        if self.take(mark) {
            Ok(())
        } else {
            Err(Stop::Unexpected(expected))
        }
    }

    /// Passes the comma that goes on with a list or a record, or the mark that closes it. Answers
    /// whether it goes on.
    pub fn passes_comma(&mut self, close: Mark, expected: Expected) -> Result<bool, Stop>
        ensures reads { Reads (passes_comma close expected (remaining self.old)) (λ more. more)
            result (remaining self.new) }
        ensures whole { whole_of self.new ≡ whole_of self.old }
    {
        if self.take(close) {
            return Ok(false);
        }
        self.expect(Mark::Comma, expected)?;
        Ok(true)
    }

    /// Passes the name that has to come next.
    pub fn name(&mut self) -> Result<&'a str, Stop>
        ensures reads { Reads (read_name (remaining self.old)) (λ name. name.now) result
            (remaining self.new) }
        ensures whole { whole_of self.new ≡ whole_of self.old }
    {
        match self.peek() {
            Some(Token::Name(name)) => {
                self.advance();
                Ok(name)
            }
            _ => Err(Stop::Unexpected(Expected::Name)),
        }
    }

    /// Passes the number that has to come next.
    pub fn number(&mut self) -> Result<i64, Stop>
        ensures reads { Reads (read_number (remaining self.old)) (λ number. number) result
            (remaining self.new) }
        ensures whole { whole_of self.new ≡ whole_of self.old }
    {
        match self.peek() {
            Some(Token::Number(number)) => {
                self.advance();
                Ok(number)
            }
            _ => Err(Stop::Unexpected(Expected::Number)),
        }
    }

    /// Passes the number or the string that has to come next.
    pub fn scalar(&mut self) -> Result<Value<'a>, Stop>
        ensures reads { Reads (read_scalar (remaining self.old)) value_view result
            (remaining self.new) }
        ensures whole { whole_of self.new ≡ whole_of self.old }
    {
        match self.peek() {
            Some(Token::Number(number)) => {
                self.advance();
                Ok(Value::Number(number))
            }
            Some(Token::String(text)) => {
                self.advance();
                Ok(Value::String(text))
            }
            _ => Err(Stop::Unexpected(Expected::Value)),
        }
    }

    /// Whether a name or an open bracket comes next.
    pub fn begins_word(&self) -> bool
        ensures { result ≡ begins_word (remaining self.now) }
    {
        matches!(self.peek(), Some(Token::Name(_) | Token::OpenRound))
    }

    /// The word that comes next, which isn't passed.
    pub fn word(&self) -> Expr<'a>
        ensures { word_view result ≡ factors_in (read_word deepest (remaining self.now)) }
    {
        Expr {
            text: self.next.text,
        }
    }

    /// Where in the text the place of a list begins that comes next, which isn't passed.
    pub fn place(&self) -> usize
        ensures { place_from (whole_of self.now) result ≡ first_place_in (remaining self.now) }
    {
        self.next.whole.len() - self.next.text.len()
    }

    /// What comes next as a place of a list, which isn't passed.
    pub fn place_text(&self) -> PlaceText<'a>
        ensures { written_place result ≡ first_place_in (remaining self.now) }
    {
        PlaceText {
            text: self.next.text,
        }
    }

    /// What comes next as a field, which isn't passed.
    pub fn field_text(&self) -> FieldText<'a>
        ensures { written_field result ≡ first_field_in (remaining self.now) }
    {
        FieldText {
            text: self.next.text,
        }
    }

    /// The text from its beginning on.
    pub fn whole(&self) -> &'a [u8]
        ensures { result.now ≡ whole_of self.now }
    {
        self.next.whole
    }

    /// Passes the name that comes next, if one does.
    pub fn take_name(&mut self) -> Option<&'a str>
        ensures passes { MatchOption result
            ((first_name (remaining self.old) ≡ None)
            × (remaining self.new ≡ remaining self.old))
            (λ name. first_name (remaining self.old) ≡ Some (name.now, remaining self.new)) }
        ensures whole { whole_of self.new ≡ whole_of self.old }
    {
        match self.peek() {
            Some(Token::Name(name)) => {
                self.advance();
                Some(name)
            }
            _ => None,
        }
    }

    /// Passes the number that comes next, if one does.
    pub fn take_number(&mut self) -> Option<i64>
        ensures passes { MatchOption result
            ((first_number (remaining self.old) ≡ None)
            × (remaining self.new ≡ remaining self.old))
            (λ number. first_number (remaining self.old) ≡ Some (number, remaining self.new)) }
        ensures whole { whole_of self.new ≡ whole_of self.old }
    {
        match self.peek() {
            Some(Token::Number(number)) => {
                self.advance();
                Some(number)
            }
            _ => None,
        }
    }

    /// Whether a comma or the bracket that closes a list comes next.
    pub fn ends_place(&self) -> bool
        ensures { result ≡ ends_place (remaining self.now) }
    {
        matches!(self.peek(), Some(Token::Comma | Token::CloseSquare))
    }

    /// How many tokens of the text were passed.
    pub fn passed(&self, text: &[u8]) -> usize
        ensures { result ≡ length (tokens_of text.now) - length (remaining self.now) }
    {
        let count = token_count(text);
        match self.next.lexeme {
            Some(lexeme) => count
                .saturating_sub(token_count(lexeme.rest))
                .saturating_sub(1),
            None => count,
        }
    }

    /// Nothing may be left, and the tokens have to be all that there are.
    pub fn end(&self, whole: bool) -> Result<(), Stop>
        ensures { Reads (ended whole (remaining self.now)) (λ _. true) result
            (remaining self.now) }
    {
        if whole && self.next.lexeme.is_none() {
            Ok(())
        } else {
            Err(Stop::Unexpected(Expected::Mark))
        }
    }
}
