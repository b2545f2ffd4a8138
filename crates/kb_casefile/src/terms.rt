//! What the text of a section is.

use crate::mistake::Mistake;
use crate::section::Section;
use crate::texts::{Named, find};
use crate::token::{Token, as_text, number, tokens};
use std::alloc::Global;
use std::fs;
use std::rt::Files;

/// The text of a section: that on its line, or else the lines below it, each with a newline.
/// Without either it is empty.
pub fn text_of<R: Files + AllocGlobal>(
    rt: &R,
    section: &Section,
    texts: &[Named],
) -> Result<Vec<u8>, Mistake> {
    match &section.terms {
        Some(_) if !section.block.is_empty() => Err(Mistake::TwoTexts),
        Some(terms) => evaluate(rt, terms.as_str(), texts),
        None => lines_of(rt.alloc(), section),
    }
}

/// The lines below the section, each with a newline.
fn lines_of(alloc: Global, section: &Section) -> Result<Vec<u8>, Mistake> {
    let mut bytes = Vec::new(alloc);
    for line in &section.block {
        bytes.extend_from_slice(line.text.as_bytes())?;
        bytes.push(b'\n')?;
    }
    Ok(bytes)
}

/// How a term begins.
#[derive(Clone, Copy)]
enum Verb {
    /// with a text alone
    Plain,
    /// with `from`
    From,
    /// with `first`
    First,
    /// with `with`
    With,
    /// with a number
    Times,
}

impl Verb {
    /// How the term that begins with this token begins.
    fn of(token: &Token) -> Result<Verb, Mistake> {
        if token.is_quoted {
            return Ok(Verb::Plain);
        }
        let word = token.text()?;
        Ok(match word {
            "from" => Verb::From,
            "first" => Verb::First,
            "with" => Verb::With,
            _ if is_number(word) => Verb::Times,
            _ => Verb::Plain,
        })
    }

    /// How many tokens the term has.
    fn len(self) -> usize {
        match self {
            Verb::Plain => 1,
            Verb::From => 2,
            Verb::Times => 3,
            Verb::First | Verb::With => 4,
        }
    }
}

/// The texts of terms, one behind the other.
///
/// A term is a quoted text, the name of a text, `N times` or `first N of` before one of these, or
/// `from FILE`. `with NEW for OLD` replaces a part of what is before it.
fn evaluate<R: Files + AllocGlobal>(
    rt: &R,
    line: &str,
    texts: &[Named],
) -> Result<Vec<u8>, Mistake> {
    let tokens = tokens(rt.alloc(), line)?;
    let mut bytes = Vec::new(rt.alloc());
    let mut at = 0usize;
    for _ in 0..tokens.len() {
        let Some([token, operands @ ..]) = tokens.as_slice().get(at..) else {
            return Ok(bytes);
        };
        let verb = Verb::of(token)?;
        bytes = with_term(rt, verb, bytes, token, operands, texts)?;
        at = at.saturating_add(verb.len());
    }
    Ok(bytes)
}

/// The bytes with the term that begins with this token and goes on with these.
fn with_term<R: Files + AllocGlobal>(
    rt: &R,
    verb: Verb,
    bytes: Vec<u8>,
    token: &Token,
    operands: &[Token],
    texts: &[Named],
) -> Result<Vec<u8>, Mistake> {
    match verb {
        Verb::Plain => joined(bytes, simple(token, texts)),
        Verb::From => with_data(rt, bytes, operands),
        Verb::First => joined(bytes, front(operands, texts)),
        Verb::With => replaced(rt.alloc(), bytes, operands, texts),
        Verb::Times => repeated(rt.alloc(), bytes, token, operands, texts),
    }
}

/// The bytes with others behind them.
fn joined(mut bytes: Vec<u8>, more: Result<&[u8], Mistake>) -> Result<Vec<u8>, Mistake> {
    bytes.extend_from_slice(more?)?;
    Ok(bytes)
}

/// Whether the word begins with a digit.
fn is_number(word: &str) -> bool {
    match word.as_bytes().first() {
        Some(byte) => byte.is_ascii_digit(),
        None => false,
    }
}

/// Whether the token is this word.
fn is_word(token: &Token, word: &str) -> bool {
    !token.is_quoted && token.bytes.as_slice() == word.as_bytes()
}

/// A quoted text, or one that has a name.
fn simple<'a>(token: &'a Token, texts: &'a [Named]) -> Result<&'a [u8], Mistake> {
    if token.is_quoted {
        return Ok(token.bytes.as_slice());
    }
    find(texts, token.text()?).ok_or(Mistake::UnknownText)
}

/// The bytes with those of a file of data behind them.
fn with_data<R: Files + AllocGlobal>(
    rt: &R,
    bytes: Vec<u8>,
    operands: &[Token],
) -> Result<Vec<u8>, Mistake> {
    let [name, ..] = operands else {
        return Err(Mistake::MissingText);
    };
    match fs::read(rt, name.text()?) {
        Ok(data) => joined(bytes, Ok(data.as_slice())),
        Err(_) => Err(Mistake::MissingData),
    }
}

/// The bytes with a text behind them, so many times.
fn repeated(
    alloc: Global,
    mut bytes: Vec<u8>,
    count: &Token,
    operands: &[Token],
    texts: &[Named],
) -> Result<Vec<u8>, Mistake> {
    let [times, text, ..] = operands else {
        return Err(Mistake::MissingText);
    };
    if !is_word(times, "times") {
        return Err(Mistake::MissingText);
    }
    let count = number::<usize>(count.text()?)?;
    let part = simple(text, texts)?;
    if let [byte] = part {
        let run = vec![in alloc; *byte; count]?;
        return joined(bytes, Ok(run.as_slice()));
    }
    for _ in 0..count {
        bytes.extend_from_slice(part)?;
    }
    Ok(bytes)
}

/// The first bytes of a text, so many as another one is the number of.
fn front<'a>(operands: &'a [Token], texts: &'a [Named]) -> Result<&'a [u8], Mistake> {
    let [count, of, whole, ..] = operands else {
        return Err(Mistake::MissingText);
    };
    if !is_word(of, "of") {
        return Err(Mistake::MissingText);
    }
    let count = number::<usize>(as_text(simple(count, texts)?)?)?;
    let whole = simple(whole, texts)?;
    whole.get(..count).ok_or(Mistake::Number)
}

/// The bytes with a new part for an old one, which is there once.
fn replaced(
    alloc: Global,
    bytes: Vec<u8>,
    operands: &[Token],
    texts: &[Named],
) -> Result<Vec<u8>, Mistake> {
    let [new, instead, old, ..] = operands else {
        return Err(Mistake::MissingText);
    };
    if !is_word(instead, "for") {
        return Err(Mistake::MissingText);
    }
    let new = simple(new, texts)?;
    let old = as_text(simple(old, texts)?)?;
    let whole = as_text(bytes.as_slice())?;
    let Some((before, after)) = whole.split_once(old) else {
        return Err(Mistake::NotOnce);
    };
    if after.contains(old) {
        return Err(Mistake::NotOnce);
    }
    let mut changed = Vec::from_slice(alloc, before.as_bytes())?;
    changed.extend_from_slice(new)?;
    changed.extend_from_slice(after.as_bytes())?;
    Ok(changed)
}
