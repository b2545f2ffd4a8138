//! The words and quoted texts of a line.

use crate::mistake::Mistake;
use std::alloc::Global;
use std::str::FromStr;

/// A word, or a text in quotation marks.
#[derive(Drop)]
pub struct Token {
    /// Its bytes, for a quoted text without the marks and with the bytes that escapes are for.
    pub bytes: Vec<u8>,
    /// Whether it is in quotation marks.
    pub is_quoted: bool,
}

impl Token {
    /// The token as text.
    pub fn text(&self) -> Result<&str, Mistake> {
        as_text(self.bytes.as_slice())
    }
}

/// The bytes as text.
pub fn as_text(bytes: &[u8]) -> Result<&str, Mistake> {
    match std::str::from_utf8(bytes) {
        Ok(text) => Ok(text),
        Err(_) => Err(Mistake::NoUtf8),
    }
}

/// The number that the word is.
pub fn number<N: FromStr>(word: &str) -> Result<N, Mistake>
where
    N::Err: Drop,
{
    match word.parse::<N>() {
        Ok(number) => Ok(number),
        Err(_) => Err(Mistake::Number),
    }
}

/// Where in a line the reading is.
#[derive(Clone, Copy)]
enum Place {
    /// between two tokens
    Between,
    /// in a word
    Word,
    /// in a quoted text
    Quoted,
    /// behind a backslash
    Escape,
    /// behind the x of an escape
    FirstDigit,
    /// behind the first digit, which is this
    SecondDigit(u8),
}

/// The tokens so far, and the bytes of the one that is being read.
#[derive(Drop)]
struct Reading {
    alloc: Global,
    place: Place,
    bytes: Vec<u8>,
    tokens: Vec<Token>,
}

/// The byte that is written as a backslash and this one.
fn escaped(byte: u8) -> Result<u8, Mistake> {
    match byte {
        b'n' => Ok(b'\n'),
        b't' => Ok(b'\t'),
        b'r' => Ok(b'\r'),
        b'"' | b'\\' => Ok(byte),
        _ => Err(Mistake::Escape),
    }
}

/// The number of a hexadecimal digit.
fn digit(byte: u8) -> Result<u8, Mistake> {
    match byte {
        b'0'..=b'9' => Ok(byte - b'0'),
        b'A'..=b'F' => Ok(byte - b'A' + 10),
        _ => Err(Mistake::Escape),
    }
}

impl Reading {
    /// Goes on with this byte.
    fn take(&mut self, byte: u8) -> Result<(), Mistake> {
        match self.place {
            Place::Between => self.begin(byte)?,
            Place::Word if byte == b' ' => self.end(false)?,
            Place::Word => self.bytes.push(byte)?,
            Place::Quoted if byte == b'"' => self.end(true)?,
            Place::Quoted if byte == b'\\' => self.place = Place::Escape,
            Place::Quoted => self.bytes.push(byte)?,
            Place::Escape if byte == b'x' => self.place = Place::FirstDigit,
            Place::Escape => self.add(escaped(byte)?)?,
            Place::FirstDigit => self.place = Place::SecondDigit(digit(byte)?),
            Place::SecondDigit(first) => self.add((first << 4) | digit(byte)?)?,
        }
        Ok(())
    }

    /// Begins a token with this byte, unless it is a blank.
    fn begin(&mut self, byte: u8) -> Result<(), Mistake> {
        match byte {
            b' ' => {}
            b'"' => self.place = Place::Quoted,
            _ => {
                self.bytes.push(byte)?;
                self.place = Place::Word;
            }
        }
        Ok(())
    }

    /// Adds a byte that was escaped.
    fn add(&mut self, byte: u8) -> Result<(), Mistake> {
        self.bytes.push(byte)?;
        self.place = Place::Quoted;
        Ok(())
    }

    /// Ends a token.
    fn end(&mut self, is_quoted: bool) -> Result<(), Mistake> {
        let bytes = std::mem::replace(&mut self.bytes, Vec::new(self.alloc));
        self.tokens.push(Token { bytes, is_quoted })?;
        self.place = Place::Between;
        Ok(())
    }
}

/// The tokens of a line, which blanks separate.
pub fn tokens(alloc: Global, line: &str) -> Result<Vec<Token>, Mistake> {
    let mut reading = Reading {
        alloc,
        place: Place::Between,
        bytes: Vec::new(alloc),
        tokens: Vec::new(alloc),
    };
    for byte in line.bytes() {
        reading.take(byte)?;
    }
    match reading.place {
        Place::Between => {}
        Place::Word => reading.end(false)?,
        _ => return Err(Mistake::Unclosed),
    }
    Ok(reading.tokens)
}
