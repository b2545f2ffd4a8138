//! Lines as they are printed.

ghost use Rattle.std.specs.Prelude.{◌≡◌, ◌↔◌, ◌<◌, [], length, IfOk, IfSome, IfNone, IsFalse};
ghost use Rattle.kb_proof.specs.Printable.{AreReadableNames, IsPrintableLine, IsShortening};
ghost use Rattle.kb_proof.specs.Printed.{text_of_fields, text_of_line, text_of_open};
ghost use Rattle.kb_proof.specs.Reading.{AllFrom, NoneStandsFirst, Reads, ReadsFields, StandsFirst, texts_in};

use crate::cut::cut_at;
use crate::fields::{Fields, cut_fields};
use crate::log::Version;
use crate::numbers::is_text_of;
use crate::origin::read_origin;
use crate::steps::read_steps;
use crate::words::read_word;
use kb_machine::{Line, Origin};
use kb_word::{Memory, Names};
use std::alloc::Global;

/// The line with this number that stands first in the bytes, and what stands behind its newline.
pub(crate) fn read_line<'a>(
    alloc: Global,
    version: Version,
    number: u64,
    names: &Names,
    bytes: &'a [u8],
) -> Result<Option<(Line, &'a [u8])>, Memory>
    requires { AreReadableNames names.now }
    ensures line { IfOk result (λ found. IfSome found (λ first. StandsFirst version names.now
        (text_of_line version names.now number) bytes.now first.0 first.1.now)) }
    ensures shorter { IfOk result
        (λ found. IfSome found (λ first. length first.1.now < length bytes.now)) }
    ensures none { IfOk result (λ found. IfNone found (NoneStandsFirst version names.now
        (text_of_line version names.now number) bytes.now)) }
{
    let Some((text, rest)) = cut_at(b'\n', bytes) else {
        return Ok(None);
    };
    let Some((digits, fields)) = cut_at(b' ', text) else {
        return Ok(None);
    };
    if !is_text_of(number, digits) {
        return Ok(None);
    }
    let Some(line) = read_fields(alloc, version, b"->", names, fields)? else {
        return Ok(None);
    };
    Ok(Some((line, rest)))
}

/// The line of a pair that waits that stands first in the bytes, and what stands behind its newline.
pub(crate) fn read_open<'a>(
    alloc: Global,
    version: Version,
    names: &Names,
    bytes: &'a [u8],
) -> Result<Option<(Line, &'a [u8])>, Memory>
    requires { AreReadableNames names.now }
    ensures line { IfOk result (λ found. IfSome found (λ first. StandsFirst version names.now
        (text_of_open version names.now) bytes.now first.0 first.1.now)) }
    ensures none { IfOk result (λ found. IfNone found (NoneStandsFirst version names.now
        (text_of_open version names.now) bytes.now)) }
{
    let Some((text, rest)) = cut_at(b'\n', bytes) else {
        return Ok(None);
    };
    let Some((word, fields)) = cut_at(b' ', text) else {
        return Ok(None);
    };
    if word != b"open".as_slice() {
        return Ok(None);
    }
    let Some(line) = read_fields(alloc, version, b"<>", names, fields)? else {
        return Ok(None);
    };
    Ok(Some((line, rest)))
}

/// The line whose fields the bytes are, with a sign between the sides.
fn read_fields(
    alloc: Global,
    version: Version,
    sign: &[u8],
    names: &Names,
    bytes: &[u8],
) -> Result<Option<Line>, Memory>
    requires names { AreReadableNames names.now }
    requires sign { AllFrom 33 sign.now }
    ensures { IfOk result (λ found. Reads (text_of_fields version names.now sign.now)
        (IsPrintableLine version names.now) bytes.now found) }
{
    let Some(fields) = cut_fields(version, sign, bytes) else {
        return Ok(None);
    };
    let Some(line) = line_of(alloc, names, fields)? else {
        return Ok(None);
    };
    if has_too_many_steps(&line) {
        return Ok(None);
    }
    Ok(Some(line))
}

/// Whether the line is a shortened one, and has steps from a second word.
fn has_too_many_steps(line: &Line) -> bool
    ensures { IsFalse result ↔ (IsShortening line.now.origin → line.now.second_steps.items ≡ []) }
{
    matches!(line.origin, Origin::Shortened(_)) && !line.second_steps.is_empty()
}

/// The line whose parts the fields are.
fn line_of(alloc: Global, names: &Names, fields: Fields<'_>) -> Result<Option<Line>, Memory>
    requires { AreReadableNames names.now }
    ensures { IfOk result (λ found. ReadsFields names.now (texts_in fields.entry) found) }
{
    let Some(origin) = read_origin(fields.origin) else {
        return Ok(None);
    };
    let Some(left) = read_word(alloc, names, fields.left)? else {
        return Ok(None);
    };
    let Some(right) = read_word(alloc, names, fields.right)? else {
        return Ok(None);
    };
    let Some(first_steps) = read_steps(alloc, fields.first)? else {
        return Ok(None);
    };
    let Some(second_steps) = read_steps(alloc, fields.second)? else {
        return Ok(None);
    };
    Ok(Some(Line {
        origin,
        left,
        right,
        first_steps,
        second_steps,
    }))
}
