//! From bytes to logs.

ghost use Rattle.std.specs.Prelude.{◌≡◌, ◌+◌, ◌≤◌, ◌++◌, length, All, IfOk, IfErr};
ghost use Rattle.kb_proof.specs.Faults.{HasBodyFault, HasLogFault};
ghost use Rattle.kb_proof.specs.Printable.{AreReadableNames, IsPrintable, IsPrintableLine};
ghost use Rattle.kb_proof.specs.Printed.{text_of_line, text_of_lines, text_of_log};
ghost use Rattle.kb_proof.specs.Reading.{IsLogOf, NoneStandsFirst};

use crate::error::LogError;
use crate::header::read_header;
use crate::line::{read_line, read_open};
use crate::log::{Log, Version};
use kb_machine::Line;
use kb_word::{Names, Presentation};
use std::alloc::Global;

/// Reads a log over a presentation's names.
///
/// The bytes are read exactly where they are the text of a log that can be read again. A refusal names the first
/// line that is not as it would be printed, or says that the first line names a version that there isn't.
pub fn read_log(alloc: Global, bytes: &[u8], presentation: &Presentation) -> Result<Log, LogError>
    requires { AreReadableNames presentation.now.names }
    ensures read { IfOk result (λ log. bytes.now ≡ text_of_log presentation.now.names log) }
    ensures printable { IfOk result (λ log. IsPrintable presentation.now.names log) }
    ensures few { IfOk result (λ log. length log.lines.items ≤ length bytes.now) }
    ensures fault { IfErr result (HasLogFault presentation.now.names bytes.now) }
{
    let (version, body) = read_header(bytes)?;
    read_body(alloc, version, &presentation.names, body)
}

/// Reads the lines behind the first.
fn read_body(alloc: Global, version: Version, names: &Names, body: &[u8]) -> Result<Log, LogError>
    requires { AreReadableNames names.now }
    ensures read { IfOk result (λ log. IsLogOf version names.now body.now log) }
    ensures fault { IfErr result (HasBodyFault version names.now body.now) }
{
    let mut lines = Vec::new(alloc);
    let mut rest = body;
    while let Some((line, behind)) = read_line(
        alloc,
        version,
        lines.len() as u64 + 1,
        names,
        rest,
    )? {
        lines.push(line)?;
        rest = behind;
    }
    read_end(alloc, version, names, lines, rest)
}

/// Reads what stands behind the numbered lines: nothing, or the line of a pair that waits.
fn read_end(
    alloc: Global,
    version: Version,
    names: &Names,
    lines: Vec<Line>,
    rest: &[u8],
) -> Result<Log, LogError>
    requires names { AreReadableNames names.now }
    requires lines { All (IsPrintableLine version names.now) lines.items }
    requires end { NoneStandsFirst version names.now
        (text_of_line version names.now (length lines.items + 1)) rest.now }
    ensures read { IfOk result (λ log. IsLogOf version names.now
        (text_of_lines version names.now 1 lines.items ++ rest.now) log) }
    ensures fault { IfErr result (HasBodyFault version names.now
        (text_of_lines version names.now 1 lines.items ++ rest.now)) }
{
    if rest.is_empty() {
        return Ok(Log {
            version,
            lines,
            waiting: None,
        });
    }
    let count = lines.len() as u64;
    let Some((line, behind)) = read_open(alloc, version, names, rest)? else {
        return Err(LogError::Syntax { line: count + 2 });
    };
    if !behind.is_empty() {
        return Err(LogError::Syntax { line: count + 3 });
    }
    Ok(Log {
        version,
        lines,
        waiting: Some(line),
    })
}
