//! From logs to bytes.

ghost use Rattle.std.specs.Prelude.{◌≡◌, ◌++◌, ◌∷◌, IfOk, OnOk, decimal};
ghost use Rattle.kb_machine.specs.declared.origin.Origin.TheVariants.{Overlap};
ghost use Rattle.kb_proof.specs.declared.log.Version.TheVariants.{One};
ghost use Rattle.kb_proof.specs.Printed.{derivations_text, header, text_of_fields, text_of_lines, text_of_log, text_of_origin, text_of_step, text_of_steps, text_of_waiting};

use crate::log::{Log, Version};
use itoa::Buffer;
use kb_machine::{Line, LogStep, Origin};
use kb_word::{Memory, Names, Presentation, print_word};
use std::alloc::Global;

/// The text of a log over a presentation's names.
pub fn print_log(alloc: Global, log: &Log, presentation: &Presentation) -> Result<Vec<u8>, Memory>
    ensures { IfOk result (λ text. text.items ≡ text_of_log presentation.now.names log.now) }
{
    let mut out = Vec::new(alloc);
    print_header(log.version, &mut out)?;
    print_lines(
        log.version,
        log.lines.as_slice(),
        &presentation.names,
        &mut out,
    )?;
    print_waiting(log.version, &log.waiting, &presentation.names, &mut out)?;
    Ok(out)
}

/// Appends the first line.
fn print_header(version: Version, out: &mut Vec<u8>) -> Result<(), Memory>
    ensures { OnOk result (out.new.items ≡ out.old.items ++ header version) }
{
    let line = match version {
        Version::One => b"kblog 1\n".as_slice(),
        Version::Two => b"kblog 2\n".as_slice(),
    };
    out.extend_from_slice(line)?;
    Ok(())
}

/// Appends the lines, the first of which has number 1.
fn print_lines(
    version: Version,
    lines: &[Line],
    names: &Names,
    out: &mut Vec<u8>,
) -> Result<(), Memory>
    ensures { OnOk result
        (out.new.items ≡ out.old.items ++ text_of_lines version names.now 1 lines.now) }
{
    for (index, line) in lines.iter().enumerate() {
        print_number(index as u64 + 1, out)?;
        print_fields(version, b"->", line, names, out)?;
        out.push(b'\n')?;
    }
    Ok(())
}

/// Appends the line of the pair that waits, if one does.
fn print_waiting(
    version: Version,
    waiting: &Option<Line>,
    names: &Names,
    out: &mut Vec<u8>,
) -> Result<(), Memory>
    ensures { OnOk result
        (out.new.items ≡ out.old.items ++ text_of_waiting version names.now waiting.now) }
{
    let Some(line) = waiting else {
        return Ok(());
    };
    out.extend_from_slice(b"open")?;
    print_fields(version, b"<>", line, names, out)?;
    out.push(b'\n')?;
    Ok(())
}

/// Appends the fields of a line, each behind a blank.
fn print_fields(
    version: Version,
    sign: &[u8],
    line: &Line,
    names: &Names,
    out: &mut Vec<u8>,
) -> Result<(), Memory>
    ensures { OnOk result (out.new.items ≡ out.old.items
        ++ 32 ∷ text_of_fields version names.now sign.now line.now) }
{
    print_sides(sign, line, names, out)?;
    match version {
        Version::One => Ok(()),
        Version::Two => print_derivations(line, out),
    }
}

/// Appends the origin and the sides, each behind a blank, with a sign between the sides.
fn print_sides(sign: &[u8], line: &Line, names: &Names, out: &mut Vec<u8>) -> Result<(), Memory>
    ensures { OnOk result (out.new.items ≡ out.old.items
        ++ 32 ∷ text_of_fields One names.now sign.now line.now) }
{
    out.push(b' ')?;
    print_origin(line.origin, out)?;
    out.push(b' ')?;
    print_word(names, &line.left, out)?;
    out.push(b' ')?;
    out.extend_from_slice(sign)?;
    out.push(b' ')?;
    print_word(names, &line.right, out)?;
    Ok(())
}

/// Appends the derivations, each behind a colon between blanks.
fn print_derivations(line: &Line, out: &mut Vec<u8>) -> Result<(), Memory>
    ensures { OnOk result (out.new.items ≡ out.old.items
        ++ derivations_text line.now.first_steps.items line.now.second_steps.items) }
{
    out.extend_from_slice(b" : ")?;
    print_steps(line.first_steps.as_slice(), out)?;
    out.extend_from_slice(b" : ")?;
    print_steps(line.second_steps.as_slice(), out)?;
    Ok(())
}

/// Appends where a line comes from.
pub fn print_origin(origin: Origin, out: &mut Vec<u8>) -> Result<(), Memory>
    ensures { OnOk result (out.new.items ≡ out.old.items ++ text_of_origin origin) }
{
    match origin {
        Origin::Relation(relation) => print_kind(b'R', relation, out),
        Origin::Overlap {
            first,
            second,
            place,
        } => print_overlap(first, second, place, out),
        Origin::Killed(line) => print_kind(b'K', line, out),
        Origin::Shortened(line) => print_kind(b'S', line, out),
    }
}

/// Appends the letter of an origin's kind, and the number of the relation or line.
fn print_kind(kind: u8, number: u32, out: &mut Vec<u8>) -> Result<(), Memory>
    ensures { OnOk result (out.new.items ≡ out.old.items ++ kind ∷ decimal number) }
{
    out.push(kind)?;
    print_number(u64::from(number), out)
}

/// Appends an overlap of two lines.
fn print_overlap(first: u32, second: u32, place: u32, out: &mut Vec<u8>) -> Result<(), Memory>
    ensures { OnOk result
        (out.new.items ≡ out.old.items ++ text_of_origin (Overlap first second place)) }
{
    print_kind(b'M', first, out)?;
    print_kind(b',', second, out)?;
    print_kind(b',', place, out)
}

/// Appends `-`, or steps with commas between them.
fn print_steps(steps: &[LogStep], out: &mut Vec<u8>) -> Result<(), Memory>
    ensures { OnOk result (out.new.items ≡ out.old.items ++ text_of_steps steps.now) }
{
    let Some((first, rest)) = steps.split_first() else {
        out.push(b'-')?;
        return Ok(());
    };
    print_step(first, out)?;
    for step in rest {
        out.push(b',')?;
        print_step(step, out)?;
    }
    Ok(())
}

/// Appends a step.
fn print_step(step: &LogStep, out: &mut Vec<u8>) -> Result<(), Memory>
    ensures { OnOk result (out.new.items ≡ out.old.items ++ text_of_step step.now) }
{
    print_number(u64::from(step.place), out)?;
    print_kind(b'/', step.line, out)
}

/// Appends a number in decimal digits.
fn print_number(number: u64, out: &mut Vec<u8>) -> Result<(), Memory>
    ensures { OnOk result (out.new.items ≡ out.old.items ++ decimal number) }
{
    let mut buffer = Buffer::new();
    out.extend_from_slice(buffer.format(number).as_bytes())?;
    Ok(())
}
