//! Pieces of printed texts: indents, numbers and lists of names.

ghost use Rattle.std.specs.Prelude.{◌≡◌, ◌++◌, OnOk, OnErr};
ghost use Rattle.std.specs.Fmt.{signed_decimal};
ghost use Rattle.kb_record.specs.Tree.{list_value};
ghost use Rattle.kb_fields.specs.Fields.{list_of_names};
ghost use Rattle.kb_layout.specs.Layout.{indent, line_of};
ghost use Rattle.kb_layout.specs.Printing.{Appended};

use itoa::Buffer;
use kb_word::{Memory, Names};

/// Appends two blanks for each level.
pub fn print_indent(level: usize, out: &mut Vec<u8>) -> Result<(), Memory>
    ensures printed { OnOk result (out.new.items ≡ out.old.items ++ indent level) }
    ensures kept { OnErr result (out.new.items ≡ out.old.items) }
{
    let length = out.len();
    let appended = print_blanks(level, out);
    if appended.is_err() {
        out.truncate(length);
    }
    appended
}

/// Appends two blanks for each level. Where memory runs out, it may have appended a part of them.
pub(crate) fn print_blanks(level: usize, out: &mut Vec<u8>) -> Result<(), Memory>
    ensures printed { OnOk result (out.new.items ≡ out.old.items ++ indent level) }
    ensures kept { OnErr result (Appended out.old.items out.new.items) }
{
    for _i in 0..level {
        out.extend_from_slice(b"  ")?;
    }
    Ok(())
}

/// Appends the digits of a number, behind `-` where it is below 0.
pub fn print_number(number: i64, out: &mut Vec<u8>) -> Result<(), Memory>
    ensures printed { OnOk result (out.new.items ≡ out.old.items ++ signed_decimal number) }
    ensures kept { OnErr result (out.new.items ≡ out.old.items) }
{
    let mut buffer = Buffer::new();
    out.extend_from_slice(buffer.format(number).as_bytes())?;
    Ok(())
}

/// Appends the list of the names on one line.
pub fn print_names(names: &Names, out: &mut Vec<u8>) -> Result<(), Memory>
    ensures { OnOk result
        (out.new.items ≡ out.old.items ++ line_of (list_value (list_of_names names.now))) }
{
    out.push(b'[')?;
    let mut before: &[u8] = b"";
    for place in 0..names.len() {
        out.extend_from_slice(before)?;
        out.extend_from_slice(names.get(place).unwrap_or("").as_bytes())?;
        before = b",";
    }
    out.push(b']')?;
    Ok(())
}
