//! The printed texts of the lists that keep their numbers side by side. Where memory runs out, a
//! part of a text may have been appended.

ghost use Rattle.std.specs.Prelude.{◌≡◌, ◌++◌, OnOk, OnErr, Option};
ghost use Rattle.kb_record.specs.Tree as tree;
ghost use Rattle.kb_record.specs.View.{number_place, entry_place};
ghost use Rattle.kb_layout.specs.Layout.{line_of, text_of_value};
ghost use Rattle.kb_layout.specs.Printing.{Appended, line_of_place, list_of, list_place};

use crate::printing::{print_blanks, print_number};
use crate::trees::{one_level_in, print_close};
use kb_ragged::Ragged;
use kb_word::Memory;

/// What such a list holds: a number, or an entry of two numbers.
pub(crate) trait Item: Copy {
    /// The place of a tree that the item stands for.
    ghost seen: { Self → Option tree.Value };

    /// Appends the item on one line.
    fn print(&self, out: &mut Vec<u8>) -> Result<(), Memory>
        ensures printed { OnOk result
            (out.new.items ≡ out.old.items ++ line_of_place seen self.now) }
        ensures kept { OnErr result (Appended out.old.items out.new.items) };
}

impl Item for i64 {
    ghost seen = { number_place };

    fn print(&self, out: &mut Vec<u8>) -> Result<(), Memory> {
        print_number(*self, out)
    }
}

impl Item for (i64, i64) {
    ghost seen = { entry_place };

    fn print(&self, out: &mut Vec<u8>) -> Result<(), Memory> {
        print_items(&[self.0, self.1], out)
    }
}

/// Appends a list of items on one line.
pub(crate) fn print_items<T: Item>(items: &[T], out: &mut Vec<u8>) -> Result<(), Memory>
    ensures printed { OnOk result
        (out.new.items ≡ out.old.items ++ line_of (list_of T.seen items.now)) }
    ensures kept { OnErr result (Appended out.old.items out.new.items) }
{
    out.push(b'[')?;
    let mut before: &[u8] = b"";
    for item in items {
        out.extend_from_slice(before)?;
        item.print(out)?;
        before = b",";
    }
    out.push(b']')?;
    Ok(())
}

/// Appends a list of lists on one line.
pub(crate) fn print_lists_on_line<T: Item>(
    lists: &Ragged<T>,
    out: &mut Vec<u8>,
) -> Result<(), Memory>
    ensures printed { OnOk result
        (out.new.items ≡ out.old.items ++ line_of (list_of (list_place T.seen) lists.now)) }
    ensures kept { OnErr result (Appended out.old.items out.new.items) }
{
    out.push(b'[')?;
    let mut before: &[u8] = b"";
    for place in 0..lists.len() {
        out.extend_from_slice(before)?;
        print_items(lists.get(place).unwrap(), out)?;
        before = b",";
    }
    out.push(b']')?;
    Ok(())
}

/// Appends a list of lists at a level, each list on a line of its own.
pub(crate) fn print_lists<T: Item>(
    level: usize,
    lists: &Ragged<T>,
    out: &mut Vec<u8>,
) -> Result<(), Memory>
    ensures printed { OnOk result (out.new.items
        ≡ out.old.items ++ text_of_value level (list_of (list_place T.seen) lists.now)) }
    ensures kept { OnErr result (Appended out.old.items out.new.items) }
{
    if lists.len() == 0 {
        return print_lists_on_line(lists, out);
    }
    let inside = one_level_in(level)?;
    out.push(b'[')?;
    let mut before: &[u8] = b"\n";
    for place in 0..lists.len() {
        out.extend_from_slice(before)?;
        print_blanks(inside, out)?;
        print_items(lists.get(place).unwrap(), out)?;
        before = b",\n";
    }
    print_close(level, b']', out)
}
