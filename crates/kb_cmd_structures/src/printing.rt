//! Differences as text.

ghost use Rattle.std.specs.Prelude.{◌≡◌, true, [], ◌∷◌, ◌++◌, IfOk, OnOk, decimal, slice_get};
ghost use Rattle.kb_word.specs.Printed.{text_of_word};
ghost use Rattle.kb_cmd_structures.specs.Printed.{text_of_differences, text_of_kept, text_of_needed, text_of_equality, text_of_seen, word_of};

use itoa::Buffer;
use kb_kept::{Equality, Listing, Seen};
use kb_word::{Letter, Memory, Names, Word, print_word};
use std::alloc::Global;

/// The text of a listing. It ends with the difference that is needed, where that is asked for and there is one.
pub fn print_differences(
    alloc: Global,
    names: &Names,
    listing: &Listing,
    with_needed: bool,
) -> Result<Vec<u8>, Memory>
    ensures { IfOk result (λ text. text.items
        ≡ text_of_differences names.now listing.now with_needed) }
{
    let mut text = Vec::from_slice(alloc, b"diff 1\n1 IdWord\n")?;
    print_kept(names, &listing.equalities, &listing.kept, &mut text)?;
    if with_needed {
        print_needed(names, listing, &mut text)?;
    }
    Ok(text)
}

/// Appends a difference, the words of its equality with the generator between them, and the place.
pub fn print_seen(
    names: &Names,
    equalities: &[Equality],
    seen: &Seen,
    text: &mut Vec<u8>,
) -> Result<(), Memory>
    ensures { OnOk result
        (text.new.items ≡ text.old.items ++ text_of_seen names.now equalities.now seen.now) }
{
    print_field(names, &seen.word, text)?;
    print_equality(names, equalities, seen.equality, text)?;
    print_number(seen.place, text)
}

/// Appends the lines of differences, numbered from 2 on.
fn print_kept(
    names: &Names,
    equalities: &[Equality],
    kept: &[Seen],
    text: &mut Vec<u8>,
) -> Result<(), Memory>
    ensures { OnOk result
        (text.new.items ≡ text.old.items ++ text_of_kept names.now equalities.now 2 kept.now) }
{
    for (index, seen) in kept.iter().enumerate() {
        print_number(index + 2, text)?;
        text.push(b' ')?;
        print_seen(names, equalities, seen, text)?;
        text.push(b'\n')?;
    }
    Ok(())
}

/// Appends the line of the difference that is needed, where there is one.
fn print_needed(names: &Names, listing: &Listing, text: &mut Vec<u8>) -> Result<(), Memory>
    ensures { OnOk result (text.new.items ≡ text.old.items
        ++ text_of_needed names.now listing.now.equalities.items listing.now.needed true) }
{
    if let Some(needed) = &listing.needed {
        text.extend_from_slice(b"need ")?;
        print_seen(names, &listing.equalities, needed, text)?;
        text.push(b'\n')?;
    }
    Ok(())
}

/// Appends the words of the equality at an index and its generator, each with a blank behind it.
fn print_equality(
    names: &Names,
    equalities: &[Equality],
    index: usize,
    text: &mut Vec<u8>,
) -> Result<(), Memory>
    ensures { OnOk result (text.new.items
        ≡ text.old.items ++ text_of_equality names.now (slice_get equalities.now index)) }
{
    let Some(equality) = equalities.get(index) else {
        return Ok(());
    };
    print_field(names, &equality.u, text)?;
    print_field(names, &equality.v, text)?;
    print_generator(names, equality.x, text)?;
    text.push(b' ')?;
    Ok(())
}

/// Appends a generator, or the empty word where there is none.
fn print_generator(names: &Names, x: Option<Letter>, text: &mut Vec<u8>) -> Result<(), Memory>
    ensures { OnOk result
        (text.new.items ≡ text.old.items ++ text_of_word names.now (word_of x)) }
{
    let name = match x {
        Some(x) => names.name_of(x).unwrap_or(""),
        None => "IdWord",
    };
    text.extend_from_slice(name.as_bytes())?;
    Ok(())
}

/// Appends a word with a blank behind it.
fn print_field(names: &Names, word: &Word, text: &mut Vec<u8>) -> Result<(), Memory>
    ensures { OnOk result
        (text.new.items ≡ text.old.items ++ (text_of_word names.now word.now ++ 32 ∷ [])) }
{
    print_word(names, word, text)?;
    text.push(b' ')?;
    Ok(())
}

/// Appends a number.
fn print_number(number: usize, text: &mut Vec<u8>) -> Result<(), Memory>
    ensures { OnOk result (text.new.items ≡ text.old.items ++ decimal number) }
{
    let mut buffer = Buffer::new();
    text.extend_from_slice(buffer.format(number).as_bytes())?;
    Ok(())
}
