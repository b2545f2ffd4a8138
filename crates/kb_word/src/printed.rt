//! Words as they are printed.

ghost use Rattle.std.specs.Prelude.{◌≡◌, ◌++◌, ℕ, List, OnOk, OnErr};
ghost use Rattle.kb_word.specs.Printed.{letter_name, text_of_word};

use crate::letter::Letter;
use crate::memory::Memory;
use crate::names::Names;
use crate::word::Word;

/// Appends the word as it is printed: `IdWord`, or the names of its letters with `*` between them.
pub fn print_word(names: &Names, word: &Word, out: &mut Vec<u8>) -> Result<(), Memory>
    ensures printed { OnOk result (out.new.items ≡ out.old.items ++ text_of_word names.now word.now) }
    ensures kept { OnErr result (out.new.items ≡ out.old.items) }
{
    let length = out.len();
    let printed = append_word(names, word, out);
    if printed.is_err() {
        out.truncate(length);
    }
    printed
}

/// Appends the word as it is printed. Where memory runs out, something may have been appended.
fn append_word(names: &Names, word: &Word, out: &mut Vec<u8>) -> Result<(), Memory>
    ensures printed { OnOk result (out.new.items ≡ out.old.items ++ text_of_word names.now word.now) }
    ensures kept { OnErr result ((more : List ℕ) × (out.new.items ≡ out.old.items ++ more)) }
{
    let Some((first, rest)) = word.letters().split_first() else {
        out.extend_from_slice(b"IdWord")?;
        return Ok(());
    };
    print_letter(names, *first, out)?;
    for letter in rest {
        out.push(b'*')?;
        print_letter(names, *letter, out)?;
    }
    Ok(())
}

/// Appends the name of a letter.
fn print_letter(names: &Names, letter: Letter, out: &mut Vec<u8>) -> Result<(), Memory>
    ensures printed { OnOk result (out.new.items ≡ out.old.items ++ letter_name names.now letter) }
    ensures kept { OnErr result (out.new.items ≡ out.old.items) }
{
    let name = names.name_of(letter).unwrap_or("");
    out.extend_from_slice(name.as_bytes())?;
    Ok(())
}
