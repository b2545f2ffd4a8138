//! The lines of certificates.

ghost use Rattle.std.specs.Prelude.{◌≡◌, [], ◌∷◌, ◌++◌, IfOk, OnOk, codes, decimal};
ghost use Rattle.kb_word.specs.Printed.{letter_name, text_of_word};
ghost use Rattle.kb_cmd_structures.specs.Lines.{certificate_line, parts_of_line, spaced};

use itoa::Buffer;
use kb_structure::Cert;
use kb_word::{Letter, Memory, Names, Word, print_word};
use std::alloc::Global;

/// `no`, the certificate's kind, its generator or relation, its words, and a newline.
pub(crate) fn certificate_line(alloc: Global, names: &Names, cert: &Cert) -> Result<Vec<u8>, Memory>
    ensures { IfOk result (λ line. line.items ≡ certificate_line names.now cert.now) }
{
    let mut line = Vec::from_slice(alloc, b"no")?;
    append_parts(names, cert, &mut line)?;
    line.push(b'\n')?;
    Ok(line)
}

/// Appends a certificate's kind and what stands behind it.
fn append_parts(names: &Names, cert: &Cert, line: &mut Vec<u8>) -> Result<(), Memory>
    ensures { OnOk result
        (line.new.items ≡ line.old.items ++ spaced (parts_of_line names.now cert.now)) }
{
    match cert {
        Cert::N1 { u } => append_accepted(names, u, line),
        Cert::N2 { x, u, v } => append_pair(b"N2", names, *x, u, v, line),
        Cert::N4 { x, u } => append_one(b"N4", names, *x, u, line),
        Cert::N5 { x, u, v, other } => append_images(names, *x, u, v, other, line),
        Cert::N6 { x, prefix } => append_one(b"N6", names, *x, prefix, line),
        Cert::N7 { x, u, v } => append_pair(b"N7", names, *x, u, v, line),
        Cert::N8 { relation, u, a, b } => append_relation(names, *relation, u, a, b, line),
        Cert::N3 { x, u, v } => append_pair(b"N3", names, *x, u, v, line),
    }
}

/// Appends a certificate N1.
fn append_accepted(names: &Names, u: &Word, line: &mut Vec<u8>) -> Result<(), Memory>
    ensures { OnOk result (line.new.items
        ≡ line.old.items ++ spaced (codes "N1" ∷ text_of_word names.now u.now ∷ [])) }
{
    append(b"N1", line)?;
    append_word(names, u, line)
}

/// Appends a certificate of this kind with a generator and a word.
fn append_one(
    kind: &[u8],
    names: &Names,
    x: Letter,
    u: &Word,
    line: &mut Vec<u8>,
) -> Result<(), Memory>
    ensures { OnOk result (line.new.items ≡ line.old.items
        ++ spaced (kind.now ∷ letter_name names.now x ∷ text_of_word names.now u.now ∷ [])) }
{
    append(kind, line)?;
    append_letter(names, x, line)?;
    append_word(names, u, line)
}

/// Appends a certificate of this kind with a generator and two words.
fn append_pair(
    kind: &[u8],
    names: &Names,
    x: Letter,
    u: &Word,
    v: &Word,
    line: &mut Vec<u8>,
) -> Result<(), Memory>
    ensures { OnOk result (line.new.items ≡ line.old.items
        ++ spaced (kind.now ∷ letter_name names.now x ∷ text_of_word names.now u.now
        ∷ text_of_word names.now v.now ∷ [])) }
{
    append_one(kind, names, x, u, line)?;
    append_word(names, v, line)
}

/// Appends a certificate N5.
fn append_images(
    names: &Names,
    x: Letter,
    u: &Word,
    v: &Word,
    other: &Word,
    line: &mut Vec<u8>,
) -> Result<(), Memory>
    ensures { OnOk result (line.new.items ≡ line.old.items
        ++ spaced (codes "N5" ∷ letter_name names.now x ∷ text_of_word names.now u.now
        ∷ text_of_word names.now v.now ∷ text_of_word names.now other.now ∷ [])) }
{
    append_pair(b"N5", names, x, u, v, line)?;
    append_word(names, other, line)
}

/// Appends a certificate N8.
fn append_relation(
    names: &Names,
    relation: usize,
    u: &Word,
    a: &Word,
    b: &Word,
    line: &mut Vec<u8>,
) -> Result<(), Memory>
    ensures { OnOk result (line.new.items ≡ line.old.items
        ++ spaced (codes "N8" ∷ decimal relation ∷ text_of_word names.now u.now
        ∷ text_of_word names.now a.now ∷ text_of_word names.now b.now ∷ [])) }
{
    append(b"N8", line)?;
    let mut buffer = Buffer::new();
    append(buffer.format(relation).as_bytes(), line)?;
    append_word(names, u, line)?;
    append_word(names, a, line)?;
    append_word(names, b, line)
}

/// Appends a blank and bytes.
fn append(bytes: &[u8], line: &mut Vec<u8>) -> Result<(), Memory>
    ensures { OnOk result (line.new.items ≡ line.old.items ++ 32 ∷ bytes.now) }
{
    line.push(b' ')?;
    line.extend_from_slice(bytes)?;
    Ok(())
}

/// Appends a blank and the name of a letter.
fn append_letter(names: &Names, x: Letter, line: &mut Vec<u8>) -> Result<(), Memory>
    ensures { OnOk result (line.new.items ≡ line.old.items ++ 32 ∷ letter_name names.now x) }
{
    let name = names.name_of(x).unwrap_or("");
    append(name.as_bytes(), line)
}

/// Appends a blank and a word.
fn append_word(names: &Names, word: &Word, line: &mut Vec<u8>) -> Result<(), Memory>
    ensures { OnOk result
        (line.new.items ≡ line.old.items ++ 32 ∷ text_of_word names.now word.now) }
{
    line.push(b' ')?;
    print_word(names, word, line)
}
