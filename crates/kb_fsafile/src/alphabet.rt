//! The field `alphabet`: letters of words, or symbols of padded pairs of words.

ghost use Rattle.std.specs.Prelude.{◌≡◌, codes, length, Some, IfOk, IfErr, OnOk};
ghost use Rattle.kb_record.specs.Tree.{record_value};
ghost use Rattle.kb_record.specs.Tree as tree;
ghost use Rattle.kb_fields.specs.Fields.{fields_view, value_of};
ghost use Rattle.kb_fields.specs.Generators.{AreGeneratorNames, HasNamesFault};
ghost use Rattle.kb_fsafile.specs.Holds.{HoldsRecord, HoldsString, HoldsCount, IsDense, IsPairSize, HoldsPairs, HoldsAlphabet};
ghost use Rattle.kb_fsafile.specs.Checks.{order_of, alphabet_field, arity_field, base_type_field, names_field, names_size_field, pairs_size_field, names_format_field};
ghost use Rattle.kb_fsafile.specs.Reading.{IsFirstFrom, IsFirstOfAlphabet, IsFirstOfBase, IsFirstOfNames, IsFirstOfPairs, HasLetters, ListsLetters};

use crate::error::{Field, FsaError};
use crate::fields::{
    needed_count, needed_number, needed_string, needed_value, optional_string, record_in,
};
use kb_fields::{NamesFault, names_of};
use kb_fsa::Alphabet;
use kb_record::RecordField;
use kb_word::Names;
use std::alloc::Global;

/// An alphabet with the names of its letters.
#[derive(Drop)]
pub struct Letters {
    /// The names of the letters.
    pub names: Names,
    /// What is read.
    pub alphabet: Alphabet,
    /// How many symbols the file gives it, the pair of two paddings perhaps among them.
    pub size: u32,
}

/// The alphabet of an automaton.
pub fn read_alphabet<'a>(alloc: Global, fields: &[RecordField<'a>]) -> Result<Letters, FsaError>
    ensures read { IfOk result
        (λ found. HasLetters (fields_view fields.now) found.names found.alphabet found.size) }
    ensures fault { IfErr result
        (IsFirstFrom (order_of alphabet_field) (fields_view fields.now)) }
{
    let value = needed_value(alloc, fields, Field::Alphabet)?;
    let letters = record_in(value.value(), Field::Alphabet)?.as_slice();
    match needed_string(alloc, letters, Field::Type)? {
        "identifiers" => read_words(alloc, letters),
        "product" => read_pairs(alloc, letters),
        _ => Err(FsaError::AlphabetOther),
    }
}

/// The alphabet of an automaton that reads words.
fn read_words<'a>(alloc: Global, letters: &[RecordField<'a>]) -> Result<Letters, FsaError>
    requires { HoldsString (fields_view letters.now) (codes "type") (codes "identifiers") }
    ensures read { IfOk result
        (λ found. HoldsAlphabet (fields_view letters.now) found.names found.alphabet found.size) }
    ensures fault { IfErr result
        (IsFirstOfAlphabet (order_of arity_field) (codes "identifiers") (fields_view letters.now)) }
{
    let names = read_names(alloc, letters)?;
    check_size(alloc, letters, &names)?;
    check_format(alloc, letters)?;
    let count = names.len();
    Ok(Letters {
        names,
        alphabet: Alphabet::Plain(count as u16),
        size: count as u32,
    })
}

/// The alphabet of an automaton that reads pairs of words.
fn read_pairs<'a>(alloc: Global, letters: &[RecordField<'a>]) -> Result<Letters, FsaError>
    requires { HoldsString (fields_view letters.now) (codes "type") (codes "product") }
    ensures read { IfOk result
        (λ found. HoldsAlphabet (fields_view letters.now) found.names found.alphabet found.size) }
    ensures fault { IfErr result
        (IsFirstOfAlphabet (order_of arity_field) (codes "product") (fields_view letters.now)) }
{
    check_arity(alloc, letters)?;
    let value = needed_value(alloc, letters, Field::Base)?;
    let base = record_in(value.value(), Field::Base)?.as_slice();
    read_pairs_over(alloc, letters, base)
}

/// The same of an alphabet with this base.
fn read_pairs_over<'a>(
    alloc: Global,
    letters: &[RecordField<'a>],
    base: &[RecordField<'a>],
) -> Result<Letters, FsaError>
    requires typed { HoldsString (fields_view letters.now) (codes "type") (codes "product") }
    requires arity { HoldsCount (fields_view letters.now) (codes "arity") 2 }
    requires based { HoldsRecord (fields_view letters.now) (codes "base") (fields_view base.now) }
    ensures read { IfOk result
        (λ found. HoldsAlphabet (fields_view letters.now) found.names found.alphabet found.size) }
    ensures fault { IfErr result
        (IsFirstOfAlphabet (order_of base_type_field) (codes "product") (fields_view letters.now)) }
{
    check_base(alloc, base)?;
    let names = read_names(alloc, base)?;
    check_size(alloc, base, &names)?;
    let size = read_pair_size(alloc, letters, &names)?;
    check_format(alloc, base)?;
    let count = names.len();
    Ok(Letters {
        names,
        alphabet: Alphabet::Pair(count as u16),
        size,
    })
}

/// Refuses another number of tracks than two.
fn check_arity<'a>(alloc: Global, letters: &[RecordField<'a>]) -> Result<(), FsaError>
    ensures ok { OnOk result (HoldsCount (fields_view letters.now) (codes "arity") 2) }
    ensures fault { IfErr result
        (IsFirstOfAlphabet (order_of arity_field) (codes "product") (fields_view letters.now)) }
{
    if needed_number(alloc, letters, Field::Arity)? != 2 {
        return Err(FsaError::AlphabetOther);
    }
    Ok(())
}

/// Refuses another type of the base of an alphabet of pairs than `"identifiers"`.
fn check_base<'a>(alloc: Global, base: &[RecordField<'a>]) -> Result<(), FsaError>
    ensures ok { OnOk result
        (HoldsString (fields_view base.now) (codes "type") (codes "identifiers")) }
    ensures fault { IfErr result (IsFirstOfBase (order_of base_type_field) (fields_view base.now)) }
{
    match needed_string(alloc, base, Field::Type)? {
        "identifiers" => Ok(()),
        _ => Err(FsaError::AlphabetOther),
    }
}

/// The names of the letters, of which none stands twice or is `IdWord` or `_`.
fn read_names<'a>(alloc: Global, letters: &[RecordField<'a>]) -> Result<Names, FsaError>
    ensures listed { IfOk result (ListsLetters (fields_view letters.now)) }
    ensures free { IfOk result AreGeneratorNames }
    ensures fault { IfErr result
        (IsFirstOfNames (order_of names_field) (fields_view letters.now)) }
{
    let value = needed_value(alloc, letters, Field::Names)?;
    match names_of(alloc, value.value()) {
        Ok(names) => Ok(names),
        Err(fault) => Err(refusal_of(fault)),
    }
}

/// The refusal for a fault of the letters' names.
fn refusal_of(fault: NamesFault) -> FsaError
    ensures { (letters : tree.Fields) (value : tree.Value)
        → value_of letters (codes "names") ≡ Some value → HasNamesFault value fault
        → IsFirstOfNames (order_of names_field) letters result }
{
    match fault {
        NamesFault::WrongKind => FsaError::WrongKind {
            field: Field::Names,
        },
        NamesFault::TooMany => FsaError::TooManyGenerators,
        NamesFault::Taken { name } => FsaError::NameTaken { name },
        NamesFault::Memory => FsaError::Memory,
    }
}

/// Refuses another size than the number of names.
fn check_size<'a>(alloc: Global, letters: &[RecordField<'a>], names: &Names) -> Result<(), FsaError>
    requires { ListsLetters (fields_view letters.now) names.now }
    ensures ok { OnOk result
        (HoldsCount (fields_view letters.now) (codes "size") (length names.now)) }
    ensures fault { IfErr result
        (IsFirstOfNames (order_of names_size_field) (fields_view letters.now)) }
{
    if needed_count(alloc, letters, Field::Size)? != names.len() as u64 {
        return Err(FsaError::AlphabetOther);
    }
    Ok(())
}

/// How many symbols pairs over the names have, with or without the pair of two paddings.
fn read_pair_size<'a>(
    alloc: Global,
    letters: &[RecordField<'a>],
    names: &Names,
) -> Result<u32, FsaError>
    requires { AreGeneratorNames names.now }
    ensures sized { IfOk result (λ size. HoldsCount (fields_view letters.now) (codes "size") size) }
    ensures right { IfOk result (λ size. IsPairSize (length names.now) size) }
    ensures fault { IfErr result
        (IsFirstOfPairs (order_of pairs_size_field) (fields_view letters.now) names.now) }
{
    let size = needed_count(alloc, letters, Field::Size)?;
    let columns = names.len() as u64 + 1;
    let pairs = columns * columns;
    if size != pairs && size != pairs - 1 {
        return Err(FsaError::AlphabetOther);
    }
    Ok(size as u32)
}

/// Refuses another format of the letters than `"dense"`, which stands where none is given.
fn check_format<'a>(alloc: Global, letters: &[RecordField<'a>]) -> Result<(), FsaError>
    ensures ok { OnOk result (IsDense (value_of (fields_view letters.now) (codes "format"))) }
    ensures fault { IfErr result
        (IsFirstOfNames (order_of names_format_field) (fields_view letters.now)) }
{
    match optional_string(alloc, letters, Field::Format)? {
        None | Some("dense") => Ok(()),
        Some(_) => Err(FsaError::AlphabetOther),
    }
}
