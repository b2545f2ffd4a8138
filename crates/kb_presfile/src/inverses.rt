//! The field `inverses`: the generators' inverses.

ghost use Rattle.std.specs.Prelude.{◌≡◌, ◌≢◌, ◌⊎◌, ◌≤◌, ◌<◌, ◌++◌, ℕ, List, map, length, replicate, codes, IsTrue, IsSome, IsNone, IfOk, IfErr, IfSome, IfNone, Option, Some, None};
ghost use Rattle.std.specs.Option.{option_copied};
ghost use Rattle.kb_word.specs.Relations.{inverse_letter};
ghost use Rattle.kb_record.specs.Meaning.{letter_from};
ghost use Rattle.kb_fields.specs.Fields.{fields_view, value_of};
ghost use Rattle.kb_presfile.specs.Holds.{HasNames, HasInverses, place_at, HoldsPlaces, StandFor, AreMutual, GivesInverses};
ghost use Rattle.kb_fields.specs.FirstFaults.{IsFirstFault};
ghost use Rattle.kb_presfile.specs.Checks.{is_of_kind};
ghost use Rattle.kb_presfile.specs.Faults.{IsMemoryOr, PlaceIsUnknown, PlacesHaveFault, IsOneSided, IsFirstFrom};
ghost use Rattle.kb_presfile.specs.declared.error.Field.TheVariants as kinds;

use crate::error::{Field, PresError};
use crate::values::places_listed;
use kb_fields::field_named;
use kb_record::RecordField;
use kb_word::{Inverses, Letter, Names, OwnedText};
use std::alloc::Global;

/// The generators' inverses.
pub fn read_inverses<'a>(
    alloc: Global,
    fields: &[RecordField<'a>],
    names: &Names,
) -> Result<Inverses, PresError>
    requires { HasNames (fields_view fields.now) names.now }
    ensures read { IfOk result (HasInverses (fields_view fields.now) names.now) }
    ensures fault { IfErr result
        (IsFirstFrom (fields_view fields.now) (is_of_kind kinds.Inverses)) }
{
    let places = read_places(alloc, fields, names)?;
    inverses_at(alloc, places.as_slice(), names)
}

/// The names at the places for inverses, at most one for each generator; none where the field is absent.
fn read_places<'a>(
    alloc: Global,
    fields: &[RecordField<'a>],
    names: &Names,
) -> Result<Vec<Option<&'a str>>, PresError>
    requires { HasNames (fields_view fields.now) names.now }
    ensures placed { IfOk result
        (λ places. (more : ℕ) × HoldsPlaces (value_of (fields_view fields.now) (codes "inverses"))
        (map option_copied places.items ++ replicate more None)) }
    ensures few { IfOk result (λ places. length places.items ≤ length names.now) }
    ensures fault { IfErr result
        (IsFirstFrom (fields_view fields.now) (is_of_kind kinds.Inverses)) }
{
    let Some(found) = field_named(alloc, fields, "inverses")? else {
        return Ok(Vec::new(alloc));
    };
    match places_listed(alloc, found.value(), names.len())? {
        Some(places) => Ok(places),
        None => Err(PresError::WrongKind {
            field: Field::Inverses,
        }),
    }
}

/// The inverses that names at places give. All names are looked up before it is seen that inverses are mutual.
fn inverses_at(alloc: Global, places: &[Option<&str>], names: &Names) -> Result<Inverses, PresError>
    requires { (k : ℕ) → length names.now ≤ k → place_at (map option_copied places.now) k ≡ None }
    ensures read { IfOk result (GivesInverses names.now (map option_copied places.now)) }
    ensures fault { IfErr result
        (IsMemoryOr (PlacesHaveFault names.now (map option_copied places.now))) }
{
    let inverses = Inverses::from_vec(letters_at(alloc, places, names)?);
    match first_one_sided(&inverses, names) {
        Some(name) => Err(PresError::InverseNotMutual {
            name: OwnedText::from_str(alloc, name)?,
        }),
        None => Ok(inverses),
    }
}

/// The letters of the names at the generators' places.
fn letters_at(
    alloc: Global,
    places: &[Option<&str>],
    names: &Names,
) -> Result<Vec<Option<Letter>>, PresError>
    ensures read { IfOk result
        (λ letters. StandFor names.now (map option_copied places.now) letters.items) }
    ensures fault { IfErr result
        (IsMemoryOr (IsFirstFault ◌<◌ (PlaceIsUnknown names.now (map option_copied places.now)))) }
{
    let mut letters = Vec::with_capacity(alloc, names.len())?;
    for place in 0..names.len() {
        letters.push(letter_at(alloc, places, place, names)?)?;
    }
    Ok(letters)
}

/// The letter of the name at a place, and `None` where it is empty or missing.
fn letter_at(
    alloc: Global,
    places: &[Option<&str>],
    place: usize,
    names: &Names,
) -> Result<Option<Letter>, PresError>
    ensures empty { place_at (map option_copied places.now) place ≡ None → IfOk result IsNone }
    ensures some { (name : List ℕ) → place_at (map option_copied places.now) place ≡ Some name
        → IfOk result (λ letter. IsSome letter × (letter_from 1 names.now name ≡ letter)) }
    ensures fault { IfErr result
        (IsMemoryOr (PlaceIsUnknown names.now (map option_copied places.now) place)) }
{
    let Some(name) = name_at(places, place) else {
        return Ok(None);
    };
    match names.number_of(name) {
        Some(letter) => Ok(Some(letter)),
        None => Err(PresError::UnknownGenerator {
            name: OwnedText::from_str(alloc, name)?,
        }),
    }
}

/// The name at a place; places that are missing are empty.
fn name_at<'a>(places: &[Option<&'a str>], place: usize) -> Option<&'a str>
    ensures { option_copied result ≡ place_at (map option_copied places.now) place }
{
    *places.get(place)?
}

/// The name of the first generator whose inverse hasn't it as its inverse.
fn first_one_sided<'r>(inverses: &Inverses, names: &'r Names) -> Option<&'r str>
    requires { length inverses.now ≡ length names.now }
    ensures found { IfSome result
        (λ name. IsFirstFault ◌<◌ (IsOneSided names.now inverses.now) name.now) }
    ensures none { IfNone result (AreMutual inverses.now) }
{
    for place in 0..names.len() {
        if is_one_sided(inverses, Letter::new(place as u16 + 1)) {
            return names.get(place);
        }
    }
    None
}

/// Whether the letter's inverse hasn't it as its inverse.
fn is_one_sided(inverses: &Inverses, letter: Letter) -> bool
    ensures yes { IsTrue result
        → (y : ℕ) × (inverse_letter inverses.now letter ≡ Some y)
        × (inverse_letter inverses.now y ≢ Some letter) }
    ensures no { IsTrue result
        ⊎ ((y : ℕ) → inverse_letter inverses.now letter ≡ Some y
        → inverse_letter inverses.now y ≡ Some letter) }
{
    match inverses.get(letter) {
        Some(inverse) => inverses.get(inverse) != Some(letter),
        None => false,
    }
}
