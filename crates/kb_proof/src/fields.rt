//! Lines cut into their fields.

ghost use Rattle.std.specs.Prelude.{◌≡◌, ◌≢◌, ℕ, List, [], ◌∷◌, IfSome, IfNone, IsTrue, IsFalse};
ghost use Rattle.kb_proof.specs.declared.log.Version.TheVariants.{One, Two};
ghost use Rattle.kb_proof.specs.Printed.{FieldTexts};
ghost use Rattle.kb_proof.specs.Reading.{AreFields, texts_in, parts, AreBehindSides, IsCutBehindColon};

use crate::cut::cut_at;
use crate::log::Version;

/// The fields of a line behind its number. In version 1 the derivations are `-`.
#[derive(Clone, Copy)]
pub(crate) struct Fields<'a> {
    pub(crate) origin: &'a [u8],
    pub(crate) left: &'a [u8],
    pub(crate) right: &'a [u8],
    pub(crate) first: &'a [u8],
    pub(crate) second: &'a [u8],
}

/// The fields that the bytes are, with a sign between the sides.
pub(crate) fn cut_fields<'a>(version: Version, sign: &[u8], bytes: &'a [u8]) -> Option<Fields<'a>>
    ensures fields { IfSome result (λ fields. AreFields version sign.now bytes.now (texts_in fields)) }
    ensures none { IfNone result
        ((texts : FieldTexts) → ¬ AreFields version sign.now bytes.now texts) }
{
    let (origin, rest) = cut_at(b' ', bytes)?;
    let (left, rest) = cut_at(b' ', rest)?;
    let (between, rest) = cut_at(b' ', rest)?;
    if between != sign {
        return None;
    }
    let (right, first, second) = cut_derivations(version, rest)?;
    Some(Fields {
        origin,
        left,
        right,
        first,
        second,
    })
}

/// The right side and the derivations that the bytes are.
fn cut_derivations(version: Version, bytes: &[u8]) -> Option<(&[u8], &[u8], &[u8])>
    ensures cut { IfSome result
        (λ cut. AreBehindSides version bytes.now cut.0.now cut.1.now cut.2.now) }
    ensures none { IfNone result
        ((right first second : List ℕ) → ¬ AreBehindSides version bytes.now right first second) }
{
    match version {
        Version::One => cut_no_derivations(bytes),
        Version::Two => cut_both_derivations(bytes),
    }
}

/// The right side that the bytes are.
fn cut_no_derivations(bytes: &[u8]) -> Option<(&[u8], &[u8], &[u8])>
    ensures cut { IfSome result
        (λ cut. AreBehindSides One bytes.now cut.0.now cut.1.now cut.2.now) }
    ensures none { IfNone result
        ((right first second : List ℕ) → ¬ AreBehindSides One bytes.now right first second) }
{
    if !is_one_field(bytes) {
        return None;
    }
    Some((bytes, b"-", b"-"))
}

/// The right side and the derivations, each behind a colon, that the bytes are.
fn cut_both_derivations(bytes: &[u8]) -> Option<(&[u8], &[u8], &[u8])>
    ensures cut { IfSome result
        (λ cut. AreBehindSides Two bytes.now cut.0.now cut.1.now cut.2.now) }
    ensures none { IfNone result
        ((right first second : List ℕ) → ¬ AreBehindSides Two bytes.now right first second) }
{
    let (right, rest) = cut_at(b' ', bytes)?;
    let (first, rest) = cut_behind_colon(rest)?;
    let (colon, second) = cut_at(b' ', rest)?;
    if colon != b":".as_slice() {
        return None;
    }
    if !is_one_field(second) {
        return None;
    }
    Some((right, first, second))
}

/// Whether the bytes have no blank.
fn is_one_field(bytes: &[u8]) -> bool
    ensures yes { IsTrue result → parts 32 bytes.now ≡ bytes.now ∷ [] }
    ensures no { IsFalse result → (part : List ℕ) → parts 32 bytes.now ≢ part ∷ [] }
{
    match cut_at(b' ', bytes) {
        Some((_field, _rest)) => false,
        None => true,
    }
}

/// What stands behind a colon and a blank, up to the next blank, and what stands behind that.
fn cut_behind_colon(bytes: &[u8]) -> Option<(&[u8], &[u8])>
    ensures cut { IfSome result (λ cut. IsCutBehindColon bytes.now cut.0.now cut.1.now) }
    ensures none { IfNone result
        ((first other : List ℕ) (others : List (List ℕ))
        → parts 32 bytes.now ≢ (58 ∷ []) ∷ first ∷ other ∷ others) }
{
    let (colon, rest) = cut_at(b' ', bytes)?;
    if colon != b":".as_slice() {
        return None;
    }
    cut_at(b' ', rest)
}
