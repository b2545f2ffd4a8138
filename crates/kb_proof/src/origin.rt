//! Origins as they are printed.

ghost use Rattle.kb_proof.specs.Printable.{FitsOrigin};
ghost use Rattle.kb_proof.specs.Printed.{text_of_origin};
ghost use Rattle.kb_proof.specs.Reading.{Reads, ReadsOverlap};

use crate::cut::cut_at;
use crate::numbers::read_u32;
use kb_machine::Origin;

/// The origin whose text the bytes are.
pub(crate) fn read_origin(bytes: &[u8]) -> Option<Origin>
    ensures { Reads text_of_origin FitsOrigin bytes.now result }
{
    match bytes {
        [b'R', number @ ..] => read_u32(number).map(Origin::Relation),
        [b'M', numbers @ ..] => read_overlap(numbers),
        [b'K', number @ ..] => read_u32(number).map(Origin::Killed),
        [b'S', number @ ..] => read_u32(number).map(Origin::Shortened),
        _ => None,
    }
}

/// The overlap whose numbers the bytes are, with commas between them.
fn read_overlap(bytes: &[u8]) -> Option<Origin>
    ensures { ReadsOverlap bytes.now result }
{
    let (first, rest) = cut_at(b',', bytes)?;
    let (second, place) = cut_at(b',', rest)?;
    Some(Origin::Overlap {
        first: read_u32(first)?,
        second: read_u32(second)?,
        place: read_u32(place)?,
    })
}
