//! From bytes to presentations.

ghost use Rattle.std.specs.Prelude.{IfOk, IfErr};
ghost use Rattle.kb_fields.specs.Fields.{fields_view};
ghost use Rattle.kb_word.specs.Presentations.{parts_of};
ghost use Rattle.kb_presfile.specs.Holds.{HoldsPresentation, PresentationOf};
ghost use Rattle.kb_presfile.specs.Faults.{IsMemoryOr, IsFirstOf, HasPresFault};

use crate::equations::read_equations;
use crate::error::PresError;
use crate::fields::check_once;
use crate::generators::read_names;
use crate::header::check_is_rws;
use crate::inverses::read_inverses;
use crate::order::{read_order, read_ordering};
use kb_record::{RecordField, parse};
use kb_word::{Equations, Presentation};
use std::alloc::Global;

/// Reads a presentation file.
///
/// The bytes are a text of a record with the fields that the head of the crate lists. A refusal names the first fault
/// that they have, in the order of refusals, and bytes that say a presentation have none
/// ([`a_presentation_file_has_no_fault`](crate::a_presentation_file_has_no_fault)): so bytes are refused exactly
/// where they have a fault, or memory runs out.
pub fn read(alloc: Global, bytes: &[u8]) -> Result<Presentation, PresError>
    ensures read { IfOk result (λ presentation. PresentationOf bytes.now (parts_of presentation)) }
    ensures fault { IfErr result (HasPresFault bytes.now) }
{
    let text = parse(alloc, bytes)?;
    presentation_of(alloc, text.fields.as_slice())
}

/// The presentation that fields say. Field by field, in the order in which a file is refused.
fn presentation_of<'a>(alloc: Global, fields: &[RecordField<'a>]) -> Result<Presentation, PresError>
    ensures read { IfOk result
        (λ presentation. HoldsPresentation (fields_view fields.now) (parts_of presentation)) }
    ensures fault { IfErr result (IsMemoryOr (IsFirstOf (fields_view fields.now))) }
{
    check_once(alloc, fields)?;
    check_is_rws(alloc, fields)?;
    let ordering = read_ordering(alloc, fields)?;
    let names = read_names(alloc, fields)?;
    let order = read_order(alloc, fields, ordering, &names)?;
    let inverses = read_inverses(alloc, fields, &names)?;
    let generators = Presentation::new(
        names.len() as u16,
        order,
        names,
        inverses,
        Equations::from_vec(Vec::new(alloc)),
    );
    let equations = read_equations(alloc, fields, &generators)?;
    Ok(Presentation::new(
        generators.n,
        generators.order,
        generators.names,
        generators.inv,
        equations,
    ))
}
