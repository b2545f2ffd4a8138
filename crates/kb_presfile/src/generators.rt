//! The field `generatorOrder`: the generators' names.

ghost use Rattle.std.specs.Prelude.{IfOk, IfErr};
ghost use Rattle.kb_fields.specs.Fields.{fields_view};
ghost use Rattle.kb_fields.specs.Generators.{AreGeneratorNames};
ghost use Rattle.kb_presfile.specs.Holds.{HasNames};
ghost use Rattle.kb_presfile.specs.Checks.{is_there};
ghost use Rattle.kb_presfile.specs.Faults.{IsFirstFrom};
ghost use Rattle.kb_presfile.specs.declared.error.Field.TheVariants as kinds;

use crate::error::{Field, PresError};
use crate::fields::needed;
use kb_fields::names_of;
use kb_record::RecordField;
use kb_word::Names;
use std::alloc::Global;

/// The generators' names, of which none stands twice or is `IdWord` or `_`.
pub fn read_names<'a>(alloc: Global, fields: &[RecordField<'a>]) -> Result<Names, PresError>
    ensures named { IfOk result (HasNames (fields_view fields.now)) }
    ensures names { IfOk result AreGeneratorNames }
    ensures fault { IfErr result
        (IsFirstFrom (fields_view fields.now) (is_there kinds.GeneratorOrder)) }
{
    let found = needed(alloc, fields, Field::GeneratorOrder)?;
    Ok(names_of(alloc, found.value())?)
}
