//! Whether the relations follow from the lines of a log.

ghost use Rattle.std.specs.Prelude.{IfOk};
ghost use Rattle.kb_word.specs.Presentations.{parts_of};
ghost use Rattle.kb_cmd_words.specs.Confluence.{relations};
ghost use Rattle.kb_cmd_words.specs.LogLines.{RelationSays, RelationsSay};

use crate::objection::Objection;
use kb_index::Index;
use kb_rules::Reducer;
use kb_word::{Memory, Presentation, Word};
use std::alloc::Global;

/// Whether both sides of each relation of the presentation have one normal form, or the first one where they haven't.
pub(crate) fn relation_apart(
    alloc: Global,
    presentation: &Presentation,
    reducer: &Index,
) -> Result<Option<Objection>, Memory>
    ensures { IfOk result
        (RelationsSay reducer.now.rules (relations (parts_of presentation.now))) }
{
    let relations = presentation.relations(alloc)?;
    first_apart(alloc, relations.as_slice(), reducer)
}

/// The first of the relations whose sides have different normal forms.
fn first_apart(
    alloc: Global,
    relations: &[(Word, Word)],
    reducer: &Index,
) -> Result<Option<Objection>, Memory>
    ensures { IfOk result (RelationsSay reducer.now.rules relations.now) }
{
    for (place, relation) in relations.iter().enumerate() {
        let number = place as u64 + 1;
        if let Some(objection) = sides_apart(alloc, number, relation, reducer)? {
            return Ok(Some(objection));
        }
    }
    Ok(None)
}

/// Whether both sides of the relation of this number have one normal form, or both where they haven't.
fn sides_apart(
    alloc: Global,
    number: u64,
    relation: &(Word, Word),
    reducer: &Index,
) -> Result<Option<Objection>, Memory>
    ensures { IfOk result (RelationSays reducer.now.rules number relation.now) }
{
    let u = reducer.nf(alloc, &relation.0)?;
    let v = reducer.nf(alloc, &relation.1)?;
    if u == v {
        return Ok(None);
    }
    Ok(Some(Objection::RelationApart {
        relation: number,
        u,
        v,
    }))
}
