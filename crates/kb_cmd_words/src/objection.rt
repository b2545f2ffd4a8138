//! What stands against answers by the lines of a log.

ghost use Rattle.std.specs.Prelude.{◌≡◌, ◌++◌, IfOk, OnOk, decimal};
ghost use Rattle.kb_io.specs.Outside.{outside};
ghost use Rattle.kb_io.specs.States.{ShelfState, SourceState};
ghost use Rattle.kb_word.specs.Presentations.{parts_of};
ghost use Rattle.kb_proof.specs.declared.log.Log.{Log as SomeLog};
ghost use Rattle.kb_task.specs.Runs.{IsRun};
ghost use Rattle.kb_task.specs.Statuses.{IsFaultless};
ghost use Rattle.kb_cmd_words.specs.ByLog.{LogMeans};
ghost use Rattle.kb_cmd_words.specs.ByRelations.{StoresNothing};
ghost use Rattle.kb_cmd_words.specs.LogLines.{Objects, apart_line, objection_line, objection_status};

use crate::run::line_of_no;
use itoa::Buffer;
use kb_io::Sink;
use kb_proof::Why;
use kb_task::{Cert, Status, print_line, unjustified_line};
use kb_word::{Memory, Names, Presentation, Word, print_word};
use std::alloc::Global;

/// What stands against answers by the lines of a log.
#[derive(Drop)]
pub enum Objection {
    /// The log isn't justified: the line of this number is the first for which there is a reason, and this is its
    /// first.
    Unjustified { line: u64, why: Why },
    /// By the lines the sides of the relation of this number, and of none before it, have different normal forms: the
    /// left side has `u`, and the right side `v`.
    RelationApart { relation: u64, u: Word, v: Word },
    /// The lines aren't confluent: `u` and `v` are congruent, different and irreducible.
    NotConfluent { u: Word, v: Word },
}

/// Prints the line that shows the objection.
pub(crate) fn print_objection<O: Sink>(
    alloc: Global,
    presentation: &Presentation,
    objection: Objection,
    out: &mut O,
) -> Status
    ensures { (log : SomeLog) (shelf : ShelfState) (input : SourceState)
        → Objects (parts_of presentation.now) log objection
        → IsRun (LogMeans (parts_of presentation.now) log) StoresNothing
        (outside shelf input (O.state out.old)) (outside shelf input (O.state out.new)) result }
{
    match line_of(alloc, &presentation.names, &objection) {
        Ok(line) => print_line(&line, status_of(objection), out),
        Err(Memory) => Status::Memory,
    }
}

/// The status of a run that the objection ends.
fn status_of(objection: Objection) -> Status
    ensures is { result ≡ objection_status objection }
    ensures faultless { IsFaultless result }
{
    match objection {
        Objection::Unjustified { line, why } => Status::No(Cert::NotJustified { line, why }),
        Objection::RelationApart { relation, u, v } => {
            Status::No(Cert::RelationApart { relation, u, v })
        }
        Objection::NotConfluent { u, v } => Status::No(Cert::NotConfluent { u, v }),
    }
}

/// The line that shows the objection.
fn line_of(alloc: Global, names: &Names, objection: &Objection) -> Result<Vec<u8>, Memory>
    ensures { IfOk result (λ line. line.items ≡ objection_line names.now objection.now) }
{
    match objection {
        Objection::Unjustified { line, why } => unjustified_line(alloc, *line, *why),
        Objection::RelationApart { relation, u, v } => apart_line(alloc, names, *relation, u, v),
        Objection::NotConfluent { u, v } => line_of_no(alloc, names, u, v),
    }
}

/// `no relation`, the number of the relation, both normal forms, and a newline.
fn apart_line(
    alloc: Global,
    names: &Names,
    relation: u64,
    u: &Word,
    v: &Word,
) -> Result<Vec<u8>, Memory>
    ensures { IfOk result (λ line. line.items ≡ apart_line names.now relation u.now v.now) }
{
    let mut line = Vec::from_slice(alloc, b"no relation ")?;
    append_number(relation, &mut line)?;
    line.push(b' ')?;
    print_word(names, u, &mut line)?;
    line.push(b' ')?;
    print_word(names, v, &mut line)?;
    line.push(b'\n')?;
    Ok(line)
}

/// Appends a number in decimal digits.
fn append_number(number: u64, line: &mut Vec<u8>) -> Result<(), Memory>
    ensures { OnOk result (line.new.items ≡ line.old.items ++ decimal number) }
{
    let mut buffer = Buffer::new();
    line.extend_from_slice(buffer.format(number).as_bytes())?;
    Ok(())
}
