//! The line that a status prints.

ghost use Rattle.std.specs.Prelude.{◌≡◌, ◌++◌, ℕ, List, IsTrue, IfOk, OnOk, decimal};
ghost use Rattle.kb_io.specs.Outside.{outside};
ghost use Rattle.kb_io.specs.States.{ShelfState, SourceState, SinkGoesOn};
ghost use Rattle.kb_word.specs.Printed.{letter_name};
ghost use Rattle.kb_task.specs.Limits.{construction_name, limit_name, undecided_line, undecided_words_line};
ghost use Rattle.kb_task.specs.Lines.{LineIsWritten, LimitIsPrinted};
ghost use Rattle.kb_task.specs.Reasons.{reason_name, unjustified_line};
ghost use Rattle.kb_task.specs.Runs.{FaultIsCounted};
ghost use Rattle.kb_task.specs.Statuses.{IsFaultless};
ghost use Rattle.kb_task.specs.declared.status.Construction.TheVariants.{Images, Multiplier, Relation};
ghost use Rattle.kb_task.specs.declared.status.Limit.TheVariants.{States};

use crate::status::{Construction, Limit, Status, Which};
use itoa::Buffer;
use kb_io::{Failed, Sink, write_all};
use kb_proof::Why;
use kb_word::{Letter, Memory, Names, Word, print_word};
use std::alloc::Global;

/// Writes a line, and returns the status that it is about.
pub fn print_line<O: Sink>(line: &[u8], status: Status, out: &mut O) -> Status
    requires { IsFaultless status }
    ensures written { IsTrue (O.state out.old).told
        → LineIsWritten line.now status (O.state out.old) (O.state out.new) result }
    ensures fault { (shelf : ShelfState) (input : SourceState)
        → FaultIsCounted (outside shelf input (O.state out.old))
        (outside shelf input (O.state out.new)) result }
    ensures goes_on { SinkGoesOn (O.state out.old) (O.state out.new) }
{
    match write_all(out, line) {
        Ok(()) => status,
        Err(Failed) => Status::Fault(Which::Output),
    }
}

/// Writes the line of a limit that was reached, and returns its status.
pub fn print_limit<O: Sink>(alloc: Global, names: &Names, limit: Limit, out: &mut O) -> Status
    ensures written { IsTrue (O.state out.old).told
        → LimitIsPrinted names.now limit (O.state out.old) (O.state out.new) result }
    ensures fault { (shelf : ShelfState) (input : SourceState)
        → FaultIsCounted (outside shelf input (O.state out.old))
        (outside shelf input (O.state out.new)) result }
    ensures goes_on { SinkGoesOn (O.state out.old) (O.state out.new) }
{
    match undecided_line(alloc, names, &limit) {
        Ok(line) => print_line(&line, Status::Undecided(limit), out),
        Err(Memory) => Status::Memory,
    }
}

/// `undecided`, the limit, and a newline.
pub fn undecided_line(alloc: Global, names: &Names, limit: &Limit) -> Result<Vec<u8>, Memory>
    ensures { IfOk result (λ line. line.items ≡ undecided_line names.now limit.now) }
{
    let mut line = Vec::from_slice(alloc, b"undecided ")?;
    append_limit(names, limit, &mut line)?;
    line.push(b'\n')?;
    Ok(line)
}

/// `undecided`, the limit, the words and a newline.
pub fn undecided_words_line(
    alloc: Global,
    names: &Names,
    limit: &Limit,
    u: &Word,
    v: &Word,
) -> Result<Vec<u8>, Memory>
    ensures { IfOk result (λ line. line.items ≡ undecided_words_line names.now limit.now u.now v.now) }
{
    let mut line = Vec::from_slice(alloc, b"undecided ")?;
    append_limit(names, limit, &mut line)?;
    line.push(b' ')?;
    print_word(names, u, &mut line)?;
    line.push(b' ')?;
    print_word(names, v, &mut line)?;
    line.push(b'\n')?;
    Ok(line)
}

/// `no log`, the number of the line that doesn't follow, the reason, and a newline.
pub fn unjustified_line(alloc: Global, number: u64, why: Why) -> Result<Vec<u8>, Memory>
    ensures { IfOk result (λ line. line.items ≡ unjustified_line number why) }
{
    let mut line = Vec::from_slice(alloc, b"no log ")?;
    append_number(number, &mut line)?;
    append(b" ", &mut line)?;
    append_reason(why, &mut line)?;
    line.push(b'\n')?;
    Ok(line)
}

/// Appends what a reason is called.
fn append_reason(why: Why, line: &mut Vec<u8>) -> Result<(), Memory>
    ensures { OnOk result (line.new.items ≡ line.old.items ++ reason_name why) }
{
    match why {
        Why::Origin => append(b"Origin", line),
        Why::Step => append(b"Step", line),
        Why::Result => append(b"Result", line),
        Why::Order => append(b"Order", line),
        Why::Earlier => append(b"Earlier", line),
    }
}

/// Appends a number in decimal digits.
fn append_number(number: u64, line: &mut Vec<u8>) -> Result<(), Memory>
    ensures { OnOk result (line.new.items ≡ line.old.items ++ decimal number) }
{
    let mut buffer = Buffer::new();
    append(buffer.format(number).as_bytes(), line)
}

/// Appends what a limit is called.
fn append_limit(names: &Names, limit: &Limit, line: &mut Vec<u8>) -> Result<(), Memory>
    ensures { OnOk result (line.new.items ≡ line.old.items ++ limit_name names.now limit.now) }
{
    match limit {
        Limit::Rules => append(b"rules", line),
        Limit::Length => append(b"length", line),
        Limit::Diffs => append(b"diffs", line),
        Limit::States(which) => append_states(names, which, line),
    }
}

/// Appends `states` and what is constructed.
fn append_states(names: &Names, which: &Construction, line: &mut Vec<u8>) -> Result<(), Memory>
    ensures { OnOk result (line.new.items ≡ line.old.items ++ limit_name names.now (States which.now)) }
{
    append(b"states ", line)?;
    append_construction(names, which, line)
}

/// Appends what a construction is called.
fn append_construction(
    names: &Names,
    which: &Construction,
    line: &mut Vec<u8>,
) -> Result<(), Memory>
    ensures { OnOk result (line.new.items ≡ line.old.items ++ construction_name names.now which.now) }
{
    match which {
        Construction::And => append(b"and", line),
        Construction::Or => append(b"or", line),
        Construction::Not => append(b"not", line),
        Construction::Exists => append(b"exists", line),
        Construction::Concat => append(b"concat", line),
        Construction::Star => append(b"star", line),
        Construction::Reverse => append(b"reverse", line),
        Construction::Equal => append(b"equal", line),
        Construction::Acceptor => append(b"acceptor", line),
        Construction::Multiplier(generator) => append_multiplier(names, *generator, line),
        Construction::Images(generator) => append_images(names, *generator, line),
        Construction::Relation(number) => append_relation(*number, line),
        Construction::Minred => append(b"minred", line),
        Construction::Minkb => append(b"minkb", line),
    }
}

/// Appends what the multiplier of a generator is called.
fn append_multiplier(names: &Names, generator: Letter, line: &mut Vec<u8>) -> Result<(), Memory>
    ensures { OnOk result
        (line.new.items ≡ line.old.items ++ construction_name names.now (Multiplier generator)) }
{
    append(b"multiplier ", line)?;
    append_letter(names, generator, line)
}

/// Appends what the images by a generator are called.
fn append_images(names: &Names, generator: Letter, line: &mut Vec<u8>) -> Result<(), Memory>
    ensures { OnOk result
        (line.new.items ≡ line.old.items ++ construction_name names.now (Images generator)) }
{
    append(b"axiom N4 ", line)?;
    append_letter(names, generator, line)
}

/// Appends what the composites of a relation are called.
fn append_relation(number: usize, line: &mut Vec<u8>) -> Result<(), Memory>
    ensures { (names : List (List ℕ)) → OnOk result
        (line.new.items ≡ line.old.items ++ construction_name names (Relation number)) }
{
    append(b"axiom N8 ", line)?;
    let mut buffer = Buffer::new();
    append(buffer.format(number).as_bytes(), line)
}

/// Appends the name of a generator.
fn append_letter(names: &Names, generator: Letter, line: &mut Vec<u8>) -> Result<(), Memory>
    ensures { OnOk result (line.new.items ≡ line.old.items ++ letter_name names.now generator) }
{
    let name = names.name_of(generator).unwrap_or("");
    append(name.as_bytes(), line)
}

/// Appends bytes.
fn append(bytes: &[u8], line: &mut Vec<u8>) -> Result<(), Memory>
    ensures { OnOk result (line.new.items ≡ line.old.items ++ bytes.now) }
{
    line.extend_from_slice(bytes)?;
    Ok(())
}
