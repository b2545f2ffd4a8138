//! Accepted words, each printed on a line.

ghost use Rattle.std.specs.Prelude.{◌≡◌, ◌<◌, ℕ, List, [], IsTrue, false, IfOk, IfErr, OnOk, OnErr};
ghost use Rattle.kb_io.specs.Bytes.{AppendsPrefix};
ghost use Rattle.kb_io.specs.Outside.{outside};
ghost use Rattle.kb_io.specs.States.{ShelfState, SourceState, SinkGoesOn};
ghost use Rattle.kb_fsarat.specs.Enumeration.{Enumeration};
ghost use Rattle.kb_task.specs.Automata.{HasKind};
ghost use Rattle.kb_task.specs.Runs.{FaultIsCounted};
ghost use Rattle.kb_task.specs.declared.loading.automata.Kind.TheVariants as kinds;
ghost use Rattle.kb_listing.specs.Asked.{WordsArePrinted};
ghost use Rattle.kb_listing.specs.Listed.{Listed, HasLetters, Steps, EnumerationIsPrinted};

use kb_fsa::Fsa;
use kb_fsarat::Enumerate;
use kb_io::{Failed, Sink, write_all};
use kb_task::{Status, Which};
use kb_word::{Memory, Names, print_word, rank_falls_along_shortlex};
use std::alloc::Global;

/// So many bytes are gathered before they are written.
const PIECE: usize = 65_536;

/// Prints the accepted words of length `min` to `max`, each on a line, in the shortlex order.
pub fn list_words<O: Sink>(
    alloc: Global,
    names: &Names,
    fsa: &Fsa,
    min: u16,
    max: u16,
    out: &mut O,
) -> Status
    requires { HasKind kinds.Words fsa.now.alphabet }
    ensures printed { IsTrue (O.state out.old).told
        → WordsArePrinted names.now fsa.now min max
        (O.state out.old).written (O.state out.new).written result }
    ensures fault { (shelf : ShelfState) (input : SourceState) → FaultIsCounted
        (outside shelf input (O.state out.old)) (outside shelf input (O.state out.new)) result }
    ensures goes_on { SinkGoesOn (O.state out.old) (O.state out.new) }
{
    let mut words = Enumerate::new(fsa, min, max);
    let mut pending = Vec::new(alloc);
    loop {
        match list_next(alloc, names, &mut words, &mut pending, out) {
            Ok(true) => {}
            Ok(false) => return Status::Yes,
            Err(status) => return status,
        }
    }
}

/// Lists the next word, and returns whether there was one. What is pending is written where it is
/// long enough, or where no word was left.
fn list_next<O: Sink>(
    alloc: Global,
    names: &Names,
    words: &mut Enumerate<'_>,
    pending: &mut Vec<u8>,
    out: &mut O,
) -> Result<bool, Status>
    requires { HasLetters words.old }
    // The lines of the words that were given are written or pending.
    ensures listed { (before : List ℕ) → IsTrue (O.state out.old).told
        → Listed names.now words.old before (O.state out.old).written pending.old.items
        → IfOk result (λ more. Listed names.now words.new before
        (O.state out.new).written pending.new.items) }
    ensures sent { IfOk result (λ more. more ≡ false → pending.new.items ≡ []) }
    ensures steps { IfOk result (Steps words.old words.new) }
    // Where it stops, a front of the lines was written.
    ensures stops { (before : List ℕ) → IsTrue (O.state out.old).told
        → Listed names.now words.old before (O.state out.old).written pending.old.items
        → IfErr result (EnumerationIsPrinted names.now words.old before (O.state out.new).written) }
    ensures fault { IfErr result (λ status. (shelf : ShelfState) (input : SourceState)
        → FaultIsCounted
        (outside shelf input (O.state out.old)) (outside shelf input (O.state out.new)) status) }
    ensures goes_on { SinkGoesOn (O.state out.old) (O.state out.new) }
{
    match add_next(alloc, names, words, pending) {
        Ok(true) if pending.len() < PIECE => Ok(true),
        Ok(more) => match send(pending, out) {
            Ok(()) => Ok(more),
            Err(Failed) => Err(Status::Fault(Which::Output)),
        },
        Err(Memory) => Err(Status::Memory),
    }
}

/// Writes what is pending.
fn send<O: Sink>(pending: &mut Vec<u8>, out: &mut O) -> Result<(), Failed>
    ensures listed { (names : List (List ℕ)) (enumeration : Enumeration) (before : List ℕ)
        → IsTrue (O.state out.old).told
        → Listed names enumeration before (O.state out.old).written pending.old.items
        → OnOk result (Listed names enumeration before
        (O.state out.new).written pending.new.items) }
    ensures sent { OnOk result (pending.new.items ≡ []) }
    ensures stops { IsTrue (O.state out.old).told → OnErr result
        (AppendsPrefix (O.state out.old).written (O.state out.new).written pending.old.items) }
    ensures failed { OnErr result ((O.state out.old).faults < (O.state out.new).faults) }
    ensures goes_on { SinkGoesOn (O.state out.old) (O.state out.new) }
{
    write_all(out, pending)?;
    pending.clear();
    Ok(())
}

/// Adds the line of the next word to what is pending, and returns whether there was one.
fn add_next(
    alloc: Global,
    names: &Names,
    words: &mut Enumerate<'_>,
    pending: &mut Vec<u8>,
) -> Result<bool, Memory>
    requires { HasLetters words.old }
    ensures listed { (before written : List ℕ)
        → Listed names.now words.old before written pending.old.items
        → IfOk result (λ more. Listed names.now words.new before written pending.new.items) }
    ensures steps { IfOk result (Steps words.old words.new) }
{
    rank_falls_along_shortlex();
    let Some(word) = words.next_word(alloc)? else {
        return Ok(false);
    };
    print_word(names, &word, pending)?;
    pending.push(b'\n')?;
    Ok(true)
}
