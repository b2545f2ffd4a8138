//! `fsacount A`: how many words or pairs of words an automaton accepts.

ghost use Rattle.std.specs.Prelude.{◌≡◌, ◌++◌, ◌∷◌, [], IsTrue, IfOk, OnOk, codes};
ghost use Rattle.kb_io.specs.Bytes.{newline};
ghost use Rattle.kb_io.specs.Outside.{outside};
ghost use Rattle.kb_io.specs.States.{ShelfState, SourceState, SinkGoesOn};
ghost use Rattle.kb_count.specs.Decimal.{decimal_text};
ghost use Rattle.kb_task.specs.Runs.{FaultIsCounted};
ghost use Rattle.kb_cmd_automata.specs.Counted.{CountIsPrinted, IsCountText, IsNumberLine, AreNumberLines, lines_of_numbers};

use kb_count::{Count, Natural, count_accepted, counts_by_length};
use kb_fsa::Fsa;
use kb_io::{Shelf, Sink, Source};
use kb_task::{Kind, Status, Task, load_automaton, print_line};
use kb_word::{Memory, OwnedText};
use std::alloc::Global;

/// Prints how many words, or pairs of words, the automaton in a file accepts.
#[derive(Drop)]
pub struct CountAccepted {
    /// The name of the file.
    pub file: OwnedText,
    /// The greatest length, where they are counted length by length.
    pub lengths: Option<u16>,
}

impl Task for CountAccepted {
    ghost use Rattle.kb_cmd_automata.specs.Counted.{count_promise};
    ghost use Rattle.kb_cmd_automata.specs.CountedLaws.{count_lawful};

    ghost promise = { count_promise };

    ghost lawful = { count_lawful };
}

impl CountAccepted {
    ghost use Rattle.kb_task.specs.Promises.{Keeps};
    ghost use Rattle.kb_cmd_automata.specs.Counted.{count_promise};

    /// Runs the command.
    pub fn run<F: Shelf, I: Source, O: Sink>(
        self,
        alloc: Global,
        shelf: &mut F,
        input: &mut I,
        out: &mut O,
    ) -> Status
        ensures { Keeps (count_promise self)
            (outside (F.state shelf.old) (I.state input.old) (O.state out.old))
            (outside (F.state shelf.new) (I.state input.new) (O.state out.new)) result }
    {
        let _ = input;
        let lengths = self.lengths;
        match load_automaton(alloc, Kind::WordsOrPairs, self.file, shelf) {
            Ok(given) => print_count(alloc, &given.fsa, lengths, out),
            Err(status) => status,
        }
    }
}

/// Prints how many texts the automaton accepts: in all, or length by length.
fn print_count<O: Sink>(alloc: Global, fsa: &Fsa, lengths: Option<u16>, out: &mut O) -> Status
    ensures printed { IsTrue (O.state out.old).told → CountIsPrinted fsa.now lengths
        (O.state out.old).written (O.state out.new).written result }
    ensures fault { (shelf : ShelfState) (input : SourceState) → FaultIsCounted
        (outside shelf input (O.state out.old)) (outside shelf input (O.state out.new)) result }
    ensures goes_on { SinkGoesOn (O.state out.old) (O.state out.new) }
{
    match count_text(alloc, fsa, lengths) {
        Ok(text) => print_line(&text, Status::Yes, out),
        Err(Memory) => Status::Memory,
    }
}

/// What is printed of the automaton.
fn count_text(alloc: Global, fsa: &Fsa, lengths: Option<u16>) -> Result<Vec<u8>, Memory>
    ensures { IfOk result (λ text. IsCountText fsa.now lengths text.items) }
{
    match lengths {
        Some(most) => number_lines(alloc, fsa, most),
        None => number_line(alloc, fsa),
    }
}

/// The line with the number of the texts that the automaton accepts.
fn number_line(alloc: Global, fsa: &Fsa) -> Result<Vec<u8>, Memory>
    ensures { IfOk result (λ line. IsNumberLine fsa.now line.items) }
{
    match count_accepted(alloc, fsa)? {
        Count::Finite(number) => line_of(alloc, &number),
        Count::Infinite => infinite_line(alloc),
    }
}

/// `infinite` and a newline.
fn infinite_line(alloc: Global) -> Result<Vec<u8>, Memory>
    ensures { IfOk result (λ line. line.items ≡ codes "infinite\n") }
{
    Ok(Vec::from_slice(alloc, b"infinite\n")?)
}

/// The number and a newline.
fn line_of(alloc: Global, number: &Natural) -> Result<Vec<u8>, Memory>
    ensures { IfOk result (λ line. line.items ≡ decimal_text number.now ++ newline ∷ []) }
{
    let mut line = Vec::new(alloc);
    add_line(number, &mut line)?;
    Ok(line)
}

/// The lines with the numbers of the texts of each length that the automaton accepts.
fn number_lines(alloc: Global, fsa: &Fsa, most: u16) -> Result<Vec<u8>, Memory>
    ensures { IfOk result (λ lines. AreNumberLines fsa.now most lines.items) }
{
    let counts = counts_by_length(alloc, fsa, most)?;
    lines_of(alloc, counts.as_slice())
}

/// The numbers, each on a line.
fn lines_of(alloc: Global, numbers: &[Natural]) -> Result<Vec<u8>, Memory>
    ensures { IfOk result (λ lines. lines.items ≡ lines_of_numbers numbers.now) }
{
    let mut lines = Vec::new(alloc);
    for number in numbers {
        add_line(number, &mut lines)?;
    }
    Ok(lines)
}

/// Adds a line with the number.
fn add_line(number: &Natural, lines: &mut Vec<u8>) -> Result<(), Memory>
    ensures { OnOk result
        (lines.new.items ≡ lines.old.items ++ decimal_text number.now ++ newline ∷ []) }
{
    number.append_to(lines)?;
    lines.push(b'\n')?;
    Ok(())
}
