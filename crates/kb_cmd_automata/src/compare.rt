//! `fsalequal A B`: whether two automata have one language.

ghost use Rattle.std.specs.Prelude.{◌≡◌, ◌≤◌, IsTrue, IfOk, length};
ghost use Rattle.kb_io.specs.Outside.{outside};
ghost use Rattle.kb_io.specs.States.{ShelfState, SourceState, SinkGoesOn};
ghost use Rattle.kb_fsa.specs.Language.{IsTextOf, generators};
ghost use Rattle.kb_task.specs.Runs.{FaultIsCounted};
ghost use Rattle.kb_cmd_automata.specs.Compare.{ComparisonIsPrinted, DifferenceIsPrinted, IsDifferenceLine};

use kb_fsa::{Alphabet, Fsa, Symbols, pair_of, word_of};
use kb_fsabool::{Det, Equality, equal};
use kb_io::{Shelf, Sink, Source};
use kb_task::{
    Cert, Construction, Kind, Limit, Loaded, Status, Task, load_automaton, load_second,
    print_limit, print_line,
};
use kb_word::{Memory, Names, OwnedText, print_word};
use std::alloc::Global;

/// Compares the languages of the automata in two files.
#[derive(Drop)]
pub struct Compare {
    /// The name of the first file.
    pub one: OwnedText,
    /// The name of the second file.
    pub two: OwnedText,
    /// The most states that the construction may have, 1 to 4,000,000.
    pub max_states: u32,
}

impl Task for Compare {
    ghost use Rattle.kb_cmd_automata.specs.Compare.{compare_promise};
    ghost use Rattle.kb_cmd_automata.specs.CompareLaws.{compare_lawful};

    ghost promise = { compare_promise };

    ghost lawful = { compare_lawful };
}

impl Compare {
    ghost use Rattle.kb_task.specs.Promises.{Keeps};
    ghost use Rattle.kb_cmd_automata.specs.Compare.{compare_promise};

    /// Runs the command.
    pub fn run<F: Shelf, I: Source, O: Sink>(
        self,
        alloc: Global,
        shelf: &mut F,
        input: &mut I,
        out: &mut O,
    ) -> Status
        ensures { Keeps (compare_promise self)
            (outside (F.state shelf.old) (I.state input.old) (O.state out.old))
            (outside (F.state shelf.new) (I.state input.new) (O.state out.new)) result }
    {
        let _ = input;
        let first = match load_automaton(alloc, Kind::WordsOrPairs, self.one, shelf) {
            Ok(first) => first,
            Err(status) => return status,
        };
        match load_second(alloc, Kind::WordsOrPairs, &first, self.two, shelf) {
            Ok(second) => print_comparison(alloc, &first, &second, self.max_states, out),
            Err(status) => status,
        }
    }
}

/// Prints the line of the comparison.
fn print_comparison<O: Sink>(
    alloc: Global,
    first: &Loaded,
    second: &Fsa,
    max_states: u32,
    out: &mut O,
) -> Status
    requires alphabets { second.now.alphabet ≡ first.now.fsa.alphabet }
    requires letters { length first.now.names ≡ generators first.now.fsa.alphabet }
    ensures printed { IsTrue (O.state out.old).told
        → ComparisonIsPrinted first.now.names first.now.fsa second.now max_states
        (O.state out.old).written (O.state out.new).written result }
    ensures fault { (shelf : ShelfState) (input : SourceState) → FaultIsCounted
        (outside shelf input (O.state out.old)) (outside shelf input (O.state out.new)) result }
    ensures goes_on { SinkGoesOn (O.state out.old) (O.state out.new) }
{
    // Of an automaton's alphabet it is known which texts it may accept.
    let alphabet = first.fsa.alphabet();
    let _same = second.alphabet();
    match equal(alloc, &first.fsa, second, max_states) {
        Ok(Equality::Equal) => print_line(b"yes\n", Status::Yes, out),
        Ok(Equality::Differ(text)) => print_difference(alloc, &first.names, alphabet, text, out),
        Err(Det::TooManyStates { .. }) => {
            print_limit(alloc, &first.names, Limit::States(Construction::Equal), out)
        }
        Err(Det::Memory) => Status::Memory,
    }
}

/// Prints the line of a text that exactly one of two automata accepts.
fn print_difference<O: Sink>(
    alloc: Global,
    names: &Names,
    alphabet: Alphabet,
    text: Symbols,
    out: &mut O,
) -> Status
    requires text { IsTextOf alphabet text }
    requires generators { generators alphabet ≤ 65534 }
    ensures printed { IsTrue (O.state out.old).told → DifferenceIsPrinted names.now alphabet text
        (O.state out.old).written (O.state out.new).written result }
    ensures fault { (shelf : ShelfState) (input : SourceState) → FaultIsCounted
        (outside shelf input (O.state out.old)) (outside shelf input (O.state out.new)) result }
    ensures goes_on { SinkGoesOn (O.state out.old) (O.state out.new) }
{
    match difference_line(alloc, names, alphabet, text.as_slice()) {
        Ok(line) => print_line(&line, Status::No(Cert::NotEqual { text }), out),
        Err(Memory) => Status::Memory,
    }
}

/// `no equal W`, or `no equal U V` for the text of a pair, and a newline.
fn difference_line(
    alloc: Global,
    names: &Names,
    alphabet: Alphabet,
    text: &[u32],
) -> Result<Vec<u8>, Memory>
    requires text { IsTextOf alphabet text.now }
    requires generators { generators alphabet ≤ 65534 }
    ensures { IfOk result (λ line. IsDifferenceLine names.now text.now alphabet line.items) }
{
    let mut line = Vec::from_slice(alloc, b"no equal ")?;
    match alphabet {
        Alphabet::Plain(_) => print_word(names, &word_of(alloc, text)?, &mut line)?,
        Alphabet::Pair(n) => {
            let (u, v) = pair_of(alloc, n, text)?;
            print_word(names, &u, &mut line)?;
            line.push(b' ')?;
            print_word(names, &v, &mut line)?;
        }
    }
    line.push(b'\n')?;
    Ok(line)
}
