//! How a run ends.

use clap::error::ErrorKind;
use kb_fsa::Symbols;
use kb_fsafile::FsaError;
use kb_presfile::PresError;
use kb_proof::{LogError, Why};
use kb_record::WordError;
use kb_structure::Cert as StructureCert;
use kb_subfile::SubError;
use kb_word::{Letter, OwnedText, Word};
use std::fmt;

/// How a run ends. [`Status::exit`] is the program's exit status.
#[derive(Drop)]
pub enum Status {
    /// All that the command says was done, and its lines were written.
    Yes,
    /// What was given is refused.
    Refused(Refusal),
    /// A named limit was reached before there was an answer.
    Undecided(Limit),
    /// The answer is no, and this shows it.
    No(Cert),
    /// Memory ran out.
    Memory,
    /// Something outside failed.
    Fault(Which),
    /// The words aren't a line of the program, or ask for help or for the version.
    Usage(ErrorKind),
}

/// What is refused.
#[derive(Debug, Drop)]
pub enum Refusal {
    /// The file of this name.
    File { name: OwnedText, fault: FileFault },
    /// The word line of this number, counted from 1 over all lines.
    Line { number: u32, fault: WordError },
    /// More than 67,108,864 bytes of word lines.
    InputTooLong,
}

/// Why a file is refused.
#[derive(Debug, Drop)]
pub enum FileFault {
    /// There is no such file.
    Missing,
    /// It has more than 16,777,216 bytes.
    TooLong,
    /// It holds no presentation.
    Presentation(PresError),
    /// It holds no automaton.
    Automaton(FsaError),
    /// It holds no log.
    Log(LogError),
    /// It holds no generators of a subgroup.
    Subgroup(SubError),
    /// It holds a log without derivations, where they are needed.
    NoDerivations,
    /// It holds a log whose lines don't settle whether automata are a group's own: they aren't confluent, and by them
    /// the label and another label word of a state of the multiplier of this generator, and of none before it, have
    /// these different normal forms.
    LogUnresolved {
        generator: OwnedText,
        label: OwnedText,
        other: OwnedText,
    },
    /// It holds an automaton of pairs, where a plain one is needed.
    NotPlain,
    /// It holds a plain automaton, where one of pairs is needed.
    NotPairs,
    /// Its letters, or what it reads, differ from those of what was read before it.
    AlphabetsDiffer,
    /// It holds a presentation by another order than shortlex, where shortlex is needed.
    NeedsShortlex,
    /// It holds a presentation in which the generator of this name, and none before it, has no inverse, where a group's
    /// is needed.
    NotGroup(OwnedText),
    /// It holds a presentation with as many generators as there may be, where one more is needed.
    NoRoom,
    /// It holds a presentation with a generator `_H`, where that is the marker of cosets.
    MarkerTaken,
}

/// A limit that was reached.
#[derive(Clone, Copy, Debug, PartialEq, Eq)]
pub enum Limit {
    /// The log of a completion has as many lines as it may have.
    Rules,
    /// The left side of a line would have more letters than it may have.
    Length,
    /// As many word differences are kept as may be, and another one is needed.
    Diffs,
    /// The construction has more states than may be.
    States(Construction),
}

/// A construction of an automaton whose states are counted.
#[derive(Clone, Copy, Debug, PartialEq, Eq)]
pub enum Construction {
    And,
    Or,
    Not,
    Exists,
    Concat,
    Star,
    Reverse,
    Equal,
    Acceptor,
    /// The multiplier of the generator.
    Multiplier(Letter),
    /// The words that the multiplier of the generator relates to some word.
    Images(Letter),
    /// The composites along both sides of the relation with this number, from 1 on.
    Relation(usize),
    /// The left sides of the reduced complete system.
    Minred,
    /// The rules of the reduced complete system.
    Minkb,
}

/// What shows that the answer is no.
#[derive(Drop)]
pub enum Cert {
    /// The oriented relations aren't confluent: `u` and `v` are congruent, different and irreducible.
    NotConfluent { u: Word, v: Word },
    /// The languages differ: the text is the least that exactly one of the automata accepts.
    NotEqual { text: Symbols },
    /// Automata aren't a group's own automatic structure.
    Structure(StructureCert),
    /// A log isn't justified: the line of this number is the first for which there is a reason, and this is its first.
    NotJustified { line: u64, why: Why },
    /// By the lines of a log the sides of the relation of this number, and of none before it, have different normal
    /// forms: the left side has `u`, and the right side `v`.
    RelationApart { relation: u64, u: Word, v: Word },
}

/// What failed outside.
#[derive(Debug, Drop)]
pub enum Which {
    /// A load of the file of this name.
    Load(OwnedText),
    /// A store of the file of this name.
    Store(OwnedText),
    /// The input.
    Input,
    /// The output.
    Output,
}

impl Status {
    ghost use Rattle.std.specs.Prelude.{◌≡◌};
    ghost use Rattle.kb_task.specs.Statuses.{exit_of};

    /// The exit status of the program.
    pub fn exit(&self) -> u8
        ensures { result ≡ exit_of self.now }
    {
        match self {
            Status::Yes => 0,
            Status::Refused(_) => 1,
            Status::Undecided(_) => 2,
            Status::No(_) => 3,
            Status::Memory => 4,
            Status::Fault(_) => 5,
            Status::Usage(_) => 6,
        }
    }
}

impl fmt::Display for Refusal {
    fn fmt<W: fmt::Write>(&self, f: &mut fmt::Formatter<W>) -> fmt::Result {
        match self {
            Refusal::File { name, fault } => write!(f, "{name}: {fault}"),
            Refusal::Line { number, fault } => write!(f, "line {number}: {fault}"),
            Refusal::InputTooLong => write!(f, "E24 InputTooLong"),
        }
    }
}

impl fmt::Display for FileFault {
    fn fmt<W: fmt::Write>(&self, f: &mut fmt::Formatter<W>) -> fmt::Result {
        match self {
            FileFault::Missing => write!(f, "E3 Missing"),
            FileFault::TooLong => write!(f, "E15 TooLong"),
            FileFault::Presentation(fault) => write!(f, "{fault}"),
            FileFault::Automaton(fault) => write!(f, "{fault}"),
            FileFault::Log(fault) => write!(f, "{fault}"),
            FileFault::Subgroup(fault) => write!(f, "{fault}"),
            FileFault::NoDerivations => write!(f, "E27 NoDerivations"),
            FileFault::LogUnresolved {
                generator,
                label,
                other,
            } => write!(f, "E28 LogUnresolved {generator} {label} {other}"),
            FileFault::NotPlain => write!(f, "E18 AlphabetOther"),
            FileFault::NotPairs => write!(f, "E20 NotPairs"),
            FileFault::AlphabetsDiffer => write!(f, "E22 AlphabetsDiffer"),
            FileFault::NeedsShortlex => write!(f, "E30 NeedsShortlex"),
            FileFault::NotGroup(generator) => write!(f, "E23 NotGroup {generator}"),
            FileFault::NoRoom => write!(f, "E9 TooManyGenerators"),
            FileFault::MarkerTaken => write!(f, "E8 NameTaken _H"),
        }
    }
}

impl fmt::Display for Which {
    fn fmt<W: fmt::Write>(&self, f: &mut fmt::Formatter<W>) -> fmt::Result {
        match self {
            Which::Load(name) => write!(f, "fault load {name}"),
            Which::Store(name) => write!(f, "fault store {name}"),
            Which::Input => write!(f, "fault input"),
            Which::Output => write!(f, "fault output"),
        }
    }
}
