//! The last line of a long run: how it ended, and what it stored.

use itoa::Buffer;
use kb_io::{Failed, Sink, write_all};

/// How a long run ended, in figures, and what it stored.
#[derive(Clone, Copy, Debug, PartialEq, Eq)]
pub enum Summary {
    /// A completion came to its end, with so many rules, and a word acceptor of so many states.
    Completed {
        rules: usize,
        states: u32,
        stored: Stored,
    },
    /// A completion that marks cosets came to its end, with so many rules, which are stored.
    Cosets {
        rules: usize,
    },
    /// An automatic structure was found and stored: a word acceptor of so many states, and so many multipliers.
    Structure {
        states: u32,
        multipliers: usize,
    },
    /// Automata are the group's own. Nothing is stored.
    Own,
    /// Automata aren't the group's own. Nothing is stored.
    NotOwn,
    /// Automata are the group's own, and its reduced complete system is stored, made of them.
    ReducedSystem,
    /// A limit was reached.
    Limit {
        limit: Limit,
        evidence: Evidence,
    },
}

/// What a command stores of a completion that came to its end.
#[derive(Clone, Copy, Debug, PartialEq, Eq)]
pub enum Stored {
    /// No file.
    Nothing,
    /// The rules and the word acceptor.
    System,
    /// The log that certifies the rules, the rules and the word acceptor.
    Certificate,
}

/// A limit that was reached.
#[derive(Clone, Copy, Debug, PartialEq, Eq)]
pub enum Limit {
    /// The log has as many lines as it may have.
    Lines(u32),
    /// A left side would have more letters than it may have.
    Letters(u32),
    /// As many word differences are kept as may be.
    Differences(u32),
    /// The word acceptor would have more states than it may have.
    AcceptorStates(u32),
    /// An automaton would have more states than it may have.
    States(u32),
}

/// What a command shows at a limit.
#[derive(Clone, Copy, Debug, PartialEq, Eq)]
pub enum Evidence {
    /// Nothing but the limit.
    Nothing,
    /// The log, on standard output.
    Output,
    /// The log and the rules, in files.
    Rules,
    /// The log and the rules of marked cosets, in files.
    CosetRules,
    /// The log, the rules and the word differences, in files.
    Differences,
}

impl Summary {
    /// Writes it as a line: the figures, or the option of the limit; and which files that belong to this one were
    /// stored.
    pub(crate) fn write<E: Sink>(self, file: &str, err: &mut E) -> Result<(), Failed> {
        self.write_figures(err)?;
        self.write_files(file, err)?;
        write_all(err, b"\n")
    }

    /// Writes what was found, or the limit with its option.
    fn write_figures<E: Sink>(self, err: &mut E) -> Result<(), Failed> {
        match self {
            Summary::Completed { rules, states, .. } => {
                write_number(b"kb: ", rules, err)?;
                write_number(b" rules, word acceptor of ", states as usize, err)?;
                write_all(err, b" states")
            }
            Summary::Cosets { rules } => {
                write_number(b"kb: ", rules, err)?;
                write_all(err, b" rules")
            }
            Summary::Structure {
                states,
                multipliers,
            } => {
                write_number(b"kb: word acceptor of ", states as usize, err)?;
                write_number(b" states, multipliers: ", multipliers, err)
            }
            Summary::Own | Summary::ReducedSystem => {
                write_all(err, b"kb: the automata are the group's own")
            }
            Summary::NotOwn => write_all(err, b"kb: the automata are not the group's own"),
            Summary::Limit { limit, .. } => limit.write(err),
        }
    }

    /// Writes which files that belong to this one were stored.
    fn write_files<E: Sink>(self, file: &str, err: &mut E) -> Result<(), Failed> {
        match self {
            Summary::Completed { stored, .. } => stored.write(file, err),
            Summary::Cosets { .. } => write_names(b"; stored ", file, &[".sub.kbprog"], err),
            Summary::Structure { multipliers, .. } => {
                write_names(b"; stored ", file, &[".wa"], err)?;
                write_multipliers(file, multipliers, err)
            }
            Summary::Own | Summary::NotOwn => Ok(()),
            Summary::ReducedSystem => {
                write_names(b"; stored ", file, &[".minred", ".minkb"], err)
            }
            Summary::Limit { evidence, .. } => evidence.write(file, err),
        }
    }
}

impl Stored {
    /// Writes the names of the files.
    fn write<E: Sink>(self, file: &str, err: &mut E) -> Result<(), Failed> {
        match self {
            Stored::Nothing => Ok(()),
            Stored::System => write_names(b"; stored ", file, &[".kbprog", ".wa"], err),
            Stored::Certificate => {
                write_names(b"; stored ", file, &[".kblog", ".kbprog", ".wa"], err)
            }
        }
    }
}

impl Limit {
    /// Writes the limit with its option.
    fn write<E: Sink>(self, err: &mut E) -> Result<(), Failed> {
        match self {
            Limit::Lines(limit) => write_limit(limit, b" lines reached (--max-rules)", err),
            Limit::Letters(limit) => {
                write_limit(limit, b" letters of a left side reached (--max-len)", err)
            }
            Limit::Differences(limit) => {
                write_limit(limit, b" word differences reached (--max-diffs)", err)
            }
            Limit::AcceptorStates(limit) => write_limit(
                limit,
                b" states of the word acceptor reached (--max-states)",
                err,
            ),
            Limit::States(limit) => write_limit(
                limit,
                b" states of an automaton reached (--max-states)",
                err,
            ),
        }
    }
}

impl Evidence {
    /// Writes where it stands.
    fn write<E: Sink>(self, file: &str, err: &mut E) -> Result<(), Failed> {
        match self {
            Evidence::Nothing => Ok(()),
            Evidence::Output => write_all(err, b"; evidence goes to standard output"),
            Evidence::Rules => write_evidence(file, &[".kblog", ".kbprog"], err),
            Evidence::CosetRules => write_evidence(file, &[".sub.kblog", ".sub.kbprog"], err),
            Evidence::Differences => write_evidence(file, &[".kblog", ".kbprog", ".diff"], err),
        }
    }
}

/// Writes in which files with these endings the evidence is.
fn write_evidence<E: Sink>(file: &str, endings: &[&str], err: &mut E) -> Result<(), Failed> {
    write_names(b"; evidence in ", file, endings, err)
}

/// Writes a limit, and what it is of.
fn write_limit<E: Sink>(limit: u32, what: &[u8], err: &mut E) -> Result<(), Failed> {
    write_number(b"kb: ", limit as usize, err)?;
    write_all(err, what)
}

/// Writes a text, and the names of files with these endings, with commas between them.
fn write_names<E: Sink>(
    before: &[u8],
    file: &str,
    endings: &[&str],
    err: &mut E,
) -> Result<(), Failed> {
    let mut between = before;
    for ending in endings {
        write_all(err, between)?;
        write_all(err, file.as_bytes())?;
        write_all(err, ending.as_bytes())?;
        between = b", ";
    }
    Ok(())
}

/// Writes the names of the files of so many multipliers.
fn write_multipliers<E: Sink>(file: &str, count: usize, err: &mut E) -> Result<(), Failed> {
    if count > 0 {
        write_names(b", ", file, &[".m1"], err)?;
    }
    if count > 1 {
        write_names(b" to ", file, &[".m"], err)?;
        write_number(b"", count, err)?;
    }
    Ok(())
}

/// Writes a text, and a number in decimal digits behind it.
pub(crate) fn write_number<E: Sink>(
    before: &[u8],
    number: usize,
    err: &mut E,
) -> Result<(), Failed> {
    write_all(err, before)?;
    let mut buffer = Buffer::new();
    write_all(err, buffer.format(number).as_bytes())
}
