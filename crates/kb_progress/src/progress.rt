//! Lines that show how far a completion has come, and a last one that says how the run ended.

use crate::summary::{Summary, write_number};
use kb_book::Book;
use kb_io::{Failed, Sink, write_all};
use kb_round::{Axiom, Figures, WatchRounds};
use kb_rules::Reducer;
use kb_share::Watch;
use kb_word::OwnedText;

/// The number of lines of a log at which progress is first shown.
const FIRST: usize = 1000;

/// Of the versions that are published after that, progress is shown at each one whose number this divides.
const VERSIONS: u64 = 10;

/// Of the rounds that are made of automata, progress is shown at each one whose number this divides.
const ROUNDS: u64 = 10;

/// Shows that a long completion lives: when its log has 1,000 lines, each time it has twice as many
/// as the last time, and at every tenth version that is published after the first time. Of rounds of
/// automata it shows the first after each growth of the rules, every tenth, and those whose automata
/// break no axiom. A run that showed something says at last, by one line, what it found and stored or
/// which limit it reached; one that fails before that doesn't. What fails in that is ignored.
#[derive(Drop)]
pub struct Progress<'a, E: Sink> {
    err: &'a mut E,
    /// The file of the presentation, if it has one.
    file: Option<&'a OwnedText>,
    /// At how many lines of the log progress is shown next.
    next: usize,
    /// How many versions were published since it was shown first.
    versions: u64,
    /// How many rounds of automata were made.
    rounds: u64,
    /// How many growths of the rules these rounds came after.
    growths: u64,
    /// Whether no round was made yet since the rules have grown.
    has_grown: bool,
    /// How the run ended, if it did.
    summary: Option<Summary>,
}

impl<'a, E: Sink> Progress<'a, E> {
    /// Shows it here, of the completion of what this file presents, or of no file's.
    pub fn on(err: &'a mut E, file: Option<&'a OwnedText>) -> Progress<'a, E> {
        Progress {
            err,
            file,
            next: FIRST,
            versions: 0,
            rounds: 0,
            growths: 0,
            has_grown: true,
            summary: None,
        }
    }

    /// Takes note of how the run ended. What is said last counts.
    pub fn ended(&mut self, summary: Summary) {
        self.summary = Some(summary);
    }

    /// Writes the last line of a run that showed something. What it says to be stored is stored by then.
    pub fn finish(&mut self) {
        let file = match self.file {
            Some(file) => file.as_str(),
            None => "",
        };
        if self.next > FIRST || self.rounds > 0 {
            if let Some(summary) = self.summary {
                let _ = summary.write(file, self.err);
            }
        }
    }

    /// Whether the run is a long one.
    fn is_long(&self) -> bool {
        self.next > FIRST || self.rounds >= ROUNDS
    }

    /// Writes after which growth a round was made, and how large its automata were.
    fn show_round(&mut self, rules: usize, figures: &Figures) -> Result<(), Failed> {
        write_number(b"kb: growth ", self.growths as usize, self.err)?;
        write_number(b", round ", self.rounds as usize, self.err)?;
        write_number(b": ", rules, self.err)?;
        write_number(b" rules, ", figures.differences, self.err)?;
        write_number(
            b" differences, word acceptor of ",
            figures.acceptor as usize,
            self.err,
        )?;
        write_number(
            b" states, largest multiplier of ",
            figures.multiplier as usize,
            self.err,
        )?;
        write_all(self.err, b" states")?;
        if let Some(axiom) = figures.broken {
            write_all(self.err, b"; breaks ")?;
            write_all(self.err, name_of(axiom))?;
        }
        write_all(self.err, b"\n")
    }

    /// Writes how far the book has come.
    fn show<R: Reducer>(&mut self, book: &Book<R>) -> Result<(), Failed> {
        write_number(b"kb: ", book.lines().len(), self.err)?;
        write_number(b" lines, ", book.live().len(), self.err)?;
        write_number(b" live, ", book.pending().len(), self.err)?;
        write_number(
            b" pending, longest left side ",
            longest_left_side(book),
            self.err,
        )?;
        write_all(self.err, b"\n")
    }
}

impl<'a, E: Sink> Watch for Progress<'a, E> {
    fn line_made<R: Reducer>(&mut self, book: &Book<R>) {
        self.has_grown = true;
        let lines = book.lines().len();
        if lines >= self.next {
            self.next = lines.saturating_mul(2);
            let _ = self.show(book);
        }
    }

    fn published<R: Reducer>(&mut self, book: &Book<R>) {
        if !self.is_long() {
            return;
        }
        self.versions = self.versions.saturating_add(1);
        if self.versions % VERSIONS == 0 {
            let _ = self.show(book);
        }
    }
}

impl<'a, E: Sink> WatchRounds for Progress<'a, E> {
    fn round_made(&mut self, rules: usize, figures: &Figures) {
        self.rounds = self.rounds.saturating_add(1);
        let is_tenth = self.rounds % ROUNDS == 0;
        if self.has_grown {
            self.growths = self.growths.saturating_add(1);
        }
        if self.has_grown || is_tenth || figures.broken.is_none() {
            let _ = self.show_round(rules, figures);
        }
        self.has_grown = false;
    }
}

/// The kind of the certificates against an axiom.
fn name_of(axiom: Axiom) -> &'static [u8] {
    match axiom {
        Axiom::N4 => b"N4",
        Axiom::N5 => b"N5",
        Axiom::N6 => b"N6",
        Axiom::N7 => b"N7",
        Axiom::N8 => b"N8",
    }
}

/// How many letters the longest left side of a live line has.
fn longest_left_side<R: Reducer>(book: &Book<R>) -> usize {
    let lines = book.lines();
    let mut longest = 0;
    for number in book.live() {
        if let Some(line) = lines.get((*number as usize).saturating_sub(1)) {
            longest = longest.max(line.left.len());
        }
    }
    longest
}
