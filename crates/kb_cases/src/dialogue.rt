//! A dialogue: lines of the input that come only when those before them are answered.

ghost use Rattle.std.specs.Prelude.{◌≤◌, [], false};

use kb_casefile::Case;
use kb_io::{Failed, MemSink, MemSource, Sink, Source};
use std::alloc::{AllocError, Global};
use std::sync::atomic::{AtomicU64, Ordering};
use std::sync::{Arc, Wait};

/// The input of a case. In a dialogue it gives one line at most in a read, and notes which line is asked for before its
/// turn: before the lines in front of it, by whole batches, are answered. Each line has an answer of one line.
///
/// Contracts know none of its bytes, nor of those of [`Answers`].
#[derive(Drop)]
pub(crate) struct Questions {
    source: MemSource,
    /// So many lines are a batch; `None` where there is no dialogue.
    batch: Option<u64>,
    /// The whole input, and how many of its bytes were read.
    text: Vec<u8>,
    read: usize,
    /// How many lines were written on out.
    answered: Arc<AtomicU64>,
    early: Option<u64>,
}

impl Questions {
    /// The input of a case that is run, by the number of lines that are written on out.
    pub(crate) fn of(
        alloc: Global,
        case: &Case,
        answered: Arc<AtomicU64>,
    ) -> Result<Questions, AllocError> {
        let input = Vec::from_slice(alloc, case.input.as_slice())?;
        let piece = case.devices.piece.max(1);
        Ok(Questions {
            source: MemSource::new(input, piece, case.devices.reads.clone()?),
            batch: case.devices.dialogue,
            text: case.input.clone()?,
            read: 0,
            answered,
            early: None,
        })
    }

    /// The first line that was asked for before its turn.
    pub(crate) fn early(&self) -> Option<u64> {
        self.early
    }

    /// The first line that was asked for before its turn, where a read begins.
    fn early_at_read(&self, batch: u64) -> Option<u64> {
        let read = self.text.get(..self.read).unwrap_or(&[]);
        if !matches!(read.last(), None | Some(b'\n')) {
            return self.early;
        }
        let lines = lines_in(read);
        let answered = self.answered.load(Ordering::SeqCst);
        if answered < lines.saturating_sub(lines % batch.max(1)) && self.early.is_none() {
            return Some(lines.saturating_add(1));
        }
        self.early
    }

    /// How many bytes are left of a line, with its newline: at least 1, also at the end.
    fn left_of_line(&self) -> usize
        ensures { 1 ≤ result }
    {
        let left = self.text.get(self.read..).unwrap_or(&[]);
        match left.iter().position(|byte| *byte == b'\n') {
            Some(place) => place.saturating_add(1),
            None => left.len().max(1),
        }
    }
}

impl Source for Questions {
    ghost use Rattle.std.specs.Prelude.{[], false};

    ghost state = { λ it. record { told = false; left = []; faults = it.source.calls.faults } };

    fn read(&mut self, buf: &mut [u8]) -> Result<usize, Failed> {
        let Some(batch) = self.batch else {
            return self.source.read(buf);
        };
        self.early = self.early_at_read(batch);
        let most = self.left_of_line().min(buf.len());
        let taken = self.source.read(&mut buf[..most])?;
        self.read = self.read.saturating_add(taken);
        Ok(taken)
    }
}

/// The out of a case that is run, which counts the lines that are written on it.
#[derive(Drop)]
pub(crate) struct Answers<R> {
    sink: MemSink<R>,
    answered: Arc<AtomicU64>,
}

impl<R: Wait> Answers<R> {
    /// What is written on this sink, with its lines counted.
    pub(crate) fn of(sink: MemSink<R>, answered: Arc<AtomicU64>) -> Answers<R> {
        Answers { sink, answered }
    }

    /// What was written.
    pub(crate) fn written(&self) -> &[u8] {
        self.sink.written()
    }
}

impl<R: Wait> Sink for Answers<R> {
    ghost use Rattle.std.specs.Prelude.{[], false};

    ghost state = { λ it. record { told = false; written = []; faults = it.sink.calls.faults } };

    fn write(&mut self, bytes: &[u8]) -> Result<usize, Failed> {
        let taken = self.sink.write(bytes)?;
        self.answered
            .fetch_add(lines_in(&bytes[..taken]), Ordering::SeqCst);
        Ok(taken)
    }
}

/// How many newlines these bytes have.
fn lines_in(bytes: &[u8]) -> u64 {
    bytes.iter().filter(|byte| **byte == b'\n').count() as u64
}
