//! Messages to err. No clause speaks of them, and a failed write to err doesn't change the status.

use kb_io::{Sink, write_all};
use kb_task::Status;
use std::alloc::Global;
use std::fmt;
use std::fmt::Write;

/// Writes the status's message, where it has one.
pub fn report<E: Sink>(alloc: Global, status: &Status, err: &mut E) {
    match status {
        Status::Refused(refusal) => message(alloc, refusal, err),
        Status::Fault(which) => message(alloc, which, err),
        Status::Memory => tell(err, "kb: no memory\n"),
        Status::Yes | Status::Undecided(_) | Status::No(_) | Status::Usage(_) => {}
    }
}

/// Writes a text as it is.
pub(crate) fn tell<E: Sink>(err: &mut E, text: &str) {
    let _ = write_all(err, text.as_bytes());
}

/// Writes a message in one piece, or piece by piece where there is no memory for its text.
fn message<E: Sink>(alloc: Global, what: &impl fmt::Display, err: &mut E) {
    match format!(in alloc; "kb: {what}\n") {
        Ok(text) => tell(err, text.as_str()),
        Err(_) => {
            let _ = write!(Pieces { err }, "kb: {what}\n");
        }
    }
}

/// Takes a text piece by piece, without memory.
#[derive(Drop)]
struct Pieces<'a, E: Sink> {
    err: &'a mut E,
}

impl<'a, E: Sink> fmt::Write for Pieces<'a, E> {
    fn write_str(&mut self, text: &str) -> fmt::Result {
        match write_all(self.err, text.as_bytes()) {
            Ok(()) => Ok(()),
            Err(_) => Err(fmt::Error),
        }
    }
}
