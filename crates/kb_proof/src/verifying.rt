//! Whether a log is justified, line by line.

ghost use Rattle.std.specs.Prelude.{IfOk};
ghost use Rattle.kb_word.specs.WordOrders.{Below};
ghost use Rattle.kb_word.specs.Relations.{relations_of};
ghost use Rattle.kb_proof.specs.Verifying.{VerifiedSays};

mod checker;
mod derivations;
mod earlier;
mod marks;
mod numbered;
mod origins;
mod replay;

use crate::log::Log;
use crate::verified::Verified;
use crate::verifying::checker::Checker;
use kb_word::{Memory, Presentation};
use std::alloc::Global;

/// Whether each line of a log, and last that of the pair that waits, follows from the relations of the presentation and
/// the lines before it. Where one doesn't, the answer names the first, and the first reason.
///
/// The lines are read once. It takes time that grows with the letters and steps of the log, and with the words that the
/// steps lead through.
pub fn verify(alloc: Global, presentation: &Presentation, log: &Log) -> Result<Verified, Memory>
    ensures { IfOk result (VerifiedSays (Below presentation.now.order)
        (relations_of presentation.now.inv presentation.now.eqs) log.now) }
{
    let lines = log.lines.as_slice();
    let mut checker = Checker::new(alloc, presentation)?;
    for (index, line) in lines.iter().enumerate() {
        if let Some(why) = checker.fault_of(alloc, presentation, &lines[..index], line)? {
            let line = index as u64 + 1;
            return Ok(Verified::No { line, why });
        }
        checker.add(alloc, line)?;
    }
    let Some(waiting) = &log.waiting else {
        return Ok(Verified::Yes);
    };
    match checker.waiting_fault_of(alloc, presentation, lines, waiting)? {
        Some(why) => {
            let line = lines.len() as u64 + 1;
            Ok(Verified::No { line, why })
        }
        None => Ok(Verified::Yes),
    }
}
