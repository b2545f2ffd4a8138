//! Logs from files.

ghost use Rattle.std.specs.Prelude.{ℕ, ◌≤◌, List, length, Option, IsTrue, IfOk, IfErr};
ghost use Rattle.kb_io.specs.Outside.{outside};
ghost use Rattle.kb_io.specs.States.{ShelfState, SourceState, SinkState};
ghost use Rattle.kb_word.specs.Presentations.{PresentationParts};
ghost use Rattle.kb_machine.specs.declared.line.Line.{Line};
ghost use Rattle.kb_proof.specs.Printable.{AreReadableNames};
ghost use Rattle.kb_task.specs.Loads.{Files, most_file, IsHeld, IsCause, EndsAtLoad, OnlyLoads, LoadIsCounted};
ghost use Rattle.kb_task.specs.Logs.{HoldsDerivations, HoldsLog, IsDerivationsFault, IsLogFault};
ghost use Rattle.kb_task.specs.Runs.{FaultIsCounted};
ghost use Rattle.kb_task.specs.StoredLogs.{StoresLog, IsReadAsLog};

use super::{LoadStop, load_text};
use crate::status::{FileFault, Status};
use kb_io::Shelf;
use kb_presprint::a_presentation_that_is_read_can_be_written;
use kb_proof::{Log, LogError, Version, read_log};
use kb_word::{OwnedText, Presentation};
use std::alloc::Global;

/// The log over the presentation's letters that the file of this name holds, or the status of a run that ends there.
pub fn load_log<F: Shelf>(
    alloc: Global,
    file: OwnedText,
    presentation: &Presentation,
    shelf: &mut F,
) -> Result<Log, Status>
    requires { AreReadableNames presentation.now.names }
    ensures holds { IsTrue (F.state shelf.old).told
        → IfOk result (λ log. HoldsLog (F.state shelf.old).holds file presentation.now.names log) }
    ensures few { IfOk result (λ log. length log.lines.items ≤ most_file) }
    ensures ends { IsTrue (F.state shelf.old).told
        → IfErr result (EndsAtLoad
        (IsLogFault presentation.now.names (F.state shelf.old).holds file) file) }
    ensures fault { IfErr result (λ status. (input : SourceState) (output : SinkState)
        → FaultIsCounted (outside (F.state shelf.old) input output)
        (outside (F.state shelf.new) input output) status) }
    ensures only_loads { OnlyLoads (F.state shelf.old) (F.state shelf.new) }
{
    match log_in(alloc, file.as_str(), presentation, shelf) {
        Ok(log) => Ok(log),
        Err(stop) => Err(stop.status(file)),
    }
}

/// The log over the presentation's letters that the file of this name holds, if it has derivations, or the status of a
/// run that ends there.
pub fn load_derivations<F: Shelf>(
    alloc: Global,
    file: OwnedText,
    presentation: &Presentation,
    shelf: &mut F,
) -> Result<Log, Status>
    requires { AreReadableNames presentation.now.names }
    ensures holds { IsTrue (F.state shelf.old).told
        → IfOk result (λ log.
        HoldsDerivations (F.state shelf.old).holds file presentation.now.names log) }
    ensures few { IfOk result (λ log. length log.lines.items ≤ most_file) }
    ensures ends { IsTrue (F.state shelf.old).told
        → IfErr result (EndsAtLoad
        (IsDerivationsFault presentation.now.names (F.state shelf.old).holds file) file) }
    ensures fault { IfErr result (λ status. (input : SourceState) (output : SinkState)
        → FaultIsCounted (outside (F.state shelf.old) input output)
        (outside (F.state shelf.new) input output) status) }
    ensures only_loads { OnlyLoads (F.state shelf.old) (F.state shelf.new) }
{
    match derivations_in(alloc, file.as_str(), presentation, shelf) {
        Ok(log) => Ok(log),
        Err(stop) => Err(stop.status(file)),
    }
}

/// The log that the file of this name holds, if it has derivations.
fn derivations_in<F: Shelf>(
    alloc: Global,
    name: &str,
    presentation: &Presentation,
    shelf: &mut F,
) -> Result<Log, LoadStop>
    requires { AreReadableNames presentation.now.names }
    ensures holds { IsTrue (F.state shelf.old).told
        → IfOk result (λ log.
        HoldsDerivations (F.state shelf.old).holds name.now presentation.now.names log) }
    ensures few { IfOk result (λ log. length log.lines.items ≤ most_file) }
    ensures stops { IsTrue (F.state shelf.old).told
        → IfErr result (IsCause
        (IsDerivationsFault presentation.now.names (F.state shelf.old).holds name.now)) }
    ensures counted { IfErr result (LoadIsCounted (F.state shelf.old) (F.state shelf.new)) }
    ensures only_loads { OnlyLoads (F.state shelf.old) (F.state shelf.new) }
{
    match log_in(alloc, name, presentation, shelf) {
        Ok(log) => with_derivations(log),
        Err(stop) => Err(stop),
    }
}

/// The log, if it has derivations.
fn with_derivations(log: Log) -> Result<Log, LoadStop>
    requires { length log.lines.items ≤ most_file }
    ensures holds { (files : Files) (name : List ℕ) (names : List (List ℕ))
        → HoldsLog files name names log
        → IfOk result (λ found. HoldsDerivations files name names found) }
    ensures few { IfOk result (λ found. length found.lines.items ≤ most_file) }
    ensures stops { (files : Files) (name : List ℕ) (names : List (List ℕ))
        → HoldsLog files name names log
        → IfErr result (IsCause (IsDerivationsFault names files name)) }
    ensures unfailed { (a b : ShelfState) → IfErr result (LoadIsCounted a b) }
{
    match log.version {
        Version::One => Err(LoadStop::Refused(FileFault::NoDerivations)),
        Version::Two => Ok(log),
    }
}

/// The log that the file of this name holds.
fn log_in<F: Shelf>(
    alloc: Global,
    name: &str,
    presentation: &Presentation,
    shelf: &mut F,
) -> Result<Log, LoadStop>
    requires { AreReadableNames presentation.now.names }
    ensures holds { IsTrue (F.state shelf.old).told
        → IfOk result (λ log.
        HoldsLog (F.state shelf.old).holds name.now presentation.now.names log) }
    ensures few { IfOk result (λ log. length log.lines.items ≤ most_file) }
    ensures stops { IsTrue (F.state shelf.old).told
        → IfErr result (IsCause
        (IsLogFault presentation.now.names (F.state shelf.old).holds name.now)) }
    ensures counted { IfErr result (LoadIsCounted (F.state shelf.old) (F.state shelf.new)) }
    ensures only_loads { OnlyLoads (F.state shelf.old) (F.state shelf.new) }
{
    match load_text(alloc, name, shelf) {
        Ok(bytes) => log_of(alloc, &bytes, presentation),
        Err(stop) => Err(stop),
    }
}

/// The log that the bytes are a text of.
fn log_of(alloc: Global, bytes: &[u8], presentation: &Presentation) -> Result<Log, LoadStop>
    requires names { AreReadableNames presentation.now.names }
    requires short { length bytes.now ≤ most_file }
    ensures holds { (files : Files) (name : List ℕ) → IsHeld files name bytes.now
        → IfOk result (λ log. HoldsLog files name presentation.now.names log) }
    ensures few { IfOk result (λ log. length log.lines.items ≤ most_file) }
    ensures stops { (files : Files) (name : List ℕ) → IsHeld files name bytes.now
        → IfErr result (IsCause (IsLogFault presentation.now.names files name)) }
    ensures unfailed { (a b : ShelfState) → IfErr result (LoadIsCounted a b) }
{
    match read_log(alloc, bytes, presentation) {
        Ok(log) => Ok(log),
        Err(LogError::Memory) => Err(LoadStop::Memory),
        Err(fault) => Err(LoadStop::Refused(FileFault::Log(fault))),
    }
}

/// The log of a completion that is stored beside its presentation can be read: its file isn't refused, and holds a log
/// of these lines and this pair that waits. So [`load_log`] returns it, unless memory or the shelf fails.
pub fn stored_logs_are_read()
    ensures { (files : Files) (file name : List ℕ) (parts : PresentationParts)
        (lines : List Line) (waiting : Option Line)
        → StoresLog files file name parts lines waiting
        → IsReadAsLog files name parts.names lines waiting }
{
    a_presentation_that_is_read_can_be_written();
}
