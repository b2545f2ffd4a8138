//! A group, its log and its automata from files, where the lines of the log decide.

ghost use Rattle.std.specs.Prelude.{◌≤◌, length, IsTrue, IfOk, IfErr};
ghost use Rattle.kb_io.specs.Outside.{outside};
ghost use Rattle.kb_io.specs.States.{SourceState, SinkState};
ghost use Rattle.kb_word.specs.Presentations.{parts_of};
ghost use Rattle.kb_proof.specs.Printable.{AreReadableNames};
ghost use Rattle.kb_bylog.specs.LogLines.{IsJustifiedBy};
ghost use Rattle.kb_task.specs.Loads.{most_file, EndsAtLoad, OnlyLoads};
ghost use Rattle.kb_task.specs.Runs.{FaultIsCounted};
ghost use Rattle.kb_evidence.specs.Files.{log_file};
ghost use Rattle.kb_cmd_structures.specs.ByLog.{EndsAtLogged, HoldLogged, HoldsLogBeside, IsLogFaultBeside};
ghost use Rattle.kb_cmd_structures.specs.Loaded.{HoldsGroup, IsGroup};
ghost use Rattle.kb_cmd_structures.specs.Logged.{AreLogged, AreReadyIn};

use crate::loading::{Loaded, load_automata};
use kb_evidence::log_file;
use kb_io::Shelf;
use kb_proof::{Log, Verified, Why, verify};
use kb_task::{Status, load_derivations, load_group};
use kb_word::{Memory, OwnedText, Presentation};
use std::alloc::Global;

/// What is loaded: the automata of a group are, only where its log is justified.
#[derive(Drop)]
pub(crate) enum Logged {
    /// A group with its automata, and a log of it that is justified.
    Justified { loaded: Loaded, log: Log },
    /// The log isn't justified: the line of this number is the first for which there is a reason, and this is its
    /// first.
    Unjustified { line: u64, why: Why },
}

/// The group that the file of this name holds, its log, and the automata, of the files beside it; or the status of a
/// run that ends at one of them.
pub(crate) fn load_logged<F: Shelf>(
    alloc: Global,
    file: &OwnedText,
    shelf: &mut F,
) -> Result<Logged, Status>
    ensures holds { IsTrue (F.state shelf.old).told
        → IfOk result (AreLogged (F.state shelf.old).holds file.now) }
    ensures ready { IfOk result AreReadyIn }
    ensures ends { IsTrue (F.state shelf.old).told
        → IfErr result (EndsAtLogged (F.state shelf.old).holds file.now) }
    ensures fault { IfErr result (λ status. (input : SourceState) (output : SinkState)
        → FaultIsCounted (outside (F.state shelf.old) input output)
        (outside (F.state shelf.new) input output) status) }
    ensures only_loads { OnlyLoads (F.state shelf.old) (F.state shelf.new) }
{
    let Ok(name) = file.copy(alloc) else {
        return Err(Status::Memory);
    };
    match load_group(alloc, name, shelf) {
        Ok(presentation) => load_beside(alloc, file, presentation, shelf),
        Err(status) => Err(status),
    }
}

/// A group with the log and the automata of the files beside its own.
fn load_beside<F: Shelf>(
    alloc: Global,
    file: &OwnedText,
    presentation: Presentation,
    shelf: &mut F,
) -> Result<Logged, Status>
    requires group { IsGroup presentation }
    requires names { AreReadableNames presentation.names }
    ensures holds { IsTrue (F.state shelf.old).told
        → HoldsGroup (F.state shelf.old).holds file.now presentation
        → IfOk result (AreLogged (F.state shelf.old).holds file.now) }
    ensures ready { IfOk result AreReadyIn }
    ensures ends { IsTrue (F.state shelf.old).told
        → HoldsGroup (F.state shelf.old).holds file.now presentation
        → IfErr result (EndsAtLogged (F.state shelf.old).holds file.now) }
    ensures fault { IfErr result (λ status. (input : SourceState) (output : SinkState)
        → FaultIsCounted (outside (F.state shelf.old) input output)
        (outside (F.state shelf.new) input output) status) }
    ensures only_loads { OnlyLoads (F.state shelf.old) (F.state shelf.new) }
{
    match log_beside(alloc, file, &presentation, shelf) {
        Ok(log) => load_justified(alloc, file, presentation, log, shelf),
        Err(status) => Err(status),
    }
}

/// The log over the presentation's letters that the file beside its own holds.
fn log_beside<F: Shelf>(
    alloc: Global,
    file: &OwnedText,
    presentation: &Presentation,
    shelf: &mut F,
) -> Result<Log, Status>
    requires { AreReadableNames presentation.now.names }
    ensures holds { IsTrue (F.state shelf.old).told → IfOk result
        (HoldsLogBeside (F.state shelf.old).holds file.now presentation.now) }
    ensures few { IfOk result (λ log. length log.lines.items ≤ most_file) }
    ensures ends { IsTrue (F.state shelf.old).told → IfErr result
        (EndsAtLoad (IsLogFaultBeside (F.state shelf.old).holds file.now presentation.now)
        (log_file file.now)) }
    ensures fault { IfErr result (λ status. (input : SourceState) (output : SinkState)
        → FaultIsCounted (outside (F.state shelf.old) input output)
        (outside (F.state shelf.new) input output) status) }
    ensures only_loads { OnlyLoads (F.state shelf.old) (F.state shelf.new) }
{
    match log_file(alloc, file) {
        Ok(name) => load_derivations(alloc, name, presentation, shelf),
        Err(_) => Err(Status::Memory),
    }
}

/// A group with its log, and where that is justified with the automata of the files beside the group's.
fn load_justified<F: Shelf>(
    alloc: Global,
    file: &OwnedText,
    presentation: Presentation,
    log: Log,
    shelf: &mut F,
) -> Result<Logged, Status>
    requires group { IsGroup presentation }
    requires few { length log.lines.items ≤ most_file }
    ensures holds { IsTrue (F.state shelf.old).told
        → HoldLogged (F.state shelf.old).holds file.now presentation log
        → IfOk result (AreLogged (F.state shelf.old).holds file.now) }
    ensures ready { IfOk result AreReadyIn }
    ensures ends { IsTrue (F.state shelf.old).told
        → HoldLogged (F.state shelf.old).holds file.now presentation log
        → IfErr result (EndsAtLogged (F.state shelf.old).holds file.now) }
    ensures fault { IfErr result (λ status. (input : SourceState) (output : SinkState)
        → FaultIsCounted (outside (F.state shelf.old) input output)
        (outside (F.state shelf.new) input output) status) }
    ensures only_loads { OnlyLoads (F.state shelf.old) (F.state shelf.new) }
{
    match verify(alloc, &presentation, &log) {
        Ok(Verified::Yes) => load_all(alloc, file, presentation, log, shelf),
        Ok(Verified::No { line, why }) => Ok(Logged::Unjustified { line, why }),
        Err(Memory) => Err(Status::Memory),
    }
}

/// A group with its justified log and the automata of the files beside its own.
fn load_all<F: Shelf>(
    alloc: Global,
    file: &OwnedText,
    presentation: Presentation,
    log: Log,
    shelf: &mut F,
) -> Result<Logged, Status>
    requires group { IsGroup presentation }
    requires justified { IsJustifiedBy (parts_of presentation) log }
    requires few { length log.lines.items ≤ most_file }
    ensures holds { IsTrue (F.state shelf.old).told
        → HoldLogged (F.state shelf.old).holds file.now presentation log
        → IfOk result (AreLogged (F.state shelf.old).holds file.now) }
    ensures ready { IfOk result AreReadyIn }
    ensures ends { IsTrue (F.state shelf.old).told
        → HoldLogged (F.state shelf.old).holds file.now presentation log
        → IfErr result (EndsAtLogged (F.state shelf.old).holds file.now) }
    ensures fault { IfErr result (λ status. (input : SourceState) (output : SinkState)
        → FaultIsCounted (outside (F.state shelf.old) input output)
        (outside (F.state shelf.new) input output) status) }
    ensures only_loads { OnlyLoads (F.state shelf.old) (F.state shelf.new) }
{
    match load_automata(alloc, file, presentation, shelf) {
        Ok(loaded) => Ok(Logged::Justified { loaded, log }),
        Err(status) => Err(status),
    }
}
