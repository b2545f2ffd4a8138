//! `gpaxioms FILE --log`: the lines of the log beside a group's file decide whether the automata beside it are its own.

ghost use Rattle.std.specs.Prelude.{IfOk, [], true};
ghost use Rattle.kb_io.specs.Outside.{outside};
ghost use Rattle.kb_io.specs.States.{SourceState};
ghost use Rattle.kb_task.specs.Runs.{IsRun};
ghost use Rattle.kb_task.specs.Reasons.{unjustified_line};
ghost use Rattle.kb_task.specs.declared.status.Cert.TheVariants.{NotJustified};
ghost use Rattle.kb_task.specs.declared.status.Status.TheVariants.{No};
ghost use Rattle.kb_cmd_structures.specs.ByLog.{ByLogMeans};
ghost use Rattle.kb_cmd_structures.specs.GpaxiomsPromise.{MayStoreBy};
ghost use Rattle.kb_cmd_structures.specs.Findings.{HasParts};
ghost use Rattle.kb_cmd_structures.specs.Logged.{AreReadyIn, IsFoundIn};

use crate::automata_check::AutomataCheck;
use crate::by_lines::find_by_lines;
use crate::finding::{Finding, show};
use crate::logged::{Logged, load_logged};
use kb_io::{Gate, Shelf, Sink};
use kb_progress::Progress;
use kb_proof::Why;
use kb_task::{Cert, Status, unjustified_line};
use kb_word::Memory;
use std::alloc::Global;
use std::sync::Wait;
use std::thread::Threads;

/// Loads the files, and shows what is found by the lines of the log. Nothing is stored.
pub(crate) fn run_by_log<T: Threads + Wait + Sync, G: Gate, F: Shelf, O: Sink, E: Sink>(
    rt: &T,
    alloc: Global,
    gate: &G,
    task: &AutomataCheck,
    shelf: &mut F,
    out: &mut O,
    err: &mut E,
) -> Status
    ensures { (input : SourceState)
        → IsRun (ByLogMeans task.now) (MayStoreBy true task.now)
        (outside (F.state shelf.old) input (O.state out.old))
        (outside (F.state shelf.new) input (O.state out.new)) result }
{
    match load_logged(alloc, &task.file, shelf) {
        Ok(logged) => {
            let mut progress = Progress::on(err, Some(&task.file));
            match find(rt, alloc, gate, task, &logged) {
                Ok(finding) => show(alloc, finding, &mut progress, shelf, out),
                Err(Memory) => Status::Memory,
            }
        }
        Err(status) => status,
    }
}

/// What is found of what was loaded.
fn find<T: Threads + Wait + Sync, G: Gate>(
    rt: &T,
    alloc: Global,
    gate: &G,
    task: &AutomataCheck,
    logged: &Logged,
) -> Result<Finding, Memory>
    requires { AreReadyIn logged.now }
    ensures { IfOk result (IsFoundIn task.now logged.now) }
{
    match logged {
        Logged::Justified { loaded, log } => find_by_lines(rt, alloc, gate, task, loaded, log),
        Logged::Unjustified { line, why } => unjustified(alloc, *line, *why),
    }
}

/// The log isn't justified.
fn unjustified(alloc: Global, number: u64, why: Why) -> Result<Finding, Memory>
    ensures { IfOk result
        (HasParts (No (NotJustified number why)) [] (unjustified_line number why)) }
{
    let line = unjustified_line(alloc, number, why)?;
    Ok(Finding {
        status: Status::No(Cert::NotJustified { line: number, why }),
        files: Vec::new(alloc),
        line,
    })
}
