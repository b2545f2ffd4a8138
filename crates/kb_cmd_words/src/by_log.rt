//! A run that answers by the lines of the presentation's log.

ghost use Rattle.std.specs.Prelude.{◌≡◌, ◌≤◌, ◌^◌, length};
ghost use Rattle.kb_io.specs.Outside.{outside};
ghost use Rattle.kb_io.specs.States.{ShelfState};
ghost use Rattle.kb_word.specs.Presentations.{parts_of};
ghost use Rattle.kb_word.specs.WordOrders.{Below};
ghost use Rattle.kb_proof.specs.Verifying.{VerifiedSays};
ghost use Rattle.kb_proof.specs.declared.log.Log.{Log as SomeLog};
ghost use Rattle.kb_task.specs.Loads.{most_file};
ghost use Rattle.kb_task.specs.Runs.{IsRun};
ghost use Rattle.kb_cmd_words.specs.Confluence.{relations};
ghost use Rattle.kb_cmd_words.specs.ByLog.{ByLogMeans, LogMeans};
ghost use Rattle.kb_cmd_words.specs.ByRelations.{StoresNothing};
ghost use Rattle.kb_bylog.specs.LogLines.{AreJoined, IsJustifiedBy, lines_of};
ghost use Rattle.kb_cmd_words.specs.LogLines.{Decides};

use crate::joining::relation_apart;
use crate::laws::lines_that_decide_give_least_words;
use crate::objection::{Objection, print_objection};
use crate::word_reduce::WordReduce;
use kb_bylog::index_of;
use kb_confluence::{Verdict, check};
use kb_evidence::log_file;
use kb_index::Index;
use kb_io::{Gate, Shelf, Sink, Source};
use kb_lines::{Batches, answer_in_batches};
use kb_proof::{Log, Verified, verify};
use kb_reduce::NormalForms;
use kb_rules::Reducer;
use kb_task::{Status, load_derivations, load_presentation, status_of};
use kb_word::{Memory, Presentation};
use kb_wordreader::WordReader;
use std::alloc::Global;
use std::sync::Wait;
use std::thread::Threads;

/// Loads the presentation and its log, and answers the word lines by the log's lines, in batches of as many
/// lines as were asked for.
pub(crate) fn run_by_log<T: Threads + Wait + Sync, G: Gate, F: Shelf, I: Source, O: Sink>(
    rt: &T,
    alloc: Global,
    task: WordReduce,
    batches: &Batches<'_, G>,
    shelf: &mut F,
    input: &mut I,
    out: &mut O,
) -> Status
    requires { batches.now.size ≡ task.batch }
    ensures { IsRun (ByLogMeans task.file) StoresNothing
        (outside (F.state shelf.old) (I.state input.old) (O.state out.old))
        (outside (F.state shelf.new) (I.state input.new) (O.state out.new)) result }
{
    let file = task.file;
    let Ok(name) = log_file(alloc, &file) else {
        return Status::Memory;
    };
    let presentation = match load_presentation(alloc, file, shelf) {
        Ok(presentation) => presentation,
        Err(status) => return status,
    };
    match load_derivations(alloc, name, &presentation, shelf) {
        Ok(log) => check_log(rt, alloc, presentation, &log, batches, input, out),
        Err(status) => status,
    }
}

/// Checks the log, and answers the word lines by its lines.
fn check_log<T: Threads + Wait + Sync, G: Gate, I: Source, O: Sink>(
    rt: &T,
    alloc: Global,
    presentation: Presentation,
    log: &Log,
    batches: &Batches<'_, G>,
    input: &mut I,
    out: &mut O,
) -> Status
    requires few { length log.now.lines.items ≤ most_file }
    ensures { (shelf : ShelfState) → IsRun (LogMeans (parts_of presentation) log.now) StoresNothing
        (outside shelf (I.state input.old) (O.state out.old))
        (outside shelf (I.state input.new) (O.state out.new)) result }
{
    match verify(alloc, &presentation, log) {
        Ok(answer) => go_on(rt, alloc, presentation, log, answer, batches, input, out),
        Err(Memory) => Status::Memory,
    }
}

/// Answers the word lines by the lines of the log, where the answer of its check is yes.
fn go_on<T: Threads + Wait + Sync, G: Gate, I: Source, O: Sink>(
    rt: &T,
    alloc: Global,
    presentation: Presentation,
    log: &Log,
    answer: Verified,
    batches: &Batches<'_, G>,
    input: &mut I,
    out: &mut O,
) -> Status
    requires few { length log.now.lines.items ≤ most_file }
    requires says { VerifiedSays (Below presentation.order) (relations (parts_of presentation))
        log.now answer }
    ensures { (shelf : ShelfState) → IsRun (LogMeans (parts_of presentation) log.now) StoresNothing
        (outside shelf (I.state input.old) (O.state out.old))
        (outside shelf (I.state input.new) (O.state out.new)) result }
{
    match answer {
        Verified::Yes => check_relations(rt, alloc, presentation, log, batches, input, out),
        Verified::No { line, why } => {
            let objection = Objection::Unjustified { line, why };
            print_objection(alloc, &presentation, objection, out)
        }
    }
}

/// Checks that the relations follow from the lines of a justified log, and answers the word lines by these.
fn check_relations<T: Threads + Wait + Sync, G: Gate, I: Source, O: Sink>(
    rt: &T,
    alloc: Global,
    presentation: Presentation,
    log: &Log,
    batches: &Batches<'_, G>,
    input: &mut I,
    out: &mut O,
) -> Status
    requires few { length log.now.lines.items ≤ most_file }
    requires justified { IsJustifiedBy (parts_of presentation) log.now }
    ensures { (shelf : ShelfState) → IsRun (LogMeans (parts_of presentation) log.now) StoresNothing
        (outside shelf (I.state input.old) (O.state out.old))
        (outside shelf (I.state input.new) (O.state out.new)) result }
{
    match index_of(alloc, &presentation, log) {
        Ok(index) => check_joined(rt, alloc, presentation, log, index, batches, input, out),
        Err(Memory) => Status::Memory,
    }
}

/// Checks the relations by the index of the lines, and answers the word lines by it.
fn check_joined<T: Threads + Wait + Sync, G: Gate, I: Source, O: Sink>(
    rt: &T,
    alloc: Global,
    presentation: Presentation,
    log: &Log,
    index: Index,
    batches: &Batches<'_, G>,
    input: &mut I,
    out: &mut O,
) -> Status
    requires justified { IsJustifiedBy (parts_of presentation) log.now }
    requires lines { index.rules ≡ lines_of log.now }
    requires few { length index.rules ≤ 2 ^ 31 }
    ensures { (shelf : ShelfState) → IsRun (LogMeans (parts_of presentation) log.now) StoresNothing
        (outside shelf (I.state input.old) (O.state out.old))
        (outside shelf (I.state input.new) (O.state out.new)) result }
{
    match relation_apart(alloc, &presentation, &index) {
        Ok(None) => check_confluence(rt, alloc, presentation, log, index, batches, input, out),
        Ok(Some(objection)) => print_objection(alloc, &presentation, objection, out),
        Err(Memory) => Status::Memory,
    }
}

/// Checks that the lines are confluent, and answers the word lines by them.
fn check_confluence<T: Threads + Wait + Sync, G: Gate, I: Source, O: Sink>(
    rt: &T,
    alloc: Global,
    presentation: Presentation,
    log: &Log,
    index: Index,
    batches: &Batches<'_, G>,
    input: &mut I,
    out: &mut O,
) -> Status
    requires justified { IsJustifiedBy (parts_of presentation) log.now }
    requires joined { AreJoined (lines_of log.now) (relations (parts_of presentation)) }
    requires lines { index.rules ≡ lines_of log.now }
    requires few { length index.rules ≤ 2 ^ 31 }
    ensures { (shelf : ShelfState) → IsRun (LogMeans (parts_of presentation) log.now) StoresNothing
        (outside shelf (I.state input.old) (O.state out.old))
        (outside shelf (I.state input.new) (O.state out.new)) result }
{
    match check(rt, alloc, index.list(), &index, batches.crew()) {
        Ok(Verdict::Yes) => answer_all(rt, alloc, presentation, index, batches, input, out),
        Ok(Verdict::No { u, v, .. }) => {
            print_objection(alloc, &presentation, Objection::NotConfluent { u, v }, out)
        }
        Err(Memory) => Status::Memory,
    }
}

/// Answers the word lines by the lines of a log that decide, in batches.
fn answer_all<T: Threads + Wait + Sync, G: Gate, I: Source, O: Sink>(
    rt: &T,
    alloc: Global,
    presentation: Presentation,
    index: Index,
    batches: &Batches<'_, G>,
    input: &mut I,
    out: &mut O,
) -> Status
    ensures { (log : SomeLog) (shelf : ShelfState) → Decides (parts_of presentation) log
        → index.rules ≡ lines_of log
        → IsRun (LogMeans (parts_of presentation) log) StoresNothing
        (outside shelf (I.state input.old) (O.state out.old))
        (outside shelf (I.state input.new) (O.state out.new)) result }
{
    lines_that_decide_give_least_words();
    let Ok(reader) = WordReader::new(alloc, presentation) else {
        return Status::Memory;
    };
    let normal_forms = NormalForms { reader, index };
    match answer_in_batches(rt, alloc, &normal_forms, batches, input, out) {
        Ok(()) => Status::Yes,
        Err(stop) => status_of(stop),
    }
}
