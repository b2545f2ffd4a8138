//! The top call.

ghost use Rattle.std.specs.Prelude.{map, string_bytes};
ghost use Rattle.kb_io.specs.Outside.{outside};
ghost use Rattle.kb_task.specs.Runs.{IsRun};
ghost use Rattle.kb_cli.specs.Headline.{Headline, MayStore};

use crate::arguments::{UsageError, read_arguments};
use crate::messages::{report, tell};
use kb_io::{Gate, Shelf, Sink, Source};
use kb_task::{Status, Task};
use std::alloc::Global;
use std::sync::Wait;
use std::thread::Threads;

/// Runs the program on the arguments after its name.
///
/// The clause is the program's promise: what `Headline` states of the arguments, of the outside before and after,
/// and of the status, where the shelf and the streams tell their bytes; and with every status, told or not, that a
/// fault is a failure that was counted, that counts never fall, and that only files change that the command may store.
/// Real files and streams don't tell their bytes, but there nobody else writes them. Workers are threads
/// of `rt`, and pass the gate, which is for tests.
pub fn run<T: Threads + Wait + Sync, F: Shelf, I: Source, O: Sink, E: Sink, G: Gate>(
    rt: &T,
    alloc: Global,
    arguments: &[String],
    shelf: &mut F,
    input: &mut I,
    out: &mut O,
    err: &mut E,
    gate: &G,
) -> Status
    ensures { IsRun (Headline (map string_bytes arguments.now))
        (MayStore (map string_bytes arguments.now))
        (outside (F.state shelf.old) (I.state input.old) (O.state out.old))
        (outside (F.state shelf.new) (I.state input.new) (O.state out.new)) result }
{
    match read_arguments(alloc, arguments) {
        Ok(command) => {
            let status = command.run(rt, alloc, gate, shelf, input, out, err);
            report(alloc, &status, err);
            status
        }
        Err(UsageError::Usage { kind, text }) => {
            tell(err, &text);
            Status::Usage(kind)
        }
        Err(UsageError::Memory) => {
            report(alloc, &Status::Memory, err);
            Status::Memory
        }
    }
}
