//! How the reading ends where lines wait for their batch.

ghost use Rattle.std.specs.Prelude.{◌≡◌, ◌<◌, ◌≤◌, ◌+◌, ◌^◌, ℕ, List, [], ◌++◌, length, IsTrue, OnOk, IfErr};
ghost use Rattle.kb_io.specs.States.{SourceState, SinkGoesOn};
ghost use Rattle.kb_lines.specs.WordLines.{most_input};
ghost use Rattle.kb_lines.specs.Streams.{Streams, streams};
ghost use Rattle.kb_lines.specs.Answered.{AllAnswered, Stops, StopIsCounted};
ghost use Rattle.kb_lines.specs.Progress.{LineStopIsCounted};
ghost use Rattle.kb_lines.specs.Batches.{IsHeld, IsHolding, least_taken};

use crate::answerer::Answerer;
use crate::batch::Batch;
use crate::batches::Batches;
use crate::line::LineWorkspace;
use crate::stop::Stop;
use kb_io::{Gate, Sink};
use kb_word::Word;
use std::alloc::Global;
use std::sync::Wait;
use std::thread::Threads;

/// Where the input ended: answers all lines that ended, and then the last one.
pub(crate) fn answer_to_the_end<A: Answerer + Sync, G: Gate, T: Threads + Wait + Sync, O: Sink>(
    rt: &T,
    alloc: Global,
    answerer: &A,
    batches: &Batches<'_, G>,
    batch: &mut Batch,
    out: &mut O,
) -> Result<(), Stop>
where
    A::Workspace: Send,
    requires ready { IsHeld batch.old }
    requires room { least_taken batch.old + 1 < 2 ^ 32 }
    ensures answered { (before : Streams) (count : ℕ) (input input' : SourceState)
        → IsHolding (A.parts answerer.now) (A.answers answerer.now) before
        (streams input (O.state out.old)) batch.old count
        → count ≤ most_input → input.left ≡ [] → input'.left ≡ []
        → IsTrue (O.state out.old).told → OnOk result
        (AllAnswered (A.parts answerer.now) (A.answers answerer.now) before
        (streams input' (O.state out.new))) }

    // After a stop.
    ensures stops { (before : Streams) (count : ℕ) (input input' : SourceState)
        → IsHolding (A.parts answerer.now) (A.answers answerer.now) before
        (streams input (O.state out.old)) batch.old count
        → count ≤ most_input → input.left ≡ [] → input'.left ≡ []
        → IsTrue (O.state out.old).told → IfErr result
        (Stops (A.parts answerer.now) (A.answers answerer.now) before
        (streams input' (O.state out.new))) }
    ensures counted { IfErr result (LineStopIsCounted (O.state out.old) (O.state out.new)) }
    ensures goes_on { SinkGoesOn (O.state out.old) (O.state out.new) }
{
    batch.take_last(rt, alloc, answerer, batches, &[], out)?;
    let mut work = LineWorkspace {
        word: Word::new(alloc),
        workspace: answerer.workspace(alloc),
    };
    batch.progress.finish(alloc, answerer, &mut work, out)?;
    Ok(())
}

/// Where the input failed: answers all lines that ended, and says why the answers stop.
pub(crate) fn stop_at_failure<A: Answerer + Sync, G: Gate, T: Threads + Wait + Sync, O: Sink>(
    rt: &T,
    alloc: Global,
    answerer: &A,
    batches: &Batches<'_, G>,
    batch: &mut Batch,
    out: &mut O,
) -> Stop
where
    A::Workspace: Send,
    requires ready { IsHeld batch.old }
    requires room { least_taken batch.old < 2 ^ 32 }
    ensures stops { (before : Streams) (count : ℕ) (input input' : SourceState)
        → IsHolding (A.parts answerer.now) (A.answers answerer.now) before
        (streams input (O.state out.old)) batch.old count
        → count ≤ most_input → input'.left ≡ input.left
        → IsTrue (O.state out.old).told
        → Stops (A.parts answerer.now) (A.answers answerer.now) before
        (streams input' (O.state out.new)) result }
    ensures counted { (input input' : SourceState) → input.faults < input'.faults
        → StopIsCounted (streams input (O.state out.old)) (streams input' (O.state out.new)) result }
    ensures goes_on { SinkGoesOn (O.state out.old) (O.state out.new) }
{
    match batch.take_last(rt, alloc, answerer, batches, &[], out) {
        Ok(()) => Stop::Input,
        Err(stop) => stop,
    }
}

/// Where more was read than may be: answers all lines that end in the bytes that may be read, of which these are the
/// last, and says why the answers stop.
pub(crate) fn stop_past_most<A: Answerer + Sync, G: Gate, T: Threads + Wait + Sync, O: Sink>(
    rt: &T,
    alloc: Global,
    answerer: &A,
    batches: &Batches<'_, G>,
    batch: &mut Batch,
    bytes: &[u8],
    out: &mut O,
) -> Stop
where
    A::Workspace: Send,
    requires ready { IsHeld batch.old }
    requires room { least_taken batch.old + length bytes.now < 2 ^ 32 }
    ensures stops { (before : Streams) (count : ℕ) (input input' : SourceState)
        (read extra : List ℕ)
        → IsHolding (A.parts answerer.now) (A.answers answerer.now) before
        (streams input (O.state out.old)) batch.old count
        → input.left ≡ read ++ input'.left → read ≡ bytes.now ++ extra
        → count + length bytes.now ≡ most_input → most_input < count + length read
        → IsTrue (O.state out.old).told
        → Stops (A.parts answerer.now) (A.answers answerer.now) before
        (streams input' (O.state out.new)) result }
    ensures counted { (input input' : SourceState)
        → StopIsCounted (streams input (O.state out.old)) (streams input' (O.state out.new)) result }
    ensures goes_on { SinkGoesOn (O.state out.old) (O.state out.new) }
{
    match batch.take_last(rt, alloc, answerer, batches, bytes, out) {
        Ok(()) => Stop::TooLong,
        Err(stop) => stop,
    }
}
