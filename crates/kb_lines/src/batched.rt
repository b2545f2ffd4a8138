//! Word lines that are answered in batches.

ghost use Rattle.std.specs.Prelude.{◌≡◌, ◌↔◌, ◌<◌, ◌≤◌, ◌++◌, [], length, take, IsTrue, OnOk, IfErr, IfOk, OnErr};
ghost use Rattle.kb_io.specs.States.{SourceGoesOn};
ghost use Rattle.kb_lines.specs.Streams.{streams, AreTold, StreamsGoOn};
ghost use Rattle.kb_lines.specs.Answered.{AllAnswered, Stops, StopIsCounted};
ghost use Rattle.kb_lines.specs.Batches.{IsShortOfBatch};

use crate::answerer::Answerer;
use crate::batch::Batch;
use crate::batches::Batches;
use crate::ending::{answer_to_the_end, stop_at_failure, stop_past_most};
use crate::lines::{BUFFER, MOST_INPUT, answer_lines};
use crate::stop::Stop;
use kb_io::{Failed, Gate, Sink, Source};
use std::alloc::Global;
use std::sync::Wait;
use std::thread::Threads;

/// Answers the word lines of the input, up to its end: lines are taken until they make a batch or none is to come, and
/// those taken are then answered by workers, in their order.
pub fn answer_in_batches<A: Answerer + Sync, G: Gate, T: Threads + Wait + Sync, I: Source, O: Sink>(
    rt: &T,
    alloc: Global,
    answerer: &A,
    batches: &Batches<'_, G>,
    input: &mut I,
    out: &mut O,
) -> Result<(), Stop>
where
    A::Workspace: Send,
    ensures answered { AreTold (streams (I.state input.old) (O.state out.old)) → OnOk result
        (AllAnswered (A.parts answerer.now) (A.answers answerer.now)
        (streams (I.state input.old) (O.state out.old))
        (streams (I.state input.new) (O.state out.new))) }

    // After a stop.
    ensures stops { AreTold (streams (I.state input.old) (O.state out.old)) → IfErr result
        (Stops (A.parts answerer.now) (A.answers answerer.now)
        (streams (I.state input.old) (O.state out.old))
        (streams (I.state input.new) (O.state out.new))) }
    ensures counted { IfErr result (StopIsCounted
        (streams (I.state input.old) (O.state out.old))
        (streams (I.state input.new) (O.state out.new))) }
    ensures goes_on { StreamsGoOn
        (streams (I.state input.old) (O.state out.old))
        (streams (I.state input.new) (O.state out.new)) }
{
    if batches.size < 2 {
        return answer_lines(alloc, answerer, input, out);
    }
    answer_batches(rt, alloc, answerer, batches, input, out)
}

/// The same by batches of more than one line.
fn answer_batches<A: Answerer + Sync, G: Gate, T: Threads + Wait + Sync, I: Source, O: Sink>(
    rt: &T,
    alloc: Global,
    answerer: &A,
    batches: &Batches<'_, G>,
    input: &mut I,
    out: &mut O,
) -> Result<(), Stop>
where
    A::Workspace: Send,
    requires { 1 < batches.now.size }
    ensures answered { AreTold (streams (I.state input.old) (O.state out.old)) → OnOk result
        (AllAnswered (A.parts answerer.now) (A.answers answerer.now)
        (streams (I.state input.old) (O.state out.old))
        (streams (I.state input.new) (O.state out.new))) }

    // After a stop.
    ensures stops { AreTold (streams (I.state input.old) (O.state out.old)) → IfErr result
        (Stops (A.parts answerer.now) (A.answers answerer.now)
        (streams (I.state input.old) (O.state out.old))
        (streams (I.state input.new) (O.state out.new))) }
    ensures counted { IfErr result (StopIsCounted
        (streams (I.state input.old) (O.state out.old))
        (streams (I.state input.new) (O.state out.new))) }
    ensures goes_on { StreamsGoOn
        (streams (I.state input.old) (O.state out.old))
        (streams (I.state input.new) (O.state out.new)) }
{
    let mut space = vec![in alloc; 0u8; BUFFER]?;
    let buffer = space.as_mut_slice();
    let mut batch = Batch::new(alloc);
    let mut count = 0;
    loop {
        let more = match read_next(&batch, batches, input, buffer) {
            Ok(more) => more,
            Err(Failed) => {
                return Err(stop_at_failure(rt, alloc, answerer, batches, &mut batch, out));
            }
        };
        if more == 0 {
            return answer_to_the_end(rt, alloc, answerer, batches, &mut batch, out);
        }
        let room = MOST_INPUT - count;
        if room < more {
            let bytes = &buffer[..room];
            return Err(stop_past_most(rt, alloc, answerer, batches, &mut batch, bytes, out));
        }
        batch.take_bytes(rt, alloc, answerer, batches, &buffer[..more], out)?;
        count += more;
    }
}

/// Reads more of the input, as [`Source::read`]. Of the batch nothing is read: fewer lines are held than make a
/// batch, and all that was answered was sent, where more input is asked for.
fn read_next<G: Gate, I: Source>(
    batch: &Batch,
    batches: &Batches<'_, G>,
    input: &mut I,
    buffer: &mut [u8],
) -> Result<usize, Failed>
    requires some { 0 < length buffer.old }
    requires short { IsShortOfBatch batches.now.size batch.now }
    ensures room { IfOk result (λ taken. taken ≤ length buffer.old) }
    ensures moved { IsTrue (I.state input.old).told
        → IfOk result (λ taken.
        (I.state input.old).left ≡ take taken buffer.new ++ (I.state input.new).left) }
    ensures end { IsTrue (I.state input.old).told
        → IfOk result (λ taken. (taken ≡ 0) ↔ ((I.state input.old).left ≡ [])) }
    ensures kept { IsTrue (I.state input.old).told
        → OnErr result ((I.state input.new).left ≡ (I.state input.old).left) }
    ensures goes_on { SourceGoesOn (I.state input.old) (I.state input.new) }
    ensures failed { OnErr result ((I.state input.old).faults < (I.state input.new).faults) }
{
    let _ = batch;
    let _ = batches;
    input.read(buffer)
}
