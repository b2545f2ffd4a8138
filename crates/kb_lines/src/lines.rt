//! Word lines from their first byte to the end of the input.

ghost use Rattle.std.specs.Prelude.{◌≡◌, ◌↔◌, ◌<◌, ◌≤◌, ◌++◌, [], length, take, IsTrue, OnOk, IfErr, IfOk, OnErr};
ghost use Rattle.kb_io.specs.States.{SourceGoesOn};
ghost use Rattle.kb_lines.specs.Streams.{streams, AreTold, StreamsGoOn};
ghost use Rattle.kb_lines.specs.Answered.{AllAnswered, Stops, StopIsCounted};
ghost use Rattle.kb_lines.specs.Progress.{IsCaughtUp};

use crate::answerer::Answerer;
use crate::line::LineWorkspace;
use crate::progress::Progress;
use crate::stop::Stop;
use kb_io::{Failed, Sink, Source};
use kb_word::Word;
use std::alloc::Global;

/// The most bytes of word lines that are read.
pub(crate) const MOST_INPUT: usize = 67_108_864;

/// The most bytes that are asked for at once.
pub(crate) const BUFFER: usize = 65_536;

/// Answers the word lines of the input, up to its end.
pub fn answer_lines<A: Answerer, I: Source, O: Sink>(
    alloc: Global,
    answerer: &A,
    input: &mut I,
    out: &mut O,
) -> Result<(), Stop>
    ensures answered { AreTold (streams (I.state input.old) (O.state out.old)) → OnOk result
        (AllAnswered (A.parts answerer.now) (A.answers answerer.now)
        (streams (I.state input.old) (O.state out.old))
        (streams (I.state input.new) (O.state out.new))) }

    // After a stop.
    ensures stops { AreTold (streams (I.state input.old) (O.state out.old)) → IfErr result
        (Stops (A.parts answerer.now) (A.answers answerer.now)
        (streams (I.state input.old) (O.state out.old))
        (streams (I.state input.new) (O.state out.new))) }
    ensures counted { IfErr result (StopIsCounted
        (streams (I.state input.old) (O.state out.old))
        (streams (I.state input.new) (O.state out.new))) }
    ensures goes_on { StreamsGoOn
        (streams (I.state input.old) (O.state out.old))
        (streams (I.state input.new) (O.state out.new)) }
{
    let mut space = vec![in alloc; 0u8; BUFFER]?;
    let buffer = space.as_mut_slice();
    let mut work = LineWorkspace {
        word: Word::new(alloc),
        workspace: answerer.workspace(alloc),
    };
    let mut progress = Progress::new(alloc);
    let mut count = 0;
    loop {
        let more = match read_next(&progress, input, buffer) {
            Ok(more) => more,
            Err(Failed) => return Err(Stop::Input),
        };
        if more == 0 {
            return progress.finish(alloc, answerer, &mut work, out);
        }
        let room = MOST_INPUT - count;
        progress.take_bytes(alloc, answerer, &mut work, &buffer[..more.min(room)], out)?;
        if room < more {
            return Err(Stop::TooLong);
        }
        count += more;
    }
}

/// Reads more of the input, as [`Source::read`]. Of the progress nothing is read: all that was answered was
/// sent, and no line that ended waits, where more input is asked for.
fn read_next<I: Source>(
    progress: &Progress,
    input: &mut I,
    buffer: &mut [u8],
) -> Result<usize, Failed>
    requires some { 0 < length buffer.old }
    requires caught_up { IsCaughtUp progress.now }
    ensures room { IfOk result (λ taken. taken ≤ length buffer.old) }
    ensures moved { IsTrue (I.state input.old).told
        → IfOk result (λ taken.
        (I.state input.old).left ≡ take taken buffer.new ++ (I.state input.new).left) }
    ensures end { IsTrue (I.state input.old).told
        → IfOk result (λ taken. (taken ≡ 0) ↔ ((I.state input.old).left ≡ [])) }
    ensures kept { IsTrue (I.state input.old).told
        → OnErr result ((I.state input.new).left ≡ (I.state input.old).left) }
    ensures goes_on { SourceGoesOn (I.state input.old) (I.state input.new) }
    ensures failed { OnErr result ((I.state input.old).faults < (I.state input.new).faults) }
{
    let _ = progress;
    input.read(buffer)
}
