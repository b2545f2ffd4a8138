//! What is held between two reads.

ghost use Rattle.std.specs.Prelude.{◌≡◌, ◌<◌, ◌≤◌, ◌+◌, ◌^◌, [], ◌++◌, ℕ, List, length, IsTrue, OnOk, OnErr, IfErr};
ghost use Rattle.std.specs.List.{AllByRecursion};
ghost use Rattle.kb_io.specs.Bytes.{AppendsPrefix};
ghost use Rattle.kb_io.specs.States.{SinkGoesOn};
ghost use Rattle.kb_lines.specs.Progress.{IsFresh, IsReady, LineEnds, LineStops, Advances, StopsIn, LineStopIsCounted, most_pending};
ghost use Rattle.kb_lines.specs.WordLines.{IsOneLine};
ghost use Rattle.kb_lines.specs.Batches.{AreBlockAnswers, AreLines, BlockGives, BlockRefused, IsBlockAnswer, joined, lines_in};
ghost use Rattle.kb_lines.specs.declared.stop.Stop.TheVariants as stops;

use crate::answerer::Answerer;
use crate::batches::Batches;
use crate::line::{LineWorkspace, answer_line, split_line};
use crate::stop::Stop;
use crate::together::{Block, BlockAnswer, answers_to};
use kb_io::{Gate, Sink, write_all};
use kb_record::WordError;
use std::alloc::Global;
use std::mem::replace;
use std::sync::Wait;
use std::thread::Threads;

/// The line that has begun, how many lines ended before it, and the answers that aren't sent yet.
#[derive(Drop)]
pub(crate) struct Progress {
    line: Vec<u8>,
    number: u32,
    pending: Vec<u8>,
}

/// Answers are sent once they have this many bytes (`most_pending` of `specs/Progress.antt`), and before the next read.
const ENOUGH: usize = 65_536;

impl Progress {
    /// No line has begun.
    pub(crate) fn new(alloc: Global) -> Progress
        ensures { IsFresh result }
    {
        Progress {
            line: Vec::new(alloc),
            number: 0,
            pending: Vec::new(alloc),
        }
    }

    /// Takes bytes of the input: answers each line that ends in them, sends all answers, and keeps
    /// what has come of the next line.
    pub(crate) fn take_bytes<A: Answerer, O: Sink>(
        &mut self,
        alloc: Global,
        answerer: &A,
        work: &mut LineWorkspace<A::Workspace>,
        bytes: &[u8],
        out: &mut O,
    ) -> Result<(), Stop>
        requires room { self.old.number + length bytes.now < 2 ^ 32 }
        ensures advances { IsReady self.old (O.state out.old) → OnOk result
            (Advances (A.parts answerer.now) (A.answers answerer.now) bytes.now [] self.old self.new
            (O.state out.old) (O.state out.new)) }
        ensures sent { OnOk result (self.new.pending.items ≡ []) }
        ensures open_line { IsOneLine self.old.line.items
            → OnOk result (IsOneLine self.new.line.items) }
        ensures number { OnOk result (self.new.number ≤ self.old.number + length bytes.now) }

        // After a stop.
        ensures stops { IsReady self.old (O.state out.old) → IfErr result
            (StopsIn (A.parts answerer.now) (A.answers answerer.now) bytes.now self.old
            (O.state out.old) (O.state out.new)) }
        ensures counted { IfErr result (LineStopIsCounted (O.state out.old) (O.state out.new)) }
        ensures goes_on { SinkGoesOn (O.state out.old) (O.state out.new) }
    {
        self.take_lines(alloc, answerer, work, bytes, out)?;
        self.send(out)
    }

    /// At the end of the input: answers the last line, and sends all answers.
    pub(crate) fn finish<A: Answerer, O: Sink>(
        &mut self,
        alloc: Global,
        answerer: &A,
        work: &mut LineWorkspace<A::Workspace>,
        out: &mut O,
    ) -> Result<(), Stop>
        requires room { self.old.number + 1 < 2 ^ 32 }
        ensures ends { IsTrue (O.state out.old).told → OnOk result
            (LineEnds (A.parts answerer.now) (A.answers answerer.now) self.old.line.items
            self.old self.new (O.state out.old) (O.state out.new)) }
        ensures sent { OnOk result (self.new.pending.items ≡ []) }

        // After a stop.
        ensures stops { IsTrue (O.state out.old).told → IfErr result
            (LineStops (A.parts answerer.now) (A.answers answerer.now) self.old.line.items
            self.old.number self.old.pending.items (O.state out.old) (O.state out.new)) }
        ensures counted { IfErr result (LineStopIsCounted (O.state out.old) (O.state out.new)) }
        ensures goes_on { SinkGoesOn (O.state out.old) (O.state out.new) }
    {
        self.end_line(alloc, answerer, work, &[], out)?;
        self.send(out)
    }

    /// Takes bytes of the input: answers each line that ends in them, and keeps what has come of
    /// the next.
    fn take_lines<A: Answerer, O: Sink>(
        &mut self,
        alloc: Global,
        answerer: &A,
        work: &mut LineWorkspace<A::Workspace>,
        bytes: &[u8],
        out: &mut O,
    ) -> Result<(), Stop>
        requires room { self.old.number + length bytes.now < 2 ^ 32 }
        ensures advances { IsReady self.old (O.state out.old) → OnOk result
            (Advances (A.parts answerer.now) (A.answers answerer.now) bytes.now [] self.old self.new
            (O.state out.old) (O.state out.new)) }
        ensures open_line { IsOneLine self.old.line.items
            → OnOk result (IsOneLine self.new.line.items) }
        ensures number { OnOk result (self.new.number ≤ self.old.number + length bytes.now) }

        // After a stop.
        ensures stops { IsReady self.old (O.state out.old) → IfErr result
            (StopsIn (A.parts answerer.now) (A.answers answerer.now) bytes.now self.old
            (O.state out.old) (O.state out.new)) }
        ensures counted { IfErr result (LineStopIsCounted (O.state out.old) (O.state out.new)) }
        ensures goes_on { SinkGoesOn (O.state out.old) (O.state out.new) }
    {
        let mut rest = bytes;
        while let Some((line, behind)) = split_line(rest) {
            self.end_line(alloc, answerer, work, line, out)?;
            rest = behind;
        }
        self.line.extend_from_slice(rest)?;
        Ok(())
    }

    /// Answers the line that has begun and ends with these bytes. Where none has begun, it isn't copied.
    fn end_line<A: Answerer, O: Sink>(
        &mut self,
        alloc: Global,
        answerer: &A,
        work: &mut LineWorkspace<A::Workspace>,
        end: &[u8],
        out: &mut O,
    ) -> Result<(), Stop>
        requires room { self.old.number + 1 < 2 ^ 32 }
        ensures ends { IsTrue (O.state out.old).told → OnOk result
            (LineEnds (A.parts answerer.now) (A.answers answerer.now)
            (self.old.line.items ++ end.now) self.old self.new
            (O.state out.old) (O.state out.new)) }
        ensures fresh { OnOk result (self.new.line.items ≡ []) }
        ensures few { OnOk result (length self.new.pending.items < most_pending) }
        ensures number { OnOk result (self.new.number ≡ self.old.number + 1) }

        // After a stop.
        ensures stops { IsTrue (O.state out.old).told → IfErr result
            (LineStops (A.parts answerer.now) (A.answers answerer.now)
            (self.old.line.items ++ end.now) self.old.number self.old.pending.items
            (O.state out.old) (O.state out.new)) }
        ensures counted { IfErr result (LineStopIsCounted (O.state out.old) (O.state out.new)) }
        ensures goes_on { SinkGoesOn (O.state out.old) (O.state out.new) }
    {
        if self.line.is_empty() {
            return self.answer(alloc, answerer, work, end, out);
        }
        self.line.extend_from_slice(end)?;
        let mut line = replace(&mut self.line, Vec::new(alloc));
        self.answer(alloc, answerer, work, &line, out)?;
        line.clear();
        self.line = line;
        Ok(())
    }

    /// Answers a line, where no other has begun.
    fn answer<A: Answerer, O: Sink>(
        &mut self,
        alloc: Global,
        answerer: &A,
        work: &mut LineWorkspace<A::Workspace>,
        line: &[u8],
        out: &mut O,
    ) -> Result<(), Stop>
        requires fresh { self.old.line.items ≡ [] }
        requires room { self.old.number + 1 < 2 ^ 32 }
        ensures ends { IsTrue (O.state out.old).told → OnOk result
            (LineEnds (A.parts answerer.now) (A.answers answerer.now) line.now self.old self.new
            (O.state out.old) (O.state out.new)) }
        ensures fresh { OnOk result (self.new.line.items ≡ []) }
        ensures few { OnOk result (length self.new.pending.items < most_pending) }
        ensures number { OnOk result (self.new.number ≡ self.old.number + 1) }

        // After a stop.
        ensures stops { IsTrue (O.state out.old).told → IfErr result
            (LineStops (A.parts answerer.now) (A.answers answerer.now) line.now
            self.old.number self.old.pending.items (O.state out.old) (O.state out.new)) }
        ensures counted { IfErr result (LineStopIsCounted (O.state out.old) (O.state out.new)) }
        ensures goes_on { SinkGoesOn (O.state out.old) (O.state out.new) }
    {
        match answer_line(alloc, answerer, work, line, &mut self.pending) {
            Ok(()) => {
                self.number += 1;
                if self.pending.len() < ENOUGH {
                    return Ok(());
                }
                self.send(out)
            }
            Err(WordError::Memory) => Err(Stop::Memory),
            Err(fault) => {
                self.send(out)?;
                Err(Stop::Refused {
                    number: self.number + 1,
                    fault,
                })
            }
        }
    }

    /// Begins a line, where none has begun.
    pub(crate) fn begin(&mut self, line: Vec<u8>)
        ensures line { self.new.line.items ≡ line.items }
        ensures number { self.new.number ≡ self.old.number }
        ensures pending { self.new.pending.items ≡ self.old.pending.items }
    {
        self.line = line;
    }

    /// Answers blocks of lines together, where no line has begun, and sends all answers.
    pub(crate) fn answer_together<A: Answerer + Sync, G: Gate, T: Threads + Wait + Sync, O: Sink>(
        &mut self,
        rt: &T,
        alloc: Global,
        answerer: &A,
        batches: &Batches<'_, G>,
        blocks: &[Block],
        out: &mut O,
    ) -> Result<(), Stop>
    where
        A::Workspace: Send,
        requires fresh { self.old.line.items ≡ [] }
        requires few { length blocks.now ≤ length (joined blocks.now) }
        requires room { self.old.number + length (joined blocks.now) < 2 ^ 32 }
        requires each { AllByRecursion AreLines blocks.now }
        ensures advances { IsTrue (O.state out.old).told → OnOk result
            (Advances (A.parts answerer.now) (A.answers answerer.now) (joined blocks.now) []
            self.old self.new (O.state out.old) (O.state out.new)) }
        ensures fresh { OnOk result (self.new.line.items ≡ []) }
        ensures sent { OnOk result (self.new.pending.items ≡ []) }
        ensures number { OnOk result
            (self.new.number ≤ self.old.number + length (joined blocks.now)) }

        // After a stop.
        ensures stops { IsTrue (O.state out.old).told → IfErr result
            (StopsIn (A.parts answerer.now) (A.answers answerer.now) (joined blocks.now) self.old
            (O.state out.old) (O.state out.new)) }
        ensures counted { IfErr result (LineStopIsCounted (O.state out.old) (O.state out.new)) }
        ensures goes_on { SinkGoesOn (O.state out.old) (O.state out.new) }
    {
        let answers = answers_to(rt, alloc, answerer, batches, blocks)?;
        self.add_all(answerer, blocks, answers, out)?;
        self.send(out)
    }

    /// Adds the answers to blocks in their order, where no line has begun. Of the answerer and the blocks nothing is
    /// read: they say what is given.
    fn add_all<A: Answerer, O: Sink>(
        &mut self,
        answerer: &A,
        blocks: &[Block],
        answers: Vec<BlockAnswer>,
        out: &mut O,
    ) -> Result<(), Stop>
        requires fresh { self.old.line.items ≡ [] }
        requires room { self.old.number + length (joined blocks.now) < 2 ^ 32 }
        requires each { AllByRecursion AreLines blocks.now }
        requires answers { AreBlockAnswers (A.parts answerer.now) (A.answers answerer.now)
            blocks.now answers.items }
        ensures advances { IsTrue (O.state out.old).told → OnOk result
            (Advances (A.parts answerer.now) (A.answers answerer.now) (joined blocks.now) []
            self.old self.new (O.state out.old) (O.state out.new)) }
        ensures fresh { OnOk result (self.new.line.items ≡ []) }
        ensures number { OnOk result
            (self.new.number ≤ self.old.number + length (joined blocks.now)) }

        // After a stop.
        ensures stops { IsTrue (O.state out.old).told → IfErr result
            (StopsIn (A.parts answerer.now) (A.answers answerer.now) (joined blocks.now) self.old
            (O.state out.old) (O.state out.new)) }
        ensures counted { IfErr result (LineStopIsCounted (O.state out.old) (O.state out.new)) }
        ensures goes_on { SinkGoesOn (O.state out.old) (O.state out.new) }
    {
        let _ = blocks;
        for answer in answers {
            self.add(answerer, answer, out)?;
        }
        Ok(())
    }

    /// Adds the answer to a block, where no line has begun.
    fn add<A: Answerer, O: Sink>(
        &mut self,
        answerer: &A,
        answer: BlockAnswer,
        out: &mut O,
    ) -> Result<(), Stop>
        requires fresh { self.old.line.items ≡ [] }
        requires room { self.old.number + lines_in answer < 2 ^ 32 }
        ensures advances { (block : List ℕ) → AreLines block
            → IsBlockAnswer (A.parts answerer.now) (A.answers answerer.now) block answer
            → IsTrue (O.state out.old).told → OnOk result
            (Advances (A.parts answerer.now) (A.answers answerer.now) block [] self.old self.new
            (O.state out.old) (O.state out.new)) }
        ensures fresh { OnOk result (self.new.line.items ≡ []) }
        ensures few { OnOk result (length self.new.pending.items < most_pending) }
        ensures number { OnOk result (self.new.number ≡ self.old.number + lines_in answer) }

        // After a stop.
        ensures stops { (block : List ℕ) → AreLines block
            → IsBlockAnswer (A.parts answerer.now) (A.answers answerer.now) block answer
            → IsTrue (O.state out.old).told → IfErr result
            (StopsIn (A.parts answerer.now) (A.answers answerer.now) block self.old
            (O.state out.old) (O.state out.new)) }
        ensures counted { IfErr result (LineStopIsCounted (O.state out.old) (O.state out.new)) }
        ensures goes_on { SinkGoesOn (O.state out.old) (O.state out.new) }
    {
        match answer {
            BlockAnswer::Given { count, text } => self.add_text(answerer, count, &text, out),
            BlockAnswer::Faulty { count, text, fault } => {
                Err(self.refuse(answerer, count, &text, fault, out))
            }
        }
    }

    /// Adds the text that so many lines give, where no line has begun. Of the answerer nothing is read: it says what
    /// lines give.
    fn add_text<A: Answerer, O: Sink>(
        &mut self,
        answerer: &A,
        count: usize,
        text: &[u8],
        out: &mut O,
    ) -> Result<(), Stop>
        requires fresh { self.old.line.items ≡ [] }
        requires room { self.old.number + count < 2 ^ 32 }
        ensures advances { (block : List ℕ) → AreLines block
            → BlockGives (A.parts answerer.now) (A.answers answerer.now) block count text.now
            → IsTrue (O.state out.old).told → OnOk result
            (Advances (A.parts answerer.now) (A.answers answerer.now) block [] self.old self.new
            (O.state out.old) (O.state out.new)) }
        ensures fresh { OnOk result (self.new.line.items ≡ []) }
        ensures few { OnOk result (length self.new.pending.items < most_pending) }
        ensures number { OnOk result (self.new.number ≡ self.old.number + count) }

        // After a stop.
        ensures stops { (block : List ℕ) → AreLines block
            → BlockGives (A.parts answerer.now) (A.answers answerer.now) block count text.now
            → IsTrue (O.state out.old).told → IfErr result
            (StopsIn (A.parts answerer.now) (A.answers answerer.now) block self.old
            (O.state out.old) (O.state out.new)) }
        ensures counted { IfErr result (LineStopIsCounted (O.state out.old) (O.state out.new)) }
        ensures goes_on { SinkGoesOn (O.state out.old) (O.state out.new) }
    {
        let _ = answerer;
        self.pending.extend_from_slice(text)?;
        self.number += count as u32;
        if self.pending.len() < ENOUGH {
            return Ok(());
        }
        self.send(out)
    }

    /// Why the answers stop in a block of which so many lines give the text and the next has a fault: first all answers
    /// before it are sent. Of the answerer nothing is read: it says what lines give.
    fn refuse<A: Answerer, O: Sink>(
        &mut self,
        answerer: &A,
        count: usize,
        text: &[u8],
        fault: WordError,
        out: &mut O,
    ) -> Stop
        requires fresh { self.old.line.items ≡ [] }
        requires room { self.old.number + (count + 1) < 2 ^ 32 }
        ensures stops { (block : List ℕ)
            → BlockRefused (A.parts answerer.now) (A.answers answerer.now) block count text.now fault
            → IsTrue (O.state out.old).told
            → StopsIn (A.parts answerer.now) (A.answers answerer.now) block self.old
            (O.state out.old) (O.state out.new) result }
        ensures counted { LineStopIsCounted (O.state out.old) (O.state out.new) result }
        ensures goes_on { SinkGoesOn (O.state out.old) (O.state out.new) }
    {
        let _ = answerer;
        if self.pending.extend_from_slice(text).is_err() {
            return Stop::Memory;
        }
        match self.send(out) {
            Ok(()) => Stop::Refused {
                number: self.number + (count as u32 + 1),
                fault,
            },
            Err(stop) => stop,
        }
    }

    /// Sends what is pending.
    fn send<O: Sink>(&mut self, out: &mut O) -> Result<(), Stop>
        ensures sent { IsTrue (O.state out.old).told → OnOk result
            ((O.state out.new).written ≡ (O.state out.old).written ++ self.old.pending.items) }
        ensures none { OnOk result (self.new.pending.items ≡ []) }
        ensures line { self.new.line ≡ self.old.line }
        ensures number { self.new.number ≡ self.old.number }

        // After a failure.
        ensures front { IsTrue (O.state out.old).told → OnErr result
            (AppendsPrefix (O.state out.old).written (O.state out.new).written
            self.old.pending.items) }
        ensures output { IfErr result (λ stop. stop ≡ stops.Output) }
        ensures counted { OnErr result ((O.state out.old).faults < (O.state out.new).faults) }
        ensures goes_on { SinkGoesOn (O.state out.old) (O.state out.new) }
    {
        let Ok(()) = write_all(out, &self.pending) else {
            return Err(Stop::Output);
        };
        self.pending.clear();
        Ok(())
    }
}
