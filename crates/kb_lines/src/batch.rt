//! Lines that were taken and aren't answered yet.

ghost use Rattle.std.specs.Prelude.{◌≡◌, ◌<◌, ◌≤◌, ◌+◌, ◌^◌, [], ◌∷◌, ◌++◌, length, IsTrue, OnOk, IfErr};
ghost use Rattle.kb_io.specs.Bytes.{newline};
ghost use Rattle.kb_io.specs.States.{SinkGoesOn};
ghost use Rattle.kb_lines.specs.WordLines.{IsOneLine};
ghost use Rattle.kb_lines.specs.Progress.{Advances, StopsIn, LineStopIsCounted};
ghost use Rattle.kb_lines.specs.Batches.{BatchAdvances, IsHeld, IsNew, least_taken, lines_held, held, taken, joined};

use crate::answerer::Answerer;
use crate::batches::Batches;
use crate::line::split_line;
use crate::progress::Progress;
use crate::stop::Stop;
use crate::together::Block;
use kb_io::{Gate, Sink};
use kb_word::Memory;
use std::alloc::Global;
use std::mem::replace;
use std::sync::Wait;
use std::thread::Threads;

/// The lines that were taken and aren't answered yet, the line that has begun, and how far the lines before them came.
#[derive(Drop)]
pub(crate) struct Batch {
    /// Blocks of lines, of which none is empty.
    blocks: Vec<Block>,
    /// The lines behind them, each with its newline.
    block: Vec<u8>,
    line: Vec<u8>,
    /// How many lines make up a batch so far, and how many of them are behind the blocks.
    count: u32,
    filled: u32,
    pub progress: Progress,
}

impl Batch {
    /// No line was taken, and none has begun.
    pub(crate) fn new(alloc: Global) -> Batch
        ensures { IsNew result }
    {
        Batch {
            blocks: Vec::new(alloc),
            block: Vec::new(alloc),
            line: Vec::new(alloc),
            count: 0,
            filled: 0,
            progress: Progress::new(alloc),
        }
    }

    /// Takes bytes of the input: takes each line that ends in them, answers the lines that were taken whenever they
    /// make a batch, and keeps what has come of the next line.
    pub(crate) fn take_bytes<A: Answerer + Sync, G: Gate, T: Threads + Wait + Sync, O: Sink>(
        &mut self,
        rt: &T,
        alloc: Global,
        answerer: &A,
        batches: &Batches<'_, G>,
        bytes: &[u8],
        out: &mut O,
    ) -> Result<(), Stop>
    where
        A::Workspace: Send,
        requires ready { IsHeld self.old }
        requires room { least_taken self.old + length bytes.now < 2 ^ 32 }
        ensures advances { IsTrue (O.state out.old).told → OnOk result
            (BatchAdvances (A.parts answerer.now) (A.answers answerer.now) bytes.now []
            self.old self.new (O.state out.old) (O.state out.new)) }
        ensures ready { OnOk result (IsHeld self.new) }
        ensures fewer { lines_held self.old < batches.now.size
            → OnOk result (lines_held self.new < batches.now.size) }
        ensures number { OnOk result
            (least_taken self.new ≤ least_taken self.old + length bytes.now) }

        // After a stop.
        ensures stops { IsTrue (O.state out.old).told → IfErr result
            (StopsIn (A.parts answerer.now) (A.answers answerer.now) (held self.old ++ bytes.now)
            self.old.progress (O.state out.old) (O.state out.new)) }
        ensures counted { IfErr result (LineStopIsCounted (O.state out.old) (O.state out.new)) }
        ensures goes_on { SinkGoesOn (O.state out.old) (O.state out.new) }
    {
        let mut rest = bytes;
        while let Some((line, behind)) = split_line(rest) {
            self.end_line(rt, alloc, answerer, batches, line, out)?;
            rest = behind;
        }
        self.line.extend_from_slice(rest)?;
        Ok(())
    }

    /// Takes the last bytes that are taken of the input: answers all lines that ended, and hands the line that has
    /// begun on to the progress.
    pub(crate) fn take_last<A: Answerer + Sync, G: Gate, T: Threads + Wait + Sync, O: Sink>(
        &mut self,
        rt: &T,
        alloc: Global,
        answerer: &A,
        batches: &Batches<'_, G>,
        bytes: &[u8],
        out: &mut O,
    ) -> Result<(), Stop>
    where
        A::Workspace: Send,
        requires ready { IsHeld self.old }
        requires room { least_taken self.old + length bytes.now < 2 ^ 32 }
        ensures advances { IsTrue (O.state out.old).told → OnOk result
            (Advances (A.parts answerer.now) (A.answers answerer.now) (held self.old ++ bytes.now) []
            self.old.progress self.new.progress (O.state out.old) (O.state out.new)) }
        ensures sent { OnOk result (self.new.progress.pending.items ≡ []) }
        ensures number { OnOk result
            (self.new.progress.number ≤ least_taken self.old + length bytes.now) }

        // After a stop.
        ensures stops { IsTrue (O.state out.old).told → IfErr result
            (StopsIn (A.parts answerer.now) (A.answers answerer.now) (held self.old ++ bytes.now)
            self.old.progress (O.state out.old) (O.state out.new)) }
        ensures counted { IfErr result (LineStopIsCounted (O.state out.old) (O.state out.new)) }
        ensures goes_on { SinkGoesOn (O.state out.old) (O.state out.new) }
    {
        self.take_bytes(rt, alloc, answerer, batches, bytes, out)?;
        self.answer_taken(rt, alloc, answerer, batches, out)?;
        self.hand_on(alloc);
        Ok(())
    }

    /// Hands the line that has begun on to the progress.
    fn hand_on(&mut self, alloc: Global)
        ensures line { self.new.progress.line.items ≡ self.old.line.items }
        ensures number { self.new.progress.number ≡ self.old.progress.number }
        ensures pending { self.new.progress.pending.items ≡ self.old.progress.pending.items }
    {
        let line = replace(&mut self.line, Vec::new(alloc));
        self.progress.begin(line);
    }

    /// Takes the line that has begun and ends with these bytes, and answers the lines that were taken if they make a
    /// batch.
    fn end_line<A: Answerer + Sync, G: Gate, T: Threads + Wait + Sync, O: Sink>(
        &mut self,
        rt: &T,
        alloc: Global,
        answerer: &A,
        batches: &Batches<'_, G>,
        end: &[u8],
        out: &mut O,
    ) -> Result<(), Stop>
    where
        A::Workspace: Send,
        requires ready { IsHeld self.old }
        requires one { IsOneLine end.now }
        requires room { least_taken self.old + length end.now + 1 < 2 ^ 32 }
        ensures advances { IsTrue (O.state out.old).told → OnOk result
            (BatchAdvances (A.parts answerer.now) (A.answers answerer.now)
            (end.now ++ newline ∷ []) [] self.old self.new (O.state out.old) (O.state out.new)) }
        ensures ready { OnOk result (IsHeld self.new) }
        ensures fewer { 0 < batches.now.size
            → OnOk result (lines_held self.new < batches.now.size) }
        ensures number { OnOk result
            (least_taken self.new ≤ least_taken self.old + length end.now + 1) }

        // After a stop.
        ensures stops { IsTrue (O.state out.old).told → IfErr result
            (StopsIn (A.parts answerer.now) (A.answers answerer.now)
            (held self.old ++ (end.now ++ newline ∷ []))
            self.old.progress (O.state out.old) (O.state out.new)) }
        ensures counted { IfErr result (LineStopIsCounted (O.state out.old) (O.state out.new)) }
        ensures goes_on { SinkGoesOn (O.state out.old) (O.state out.new) }
    {
        self.take_line(alloc, batches, end)?;
        if self.count < batches.size {
            return Ok(());
        }
        self.answer_taken(rt, alloc, answerer, batches, out)?;
        Ok(())
    }

    /// Takes the line that has begun and ends with these bytes, and ends the block if it is full.
    fn take_line<G: Gate>(
        &mut self,
        alloc: Global,
        batches: &Batches<'_, G>,
        end: &[u8],
    ) -> Result<(), Memory>
        requires ready { IsHeld self.old }
        requires one { IsOneLine end.now }
        requires room { least_taken self.old + 1 < 2 ^ 32 }
        ensures held { OnOk result (held self.new ≡ held self.old ++ (end.now ++ newline ∷ [])) }
        ensures ready { OnOk result (IsHeld self.new) }
        ensures progress { self.new.progress ≡ self.old.progress }
    {
        self.add_line(end)?;
        self.count += 1;
        self.filled = self.filled.saturating_add(1);
        if self.filled <= batches.block() {
            return Ok(());
        }
        self.end_block(alloc)?;
        Ok(())
    }

    /// Puts the line that has begun and ends with these bytes behind the others.
    fn add_line(&mut self, end: &[u8]) -> Result<(), Memory>
        ensures block { OnOk result (self.new.block.items
            ≡ self.old.block.items ++ ((self.old.line.items ++ end.now) ++ newline ∷ [])) }
        ensures blocks { self.new.blocks.items ≡ self.old.blocks.items }
        ensures line { OnOk result (self.new.line.items ≡ []) }
        ensures count { self.new.count ≡ self.old.count }
        ensures progress { self.new.progress ≡ self.old.progress }
    {
        self.line.extend_from_slice(end)?;
        self.line.push(b'\n')?;
        self.block.extend_from_slice(&self.line)?;
        self.line.clear();
        Ok(())
    }

    /// Makes a block of the lines behind the blocks, if there are any.
    fn end_block(&mut self, alloc: Global) -> Result<(), Memory>
        requires ready { IsHeld self.old }
        ensures taken { OnOk result (joined self.new.blocks.items ≡ taken self.old) }
        ensures none { OnOk result (self.new.block.items ≡ []) }
        ensures ready { OnOk result (IsHeld self.new) }
        ensures line { self.new.line.items ≡ self.old.line.items }
        ensures progress { self.new.progress ≡ self.old.progress }
    {
        self.filled = 0;
        if self.block.is_empty() {
            return Ok(());
        }
        let block = replace(&mut self.block, Vec::new(alloc));
        self.blocks.push(Block::of(block))?;
        Ok(())
    }

    /// Answers the lines that were taken, if there are any, and sends all answers.
    fn answer_taken<A: Answerer + Sync, G: Gate, T: Threads + Wait + Sync, O: Sink>(
        &mut self,
        rt: &T,
        alloc: Global,
        answerer: &A,
        batches: &Batches<'_, G>,
        out: &mut O,
    ) -> Result<(), Stop>
    where
        A::Workspace: Send,
        requires ready { IsHeld self.old }
        requires room { least_taken self.old < 2 ^ 32 }
        ensures advances { IsTrue (O.state out.old).told → OnOk result
            (Advances (A.parts answerer.now) (A.answers answerer.now) (taken self.old) []
            self.old.progress self.new.progress (O.state out.old) (O.state out.new)) }
        ensures ready { OnOk result (IsHeld self.new) }
        ensures none { OnOk result (taken self.new ≡ []) }
        ensures line { OnOk result (self.new.line.items ≡ self.old.line.items) }
        ensures number { OnOk result (least_taken self.new ≤ least_taken self.old) }

        // After a stop.
        ensures stops { IsTrue (O.state out.old).told → IfErr result
            (StopsIn (A.parts answerer.now) (A.answers answerer.now) (taken self.old)
            self.old.progress (O.state out.old) (O.state out.new)) }
        ensures counted { IfErr result (LineStopIsCounted (O.state out.old) (O.state out.new)) }
        ensures goes_on { SinkGoesOn (O.state out.old) (O.state out.new) }
    {
        self.end_block(alloc)?;
        self.count = 0;
        if self.blocks.is_empty() {
            return Ok(());
        }
        self.progress
            .answer_together(rt, alloc, answerer, batches, &self.blocks, out)?;
        self.blocks.clear();
        Ok(())
    }
}
