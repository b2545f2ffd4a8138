//! Lines are made of pending pairs.

ghost use Rattle.std.specs.Prelude.{◌≡◌, ◌<◌, ◌≤◌, List, [], ◌∷◌, IfOk, IfSome, IfNone, length};
ghost use Rattle.kb_machine.specs.declared.origin.Origin.{Origin};
ghost use Rattle.kb_machine.specs.declared.halt.Halt.TheVariants as halts;
ghost use Rattle.kb_book.specs.Answers.{MakeSays};
ghost use Rattle.kb_book.specs.Normal.{IsNext, IsNextLine, PairIsApart, PairIsJoined, IsLimitOf};

use crate::answers::Make;
use crate::book::Book;
use crate::copies::{copy_halt, copy_rule};
use crate::pairs::put_pair;
use crate::room::{add, grow, make_line_room};
use crate::steps::{log_steps, ordered};
use kb_machine::{Event, Halt, Line, Origin};
use kb_overlap::Joinability;
use kb_rules::Reducer;
use kb_word::Memory;
use std::alloc::Global;
use std::collections::VecDeque;

impl<R: Reducer> Book<R> {
    /// Makes a line of the first pending pair, by the normal forms of its words; or drops the pair, where it is joined;
    /// or halts at a limit. A halted book answers the same again.
    pub fn make(&mut self, alloc: Global) -> Result<Make, Memory>
        ensures { MakeSays self.old.course self.new.course result }
    {
        if let Some(halt) = &self.halt {
            return Ok(Make::Halted(copy_halt(alloc, halt)?));
        }
        let Some(origin) = first_of(&self.pending) else {
            return Ok(Make::Idle);
        };
        put_pair(&self.relations, &self.lines, origin, &mut self.pair)?;
        match self.pair.reduce(&self.reducer)? {
            Joinability::Joined => self.drop_pair(origin),
            Joinability::Apart => self.go_on(alloc, origin),
        }
    }

    /// Drops the first pending pair, which is joined.
    fn drop_pair(&mut self, origin: Origin) -> Result<Make, Memory>
        requires next { IsNext self.old.course origin }
        requires joined { PairIsJoined self.old.course origin }
        ensures { MakeSays self.old.course self.new.course result }
    {
        grow(&mut self.journal, 1)?;
        let _ = self.pending.pop_front();
        add(&mut self.journal, Event::Dropped);
        Ok(Make::Dropped)
    }

    /// Makes a line of the first pending pair, which is apart, or halts at a limit.
    fn go_on(&mut self, alloc: Global, origin: Origin) -> Result<Make, Memory>
        requires next { IsNext self.old.course origin }
        requires apart { PairIsApart self.old.course origin }
        ensures { MakeSays self.old.course self.new.course result }
    {
        let line = self.next_line(alloc, origin)?;
        if self.lines.len() == self.most_lines as usize {
            return self.stop(alloc, too_many(line));
        }
        if line.left.len() > self.most_letters as usize {
            return self.stop(alloc, too_long(line));
        }
        self.add_line(alloc, line)
    }

    /// The line that the first pending pair gives.
    fn next_line(&mut self, alloc: Global, origin: Origin) -> Result<Line, Memory>
        requires next { IsNext self.old.course origin }
        requires apart { PairIsApart self.old.course origin }
        ensures line { IfOk result (IsNextLine self.old.course) }
        ensures same { self.new.course ≡ self.old.course }
    {
        put_pair(&self.relations, &self.lines, origin, &mut self.pair)?;
        let first = self.reducer.trace(alloc, self.pair.first())?;
        let second = self.reducer.trace(alloc, self.pair.second())?;
        let first_steps = log_steps(alloc, &self.live, &first.steps)?;
        let second_steps = log_steps(alloc, &self.live, &second.steps)?;
        let (left, right) = ordered(&self.order, first.word, second.word);
        Ok(Line {
            origin,
            left,
            right,
            first_steps,
            second_steps,
        })
    }

    /// Adds the line that the first pending pair gives.
    fn add_line(&mut self, alloc: Global, line: Line) -> Result<Make, Memory>
        requires line { IsNextLine self.old.course line }
        requires room { length self.old.course.state.lines < self.old.course.problem.most_lines }
        requires short { length line.left ≤ self.old.course.problem.most_letters }
        ensures { MakeSays self.old.course self.new.course result }
    {
        let rule = copy_rule(alloc, &line)?;
        let k = self.lines.len() as u32 + 1;
        make_line_room(
            &mut self.journal,
            &mut self.lines,
            &mut self.live,
            &mut self.versions,
        )?;
        self.reducer.push(alloc, &rule)?;
        let _ = self.pending.pop_front();
        add(&mut self.lines, line);
        add(&mut self.live, k);
        self.versions.add_line();
        add(&mut self.journal, Event::Made(k));
        Ok(Make::Made(k))
    }

    /// Halts at a limit.
    fn stop(&mut self, alloc: Global, halt: Halt) -> Result<Make, Memory>
        requires { IsLimitOf self.old.course halt }
        ensures { MakeSays self.old.course self.new.course result }
    {
        let copy = copy_halt(alloc, &halt)?;
        grow(&mut self.journal, 1)?;
        self.halt = Some(halt);
        add(&mut self.journal, Event::Halted);
        Ok(Make::Halted(copy))
    }
}

/// The first of the origins.
fn first_of(pending: &VecDeque<Origin>) -> Option<Origin>
    ensures some { IfSome result
        (λ origin. (rest : List Origin) × (pending.now.items ≡ origin ∷ rest)) }
    ensures none { IfNone result (pending.now.items ≡ []) }
{
    pending.front().copied()
}

/// There are as many lines as there may be.
fn too_many(line: Line) -> Halt
    ensures { result ≡ halts.Rules line.left line.right line.first_steps line.second_steps }
{
    Halt::Rules {
        u: line.left,
        v: line.right,
        first_steps: line.first_steps,
        second_steps: line.second_steps,
    }
}

/// The greater word has more letters than a left side may have.
fn too_long(line: Line) -> Halt
    ensures { result ≡ halts.Length line.left line.right line.first_steps line.second_steps }
{
    Halt::Length {
        u: line.left,
        v: line.right,
        first_steps: line.first_steps,
        second_steps: line.second_steps,
    }
}
