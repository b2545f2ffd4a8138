//! Lines whose right side the other live rules reduce are replaced.

ghost use Rattle.std.specs.Prelude.{◌≡◌, ◌<◌, [], ◌∷◌, ◌++◌, IfOk, OnOk, OnErr, All, length};
ghost use Rattle.std.specs.List.{remove};
ghost use Rattle.kb_word.specs.WordOrders.{Below};
ghost use Rattle.kb_machine.specs.Lines.{rule_of};
ghost use Rattle.kb_machine.specs.declared.origin.Origin.TheVariants as origins;
ghost use Rattle.kb_book.specs.Answers.{ShortenSays};
ghost use Rattle.kb_book.specs.Normal.{AreByLines};
ghost use Rattle.kb_book.specs.Shorter.{IsShorter};

use crate::answers::Shorten;
use crate::book::Book;
use crate::copies::copy_rule;
use crate::numbers::{line_of, place_of};
use crate::room::{add, make_line_room};
use crate::steps::log_steps;
use kb_machine::{Event, Line, Origin};
use kb_rules::{Reducer, Trace};
use kb_word::Memory;
use std::alloc::Global;

impl<R: Reducer> Book<R> {
    /// Replaces a line whose right side the other live rules reduce: the new line has its normal form there.
    pub fn shorten(&mut self, alloc: Global, k: u32) -> Result<Shorten, Memory>
        ensures { ShortenSays k self.old.course self.new.course result }
    {
        let Some(place) = place_of(&self.live, k) else {
            return Ok(Shorten::Least);
        };
        // The line's own rule is never used: a word that has its left side as a factor isn't below that.
        let own = line_of(&self.lines, k);
        let trace = self.reducer.trace(alloc, &own.right)?;
        if trace.steps.is_empty() {
            return Ok(Shorten::Least);
        }
        if self.lines.len() >= self.most_lines as usize || self.halt.is_some() {
            return Ok(Shorten::NoRoom);
        }
        let line = shorter(alloc, own, k, &self.live, trace)?;
        self.replace(alloc, place, k, line)
    }

    /// Replaces the live line at a place by another with a lesser right side.
    fn replace(
        &mut self,
        alloc: Global,
        place: usize,
        k: u32,
        line: Line,
    ) -> Result<Shorten, Memory>
        requires { IsShorter self.old.course k place line }
        ensures { ShortenSays k self.old.course self.new.course result }
    {
        let new = self.lines.len() as u32 + 1;
        make_line_room(
            &mut self.journal,
            &mut self.lines,
            &mut self.live,
            &mut self.versions,
        )?;
        exchange(alloc, &mut self.reducer, place, &line)?;
        let _ = self.live.remove(place);
        add(&mut self.live, new);
        self.versions.take_away(k);
        self.versions.add_line();
        add(&mut self.lines, line);
        add(&mut self.journal, Event::Shortened { line: k, new });
        Ok(Shorten::Shortened(new))
    }
}

/// Takes the rule at a place out of a reducer's list, and adds that of a line at its end.
fn exchange<R: Reducer>(
    alloc: Global,
    reducer: &mut R,
    place: usize,
    line: &Line,
) -> Result<(), Memory>
    requires place { place < length (R.rules reducer.old) }
    requires falls { Below (R.order reducer.old) line.now.right line.now.left }
    ensures ok { OnOk result
        (R.rules reducer.new ≡ remove (R.rules reducer.old) place ++ rule_of line.now ∷ []) }
    ensures err { OnErr result (R.rules reducer.new ≡ R.rules reducer.old) }
    ensures order { R.order reducer.new ≡ R.order reducer.old }
{
    let rule = copy_rule(alloc, line)?;
    reducer.replace(alloc, place, &rule)
}

/// The line that replaces line k, whose right side was reduced.
fn shorter(alloc: Global, own: &Line, k: u32, live: &[u32], trace: Trace) -> Result<Line, Memory>
    requires { All (λ step. step.rule < length live.now) trace.steps.items }
    ensures origin { IfOk result (λ line. line.origin ≡ origins.Shortened k) }
    ensures left { IfOk result (λ line. line.left ≡ own.now.left) }
    ensures right { IfOk result (λ line. line.right ≡ trace.word) }
    ensures first_steps { IfOk result
        (λ line. AreByLines live.now trace.steps.items line.first_steps.items) }
    ensures second_steps { IfOk result (λ line. line.second_steps.items ≡ []) }
{
    let left = own.left.copy(alloc)?;
    let first_steps = log_steps(alloc, live, &trace.steps)?;
    Ok(Line {
        origin: Origin::Shortened(k),
        left,
        right: trace.word,
        first_steps,
        second_steps: Vec::new(alloc),
    })
}
