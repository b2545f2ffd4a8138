//! Lines whose left side has another live one as a factor are taken away.

ghost use Rattle.std.specs.Prelude.{◌≡◌, ◌↔◌, ◌<◌, ℕ, IsTrue, IfSome, IfNone, Some, slice_get};
ghost use Rattle.std.specs.List.{AllPairs, Contains};
ghost use Rattle.kb_machine.specs.Lines.{rules_of};
ghost use Rattle.kb_book.specs.Answers.{KillSays};
ghost use Rattle.kb_book.specs.Factors.{IsLeftFactor, HasOtherFactor, IsReplaceable};

use crate::answers::Kill;
use crate::book::Book;
use crate::numbers::{line_at, place_of};
use crate::room::{add, append, make_room};
use kb_machine::{Event, Line, Origin};
use kb_rules::Reducer;
use kb_word::{Memory, Word, factor_at};

impl<R: Reducer> Book<R> {
    /// Takes a line away whose left side has another live one as a factor; the pair of its sides becomes pending.
    pub fn kill(&mut self, k: u32) -> Result<Kill, Memory>
        ensures { KillSays k self.old.course self.new.course result }
    {
        let Some(place) = replaceable(&self.lines, &self.live, k) else {
            return Ok(Kill::Stays);
        };
        let alloc = *self.live.allocator();
        make_room(&mut self.journal, &mut self.pending, 1)?;
        self.reducer.remove(alloc, place)?;
        let _ = self.live.remove(place);
        self.versions.take_away(k);
        append(&mut self.pending, Origin::Killed(k));
        add(&mut self.journal, Event::Killed(k));
        Ok(Kill::Killed)
    }
}

/// The place of a live line whose left side has another live one as a factor.
fn replaceable(lines: &[Line], live: &[u32], k: u32) -> Option<usize>
    requires { AllPairs (λ one other. one < other) live.now }
    ensures some { IfSome result (IsReplaceable (rules_of lines.now) live.now k) }
    ensures none { IfNone result
        ((place : ℕ) → ¬ IsReplaceable (rules_of lines.now) live.now k place) }
{
    let place = place_of(live, k)?;
    let line = line_at(lines, k)?;
    if has_other_factor(lines, live, k, &line.left) {
        Some(place)
    } else {
        None
    }
}

/// Whether a live left side other than that of line k is a factor of the word. The newest lines come first, since it
/// is mostly the last one by which others are taken away.
fn has_other_factor(lines: &[Line], live: &[u32], k: u32, word: &Word) -> bool
    ensures { IsTrue result ↔ HasOtherFactor (rules_of lines.now) live.now k word.now }
{
    for other in live.iter().rev() {
        if *other != k && is_left_factor(lines, *other, word) {
            return true;
        }
    }
    false
}

/// Whether the left side of this line is a factor of the word.
fn is_left_factor(lines: &[Line], k: u32, word: &Word) -> bool
    ensures { IsTrue result ↔ IsLeftFactor (rules_of lines.now) k word.now }
{
    match line_at(lines, k) {
        Some(line) => factor_at(word, &line.left).is_some(),
        None => false,
    }
}
