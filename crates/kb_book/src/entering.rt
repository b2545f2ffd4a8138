//! Overlaps become pending: those that workers find, and those by which new lines are balanced.

ghost use Rattle.std.specs.Prelude.{◌≡◌, ◌≢◌, ◌↔◌, ◌+◌, ◌≤◌, ◌<◌, Err, IsTrue, OnOk};
ghost use Rattle.kb_word.specs.Words.{Pair};
ghost use Rattle.kb_machine.specs.Lines.{rules_of, OverlapOfNumbers};
ghost use Rattle.kb_book.specs.Answers.{BalanceSays, EnterSays};

use crate::answers::{Balance, EnterFault};
use crate::book::Book;
use crate::numbers::line_at;
use crate::room::{add, append, make_room, prepend};
use kb_machine::{Event, Line, Origin};
use kb_overlap::meets;
use kb_rules::Reducer;
use kb_word::Memory;

impl<R: Reducer> Book<R> {
    /// Makes the overlap of two lines pending, which a worker found at a place of the first one's left side. It takes
    /// no memory where the book has room to spare.
    pub fn enter(&mut self, worker: u8, i: u32, j: u32, place: u64) -> Result<(), EnterFault>
        ensures says { EnterSays worker i j place self.old.course self.new.course result }
        ensures room { 0 < self.old.spare → result ≢ Err EnterFault.Memory }
        ensures spare { self.old.spare ≤ self.new.spare + 1 }
    {
        if !overlap(&self.lines, i, j, place) {
            return Err(EnterFault::NotOverlap);
        }
        make_room(&mut self.journal, &mut self.pending, 1)?;
        let origin = Origin::Overlap {
            first: i,
            second: j,
            place: place as u32,
        };
        let event = Event::Entered {
            worker,
            place: place as u16,
            first: i,
            second: j,
        };
        append(&mut self.pending, origin);
        add(&mut self.journal, event);
        Ok(())
    }

    /// Makes the overlap of two lines at a place of the first one's left side the first pending pair, so that a new line
    /// is balanced before anything else is looked at. In a halted book the pair that waits stays the first one.
    pub fn balance(&mut self, i: u32, j: u32, place: u64) -> Result<Balance, Memory>
        ensures { BalanceSays i j place self.old.course self.new.course result }
    {
        if self.halt.is_some() || !overlap(&self.lines, i, j, place) {
            return Ok(Balance::Stays);
        }
        make_room(&mut self.journal, &mut self.pending, 1)?;
        let origin = Origin::Overlap {
            first: i,
            second: j,
            place: place as u32,
        };
        let event = Event::Balanced {
            place: place as u16,
            first: i,
            second: j,
        };
        prepend(&mut self.pending, origin);
        add(&mut self.journal, event);
        Ok(Balance::Balanced)
    }

    /// Makes room for at least n overlaps to be entered without taking memory.
    pub fn reserve(&mut self, n: u32) -> Result<(), Memory>
        ensures ok { OnOk result (n ≤ self.new.spare) }
        ensures same { self.new.course ≡ self.old.course }
    {
        make_room(&mut self.journal, &mut self.pending, n as usize)
    }
}

/// Whether the lines with these numbers overlap at the place.
fn overlap(lines: &[Line], i: u32, j: u32, place: u64) -> bool
    ensures { IsTrue result
        ↔ ((first second : Pair) × OverlapOfNumbers (rules_of lines.now) i j place first second) }
{
    match (line_at(lines, i), line_at(lines, j)) {
        (Some(first), Some(second)) => {
            (i != j || 0 < place) && meets(&first.left, &second.left, place)
        }
        _ => false,
    }
}
