//! New lines are balanced by the rules of inverses.

ghost use Rattle.kb_share.specs.Balancing.{BalancesAtMost};

use crate::found::Found;
use kb_book::Book;
use kb_machine::Line;
use kb_rules::Reducer;
use kb_word::{Letter, Memory};
use std::alloc::Global;

/// A left side is balanced that has so many letters, or more.
const FEWEST: usize = 3;

/// A left side is balanced that is longer than the right side by so many letters, or more.
const LONGER: usize = 2;

/// The lines with two letters on the left and none on the right, by which new lines are balanced. Such a line says that
/// its letters are inverse to each other. Nothing is promised of which ones are known.
#[derive(Drop)]
pub struct Inverses {
    /// Whether new lines are balanced.
    balances: bool,
    /// How many lines of the book were met.
    met: u32,
    /// For each letter, by its number, the last line whose second letter it is, or 0.
    before: Vec<u32>,
    /// For each letter, by its number, the last line whose first letter it is, or 0.
    after: Vec<u32>,
}

/// The overlaps of a line with rules of inverses, as far as such are known.
#[derive(Clone, Copy)]
struct Ends {
    /// That in which the rule of inverses begins first.
    before: Option<Found>,
    /// That in which the line begins first.
    after: Option<Found>,
}

impl Inverses {
    /// No line was met yet, and new lines aren't balanced.
    pub(crate) fn new(alloc: Global) -> Inverses {
        Inverses {
            balances: false,
            met: 0,
            before: Vec::new(alloc),
            after: Vec::new(alloc),
        }
    }

    /// From now on new lines are balanced, or aren't.
    pub fn balance(&mut self, on: bool) {
        self.balances = on;
    }

    /// Notes the lines of inverses among those that came since.
    fn meet(&mut self, lines: &[Line]) -> Result<(), Memory> {
        let known = (self.met as usize).min(lines.len());
        for line in &lines[known..] {
            self.met = self.met.saturating_add(1);
            self.note(self.met, line)?;
        }
        Ok(())
    }

    /// Notes this line, if it is one of inverses.
    fn note(&mut self, number: u32, line: &Line) -> Result<(), Memory> {
        if let [first, second] = line.left.letters()
            && line.right.is_empty()
        {
            put(&mut self.before, *second, number)?;
            put(&mut self.after, *first, number)?;
        }
        Ok(())
    }

    /// The overlaps of line k at its ends, where it is to be balanced.
    fn ends(&self, lines: &[Line], live: &[u32], k: u32) -> Option<Ends> {
        let left = unbalanced(lines, live, k)?;
        Some(Ends {
            before: self.overlap_before(left, live, k),
            after: self.overlap_after(left, live, k),
        })
    }

    /// The overlap of line k, which has this left side, with a line before it.
    fn overlap_before(&self, left: &[Letter], live: &[u32], k: u32) -> Option<Found> {
        let (first, _) = left.split_first()?;
        let inverse = noted(&self.before, live, *first)?;
        Some(Found {
            first: inverse,
            second: k,
            place: 1,
        })
    }

    /// The overlap of line k, which has this left side, with a line after it.
    fn overlap_after(&self, left: &[Letter], live: &[u32], k: u32) -> Option<Found> {
        let (last, front) = left.split_last()?;
        let inverse = noted(&self.after, live, *last)?;
        Some(Found {
            first: k,
            second: inverse,
            place: front.len() as u64,
        })
    }
}

/// Where new lines are balanced, and the left side of line k is much longer than its right side, its overlaps with the
/// rules of inverses at both its ends become the first pending pairs, as far as such rules are known.
pub(crate) fn balance<R: Reducer>(
    book: &mut Book<R>,
    k: u32,
    inverses: &mut Inverses,
) -> Result<(), Memory>
    ensures { BalancesAtMost 2 book.old.course book.new.course }
{
    if !inverses.balances {
        return Ok(());
    }
    inverses.meet(book.lines())?;
    let Some(ends) = inverses.ends(book.lines(), book.live(), k) else {
        return Ok(());
    };
    balance_by(book, ends.after)?;
    balance_by(book, ends.before)
}

/// Makes this the first pending pair, if it is an overlap.
fn balance_by<R: Reducer>(book: &mut Book<R>, likely: Option<Found>) -> Result<(), Memory>
    ensures { BalancesAtMost 1 book.old.course book.new.course }
{
    if let Some(one) = likely {
        book.balance(one.first, one.second, one.place)?;
    }
    Ok(())
}

/// The left side of line k, if it is live, and that side much longer than the right one.
fn unbalanced<'a>(lines: &'a [Line], live: &[u32], k: u32) -> Option<&'a [Letter]> {
    let index = k.checked_sub(1)?;
    let line = lines.get(index as usize)?;
    let longer = line.left.len().saturating_sub(line.right.len());
    if line.left.len() < FEWEST || longer < LONGER || !is_live(live, k) {
        return None;
    }
    Some(line.left.letters())
}

/// The live line that is noted by this letter.
fn noted(numbers: &[u32], live: &[u32], letter: Letter) -> Option<u32> {
    let number = *numbers.get(letter.number() as usize)?;
    if !is_live(live, number) {
        return None;
    }
    Some(number)
}

/// Whether a line is one of the live lines, which ascend.
fn is_live(live: &[u32], number: u32) -> bool {
    live.binary_search(&number).is_ok()
}

/// Notes a line by this letter, in place of an earlier one.
fn put(numbers: &mut Vec<u32>, letter: Letter, number: u32) -> Result<(), Memory> {
    let place = letter.number() as usize;
    if numbers.len() <= place {
        numbers.resize(place + 1, 0)?;
    }
    if let Some(noted) = numbers.get_mut(place) {
        *noted = number;
    }
    Ok(())
}
