//! Passes by one worker.

ghost use Rattle.std.specs.Prelude.{◌≡◌, ◌≤◌, ◌<◌, IfOk};
ghost use Rattle.std.specs.List.{AllPairs};
ghost use Rattle.kb_share.specs.Versions.{IsPublished};
ghost use Rattle.kb_share.specs.Passes.{AreAllApart, EntersSoMany};
ghost use Rattle.kb_word.specs.Overlap.{IsConfluent};
ghost use Rattle.kb_machine.specs.States.{live_rules};

use crate::entering::enter_all;
use crate::found::Found;
use crate::row::apart_in_row;
use crate::sound::book_is_sound;
use crate::version::Version;
use kb_book::Book;
use kb_overlap::{LeftSides, PairWorkspace};
use kb_rules::Reducer;
use kb_word::Memory;
use std::alloc::Global;

/// One worker, who sifts all overlaps of live lines in their order.
#[derive(Clone, Copy, Debug, PartialEq, Eq)]
pub struct OneByOne;

impl OneByOne {
    /// Makes a pass over a book whose last version has its live lines, and tells how many overlaps were entered. Where
    /// there was none, the live rules are confluent.
    pub fn enter_apart<R: Reducer>(self, alloc: Global, book: &mut Book<R>) -> Result<usize, Memory>
        requires { IsPublished book.old.course.state }
        ensures entered { IfOk result (EntersSoMany book.old.course book.new.course) }
        ensures none { IfOk result (λ count. count ≡ 0
            → IsConfluent (live_rules book.old.course.state)) }
    {
        book_is_sound(book);
        let found = all_apart(alloc, &Version::of(book))?;
        enter_all(book, 1, &found)?;
        Ok(found.len())
    }
}

/// The overlaps of the version's lines that are apart, in their order.
fn all_apart<R: Reducer>(alloc: Global, version: &Version<'_, R>) -> Result<Vec<Found>, Memory>
    requires { AllPairs (λ one other. one < other) version.now.numbers }
    ensures { IfOk result (λ found. AreAllApart version.now found.items) }
{
    // A use of the numbers brings that there is one for each rule.
    let _numbers = version.numbers();
    let rules = version.rules().as_slice();
    let left_sides = LeftSides::of(alloc, rules)?;
    let mut pair = PairWorkspace::new(alloc);
    let mut overlaps = Vec::new(alloc);
    let mut row = Vec::new(alloc);
    let mut found = Vec::new(alloc);
    for (index, first) in rules.iter().enumerate() {
        left_sides.overlaps(first.left(), &mut overlaps)?;
        apart_in_row(version, index, first, &overlaps, &mut pair, &mut row)?;
        found.extend_from_slice(&row)?;
    }
    Ok(found)
}
