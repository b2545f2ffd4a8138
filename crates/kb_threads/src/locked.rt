//! What lies under the lock.

ghost use Rattle.std.specs.Prelude.{◌≡◌, ◌+◌, OnErr, OnOk};
ghost use Rattle.kb_machine.specs.Course.{Takes};
ghost use Rattle.kb_share.specs.Passes.{IsOverlapOfLines, entry_of};
ghost use Rattle.kb_threads.specs.Shared.{AreOverlaps, CountsEntry, IsStageOf};

use crate::pass::Pass;
use crate::sharing::Sharing;
use kb_book::{Book, EnterFault};
use kb_rules::Reducer;
use kb_share::Found;
use kb_word::Memory;
use std::marker::Model;
use std::sync::ledger;

/// A book that workers share. It is the completion that was given to them, into which the first overlaps of the batch
/// were entered: as many as they were told.
#[derive(Drop)]
pub(crate) struct Locked<R: Reducer, S: Sharing> {
    book: Book<R>,
    /// The place of the next overlap in the batch.
    next: usize,
    entered: ledger::Book<S>,
}

impl<R: Reducer, S: Sharing> Model for Locked<R, S> {
    ghost use Rattle.std.specs.Prelude.{◌≡◌};
    ghost use Rattle.kb_threads.specs.Shared.{LockedParts, IsStageOf};

    ghost Value = { LockedParts };

    ghost view = { λ locked. record { course = locked.book.course; entered = locked.next } };

    ghost invariant = { λ locked. (locked.entered.total ≡ locked.next)
        × IsStageOf S.given S.batch (record { course = locked.book.course; entered = locked.next }) };
}

impl<R: Reducer, S: Sharing> Locked<R, S> {
    /// The book that is given to the workers.
    pub(crate) fn new(book: Book<R>, entered: ledger::Book<S>) -> Locked<R, S>
        requires given { book.course ≡ S.given }
        requires overlaps { AreOverlaps S.given S.batch }
        requires none { entered.total ≡ 0 }
    {
        Locked {
            book,
            next: 0,
            entered,
        }
    }

    /// Enters the next overlap of the batch for a worker, and tells whether one was left.
    pub(crate) fn enter(&mut self, pass: &mut Pass<S>, batch: &[Found]) -> Result<bool, Memory>
        requires { batch.now ≡ S.batch }
        ensures { CountsEntry pass.old pass.new result }
    {
        let Locked {
            book,
            next,
            entered,
        } = self;
        let Some(one) = batch.get(*next) else {
            return Ok(false);
        };
        enter_counted(book, entered, pass, one)?;
        *next += 1;
        Ok(true)
    }

    /// The book, and how many overlaps its workers entered.
    pub(crate) fn into_book(self, all: &mut ledger::Share<S>) -> (Book<R>, usize)
        requires { all.old.parts ≡ S.parts }
        ensures stage { IsStageOf S.given S.batch
            (record { course = result.0.course; entered = result.1 }) }
        ensures count { result.1 ≡ all.old.amount }
    {
        let Locked {
            book,
            next,
            mut entered,
        } = self;
        entered.audit(all);
        (book, next)
    }
}

/// Enters an overlap into a book for a worker, and counts it.
fn enter_counted<R: Reducer, S: Sharing>(
    book: &mut Book<R>,
    entered: &mut ledger::Book<S>,
    pass: &mut Pass<S>,
    one: &Found,
) -> Result<(), Memory>
    requires { IsOverlapOfLines book.old.course.state one.now }
    ensures ok { OnOk result (Takes (entry_of pass.old.worker one.now) book.old.course book.new.course) }
    ensures err { OnErr result (book.new.course ≡ book.old.course) }
    ensures counts { OnOk result (pass.new ≡ record pass.old { entered = pass.old.entered + 1 }) }
    ensures same { OnErr result (pass.new ≡ pass.old) }
    ensures total { OnOk result (entered.new.total ≡ entered.old.total + 1) }
    ensures none { OnErr result (entered.new.total ≡ entered.old.total) }
{
    match book.enter(pass.worker(), one.first, one.second, one.place) {
        Ok(()) => {
            pass.note_entry(entered);
            Ok(())
        }
        Err(EnterFault::NotOverlap) => unreachable!(),
        Err(EnterFault::Memory) => Err(Memory),
    }
}
