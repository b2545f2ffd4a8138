//! A completion that workers share.

ghost use Rattle.std.specs.Prelude.{◌≡◌, ◌≤◌, ◌<◌, length, All, IfErr, IfOk};
ghost use Rattle.kb_threads.specs.Shared.{AreNumbered, AreOverlaps, CountsEntry, EntersBatch, entered_by};

use crate::locked::Locked;
use crate::pass::Pass;
use crate::sharing::Sharing;
use kb_book::Book;
use kb_rules::Reducer;
use kb_share::{Found, enter_all};
use kb_word::Memory;
use std::alloc::Global;
use std::sync::ledger::{Blank, Share};
use std::sync::{Mutex, Wait};

/// The number that stands for whoever takes the book back.
const OWNER: u8 = 1;

/// A book under a lock, and a batch of overlaps to enter into it. Whenever the lock is got, nothing happened to the
/// completion that was given but that the first overlaps of the batch were entered, as many as the workers were told.
#[derive(Drop)]
pub struct Shared<R: Reducer, S: Sharing> {
    locked: Mutex<Locked<R, S>>,
    batch: Vec<Found>,
    ghost own: { batch.items ≡ S.batch },
}

impl<R: Reducer, S: Sharing> Shared<R, S> {
    /// Shares a book with workers, each of which gets a pass. They are numbered from 1 on. Where there is no memory for
    /// the passes, the book comes back.
    pub fn new(
        alloc: Global,
        book: Book<R>,
        batch: Vec<Found>,
        blank: Blank,
        workers: u8,
    ) -> Result<(Shared<R, S>, Vec<Pass<S>>), Book<R>>
        requires name { blank.name ≡ S.name }
        requires parts { (blank.parts ≡ S.parts) × (blank.parts ≡ workers) × (1 ≤ workers) }
        requires given { book.course ≡ S.given }
        requires batch { batch.items ≡ S.batch }
        requires overlaps { AreOverlaps S.given S.batch }
        ensures count { IfOk result (λ made. length made.1.items ≡ S.parts) }
        ensures none { IfOk result (λ made. All (λ pass. pass.entered ≡ 0) made.1.items) }
        ensures numbers { IfOk result (λ made. AreNumbered made.1.items) }
        ensures back { IfErr result (λ same. same ≡ book) }
    {
        let (entered, all) = blank.open::<S>();
        let Ok(passes) = passes_of(alloc, all, workers) else {
            return Err(book);
        };
        let locked = Mutex::new(Locked::new(book, entered));
        Ok((Shared { locked, batch }, passes))
    }

    /// Enters the next overlap of the batch for a worker, and tells whether one was left.
    pub fn enter<T: Wait>(&self, rt: &T, pass: &mut Pass<S>) -> Result<bool, Memory>
        ensures { CountsEntry pass.old pass.new result }
    {
        self.locked.lock(rt).enter(pass, &self.batch)
    }

    /// The book that was shared, by all its passes, with the whole batch entered: what no worker came to is entered
    /// now.
    pub fn finish(self, passes: Vec<Pass<S>>) -> Result<Book<R>, Memory>
        requires { (length passes.items ≡ S.parts) × (0 < S.parts) }
        ensures enters { IfOk result (λ after. EntersBatch S.given S.batch after.course) }
        ensures counted { entered_by passes.items ≤ length S.batch }
    {
        let mut all = gathered(passes);
        let Shared { locked, batch } = self;
        let (mut book, entered) = locked.into_inner().into_book(&mut all);
        enter_all(&mut book, OWNER, &batch[entered..])?;
        Ok(book)
    }
}

/// Passes of so many workers that have entered nothing, numbered from 1 on.
fn passes_of<S: Sharing>(
    alloc: Global,
    mut rest: Share<S>,
    workers: u8,
) -> Result<Vec<Pass<S>>, Memory>
    requires { (rest.parts ≡ workers) × (rest.amount ≡ 0) }
    ensures count { IfOk result (λ passes. length passes.items ≡ workers) }
    ensures none { IfOk result (λ passes. All (λ pass. pass.entered ≡ 0) passes.items) }
    ensures numbers { IfOk result (λ passes. AreNumbered passes.items) }
{
    let mut passes = Vec::new(alloc);
    for worker in 0..workers {
        passes.push(Pass::of(worker + 1, &mut rest))?;
    }
    Ok(passes)
}

/// All parts of these passes in one.
fn gathered<S: Sharing>(mut passes: Vec<Pass<S>>) -> Share<S>
    requires { 0 < length passes.items }
    ensures parts { result.parts ≡ length passes.items }
    ensures amount { result.amount ≡ entered_by passes.items }
{
    let Some(last) = passes.pop() else {
        unreachable!()
    };
    let mut all = last.into_share();
    while let Some(pass) = passes.pop() {
        all.merge(pass.into_share());
    }
    all
}
