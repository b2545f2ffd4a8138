//! A worker's token.

ghost use Rattle.std.specs.Prelude.{◌≡◌, ◌+◌, ◌≤◌};

use crate::sharing::Sharing;
use std::marker::Model;
use std::sync::ledger::{Book, Share};

/// A worker's part in a completion that is shared: its number, and how many overlaps it has
/// entered. It is never copied.
#[derive(Drop)]
pub struct Pass<S: Sharing> {
    worker: u8,
    share: Share<S>,
}

impl<S: Sharing> Model for Pass<S> {
    ghost use Rattle.std.specs.Prelude.{◌≡◌};
    ghost use Rattle.kb_threads.specs.Shared.{PassParts};

    ghost Value = { PassParts };

    ghost view = { λ pass. record { worker = pass.worker; entered = pass.share.amount } };

    ghost invariant = { λ pass. pass.share.parts ≡ 1 };
}

impl<S: Sharing> Pass<S> {
    /// A pass of a worker that has entered nothing, by a part of the rest.
    pub(crate) fn of(worker: u8, rest: &mut Share<S>) -> Pass<S>
        requires { (1 ≤ rest.old.parts) × (rest.old.amount ≡ 0) }
        ensures pass { (result.worker ≡ worker) × (result.entered ≡ 0) }
        ensures rest { (rest.new.parts + 1 ≡ rest.old.parts) × (rest.new.amount ≡ 0) }
    {
        let share = rest.split_off(1, 0);
        Pass { worker, share }
    }

    /// The worker's number, from 1 on.
    pub fn worker(&self) -> u8
        ensures { result ≡ self.now.worker }
    {
        self.worker
    }

    /// Notes that the worker has entered one overlap more.
    pub(crate) fn note_entry(&mut self, entered: &mut Book<S>)
        ensures pass { (self.new.worker ≡ self.old.worker)
            × (self.new.entered ≡ self.old.entered + 1) }
        ensures total { entered.new.total ≡ entered.old.total + 1 }
    {
        entered.add(&mut self.share, 1);
    }

    /// What it holds of the ledger.
    pub(crate) fn into_share(self) -> Share<S>
        ensures { (result.parts ≡ 1) × (result.amount ≡ self.entered) }
    {
        self.share
    }
}
