//! The names that tie together what the workers of one pass hold.

use std::marker::Brand;
use std::sync::ledger::Ledger;

/// Which completion is shared, and what is entered into it. What lies under the lock, and what workers hold, is of a
/// type with this name, so that all of it speaks of one completion. No value of it is made.
pub trait Sharing: Ledger {
    ghost use Rattle.std.specs.Prelude.{List};
    ghost use Rattle.kb_machine.specs.Course.{Course};
    ghost use Rattle.kb_share.specs.declared.found.Found.{Found};

    /// The completion as it was given to the workers.
    ghost given: { Course };

    /// The overlaps that they enter, in this order.
    ghost batch: { List Found };
}

impl Sharing for Brand {
    ghost use Rattle.std.specs.Prelude.{[]};
    ghost use Rattle.kb_threads.specs.Shared.{nothing};

    ghost given = { nothing };

    ghost batch = { [] };
}
