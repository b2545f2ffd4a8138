//! A writer that publishes in place.

ghost use Rattle.std.specs.Prelude.{◌≡◌, [], drop, fold, IsOk, MatchResult};
ghost use Rattle.crossbeam_utils.specs.Register.{TurnsAt};
ghost use Rattle.left_right.specs.Sides.{view};

use core::mem::replace_with;
use crossbeam_utils::rule::{Outcome, Protocol};
use left_right::Absorb;
use left_right::writer::Writer;
use std::alloc::AllocError;
use std::sync::Wait;

/// Shows readers a copy that has each operation, as `publish_as` does.
pub fn publish_in_place<M, T, O, V, P, R>(
    writer: &mut Writer<T, O, V, P>,
    rt: &R,
) -> Result<(), AllocError>
where
    M: Outcome<T, V>,
    T: Absorb<O> + Drop,
    O: Drop,
    P: Protocol<T, V>,
    R: Wait,
    requires { (next : T)
        → T.state next ≡ fold T.applied (T.state writer.old.desk.shown.value)
        (drop writer.old.behind writer.old.log.items)
        → TurnsAt P.holds writer.old.desk.place.id (view writer.old.desk.place)
        writer.old.desk.shown.value next M.then }
    ensures succeeds { T.never_fails → IsOk result }
    ensures shown { MatchResult result
        (λ _. T.state writer.new.desk.shown.value
        ≡ fold T.applied (T.state writer.old.desk.shown.value)
        (drop writer.old.behind writer.old.log.items))
        (λ _. writer.new.desk.shown.value ≡ writer.old.desk.shown.value) }
    ensures told { MatchResult result
        (λ _. drop writer.new.behind writer.new.log.items ≡ [])
        (λ _. drop writer.new.behind writer.new.log.items
        ≡ drop writer.old.behind writer.old.log.items) }
    ensures rule { MatchResult result
        (λ _. M.then (view writer.old.desk.place) writer.old.desk.shown.value
        writer.new.desk.shown.value (view writer.new.desk.place))
        (λ _. view writer.new.desk.place ≡ view writer.old.desk.place) }
{
    replace_with(writer, rt, |writer, rt| writer.publish_as::<M, R>(rt))
}
