//! The count of faults.

ghost use Rattle.std.specs.Prelude.{◌≡◌, ◌+◌};

use std::sync::Wait;

/// Counts one more fault. Where the count is at its largest, which no run lives to see, it waits for
/// ever, since the count has to rise at each fault.
pub(crate) fn count_fault<R: Wait>(rt: &R, faults: &mut u64)
    ensures { faults.new ≡ faults.old + 1 }
{
    for _ in rt.forever() {
        if let Some(count) = faults.checked_add(1) {
            *faults = count;
            return;
        }
    }
    unreachable!()
}
