//! Which calls fail.

ghost use Rattle.std.specs.Prelude.{◌≡◌};
ghost use Rattle.kb_io.specs.Calls.{CountsCall, no_calls};

use std::marker::Model;

/// The calls that are made one after another, numbered from 1, and the numbers of those that fail.
#[derive(Drop)]
pub(crate) struct FailingCalls {
    numbers: Vec<u64>,
    made: u64,
    failed: u64,
}

impl Model for FailingCalls {
    ghost use Rattle.std.specs.Prelude.{◌≤◌};
    ghost use Rattle.kb_io.specs.Calls.{Calls};

    ghost Value = { Calls };

    ghost view = { λ it.
        record { failing = it.numbers.items; made = it.made; faults = it.failed } };

    ghost invariant = { λ it. it.failed ≤ it.made };
}

impl FailingCalls {
    pub fn new(numbers: Vec<u64>) -> FailingCalls
        ensures { result ≡ no_calls numbers.items }
    {
        FailingCalls {
            numbers,
            made: 0,
            failed: 0,
        }
    }

    /// Counts one more call, at most 2 ^ 64 - 1 in all, and returns whether it fails. A call past those
    /// does not fail.
    pub fn next_fails(&mut self) -> bool
        ensures { CountsCall result self.old self.new }
    {
        let Some(call) = self.made.checked_add(1) else {
            return false;
        };
        self.made = call;
        let fails = self.numbers.contains(&call);
        if fails {
            self.failed += 1;
        }
        fails
    }
}
