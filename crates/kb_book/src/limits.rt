//! The limits of a completion.

ghost use Rattle.std.specs.Prelude.{◌≡◌};
ghost use Rattle.kb_book.specs.Limited.{AreInRange};

/// Limits, each in its range: at most 1,000,000 lines, 65,535 letters of a left side, 65,535 word differences and
/// 4,000,000 states of a construction, and at least 1 of each.
#[derive(Debug, Drop)]
pub struct Limits {
    /// How many lines the log may have.
    pub rules: u32,
    /// How many letters a left side may have.
    pub len: u32,
    /// How many word differences may be kept.
    pub diffs: u32,
    /// How many states a construction may count.
    pub states: u32,
    pub ghost in_range: { AreInRange rules len diffs states },
}

impl Limits {
    /// These limits.
    pub fn new(rules: u32, len: u32, diffs: u32, states: u32) -> Limits
        requires { AreInRange rules len diffs states }
        ensures rules { result.rules ≡ rules }
        ensures len { result.len ≡ len }
        ensures diffs { result.diffs ≡ diffs }
        ensures states { result.states ≡ states }
    {
        Limits {
            rules,
            len,
            diffs,
            states,
        }
    }
}
