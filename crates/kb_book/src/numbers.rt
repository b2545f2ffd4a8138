//! Lines by their numbers.

ghost use Rattle.std.specs.Prelude.{◌≡◌, ◌<◌, Some, None, IfSome, IfNone, slice_get};
ghost use Rattle.std.specs.List.{AllPairs, Contains};
ghost use Rattle.kb_word.specs.Words.{Pair};
ghost use Rattle.kb_machine.specs.Lines.{numbered, rule_of, rules_of};

use kb_machine::Line;

/// The line with this number, if there is one.
pub(crate) fn line_at(lines: &[Line], k: u32) -> Option<&Line>
    ensures some { IfSome result
        (λ line. numbered (rules_of lines.now) k ≡ Some (rule_of line.now)) }
    ensures none { IfNone result (numbered (rules_of lines.now) k ≡ None) }
{
    let index = k.checked_sub(1)?;
    lines.get(index as usize)
}

/// The place of a number among numbers that ascend.
pub(crate) fn place_of(live: &[u32], k: u32) -> Option<usize>
    requires { AllPairs (λ one other. one < other) live.now }
    ensures some { IfSome result (λ place. slice_get live.now place ≡ Some k) }
    ensures none { IfNone result (¬ Contains live.now k) }
{
    live.binary_search(&k).ok()
}

/// The line with this number, which there is.
pub(crate) fn line_of(lines: &[Line], k: u32) -> &Line
    requires { (rule : Pair) × (numbered (rules_of lines.now) k ≡ Some rule) }
    ensures { numbered (rules_of lines.now) k ≡ Some (rule_of result.now) }
{
    &lines[k as usize - 1]
}
