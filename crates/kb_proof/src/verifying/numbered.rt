//! Lines and relations by their numbers, which begin at 1.

ghost use Rattle.std.specs.Prelude.{◌≡◌, Some, None, IfSome, IfNone};
ghost use Rattle.kb_machine.specs.Lines.{numbered, rule_of, rules_of};

use kb_machine::Line;
use kb_word::Word;

/// The line with this number.
pub(crate) fn line_numbered(lines: &[Line], number: u32) -> Option<&Line>
    ensures some { IfSome result
        (λ line. numbered (rules_of lines.now) number ≡ Some (rule_of line.now)) }
    ensures none { IfNone result (numbered (rules_of lines.now) number ≡ None) }
{
    let index = number.checked_sub(1)?;
    lines.get(index as usize)
}

/// The relation with this number.
pub(crate) fn relation_numbered(relations: &[(Word, Word)], number: u32) -> Option<&(Word, Word)>
    ensures some { IfSome result (λ relation. numbered relations.now number ≡ Some relation.now) }
    ensures none { IfNone result (numbered relations.now number ≡ None) }
{
    let index = number.checked_sub(1)?;
    relations.get(index as usize)
}
