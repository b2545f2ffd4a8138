//! Derivations, replayed step by step.

ghost use Rattle.std.specs.Prelude.{◌≡◌, ◌↔◌, ◌+◌, ◌++◌, List, ℕ, Ok, true, false, IsTrue, OnOk, length, take, drop};
ghost use Rattle.kb_word.specs.Words.{StandsAt};
ghost use Rattle.kb_machine.specs.Derivations.{Any, Derives, IsStepBy};
ghost use Rattle.kb_machine.specs.Lines.{rules_of};
ghost use Rattle.kb_proof.specs.Verifying.{LeadNowhere};

use crate::verifying::numbered::line_numbered;
use kb_machine::{Line, LogStep};
use kb_word::{Memory, Word};
use std::alloc::Global;

/// Takes the steps, one after another, in the word. It answers whether each could be taken.
pub(crate) fn replay(
    alloc: Global,
    earlier: &[Line],
    steps: &[LogStep],
    word: &mut Word,
) -> Result<bool, Memory>
    ensures yes { result ≡ Ok true → Derives Any (rules_of earlier.now) word.old steps.now word.new }
    ensures no { result ≡ Ok false → LeadNowhere (rules_of earlier.now) word.old steps.now }
{
    let mut behind = Word::new(alloc);
    for step in steps {
        if !take_step(earlier, *step, word, &mut behind)? {
            return Ok(false);
        }
    }
    Ok(true)
}

/// Takes a step in the word, if it can be taken. The second word is memory to work in.
fn take_step(
    earlier: &[Line],
    step: LogStep,
    word: &mut Word,
    behind: &mut Word,
) -> Result<bool, Memory>
    ensures yes { result ≡ Ok true → IsStepBy Any (rules_of earlier.now) word.old step word.new }
    ensures no { result ≡ Ok false
        → (v : List ℕ) → ¬ IsStepBy Any (rules_of earlier.now) word.old step v }
{
    let Some(line) = line_numbered(earlier, step.line) else {
        return Ok(false);
    };
    if !stands_at(word, &line.left, step.place) {
        return Ok(false);
    }
    replace_at(word, &line.left, &line.right, step.place, behind)?;
    Ok(true)
}

/// Whether the factor stands in the word at this place.
fn stands_at(word: &Word, factor: &Word, place: u32) -> bool
    ensures { IsTrue result ↔ StandsAt word.now factor.now place }
{
    let letters = word.letters();
    let start = place as usize;
    if start > letters.len() {
        return false;
    }
    letters[start..].starts_with(factor.letters())
}

/// Puts another word in place of the factor that stands at this place. The letters behind it are kept in the last
/// word meanwhile.
fn replace_at(
    word: &mut Word,
    factor: &Word,
    other: &Word,
    place: u32,
    behind: &mut Word,
) -> Result<(), Memory>
    requires { StandsAt word.old factor.now place }
    ensures { OnOk result (word.new
        ≡ take place word.old ++ other.now ++ drop (place + length factor.now) word.old) }
{
    let start = place as usize;
    let letters = word.letters();
    let end = start + factor.len();
    behind.clear();
    behind.extend_from_slice(&letters[end..])?;
    word.truncate(start);
    word.append(other)?;
    word.append(behind)
}
