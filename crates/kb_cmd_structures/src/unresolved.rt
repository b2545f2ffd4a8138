//! What is found where the lines of a log don't settle what automata are: the file of the log is refused.

ghost use Rattle.std.specs.Prelude.{◌≡◌, [], ◌∷◌, ◌++◌, IfOk, OnOk, string_bytes};
ghost use Rattle.kb_word.specs.Printed.{letter_name, text_of_word};
ghost use Rattle.kb_task.specs.declared.status.FileFault.TheVariants as faults;
ghost use Rattle.kb_task.specs.declared.status.Refusal.TheVariants.{File};
ghost use Rattle.kb_task.specs.declared.status.Status.TheVariants.{Refused};
ghost use Rattle.kb_evidence.specs.Files.{log_file};
ghost use Rattle.kb_cmd_structures.specs.Findings.{HasParts};

use crate::finding::Finding;
use kb_evidence::log_file;
use kb_task::{FileFault, Refusal, Status};
use kb_word::{Letter, Memory, Names, OwnedText, Word};
use std::alloc::Global;

/// The file of the log is refused, with the generator and the normal forms of two label words. Nothing is written.
pub(crate) fn unresolved(
    alloc: Global,
    names: &Names,
    file: &OwnedText,
    x: Letter,
    label: &Word,
    other: &Word,
) -> Result<Finding, Memory>
    ensures { IfOk result (HasParts (Refused (File (log_file file.now)
        (faults.LogUnresolved (letter_name names.now x) (text_of_word names.now label.now)
        (text_of_word names.now other.now)))) [] []) }
{
    let name = log_file(alloc, file)?;
    let generator = generator_text(alloc, names, x)?;
    let label = word_text(alloc, names, label)?;
    let other = word_text(alloc, names, other)?;
    let fault = FileFault::LogUnresolved {
        generator,
        label,
        other,
    };
    Ok(Finding {
        status: Status::Refused(Refusal::File { name, fault }),
        files: Vec::new(alloc),
        line: Vec::new(alloc),
    })
}

/// The name of a generator, as a text.
fn generator_text(alloc: Global, names: &Names, x: Letter) -> Result<OwnedText, Memory>
    ensures { IfOk result (λ text. text ≡ letter_name names.now x) }
{
    let name = names.name_of(x).unwrap_or("");
    OwnedText::from_str(alloc, name)
}

/// A word as it is printed, as a text.
fn word_text(alloc: Global, names: &Names, word: &Word) -> Result<OwnedText, Memory>
    ensures { IfOk result (λ text. text ≡ text_of_word names.now word.now) }
{
    let Some((first, rest)) = word.letters().split_first() else {
        return OwnedText::from_str(alloc, "IdWord");
    };
    let mut text = String::from_str(alloc, names.name_of(*first).unwrap_or(""))?;
    for letter in rest {
        push_starred(names, *letter, &mut text)?;
    }
    Ok(OwnedText::from_string(text))
}

/// Puts a star and the name of a letter behind a text.
fn push_starred(names: &Names, letter: Letter, text: &mut String) -> Result<(), Memory>
    ensures { OnOk result (string_bytes text.new
        ≡ (string_bytes text.old ++ 42 ∷ []) ++ letter_name names.now letter) }
{
    text.push_str("*")?;
    text.push_str(names.name_of(letter).unwrap_or(""))?;
    Ok(())
}
