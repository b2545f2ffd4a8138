//! Names of the files that belong to a presentation's file.

ghost use Rattle.std.specs.Prelude.{◌≡◌, ◌++◌, IfOk};
ghost use Rattle.kb_evidence.specs.Files.{rules_file, acceptor_file, log_file, difference_file, minkb_file, minred_file, multiplier_file};

use itoa::Buffer;
use kb_word::{Letter, Memory, OwnedText};
use std::alloc::Global;

/// The file of the rules.
pub fn rules_file(alloc: Global, file: &OwnedText) -> Result<OwnedText, Memory>
    ensures { IfOk result (λ name. name ≡ rules_file file.now) }
{
    with_ending(alloc, file, ".kbprog")
}

/// The file of the word acceptor.
pub fn acceptor_file(alloc: Global, file: &OwnedText) -> Result<OwnedText, Memory>
    ensures { IfOk result (λ name. name ≡ acceptor_file file.now) }
{
    with_ending(alloc, file, ".wa")
}

/// The file of the log.
pub fn log_file(alloc: Global, file: &OwnedText) -> Result<OwnedText, Memory>
    ensures { IfOk result (λ name. name ≡ log_file file.now) }
{
    with_ending(alloc, file, ".kblog")
}

/// The file of the word differences.
pub fn difference_file(alloc: Global, file: &OwnedText) -> Result<OwnedText, Memory>
    ensures { IfOk result (λ name. name ≡ difference_file file.now) }
{
    with_ending(alloc, file, ".diff")
}

/// The file of the left sides of the reduced complete system, as an automaton.
pub fn minred_file(alloc: Global, file: &OwnedText) -> Result<OwnedText, Memory>
    ensures { IfOk result (λ name. name ≡ minred_file file.now) }
{
    with_ending(alloc, file, ".minred")
}

/// The file of the rules of the reduced complete system, as an automaton.
pub fn minkb_file(alloc: Global, file: &OwnedText) -> Result<OwnedText, Memory>
    ensures { IfOk result (λ name. name ≡ minkb_file file.now) }
{
    with_ending(alloc, file, ".minkb")
}

/// The file of the multiplier of a generator.
pub fn multiplier_file(
    alloc: Global,
    file: &OwnedText,
    generator: Letter,
) -> Result<OwnedText, Memory>
    ensures { IfOk result (λ name. name ≡ multiplier_file file.now generator) }
{
    let mut name = String::from_str(alloc, file.as_str())?;
    name.push_str(".m")?;
    let mut buffer = Buffer::new();
    name.push_str(buffer.format(generator.number()))?;
    Ok(OwnedText::from_string(name))
}

/// The name with an ending behind it.
fn with_ending(alloc: Global, file: &OwnedText, ending: &str) -> Result<OwnedText, Memory>
    ensures { IfOk result (λ name. name ≡ file.now ++ ending.now) }
{
    let mut name = String::from_str(alloc, file.as_str())?;
    name.push_str(ending)?;
    Ok(OwnedText::from_string(name))
}
