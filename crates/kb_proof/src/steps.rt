//! Derivations as they are printed.

ghost use Rattle.std.specs.Prelude.{◌≡◌, ◌≢◌, All, IfOk, IfSome, IfNone, List, None, Some};
ghost use Rattle.kb_machine.specs.declared.line.LogStep.{LogStep as Step};
ghost use Rattle.kb_proof.specs.Printable.{FitsStep};
ghost use Rattle.kb_proof.specs.Printed.{text_of_step, text_of_steps};
ghost use Rattle.kb_proof.specs.Reading.{Reads, ReadsJoined};

use crate::cut::cut_at;
use crate::numbers::read_u32;
use kb_machine::LogStep;
use kb_word::Memory;
use std::alloc::Global;

/// The steps whose text the bytes are.
pub(crate) fn read_steps(alloc: Global, bytes: &[u8]) -> Result<Option<Vec<LogStep>>, Memory>
    ensures steps { IfOk result (λ found. IfSome found
        (λ steps. (bytes.now ≡ text_of_steps steps.items) × All FitsStep steps.items)) }
    ensures none { IfOk result (λ found. IfNone found
        ((steps : List Step) → All FitsStep steps → bytes.now ≢ text_of_steps steps)) }
{
    if bytes == b"-".as_slice() {
        return Ok(Some(Vec::new(alloc)));
    }
    read_some_steps(alloc, bytes)
}

/// The steps, one at least, whose text the bytes are.
fn read_some_steps(alloc: Global, bytes: &[u8]) -> Result<Option<Vec<LogStep>>, Memory>
    ensures steps { IfOk result (λ found. IfSome found
        (λ steps. ReadsJoined 44 text_of_step FitsStep bytes.now (Some steps.items))) }
    ensures none { IfOk result (λ found. IfNone found
        (ReadsJoined 44 text_of_step FitsStep bytes.now None)) }
{
    let mut steps = Vec::new(alloc);
    let mut rest = bytes;
    while let Some((text, behind)) = cut_at(b',', rest) {
        let Some(step) = read_step(text) else {
            return Ok(None);
        };
        steps.push(step)?;
        rest = behind;
    }
    let Some(step) = read_step(rest) else {
        return Ok(None);
    };
    steps.push(step)?;
    Ok(Some(steps))
}

/// The step whose text the bytes are.
fn read_step(bytes: &[u8]) -> Option<LogStep>
    ensures { Reads text_of_step FitsStep bytes.now result }
{
    let (place, line) = cut_at(b'/', bytes)?;
    Some(LogStep {
        place: read_u32(place)?,
        line: read_u32(line)?,
    })
}
