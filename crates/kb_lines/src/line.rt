//! One line.

ghost use Rattle.std.specs.Prelude.{◌≡◌, ◌≢◌, [], ◌∷◌, ◌++◌, OnOk, OnErr, IfErr, IfSome, IfNone};
ghost use Rattle.kb_io.specs.Bytes.{newline};
ghost use Rattle.kb_word.specs.Printed.{text_of_word};
ghost use Rattle.kb_record.specs.declared.error.WordError.TheVariants as word_errors;
ghost use Rattle.kb_lines.specs.WordLines.{IsOneLine, LineHasFault, AddsGiven};

use crate::answerer::Answerer;
use kb_lexing::is_blank;
use kb_record::WordError;
use kb_word::{Memory, Names, Word, print_word};
use std::alloc::Global;

/// The bytes before the first newline and those behind it, or none where no byte is a newline.
pub(crate) fn split_line(bytes: &[u8]) -> Option<(&[u8], &[u8])>
    ensures split { IfSome result (λ pieces. bytes.now ≡ pieces.0.now ++ newline ∷ pieces.1.now) }
    ensures line { IfSome result (λ pieces. IsOneLine pieces.0.now) }
    ensures none { IfNone result (IsOneLine bytes.now) }
{
    let end = bytes.iter().position(|byte| *byte == b'\n')?;
    Some((&bytes[..end], &bytes[end + 1..]))
}

/// The memory that lines are answered in, kept from line to line.
#[derive(Drop)]
pub(crate) struct LineWorkspace<W> {
    /// The word that is read, which becomes its answer.
    pub word: Word,
    /// What the answerer works in.
    pub workspace: W,
}

/// Appends what a line gives: nothing, or the word that answers it and a newline.
pub(crate) fn answer_line<A: Answerer>(
    alloc: Global,
    answerer: &A,
    work: &mut LineWorkspace<A::Workspace>,
    line: &[u8],
    pending: &mut Vec<u8>,
) -> Result<(), WordError>
    ensures given { OnOk result (AddsGiven (A.parts answerer.now) (A.answers answerer.now) line.now
        pending.old.items pending.new.items) }
    ensures faulty { IfErr result (λ fault. fault ≢ word_errors.Memory
        → LineHasFault (A.parts answerer.now) line.now fault) }
    ensures kept { OnErr result (pending.new.items ≡ pending.old.items) }
{
    if is_blank(line) {
        return Ok(());
    }
    let reader = answerer.reader();
    reader.parse_into(alloc, line, &mut work.word)?;
    answerer.answer(&mut work.word, &mut work.workspace)?;
    print_answer(&reader.presentation.names, &work.word, pending)?;
    Ok(())
}

/// Appends the word and a newline.
fn print_answer(names: &Names, answer: &Word, pending: &mut Vec<u8>) -> Result<(), Memory>
    ensures printed { OnOk result (pending.new.items
        ≡ pending.old.items ++ (text_of_word names.now answer.now ++ newline ∷ [])) }
    ensures kept { OnErr result (pending.new.items ≡ pending.old.items) }
{
    let length = pending.len();
    print_word(names, answer, pending)?;
    if pending.push(b'\n').is_err() {
        pending.truncate(length);
        return Err(Memory);
    }
    Ok(())
}
