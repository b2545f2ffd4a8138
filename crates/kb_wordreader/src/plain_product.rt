//! One pass over a plain product.

ghost use Rattle.std.specs.Prelude.{◌≡◌, ℕ, List, Option, IfOk, IfErr, IfSome, Ok};
ghost use Rattle.kb_record.specs.Faults.{HasWordFault, Meaning};
ghost use Rattle.kb_wordreader.specs.Letters.{AreByteLetters};

use crate::first::{take_first, take_starred_names};
use kb_lexing::behind_gap;
use kb_record::WordError;
use kb_word::{Letter, Names, Word};
use std::alloc::Global;

/// The word becomes that of a plain product, or the first fault that is met from the left is returned; `None` for other
/// bytes.
pub(crate) fn plain_product(
    alloc: Global,
    names: &Names,
    byte_letters: &[Option<Letter>],
    bytes: &[u8],
    word: &mut Word,
) -> Result<Option<()>, WordError>
    requires { AreByteLetters names.now byte_letters.now }
    ensures word { IfOk result (λ product. IfSome product (λ done.
        (inverses : List (Option ℕ)) → Meaning bytes.now names.now inverses (Ok word.new))) }
    ensures fault { IfErr result
        (λ fault. (inverses : List (Option ℕ)) → HasWordFault bytes.now names.now inverses fault) }
{
    word.clear();
    let mut fault = None;
    let mut rest = bytes;
    loop {
        rest = take_starred_names(names, byte_letters, rest, word, &fault);
        let Some(behind) = take_first(alloc, names, byte_letters, rest, word, &mut fault) else {
            return Ok(None);
        };
        match behind_gap(behind) {
            [] => {
                return match fault {
                    None => Ok(Some(())),
                    Some(fault) => Err(fault),
                };
            }
            [b'*', next @ ..] => rest = next,
            _ => return Ok(None),
        }
    }
}
