//! Letters of pairs: generators, and the padding.

ghost use Rattle.std.specs.Prelude.{◌≡◌, ◌+◌, ◌≤◌};
ghost use Rattle.kb_fsa.specs.Padding.{letters_of};
ghost use Rattle.kb_diff.specs.Tables.{listed};

use kb_word::Letter;

/// The letter with this number, or none where it is the padding.
pub(crate) fn letter_of(n: u16, number: u32) -> Option<Letter>
    requires { number ≤ n + 1 }
    ensures { listed result ≡ letters_of n number }
{
    if number <= u32::from(n) {
        Some(Letter::new(number as u16))
    } else {
        None
    }
}
