//! Signatures of words, by which most words are seen not to have a factor.

ghost use Rattle.std.specs.Prelude.{◌≡◌, ◌↔◌, ◌+◌, ◌-◌, ◌<◌, IsTrue, length};
ghost use Rattle.kb_share.specs.Signatures.{mark, window_mark, AreWithin, AreBitsOf, IsSignature};

use kb_word::{Letter, Word};

/// The windows of a word, each of them so many neighbouring letters, marked as one of 64 bits. A
/// word has all bits of its factors, so that a word without one of them needs no closer look; a
/// word with all of them may have the factor or not.
#[derive(Clone, Copy, Debug, PartialEq, Eq)]
pub(crate) struct Signature {
    bits: u64,
}

impl Signature {
    /// The signature of a word. Over many letters short windows tell words apart. Over few letters nearly
    /// every word has all of them, and long ones tell: over an involution and an element of order three
    /// there are but 12 irreducible words of five letters, and 128 of twelve.
    pub(crate) fn of(word: &Word) -> Signature
        ensures { IsSignature word.now result.bits }
    {
        let letters = word.letters();
        Signature {
            bits: window_marks(letters, 1)
                | window_marks(letters, 2)
                | window_marks(letters, 5)
                | window_marks(letters, 12),
        }
    }

    /// Whether the word may have a factor with this signature.
    pub(crate) fn may_have(self, factor: Signature) -> bool
        ensures { IsTrue result ↔ AreWithin factor.bits self.bits }
    {
        factor.bits | self.bits == self.bits
    }
}

/// The marks of all windows of this size.
fn window_marks(letters: &[Letter], size: usize) -> u64
    requires { 0 < size }
    ensures { AreBitsOf (window_mark size letters.now) (length letters.now + 1 - size) result }
{
    let mut bits = 0;
    for window in letters.windows(size) {
        bits |= bit_of(window);
    }
    bits
}

/// The bit of a window, by multiplicative hashing: Knuth, The Art of Computer Programming, volume 3, 6.4.
fn bit_of(window: &[Letter]) -> u64
    ensures { result ≡ mark window.now }
{
    let mut hash = 0u64;
    for letter in window {
        hash = hash
            .wrapping_mul(0x9e37_79b9_7f4a_7c15)
            .wrapping_add(letter.number() as u64);
    }
    1u64.wrapping_shl((hash.wrapping_mul(0xd6e8_feb8_6659_fd93) >> 58) as u32)
}
