//! Bytes cut at a separator.

ghost use Rattle.std.specs.Prelude.{[], ◌∷◌, ◌≡◌, ◌<◌, length, IfSome, IfNone};
ghost use Rattle.kb_proof.specs.Reading.{CutAt, parts};

use memchr::memchr;

/// What stands before and behind the first place of a byte, and `None` where it does not stand in the bytes.
pub(crate) fn cut_at(byte: u8, bytes: &[u8]) -> Option<(&[u8], &[u8])>
    ensures cut { IfSome result (λ parts. CutAt byte bytes.now parts.0.now parts.1.now) }
    ensures shorter { IfSome result (λ parts. length parts.1.now < length bytes.now) }
    ensures none { IfNone result (parts byte bytes.now ≡ bytes.now ∷ []) }
{
    let place = memchr(byte, bytes)?;
    Some((&bytes[..place], &bytes[place + 1..]))
}
