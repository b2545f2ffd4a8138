//! Numbers as they are printed.

ghost use Rattle.std.specs.Prelude.{◌≡◌, ◌<◌, ◌^◌, ◌↔◌, decimal, IsTrue};
ghost use Rattle.kb_proof.specs.Reading.{Reads};

use itoa::Buffer;

/// The number of 64 bits whose digits the bytes are, without sign and leading zeros.
fn read_u64(bytes: &[u8]) -> Option<u64>
    ensures { Reads decimal (λ number. number < 2 ^ 64) bytes.now result }
{
    let Ok(digits) = std::str::from_utf8(bytes) else {
        return None;
    };
    let Ok(number) = digits.parse::<u64>() else {
        return None;
    };
    if is_text_of(number, bytes) {
        Some(number)
    } else {
        None
    }
}

/// The number of 32 bits whose digits the bytes are, without sign and leading zeros.
pub(crate) fn read_u32(bytes: &[u8]) -> Option<u32>
    ensures { Reads decimal (λ number. number < 2 ^ 32) bytes.now result }
{
    match read_u64(bytes) {
        Some(number) if number < 1 << 32 => Some(number as u32),
        _ => None,
    }
}

/// Whether the bytes are the digits of the number.
pub(crate) fn is_text_of(number: u64, bytes: &[u8]) -> bool
    ensures { IsTrue result ↔ (bytes.now ≡ decimal number) }
{
    let mut buffer = Buffer::new();
    buffer.format(number).as_bytes() == bytes
}
