//! The first line of a log.

ghost use Rattle.std.specs.Prelude.{◌≡◌, ◌↔◌, ◌++◌, ◌⊎◌, IfOk, IfErr, IsTrue};
ghost use Rattle.kb_lexing.specs.Spelling.{value_after};
ghost use Rattle.kb_proof.specs.Faults.{IsFirstLine, IsOtherVersion, NamesOtherVersion, HasHeaderFault, AreFewDigits};
ghost use Rattle.kb_proof.specs.Printed.{header};

use crate::cut::cut_at;
use crate::error::LogError;
use crate::log::Version;

/// The version that the first line names, and what stands behind that line.
pub(crate) fn read_header(bytes: &[u8]) -> Result<(Version, &[u8]), LogError>
    ensures header { IfOk result (λ read. bytes.now ≡ header read.0 ++ read.1.now) }
    ensures fault { IfErr result (HasHeaderFault bytes.now) }
{
    if let Some(body) = bytes.strip_prefix(b"kblog 1\n") {
        return Ok((Version::One, body));
    }
    if let Some(body) = bytes.strip_prefix(b"kblog 2\n") {
        return Ok((Version::Two, body));
    }
    if names_other_version(bytes) {
        return Err(LogError::Version);
    }
    Err(LogError::Syntax { line: 1 })
}

/// Whether the first line names a version that there isn't.
fn names_other_version(bytes: &[u8]) -> bool
    ensures { IsTrue result ↔ NamesOtherVersion bytes.now }
{
    match first_line(bytes).strip_prefix(b"kblog ") {
        Some(number) => is_other_version(number),
        None => false,
    }
}

/// The first line, without its newline.
fn first_line(bytes: &[u8]) -> &[u8]
    ensures { IsFirstLine bytes.now result.now }
{
    match cut_at(b'\n', bytes) {
        Some((line, _)) => line,
        None => bytes,
    }
}

/// Whether the bytes are a number other than those of the versions.
fn is_other_version(number: &[u8]) -> bool
    ensures { IsTrue result ↔ IsOtherVersion number.now }
{
    if let Some(digits) = number.strip_prefix(b"-") {
        return are_digits(digits);
    }
    if !are_digits(number) {
        return false;
    }
    !is_one_or_two(number)
}

/// Whether the bytes are 1 to 18 digits.
fn are_digits(bytes: &[u8]) -> bool
    ensures { IsTrue result ↔ AreFewDigits bytes.now }
{
    (1..=18).contains(&bytes.len()) && bytes.iter().all(|byte| byte.is_ascii_digit())
}

/// Whether the value of the digits is 1 or 2.
fn is_one_or_two(digits: &[u8]) -> bool
    requires { AreFewDigits digits.now }
    ensures { IsTrue result
        ↔ ((value_after 0 digits.now ≡ 1) ⊎ (value_after 0 digits.now ≡ 2)) }
{
    let value = digits_value(digits);
    value == 1 || value == 2
}

/// The value of the digits.
fn digits_value(digits: &[u8]) -> u64
    requires { AreFewDigits digits.now }
    ensures { result ≡ value_after 0 digits.now }
{
    let Ok(text) = std::str::from_utf8(digits) else {
        return 0;
    };
    let Ok(value) = text.parse::<u64>() else {
        return 0;
    };
    value
}
