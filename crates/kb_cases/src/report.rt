//! What is printed of a case that differs.

use crate::trial::Difference;
use std::alloc::{AllocError, Global};
use std::io;

/// At most so many bytes of a text are shown.
const MOST: usize = 400;

/// Prints what differs in the case of this line, which shows this.
pub(crate) fn print_differences<R: Print>(
    alloc: Global,
    rt: &R,
    line: usize,
    shows: &str,
    differences: &[Difference],
) -> io::Result<()> {
    println!(rt; "line {line}: {shows}")?;
    for difference in differences {
        let what = difference.what.as_str();
        let wanted = shown(alloc, &difference.wanted)?;
        let came = shown(alloc, &difference.came)?;
        println!(rt; "  {what}: wanted {wanted}")?;
        println!(rt; "  {what}: came   {came}")?;
    }
    Ok(())
}

/// The bytes as a quoted text.
fn shown(alloc: Global, bytes: &Option<Vec<u8>>) -> Result<String, AllocError> {
    let Some(bytes) = bytes else {
        return String::from_str(alloc, "nothing");
    };
    let mut text = String::from_str(alloc, "\"")?;
    for byte in bytes.iter().take(MOST) {
        add_shown(alloc, &mut text, *byte)?;
    }
    text.push_str(if bytes.len() > MOST { "\" .." } else { "\"" })?;
    Ok(text)
}

/// Adds the byte as it is written in a quoted text.
fn add_shown(alloc: Global, text: &mut String, byte: u8) -> Result<(), AllocError> {
    match byte {
        b'\n' => text.push_str("\\n"),
        b'"' => text.push_str("\\\""),
        b'\\' => text.push_str("\\\\"),
        b' '..=b'~' => text.push(char::from(byte)),
        _ => text.push_str(format!(in alloc; "\\x{byte:02X}")?.as_str()),
    }
}
