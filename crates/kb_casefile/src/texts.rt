//! Texts that have a name.

use std::alloc::{AllocError, Global};

/// Bytes and their name.
#[derive(Drop)]
pub struct Named {
    pub name: String,
    pub bytes: Vec<u8>,
}

impl Named {
    /// These bytes under this name.
    pub fn new(alloc: Global, name: &str, bytes: Vec<u8>) -> Result<Named, AllocError> {
        Ok(Named {
            name: String::from_str(alloc, name)?,
            bytes,
        })
    }
}

/// The bytes that have this name; of several the last.
pub fn find<'a>(texts: &'a [Named], name: &str) -> Option<&'a [u8]> {
    let mut found: Option<&'a [u8]> = None;
    for text in texts {
        if text.name.as_str() == name {
            found = Some(text.bytes.as_slice());
        }
    }
    found
}
