//! Files that a command names.

use kb_word::OwnedText;

/// The file of an automaton, and the one in which another is stored.
#[derive(Drop)]
pub struct FileToOut {
    /// The name of the file.
    pub file: OwnedText,
    /// The name under which the automaton is stored.
    pub out: OwnedText,
}
