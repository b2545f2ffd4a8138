//! Certificates against automata.

use kb_word::{Letter, Word};

/// Words that show that automata are not the group's own structure, of one of eight kinds
/// (`specs/Certificates.antt`). They stand here in the order in which they are looked for.
#[derive(Debug, Drop, PartialEq, Eq)]
pub enum Cert {
    /// The word is accepted, and a prefix of it isn't; or it is the empty word, and isn't accepted.
    N1 {
        u: Word,
    },
    /// The multiplier of x relates u to v, and not both are accepted.
    N2 {
        x: Letter,
        u: Word,
        v: Word,
    },
    /// The word is accepted, and the multiplier of x relates it to none.
    N4 {
        x: Letter,
        u: Word,
    },
    /// The multiplier of x relates u to two words.
    N5 {
        x: Letter,
        u: Word,
        v: Word,
        other: Word,
    },
    /// The word with x after it is accepted, and the multiplier of x doesn't lead there.
    N6 {
        x: Letter,
        prefix: Word,
    },
    /// The multiplier of x leads from u to v, which is greater than u with x after it.
    N7 {
        x: Letter,
        u: Word,
        v: Word,
    },
    /// Followed from u the left side of the relation with this number, from 1 on, leads to a, and its right side to
    /// another word b.
    N8 {
        relation: usize,
        u: Word,
        a: Word,
        b: Word,
    },
    /// The multiplier of x relates u to v, and they don't differ by x in the group.
    N3 {
        x: Letter,
        u: Word,
        v: Word,
    },
}
