//! The formats in which the rows of a table are printed.

ghost use Rattle.std.specs.Prelude.{◌≡◌, ◌≤◌};
ghost use Rattle.kb_fsa.specs.Language.{generators};
ghost use Rattle.kb_fsaprint.specs.Printed.{format_of, format_name};

use kb_fsa::Alphabet;

/// Over more names than these the rows are sparse.
const MOST_DENSE_NAMES: u16 = 126;

/// How a table lists the moves of a state.
#[derive(Clone, Copy)]
pub enum RowFormat {
    /// A target for each of so many symbols in order, 0 for none.
    Dense(u32),
    /// The symbols that lead somewhere, ascending, each with its target.
    Sparse,
}

impl RowFormat {
    /// The format for an alphabet, which its number of names alone decides.
    pub fn of_alphabet(alphabet: Alphabet) -> RowFormat
        requires { generators alphabet ≤ 65534 }
        ensures { result ≡ format_of alphabet }
    {
        if alphabet.generators() > MOST_DENSE_NAMES {
            return RowFormat::Sparse;
        }
        RowFormat::Dense(alphabet.symbols())
    }

    /// What a file calls it.
    pub fn name(self) -> &'static str
        ensures { result.now ≡ format_name self }
    {
        match self {
            RowFormat::Dense(_) => "dense deterministic",
            RowFormat::Sparse => "sparse",
        }
    }
}
