//! The formats of tables.

ghost use Rattle.std.specs.Prelude.{◌≡◌, ◌≢◌, IfSome, IfNone};
ghost use Rattle.kb_fsafile.specs.Holds.{format_name};
ghost use Rattle.kb_fsafile.specs.declared.format.Format as declared;

/// How a table lists the moves of a state.
#[derive(Clone, Copy, Debug, PartialEq, Eq)]
pub enum Format {
    /// A target for each symbol in order, 0 for none.
    Dense,
    /// Symbols, each with its target.
    Sparse,
}

impl Format {
    /// What a file calls it.
    pub fn name(self) -> &'static str
        ensures { result.now ≡ format_name self }
    {
        match self {
            Format::Dense => "dense deterministic",
            Format::Sparse => "sparse",
        }
    }

    /// The format that a file calls so.
    pub fn named(name: &str) -> Option<Format>
        ensures found { IfSome result (λ format. name.now ≡ format_name format) }
        ensures none { IfNone result ((format : declared.Format) → name.now ≢ format_name format) }
    {
        match name {
            "dense deterministic" => Some(Format::Dense),
            "sparse" => Some(Format::Sparse),
            _ => None,
        }
    }
}
