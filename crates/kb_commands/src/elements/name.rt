//! What the commands are called, and their help.

ghost use Rattle.std.specs.Prelude.{◌≡◌, ◌≢◌, IfSome, None};
ghost use Rattle.kb_commands.specs.Elements.{name_text};

use crate::arguments::help_end;
use crate::label::Label;

/// A command of the family, without its arguments.
#[derive(Clone, Copy)]
pub(crate) enum Name {
    /// `ball`
    Ball,
    /// `kbcos`
    Kbcos,
}

/// The commands, in the order in which the program lists them.
pub(crate) const NAMES: [Name; 2] = [Name::Ball, Name::Kbcos];

impl Name {
    /// The command of this name.
    pub fn named(text: &str) -> Option<Name>
        ensures some { IfSome result (λ found. text.now ≡ name_text found) }
        ensures none { result ≡ None → (other : Name) → text.now ≢ name_text other }
    {
        match text {
            "ball" => Some(Name::Ball),
            "kbcos" => Some(Name::Kbcos),
            _ => None,
        }
    }

    /// What the command is called, and its help.
    pub fn label<'a>(self) -> Label<'a>
        ensures { result.text.now ≡ name_text self }
    {
        match self {
            Name::Ball => Label {
                text: "ball",
                about: "Prints the least word of each element of FILE that some word of at most R letters stands for",
                after_help: help_end!(
                    "The words come in the shortlex order, each on a line, and no file is stored. At a limit FILE.kblog, the log,",
                    "and FILE.kbprog, the rules so far, are stored, and out has one line: `undecided rules U V`,",
                    "`undecided length U V` or `undecided states acceptor`. Standard input is not read.",
                    "Example: kb ball examples/free-abelian-2 3"
                ),
            },
            Name::Kbcos => Label {
                text: "kbcos",
                about: "Prints, for the word on each line of standard input, the least word of its right coset of the subgroup in FILE.sub",
                after_help: help_end!(
                    "FILE.sub has words that generate the subgroup. The file FILE.sub.kbprog, the rules with the marker _H of cosets, is",
                    "stored. At a limit FILE.sub.kblog, the log, and FILE.sub.kbprog, the rules so far, are stored, and out has one line:",
                    "`undecided rules U V` or `undecided length U V`.",
                    "Words come from standard input, one a line; end with Ctrl-D; `</dev/null` for none.",
                    "Example: echo 'a*b*a' | kb kbcos examples/symmetric-3"
                ),
            },
        }
    }
}
