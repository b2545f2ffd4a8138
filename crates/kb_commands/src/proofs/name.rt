//! What the commands are called, and their help.

ghost use Rattle.std.specs.Prelude.{◌≡◌, ◌≢◌, IfSome, None};
ghost use Rattle.kb_commands.specs.Proofs.{name_text};

use crate::arguments::help_end;
use crate::label::Label;

/// A command about proofs, without its arguments.
#[derive(Clone, Copy)]
pub(crate) enum Name {
    /// `kbverify`
    Kbverify,
    /// `kbcertify`
    Kbcertify,
}

/// The commands, in the order in which the program lists them.
pub(crate) const NAMES: [Name; 2] = [Name::Kbverify, Name::Kbcertify];

impl Name {
    /// The command of this name.
    pub fn named(text: &str) -> Option<Name>
        ensures some { IfSome result (λ found. text.now ≡ name_text found) }
        ensures none { result ≡ None → (other : Name) → text.now ≢ name_text other }
    {
        match text {
            "kbverify" => Some(Name::Kbverify),
            "kbcertify" => Some(Name::Kbcertify),
            _ => None,
        }
    }

    /// What the command is called, and its help.
    pub fn label<'a>(self) -> Label<'a>
        ensures { result.text.now ≡ name_text self }
    {
        match self {
            Name::Kbverify => Label {
                text: "kbverify",
                about: "Says whether the log FILE.kblog proves, line by line, what it says of FILE",
                after_help: help_end!(
                    "FILE and FILE.kblog are read, and no file is stored. Standard input is not read. The log must have derivations,",
                    "as those have that kbprog stores. Out has one line: `yes`, or `no log N WHY`, status 3: line N is the first that",
                    "doesn't follow, and WHY is Origin, Step, Result, Order or Earlier.",
                    "Example: kb kbverify FILE"
                ),
            },
            Name::Kbcertify => Label {
                text: "kbcertify",
                about: "Stores the complete rules and the word acceptor of FILE, with a log that proves them",
                after_help: help_end!(
                    "The files FILE.kblog, the log, FILE.kbprog, the rules, and FILE.wa, the word acceptor, are stored, and out has one",
                    "line, `yes`. At a limit FILE.kblog and FILE.kbprog, the rules so far, are stored, and out has one line:",
                    "`undecided rules U V`, `undecided length U V` or `undecided states acceptor`. Several workers make another log, and",
                    "choose their overlaps better: one may come to a limit where two don't.",
                    "Standard input is not read. `kb kbverify FILE` checks the log.",
                    "Example: kb kbcertify examples/free-abelian-2"
                ),
            },
        }
    }
}
