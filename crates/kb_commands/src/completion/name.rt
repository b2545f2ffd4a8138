//! What the commands are called, and their help.

ghost use Rattle.std.specs.Prelude.{◌≡◌, ◌≢◌, IfSome, None};
ghost use Rattle.kb_commands.specs.Completion.{name_text};

use crate::arguments::help_end;
use crate::label::Label;

/// A command of completion, without its arguments.
#[derive(Clone, Copy)]
pub(crate) enum Name {
    /// `kbprog`
    Kbprog,
    /// `logread`
    Logread,
    /// `selftest`
    SelfTest,
}

/// The commands, in the order in which the program lists them.
pub(crate) const NAMES: [Name; 3] = [Name::Kbprog, Name::Logread, Name::SelfTest];

impl Name {
    /// The command of this name.
    pub fn named(text: &str) -> Option<Name>
        ensures some { IfSome result (λ found. text.now ≡ name_text found) }
        ensures none { result ≡ None → (other : Name) → text.now ≢ name_text other }
    {
        match text {
            "kbprog" => Some(Name::Kbprog),
            "logread" => Some(Name::Logread),
            "selftest" => Some(Name::SelfTest),
            _ => None,
        }
    }

    /// What the command is called, and its help.
    pub fn label<'a>(self) -> Label<'a>
        ensures { result.text.now ≡ name_text self }
    {
        match self {
            Name::Kbprog => Label {
                text: "kbprog",
                about: "Stores the complete rules and the word acceptor of FILE, and prints the least word for each word line",
                after_help: help_end!(
                    "The files FILE.kbprog, the rules, and FILE.wa, the word acceptor, are stored. At a limit FILE.kblog, the log,",
                    "and FILE.kbprog, the rules so far, are stored, and out has one line: `undecided rules U V`,",
                    "`undecided length U V` or `undecided states acceptor`.",
                    "Words come from standard input, one a line; end with Ctrl-D; `</dev/null` for none.",
                    "Example: echo 'B*a*b' | kb kbprog examples/free-abelian-2"
                ),
            },
            Name::Logread => Label {
                text: "logread",
                about: "Says what the log FILE.kblog of a completion holds",
                after_help: help_end!(
                    "FILE and FILE.kblog are read, and no file is stored. Standard input is not read.",
                    "Example: kb logread FILE"
                ),
            },
            Name::SelfTest => Label {
                text: "selftest",
                about: "Completes the free abelian group of rank N, and counts its rules and its word acceptor's states",
                after_help: help_end!(
                    "No file is stored. At a limit of rules or letters out has the log, before the line that names the limit.",
                    "Standard input is not read.",
                    "Example: kb selftest 3"
                ),
            },
        }
    }
}
