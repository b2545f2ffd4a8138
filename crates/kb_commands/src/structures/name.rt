//! What the commands are called, and their help.

ghost use Rattle.std.specs.Prelude.{◌≡◌, ◌≢◌, IfSome, None};
ghost use Rattle.kb_commands.specs.Structures.{name_text};

use crate::arguments::help_end;
use crate::label::Label;

/// A command on automatic structures, without its arguments.
#[derive(Clone, Copy)]
pub(crate) enum Name {
    /// `autgroup`
    Autgroup,
    /// `gpaxioms`
    Gpaxioms,
    /// `gpminkb`
    Gpminkb,
}

/// The commands, in the order in which the program lists them.
pub(crate) const NAMES: [Name; 3] = [Name::Autgroup, Name::Gpaxioms, Name::Gpminkb];

impl Name {
    /// The command of this name.
    pub fn named(text: &str) -> Option<Name>
        ensures some { IfSome result (λ found. text.now ≡ name_text found) }
        ensures none { result ≡ None → (other : Name) → text.now ≢ name_text other }
    {
        match text {
            "autgroup" => Some(Name::Autgroup),
            "gpaxioms" => Some(Name::Gpaxioms),
            "gpminkb" => Some(Name::Gpminkb),
            _ => None,
        }
    }

    /// What the command is called, and its help.
    pub fn label<'a>(self) -> Label<'a>
        ensures { result.text.now ≡ name_text self }
    {
        match self {
            Name::Autgroup => Label {
                text: "autgroup",
                about: "Makes the word acceptor and the multipliers of the group in FILE, and reduces words to least words by them",
                after_help: help_end!(
                    "Stores FILE.wa, the canonical automaton of the group's least words, and FILE.m1, FILE.m2, .., the multipliers of the",
                    "generators: of the pairs of least words that differ by the generator. Then each line of standard input is a word of the",
                    "group, and out has its least word. Without words give < /dev/null. At a limit out has one line: `undecided rules U V`,",
                    "`undecided length U V`, `undecided diffs D U V X P` or `undecided states WHICH`; FILE.kblog, the log, FILE.kbprog, the",
                    "rules so far, and FILE.diff, the word differences, are stored, and no word is read.",
                    "Example: echo \"d*c*D*C*b*a*B*A\" | kb autgroup examples/surface-2"
                ),
            },
            Name::Gpaxioms => Label {
                text: "gpaxioms",
                about: "Says whether the automata beside FILE are the word acceptor and the multipliers of the group in it",
                after_help: help_end!(
                    "FILE, FILE.wa, and FILE.m1, FILE.m2, .., one for each generator, are read. Out has one line: `yes`; `no` and the",
                    "first certificate; or `undecided rules U V`, `undecided length U V`, `undecided states axiom N4 X` or",
                    "`undecided states axiom N8 I`. At a limit of rules or length FILE.kblog, the log, and FILE.kbprog, the rules so far,",
                    "are stored; otherwise no file is. With --log nothing is completed: the lines of FILE.kblog are checked and decide; out",
                    "may have `no log N WHY`, and no file is stored. Standard input is not read.",
                    "Example: kb gpaxioms examples/free-2"
                ),
            },
            Name::Gpminkb => Label {
                text: "gpminkb",
                about: "Makes automata of the reduced complete system of the group in FILE, also where it is infinite",
                after_help: help_end!(
                    "First it does what gpaxioms does, with the automata beside FILE; where they aren't the group's own, it ends as gpaxioms",
                    "does. Where they are, it stores FILE.minred, the canonical automaton of the left sides of the reduced complete system, and",
                    "FILE.minkb, that of the pairs that are its rules, and out has the line `yes`. Where one of them would have too many states,",
                    "out has the line `undecided states minred` or `undecided states minkb`, and neither is stored. Standard input is not read.",
                    "Example: kb gpminkb examples/free-2"
                ),
            },
        }
    }
}
