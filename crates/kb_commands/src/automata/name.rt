//! What the commands are called, and their help.

ghost use Rattle.std.specs.Prelude.{◌≡◌, ◌≢◌, IfSome, None};
ghost use Rattle.kb_commands.specs.Automata.{name_text};
ghost use Rattle.kb_commands.specs.declared.automata.name.Name.TheVariants as names;

use crate::arguments::help_end;
use crate::label::Label;
use kb_cmd_automata::{Combination, Transformation};

/// The end of the help of a command that stores an automaton.
macro_rules! stores_out {
    ($example:literal) => {
        help_end!(
            "OUT is the file that is stored: the canonical automaton. Standard input is not read.",
            $example
        )
    };
}

/// The end of the help of a command that stores nothing.
macro_rules! stores_nothing {
    ($example:literal) => {
        help_end!(
            "No file is stored. Standard input is not read.",
            $example
        )
    };
}

/// A command on automata, without its arguments.
#[derive(Clone, Copy)]
pub(crate) enum Name {
    /// `fsaand`, `fsaor`, `fsaconcat`
    Combine(Combination),
    /// `fsanot`, `fsaexists`, `fsastar`, `fsareverse`
    Transform(Transformation),
    /// `fsamin`
    Unlimited(Unlimited),
    /// `fsalequal`
    Compare,
    /// `fsaenumerate`
    Enumerate,
    /// `fsacount`
    CountAccepted,
}

/// A command that takes A and OUT alone, and so has no limit.
#[derive(Clone, Copy)]
pub(crate) enum Unlimited {
    /// `fsamin`
    Minimise,
}

/// The commands, in the order in which the program lists them.
pub(crate) const NAMES: [Name; 11] = [
    Name::Combine(Combination::And),
    Name::Combine(Combination::Or),
    Name::Transform(Transformation::Not),
    Name::Unlimited(Unlimited::Minimise),
    Name::Compare,
    Name::Transform(Transformation::Exists),
    Name::Combine(Combination::Concat),
    Name::Transform(Transformation::Star),
    Name::Transform(Transformation::Reverse),
    Name::Enumerate,
    Name::CountAccepted,
];

impl Name {
    /// The command of this name.
    pub fn named(text: &str) -> Option<Name>
        ensures some { IfSome result (λ found. text.now ≡ name_text found) }
        ensures none { result ≡ None → (other : Name) → text.now ≢ name_text other }
    {
        match text {
            "fsaand" => Some(Name::Combine(Combination::And)),
            "fsaor" => Some(Name::Combine(Combination::Or)),
            "fsaconcat" => Some(Name::Combine(Combination::Concat)),
            "fsanot" => Some(Name::Transform(Transformation::Not)),
            "fsaexists" => Some(Name::Transform(Transformation::Exists)),
            "fsastar" => Some(Name::Transform(Transformation::Star)),
            "fsareverse" => Some(Name::Transform(Transformation::Reverse)),
            "fsamin" => Some(Name::Unlimited(Unlimited::Minimise)),
            "fsalequal" => Some(Name::Compare),
            "fsaenumerate" => Some(Name::Enumerate),
            "fsacount" => Some(Name::CountAccepted),
            _ => None,
        }
    }

    /// What the command is called, and its help.
    pub fn label<'a>(self) -> Label<'a>
        ensures { result.text.now ≡ name_text self }
    {
        match self {
            Name::Combine(operation) => combination_label(operation),
            Name::Transform(operation) => transformation_label(operation),
            Name::Unlimited(command) => unlimited_label(command),
            Name::Compare => Label {
                text: "fsalequal",
                about: "Says whether A and B accept the same, and if not, the least that only one of them accepts",
                after_help: stores_nothing!(
                    "Example: kb fsalequal examples/multiples-of-2.fsa examples/multiples-of-3.fsa"
                ),
            },
            Name::Enumerate => Label {
                text: "fsaenumerate",
                about: "Prints the words of MIN to MAX letters that A accepts, in the shortlex order",
                after_help: stores_nothing!("Example: kb fsaenumerate 0 5 examples/dihedral-4.wa"),
            },
            Name::CountAccepted => Label {
                text: "fsacount",
                about: "Prints how many words or pairs of words A accepts, or `infinite`",
                after_help: stores_nothing!("Example: kb fsacount examples/dihedral-4.wa"),
            },
        }
    }
}

/// What the commands are called that make an automaton of two.
fn combination_label<'a>(operation: Combination) -> Label<'a>
    ensures { result.text.now ≡ name_text (names.Combine operation) }
{
    match operation {
        Combination::And => Label {
            text: "fsaand",
            about: "Stores the automaton of what both A and B accept",
            after_help: stores_out!(
                "Example: kb fsaand examples/multiples-of-2.fsa examples/multiples-of-3.fsa OUT"
            ),
        },
        Combination::Or => Label {
            text: "fsaor",
            about: "Stores the automaton of what A or B accepts",
            after_help: stores_out!(
                "Example: kb fsaor examples/multiples-of-2.fsa examples/multiples-of-3.fsa OUT"
            ),
        },
        Combination::Concat => Label {
            text: "fsaconcat",
            about: "Stores the automaton of the words of A followed by words of B",
            after_help: stores_out!(
                "Example: kb fsaconcat examples/multiples-of-2.fsa examples/multiples-of-3.fsa OUT"
            ),
        },
    }
}

/// What the commands are called that make an automaton of another.
fn transformation_label<'a>(operation: Transformation) -> Label<'a>
    ensures { result.text.now ≡ name_text (names.Transform operation) }
{
    match operation {
        Transformation::Not => Label {
            text: "fsanot",
            about: "Stores the automaton of what A does not accept",
            after_help: stores_out!("Example: kb fsanot examples/golden-mean.fsa OUT"),
        },
        Transformation::Exists => Label {
            text: "fsaexists",
            about: "Stores the projection of A to its first words",
            after_help: stores_out!("Example: kb fsaexists examples/free-2.times-a OUT"),
        },
        Transformation::Star => Label {
            text: "fsastar",
            about: "Stores the automaton of the Kleene star of A",
            after_help: stores_out!("Example: kb fsastar examples/golden-mean.fsa OUT"),
        },
        Transformation::Reverse => Label {
            text: "fsareverse",
            about: "Stores the automaton of the words of A read backwards",
            after_help: stores_out!("Example: kb fsareverse examples/golden-mean.fsa OUT"),
        },
    }
}

/// What the commands are called that take A and OUT alone.
fn unlimited_label<'a>(command: Unlimited) -> Label<'a>
    ensures { result.text.now ≡ name_text (names.Unlimited command) }
{
    match command {
        Unlimited::Minimise => Label {
            text: "fsamin",
            about: "Stores the minimal automaton of what A accepts",
            after_help: stores_out!("Example: kb fsamin examples/multiples-of-3.fsa OUT"),
        },
    }
}
