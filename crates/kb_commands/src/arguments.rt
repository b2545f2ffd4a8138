//! Arguments and options that commands take, and what is given for them.

ghost use Rattle.std.specs.Prelude.{◌≡◌, ◌↔◌, ◌<◌, ◌^◌, ℕ, IfSome, IsTrue, Option, None, option_map, codes, false};
ghost use Rattle.clap.specs.Words.{first_of, found_of, rows_of, rule_of};
ghost use Rattle.kb_commands.specs.Arguments.{GivesFlag, GivesLengths, GivesNumber, GivesOption, IsNumber, IsNumberWithin, flag_rule, needed_rule, length_rule, lengths_rule, option_rule};

use clap::{Arg, ArgAction, ArgMatches, value_parser};
use std::alloc::Global;

/// What stands at the end of a command's help: the lines that are given, and where refusals are explained.
macro_rules! help_end {
    ($($line:literal),+) => {
        concat!($($line, "\n",)+ "docs/formats.md, \"Refusals\", explains the code of each refusal.")
    };
}

pub(crate) use help_end;

/// An argument that must be there.
pub fn needed_argument<'a>(
    alloc: Global,
    id: &'a str,
    value_name: &'a str,
    help: &'a str,
) -> Arg<'a>
    ensures rule { rule_of result ≡ needed_rule id.entry.now }
    ensures local { result.global ≡ false }
{
    Arg::new(alloc, id)
        .value_name(value_name)
        .required(true)
        .action(ArgAction::Set)
        .help(help)
}

/// The argument that names the file of a presentation.
pub fn presentation_argument<'a>(alloc: Global) -> Arg<'a>
    ensures rule { rule_of result ≡ needed_rule (codes "file") }
    ensures local { result.global ≡ false }
{
    needed_argument(alloc, "file", "FILE", "A presentation file (GAP record)")
}

/// An argument that is a length of words, 0 to 65,535.
pub fn length_argument<'a>(
    alloc: Global,
    id: &'a str,
    value_name: &'a str,
    help: &'a str,
) -> Arg<'a>
    ensures rule { rule_of result ≡ length_rule id.entry.now }
    ensures local { result.global ≡ false }
{
    needed_argument(alloc, id, value_name, help).value_parser(value_parser!(u16))
}

/// An option without a value.
pub fn flag_option<'a>(alloc: Global, name: &'a str, help: &'a str) -> Arg<'a>
    ensures rule { rule_of result ≡ flag_rule name.entry.now }
    ensures local { result.global ≡ false }
{
    Arg::new(alloc, name)
        .long(name)
        .action(ArgAction::SetTrue)
        .help(help)
}

/// Whether the option of this name, which takes no value, is given.
pub fn flag_given(matches: &ArgMatches<'_>, name: &str) -> bool
    ensures { GivesFlag (rows_of (found_of matches.now)) name.now result }
{
    match text_given(matches, name) {
        Some(text) => is_true(text),
        None => false,
    }
}

/// Whether a text is `true`, which is what stands for an option that is given and takes no value.
fn is_true(text: &str) -> bool
    ensures { IsTrue result ↔ (text.now ≡ codes "true") }
{
    text == "true"
}

/// An option that gives a number, of which the least is 1.
#[derive(Clone, Copy)]
pub enum NumberOption {
    /// `--workers N`
    Workers,
    /// `--batch N`
    Batch,
    /// `--max-rules N`
    MaxRules,
    /// `--max-len N`
    MaxLen,
    /// `--max-diffs N`
    MaxDiffs,
    /// `--max-states N`
    MaxStates,
}

/// What an option is called, what it takes, and its help.
#[derive(Clone, Copy)]
struct OptionLabel<'a> {
    /// Its name, behind two dashes.
    name: &'a str,
    /// The greatest number that it takes.
    most: u32,
    /// The number where it isn't given.
    default: &'a str,
    /// What help says of it.
    help: &'a str,
}

impl NumberOption {
    ghost use Rattle.std.specs.Prelude.{◌≡◌};
    ghost use Rattle.kb_commands.specs.Arguments.{option_name, option_most, option_default};

    /// What the option is called, what it takes, and its help.
    fn label<'a>(self) -> OptionLabel<'a>
        ensures name { result.name.now ≡ option_name self }
        ensures most { result.most ≡ option_most self }
        ensures default { result.default.now ≡ option_default self }
    {
        match self {
            NumberOption::Workers => OptionLabel {
                name: "workers",
                most: 64,
                default: "4",
                help: "Number of threads, 1 to 64; no answer depends on it",
            },
            NumberOption::Batch => OptionLabel {
                name: "batch",
                most: 4096,
                default: "1",
                help: "Number of words that are answered together, 1 to 4096; no answer depends on it",
            },
            NumberOption::MaxRules => OptionLabel {
                name: "max-rules",
                most: 1_000_000,
                default: "32767",
                help: "The most lines that the log may have, 1 to 1000000",
            },
            NumberOption::MaxLen => OptionLabel {
                name: "max-len",
                most: 65_535,
                default: "1024",
                help: "The most letters that a left side may have, 1 to 65535",
            },
            NumberOption::MaxDiffs => OptionLabel {
                name: "max-diffs",
                most: 65_535,
                default: "2048",
                help: "The most word differences that may be kept, 1 to 65535",
            },
            NumberOption::MaxStates => OptionLabel {
                name: "max-states",
                most: 4_000_000,
                default: "262144",
                help: "The most states that the construction may have, 1 to 4000000",
            },
        }
    }
}

/// The option as a command takes it.
pub fn number_option<'a>(alloc: Global, option: NumberOption) -> Arg<'a>
    ensures rule { rule_of result ≡ option_rule option }
    ensures local { result.global ≡ false }
{
    let label = option.label();
    Arg::new(alloc, label.name)
        .long(label.name)
        .value_name("N")
        .default_value(label.default)
        .action(ArgAction::Set)
        .value_parser(value_parser!(u32).range(1..=i64::from(label.most)))
        .help(label.help)
}

/// The option `--lengths N`, without which things are counted in all.
pub fn lengths_option<'a>(alloc: Global) -> Arg<'a>
    ensures rule { rule_of result ≡ lengths_rule }
    ensures local { result.global ≡ false }
{
    Arg::new(alloc, "lengths")
        .long("lengths")
        .value_name("N")
        .action(ArgAction::Set)
        .value_parser(value_parser!(u16))
        .help("Counts for each length from 0 to N, 0 to 65535")
}

/// The text that is given under the name.
pub fn text_given<'a>(matches: &ArgMatches<'a>, name: &str) -> Option<&'a str>
    ensures { option_map (λ text. text.now) result
        ≡ first_of name.now (rows_of (found_of matches.now)) }
{
    matches.get_str(name)
}

/// The number that the option gives.
pub fn option_given(matches: &ArgMatches<'_>, option: NumberOption) -> Option<u32>
    ensures some { IfSome result (GivesOption (rows_of (found_of matches.now)) option) }
    ensures none { result ≡ None → (n : ℕ)
        → ¬ GivesOption (rows_of (found_of matches.now)) option n }
{
    let label = option.label();
    number_given(matches, label.name, 1, label.most)
}

/// The number from `least` to `most` that is given under the name.
pub fn number_given(matches: &ArgMatches<'_>, name: &str, least: u32, most: u32) -> Option<u32>
    ensures some { IfSome result
        (λ number. GivesNumber (rows_of (found_of matches.now)) name.now least most number) }
    ensures none { result ≡ None → (n : ℕ)
        → ¬ GivesNumber (rows_of (found_of matches.now)) name.now least most n }
{
    number_within(text_given(matches, name)?, least, most)
}

/// The length of words that is given under the name.
pub fn length_given(matches: &ArgMatches<'_>, name: &str) -> Option<u16>
    ensures some { IfSome result
        (λ length. GivesNumber (rows_of (found_of matches.now)) name.now 0 65535 length) }
    ensures none { result ≡ None → (n : ℕ)
        → ¬ GivesNumber (rows_of (found_of matches.now)) name.now 0 65535 n }
{
    let length = number_given(matches, name, 0, 65_535)?;
    u16::try_from(length).ok()
}

/// The length that the option `--lengths` gives, if it is given; `None` where what is given is no length.
pub fn lengths_given(matches: &ArgMatches<'_>) -> Option<Option<u16>>
    ensures some { IfSome result (GivesLengths (rows_of (found_of matches.now))) }
    ensures none { result ≡ None → (lengths : Option ℕ)
        → ¬ GivesLengths (rows_of (found_of matches.now)) lengths }
{
    match text_given(matches, "lengths") {
        Some(_) => Some(Some(length_given(matches, "lengths")?)),
        None => Some(None),
    }
}

/// The number from `least` to `most` that a text writes.
fn number_within(text: &str, least: u32, most: u32) -> Option<u32>
    ensures some { IfSome result (λ number. IsNumberWithin text.now least most number) }
    ensures none { result ≡ None → (n : ℕ) → ¬ IsNumberWithin text.now least most n }
{
    let number = number(text)?;
    if number < least || most < number {
        return None;
    }
    Some(number)
}

/// The number that a text writes, in decimal digits with no sign and no zero before another digit.
fn number(text: &str) -> Option<u32>
    ensures some { IfSome result (λ number. IsNumber text.now number) }
    ensures none { result ≡ None → (n : ℕ) → n < 2 ^ 32 → ¬ IsNumber text.now n }
{
    let first = *text.as_bytes().first()?;
    if first == b'+' || (first == b'0' && text.len() != 1) {
        return None;
    }
    text.parse::<u32>().ok()
}
