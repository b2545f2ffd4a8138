//! What a command is called, and its help.

ghost use Rattle.std.specs.Prelude.{◌≡◌, false};
ghost use Rattle.clap.specs.Words.{app_of, new_app};
ghost use Rattle.clap.specs.declared.builder.command.Command.TheViews.{out-Command as fields_of};

use clap::Command;
use std::alloc::Global;

/// What a command is called, and its help.
#[derive(Clone, Copy)]
pub(crate) struct Label<'a> {
    /// Its name on the command line.
    pub text: &'a str,
    /// What it does.
    pub about: &'a str,
    /// What its help says at the end.
    pub after_help: &'a str,
}

/// A command with its name and its help, which takes nothing yet.
pub(crate) fn labelled<'a>(alloc: Global, label: Label<'a>) -> Command<'a>
    ensures app { app_of result ≡ new_app label.entry.text.now }
    ensures local { (fields_of result).has_globals ≡ false }
{
    Command::new(alloc, label.text)
        .about(label.about)
        .after_help(label.after_help)
}
