//! The files of a completed presentation.

ghost use Rattle.std.specs.Prelude.{◌≡◌, IfOk};
ghost use Rattle.kb_word.specs.Presentations.{parts_of};
ghost use Rattle.kb_task.specs.Stores.{texts_of};
ghost use Rattle.kb_system.specs.Completed.{IsCompletion};
ghost use Rattle.kb_cmd_completion.specs.Files.{completed_texts};

use kb_evidence::{acceptor_file, both, rules_file};
use kb_fsa::Fsa;
use kb_fsaprint::write as write_automaton;
use kb_presprint::write as write_presentation;
use kb_rules::Rules;
use kb_task::TextFile;
use kb_word::{Memory, OwnedText, Presentation};
use std::alloc::Global;

/// The rules and the word acceptor of a completed presentation, as files.
pub(crate) fn completed_files(
    alloc: Global,
    presentation: &Presentation,
    file: &OwnedText,
    rules: &Rules,
    acceptor: &Fsa,
) -> Result<Vec<TextFile>, Memory>
    requires { IsCompletion (parts_of presentation.now) rules.now.rules acceptor.now }
    ensures { IfOk result (λ files. texts_of files.items
        ≡ completed_texts file.now (parts_of presentation.now) rules.now.rules acceptor.now) }
{
    let rules = TextFile {
        name: rules_file(alloc, file)?,
        bytes: write_presentation(alloc, presentation, rules, true)?,
    };
    let acceptor = TextFile {
        name: acceptor_file(alloc, file)?,
        bytes: write_automaton(alloc, &presentation.names, acceptor)?,
    };
    both(alloc, rules, acceptor)
}
