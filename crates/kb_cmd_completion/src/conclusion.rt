//! What is stored and written of a completion.

ghost use Rattle.std.specs.Prelude.{IfOk};
ghost use Rattle.kb_word.specs.Presentations.{parts_of};
ghost use Rattle.kb_system.specs.Ended.{EndsAs, IsCompletionWithin};
ghost use Rattle.kb_cmd_completion.specs.Conclusions.{ConcludesAs};

use crate::files::completed_files;
use crate::kbprog::Kbprog;
use kb_evidence::{Evidence, halted, too_large};
use kb_fsa::Fsa;
use kb_index::Index;
use kb_reduce::NormalForms;
use kb_rules::{Reducer, Rules};
use kb_system::Ending;
use kb_task::TextFile;
use kb_word::{Memory, Presentation};
use kb_wordreader::WordReader;
use std::alloc::Global;

/// What is stored and written of a completion.
#[derive(Drop)]
pub(crate) enum Conclusion {
    /// The files of the completed presentation, and the normal forms by its rules, which answer word lines.
    Completed {
        files: Vec<TextFile>,
        normal_forms: NormalForms,
    },
    /// What shows that a limit was reached.
    Limit(Evidence),
}

/// What is stored and written of a completion that ended so.
pub(crate) fn conclusion_of(
    alloc: Global,
    task: &Kbprog,
    presentation: Presentation,
    ending: Ending,
) -> Result<Conclusion, Memory>
    requires { EndsAs task.now.limits (parts_of presentation) ending }
    ensures { IfOk result (ConcludesAs task.now (parts_of presentation)) }
{
    let file = &task.file;
    match ending {
        Ending::Completed { rules, acceptor } => {
            Ok(completed(alloc, task, presentation, &rules, &acceptor)?)
        }
        Ending::Halted(shown) => {
            Ok(Conclusion::Limit(halted(alloc, &presentation, file, shown)?))
        }
        Ending::TooLarge { lines, rules } => Ok(Conclusion::Limit(too_large(
            alloc,
            &presentation,
            file,
            lines,
            &rules,
        )?)),
    }
}

/// What is stored and written of a completed presentation.
fn completed(
    alloc: Global,
    task: &Kbprog,
    presentation: Presentation,
    rules: &Rules,
    acceptor: &Fsa,
) -> Result<Conclusion, Memory>
    requires { IsCompletionWithin task.now.limits (parts_of presentation) rules.now.rules
        acceptor.now }
    ensures { IfOk result (ConcludesAs task.now (parts_of presentation)) }
{
    let files = completed_files(alloc, &presentation, &task.file, rules, acceptor)?;
    let index = Index::of(alloc, rules)?;
    let reader = WordReader::new(alloc, presentation)?;
    let normal_forms = NormalForms { reader, index };
    Ok(Conclusion::Completed {
        files,
        normal_forms,
    })
}
