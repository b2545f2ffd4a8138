//! What is stored and written of a completion whose log is kept.

ghost use Rattle.std.specs.Prelude.{◌≡◌, IfOk};
ghost use Rattle.kb_word.specs.Presentations.{parts_of};
ghost use Rattle.kb_system.specs.Completed.{IsWordAcceptor};
ghost use Rattle.kb_system.specs.Ended.{IsCompletionWithin, ShowsHalt};
ghost use Rattle.kb_system.specs.Evidence.{IsTooLarge};
ghost use Rattle.kb_system.specs.Logged.{EndsLogged, IsCertificate};
ghost use Rattle.kb_task.specs.Stores.{text_of, texts_of};
ghost use Rattle.kb_task.specs.declared.status.Status.TheVariants.{Undecided};
ghost use Rattle.kb_cmd_proofs.specs.Certified.{acceptor_text, certified_texts};
ghost use Rattle.kb_cmd_proofs.specs.Kbcertify.{IsFound};
ghost use Rattle.kb_cmd_proofs.specs.Shown.{HasParts};

use crate::finding::Finding;
use crate::kbcertify::Kbcertify;
use kb_evidence::{Evidence, acceptor_file, evidence_files, halted, too_large};
use kb_fsa::Fsa;
use kb_fsaprint::write as write_automaton;
use kb_machine::Line;
use kb_proof::{Log, Version};
use kb_rules::Rules;
use kb_system::{Halted, LoggedEnding};
use kb_task::{Status, TextFile};
use kb_word::{Memory, OwnedText, Presentation};
use std::alloc::Global;

/// What is stored and written of a completion that ended so.
pub(crate) fn finding_of(
    alloc: Global,
    task: &Kbcertify,
    presentation: &Presentation,
    ending: LoggedEnding,
) -> Result<Finding, Memory>
    requires { EndsLogged task.now.limits (parts_of presentation.now) ending }
    ensures { IfOk result (IsFound task.now (parts_of presentation.now)) }
{
    match ending {
        LoggedEnding::Completed {
            lines,
            rules,
            acceptor,
        } => completed(alloc, task, presentation, lines, &rules, &acceptor),
        LoggedEnding::Halted(shown) => halted_finding(alloc, task, presentation, shown),
        LoggedEnding::TooLarge { lines, rules } => {
            too_large_finding(alloc, task, presentation, lines, &rules)
        }
    }
}

/// What is stored and written of a completed presentation.
fn completed(
    alloc: Global,
    task: &Kbcertify,
    presentation: &Presentation,
    lines: Vec<Line>,
    rules: &Rules,
    acceptor: &Fsa,
) -> Result<Finding, Memory>
    requires certificate { IsCertificate (parts_of presentation.now) lines.items }
    requires completion { IsCompletionWithin task.now.limits (parts_of presentation.now)
        rules.now.rules acceptor.now }
    ensures { IfOk result (IsFound task.now (parts_of presentation.now)) }
{
    let automaton = automaton_file(alloc, presentation, &task.file, acceptor)?;
    let files = certified_files(alloc, presentation, &task.file, lines, rules, automaton)?;
    let line = Vec::from_slice(alloc, b"yes\n")?;
    Ok(Finding {
        status: Status::Yes,
        files,
        line,
    })
}

/// A word acceptor as a file.
fn automaton_file(
    alloc: Global,
    presentation: &Presentation,
    file: &OwnedText,
    acceptor: &Fsa,
) -> Result<TextFile, Memory>
    requires { IsWordAcceptor (parts_of presentation.now) acceptor.now }
    ensures { IfOk result (λ text. text_of text
        ≡ acceptor_text file.now (parts_of presentation.now) acceptor.now) }
{
    Ok(TextFile {
        name: acceptor_file(alloc, file)?,
        bytes: write_automaton(alloc, &presentation.names, acceptor)?,
    })
}

/// A log with nothing open, the rules of a completed presentation, and one file more, as files.
fn certified_files(
    alloc: Global,
    presentation: &Presentation,
    file: &OwnedText,
    lines: Vec<Line>,
    rules: &Rules,
    last: TextFile,
) -> Result<Vec<TextFile>, Memory>
    ensures { IfOk result (λ files. texts_of files.items
        ≡ certified_texts file.now (parts_of presentation.now) lines.items rules.now.rules
        (text_of last)) }
{
    let log = Log {
        version: Version::Two,
        lines,
        waiting: None,
    };
    let mut files = evidence_files(alloc, presentation, file, &log, rules, true)?;
    files.push(last)?;
    Ok(files)
}

/// What is stored and written where the log reached a limit.
fn halted_finding(
    alloc: Global,
    task: &Kbcertify,
    presentation: &Presentation,
    shown: Halted,
) -> Result<Finding, Memory>
    requires { ShowsHalt task.now.limits (parts_of presentation.now) shown }
    ensures { IfOk result (IsFound task.now (parts_of presentation.now)) }
{
    let evidence = halted(alloc, presentation, &task.file, shown)?;
    Ok(limited(evidence))
}

/// What is stored and written where the word acceptor has more states than it may have.
fn too_large_finding(
    alloc: Global,
    task: &Kbcertify,
    presentation: &Presentation,
    lines: Vec<Line>,
    rules: &Rules,
) -> Result<Finding, Memory>
    requires { IsTooLarge task.now.limits (parts_of presentation.now) lines.items rules.now.rules }
    ensures { IfOk result (IsFound task.now (parts_of presentation.now)) }
{
    let evidence = too_large(alloc, presentation, &task.file, lines, rules)?;
    Ok(limited(evidence))
}

/// What is stored and written where a limit is shown.
fn limited(shown: Evidence) -> Finding
    ensures { HasParts result (Undecided shown.limit) (texts_of shown.files.items)
        shown.line.items }
{
    let Evidence { limit, files, line } = shown;
    Finding {
        status: Status::Undecided(limit),
        files,
        line,
    }
}
