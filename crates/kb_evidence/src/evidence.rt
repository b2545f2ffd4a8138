//! What shows that a limit was reached: the files that are stored, and the line that says so.

ghost use Rattle.std.specs.Prelude.{◌≡◌, [], ◌∷◌, IfOk};
ghost use Rattle.kb_word.specs.Presentations.{parts_of};
ghost use Rattle.kb_proof.specs.Printed.{text_of_log};
ghost use Rattle.kb_task.specs.Limits.{undecided_line, undecided_words_line};
ghost use Rattle.kb_task.specs.Stores.{text_of, texts_of};
ghost use Rattle.kb_task.specs.declared.status.Construction.TheVariants.{Acceptor};
ghost use Rattle.kb_task.specs.declared.status.Limit.TheVariants.{States};
ghost use Rattle.kb_evidence.specs.Files.{evidence_texts, halted_texts, too_large_texts, limit_of};

use crate::file_names::{log_file, rules_file};
use kb_machine::Line;
use kb_presprint::write as write_presentation;
use kb_proof::{Log, Version, print_log};
use kb_rules::Rules;
use kb_system::{Halted, Reached};
use kb_task::{Construction, Limit, TextFile, undecided_line, undecided_words_line};
use kb_word::{Memory, OwnedText, Presentation};
use std::alloc::Global;

/// What shows that a limit was reached.
#[derive(Drop)]
pub struct Evidence {
    /// The limit.
    pub limit: Limit,
    /// The files that are stored.
    pub files: Vec<TextFile>,
    /// The line that is written.
    pub line: Vec<u8>,
}

/// What shows that a completion reached a limit of the log.
pub fn halted(
    alloc: Global,
    presentation: &Presentation,
    file: &OwnedText,
    halted: Halted,
) -> Result<Evidence, Memory>
    ensures { IfOk result (λ evidence. (evidence.limit ≡ limit_of halted.reached)
        × (texts_of evidence.files.items
        ≡ halted_texts file.now (parts_of presentation.now) halted.lines.items halted.waiting
        halted.rules.rules)
        × (evidence.line.items ≡ undecided_words_line presentation.now.names
        (limit_of halted.reached) halted.waiting.left halted.waiting.right)) }
{
    let Halted {
        reached,
        lines,
        waiting,
        rules,
    } = halted;
    let limit = limit_reached(reached);
    let line = undecided_words_line(
        alloc,
        &presentation.names,
        &limit,
        &waiting.left,
        &waiting.right,
    )?;
    let log = Log {
        version: Version::Two,
        lines,
        waiting: Some(waiting),
    };
    let files = evidence_files(alloc, presentation, file, &log, &rules, false)?;
    Ok(Evidence { limit, files, line })
}

/// What shows that the word acceptor would be too large.
pub fn too_large(
    alloc: Global,
    presentation: &Presentation,
    file: &OwnedText,
    lines: Vec<Line>,
    rules: &Rules,
) -> Result<Evidence, Memory>
    ensures { IfOk result (λ evidence. (evidence.limit ≡ States Acceptor)
        × (texts_of evidence.files.items
        ≡ too_large_texts file.now (parts_of presentation.now) lines.items rules.now.rules)
        × (evidence.line.items ≡ undecided_line presentation.now.names (States Acceptor))) }
{
    let limit = Limit::States(Construction::Acceptor);
    let line = undecided_line(alloc, &presentation.names, &limit)?;
    let log = Log {
        version: Version::Two,
        lines,
        waiting: None,
    };
    let files = evidence_files(alloc, presentation, file, &log, rules, true)?;
    Ok(Evidence { limit, files, line })
}

/// What the limit of a log is called.
pub fn limit_reached(reached: Reached) -> Limit
    ensures { result ≡ limit_of reached }
{
    match reached {
        Reached::Lines => Limit::Rules,
        Reached::Letters => Limit::Length,
    }
}

/// A log and rules, as files.
pub fn evidence_files(
    alloc: Global,
    presentation: &Presentation,
    file: &OwnedText,
    log: &Log,
    rules: &Rules,
    confluent: bool,
) -> Result<Vec<TextFile>, Memory>
    ensures { IfOk result (λ files. texts_of files.items
        ≡ evidence_texts file.now (parts_of presentation.now)
        (text_of_log presentation.now.names log.now) rules.now.rules confluent) }
{
    let log = TextFile {
        name: log_file(alloc, file)?,
        bytes: print_log(alloc, log, presentation)?,
    };
    let rules = TextFile {
        name: rules_file(alloc, file)?,
        bytes: write_presentation(alloc, presentation, rules, confluent)?,
    };
    both(alloc, log, rules)
}

/// Two files in order.
pub fn both(alloc: Global, first: TextFile, second: TextFile) -> Result<Vec<TextFile>, Memory>
    ensures { IfOk result (λ files. texts_of files.items
        ≡ text_of first ∷ text_of second ∷ []) }
{
    let mut files = Vec::with_capacity(alloc, 2)?;
    files.push(first)?;
    files.push(second)?;
    Ok(files)
}
