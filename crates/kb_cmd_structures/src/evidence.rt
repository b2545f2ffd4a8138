//! What shows a limit at which the search for a group's automatic structure ended.

ghost use Rattle.std.specs.Prelude.{◌≡◌, ◌++◌, [], ◌∷◌, IfOk, OnOk, true, false};
ghost use Rattle.kb_word.specs.Presentations.{parts_of};
ghost use Rattle.kb_task.specs.Limits.{undecided_line, undecided_words_line};
ghost use Rattle.kb_task.specs.Stores.{text_of, texts_of};
ghost use Rattle.kb_task.specs.declared.status.Limit.TheVariants.{Diffs, States};
ghost use Rattle.kb_evidence.specs.Files.{halted_texts, limit_of};
ghost use Rattle.kb_cmd_structures.specs.Tried.{counted_of, difference_text, needed_line, needed_text, tried_texts};

use crate::finding::construction_of;
use crate::printing::{print_differences, print_seen};
use kb_evidence::{Evidence, difference_file, evidence_files, halted as halted_evidence};
use kb_kept::Listing;
use kb_machine::Line;
use kb_proof::{Log, Version};
use kb_round::Construction as Counted;
use kb_rules::Rules;
use kb_system::Halted;
use kb_task::{Construction, Limit, TextFile, undecided_line};
use kb_word::{Letter, Memory, Names, OwnedText, Presentation};
use std::alloc::Global;

/// The completion reached a limit of its log.
pub(crate) fn at_halt(
    alloc: Global,
    presentation: &Presentation,
    file: &OwnedText,
    halted: Halted,
    listing: &Listing,
) -> Result<Evidence, Memory>
    ensures { IfOk result (λ evidence. (evidence.limit ≡ limit_of halted.reached)
        × (texts_of evidence.files.items
        ≡ halted_texts file.now (parts_of presentation.now) halted.lines.items halted.waiting
        halted.rules.rules
        ++ difference_text file.now presentation.now.names listing.now false ∷ [])
        × (evidence.line.items ≡ undecided_words_line presentation.now.names
        (limit_of halted.reached) halted.waiting.left halted.waiting.right)) }
{
    let differences = differences_of(alloc, presentation, file, listing, false)?;
    let mut evidence = halted_evidence(alloc, presentation, file, halted)?;
    evidence.files.push(differences)?;
    Ok(evidence)
}

/// As many word differences are kept as may be, and another one is needed.
pub(crate) fn too_many_differences(
    alloc: Global,
    presentation: &Presentation,
    file: &OwnedText,
    lines: Vec<Line>,
    rules: &Rules,
    confluent: bool,
    listing: &Listing,
) -> Result<Evidence, Memory>
    ensures { IfOk result (λ evidence. (evidence.limit ≡ Diffs)
        × (texts_of evidence.files.items
        ≡ tried_texts file.now (parts_of presentation.now) lines.items rules.now.rules confluent
        (difference_text file.now presentation.now.names listing.now true))
        × (evidence.line.items ≡ needed_line presentation.now.names listing.now)) }
{
    let line = needed_line(alloc, presentation, listing)?;
    let differences = differences_of(alloc, presentation, file, listing, true)?;
    let files = tried_files(
        alloc,
        presentation,
        file,
        lines,
        rules,
        confluent,
        differences,
    )?;
    Ok(Evidence {
        limit: Limit::Diffs,
        files,
        line,
    })
}

/// Automata by the reduced complete system count too many states.
pub(crate) fn too_many_states(
    alloc: Global,
    presentation: &Presentation,
    file: &OwnedText,
    which: Counted,
    lines: Vec<Line>,
    rules: &Rules,
    listing: &Listing,
) -> Result<Evidence, Memory>
    ensures { IfOk result (λ evidence. (evidence.limit ≡ States (counted_of which))
        × (texts_of evidence.files.items
        ≡ tried_texts file.now (parts_of presentation.now) lines.items rules.now.rules true
        (difference_text file.now presentation.now.names listing.now false))
        × (evidence.line.items ≡ undecided_line presentation.now.names
        (States (counted_of which)))) }
{
    let limit = Limit::States(counted_of(which));
    let line = undecided_line(alloc, &presentation.names, &limit)?;
    let differences = differences_of(alloc, presentation, file, listing, false)?;
    let files = tried_files(alloc, presentation, file, lines, rules, true, differences)?;
    Ok(Evidence { limit, files, line })
}

/// What is called after a count. All multipliers count alike, so the first is named.
fn counted_of(which: Counted) -> Construction
    ensures { result ≡ counted_of which }
{
    match which {
        Counted::Acceptor => Construction::Acceptor,
        Counted::Multipliers => Construction::Multiplier(Letter::new(1)),
        Counted::Check(which) => construction_of(which),
    }
}

/// The file of differences.
fn differences_of(
    alloc: Global,
    presentation: &Presentation,
    file: &OwnedText,
    listing: &Listing,
    with_needed: bool,
) -> Result<TextFile, Memory>
    ensures { IfOk result (λ text. text_of text
        ≡ difference_text file.now presentation.now.names listing.now with_needed) }
{
    Ok(TextFile {
        name: difference_file(alloc, file)?,
        bytes: print_differences(alloc, &presentation.names, listing, with_needed)?,
    })
}

/// A log that didn't halt, rules, and differences, as files.
fn tried_files(
    alloc: Global,
    presentation: &Presentation,
    file: &OwnedText,
    lines: Vec<Line>,
    rules: &Rules,
    confluent: bool,
    differences: TextFile,
) -> Result<Vec<TextFile>, Memory>
    ensures { IfOk result (λ files. texts_of files.items
        ≡ tried_texts file.now (parts_of presentation.now) lines.items rules.now.rules confluent
        (text_of differences)) }
{
    let log = Log {
        version: Version::Two,
        lines,
        waiting: None,
    };
    let mut files = evidence_files(alloc, presentation, file, &log, rules, confluent)?;
    files.push(differences)?;
    Ok(files)
}

/// `undecided diffs`, the difference that is needed where it was first seen, and a newline.
fn needed_line(
    alloc: Global,
    presentation: &Presentation,
    listing: &Listing,
) -> Result<Vec<u8>, Memory>
    ensures { IfOk result (λ line. line.items ≡ needed_line presentation.now.names listing.now) }
{
    let mut line = Vec::from_slice(alloc, b"undecided diffs ")?;
    append_needed(&presentation.names, listing, &mut line)?;
    line.push(b'\n')?;
    Ok(line)
}

/// Appends the difference that is needed where it was first seen, if there is one.
fn append_needed(names: &Names, listing: &Listing, line: &mut Vec<u8>) -> Result<(), Memory>
    ensures { OnOk result (line.new.items ≡ line.old.items
        ++ needed_text names.now listing.now.equalities.items listing.now.needed) }
{
    match &listing.needed {
        Some(needed) => print_seen(names, &listing.equalities, needed, line),
        None => Ok(()),
    }
}
