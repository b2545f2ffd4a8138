//! What the completion of a marked presentation came to: the rules that tell cosets apart, or what shows a limit.

ghost use Rattle.std.specs.Prelude.{◌≡◌, ◌<◌, [], ◌∷◌, IfOk, All, Contains};
ghost use Rattle.kb_word.specs.Presentations.{parts_of};
ghost use Rattle.kb_word.specs.Relations.{IsOver};
ghost use Rattle.kb_coset.specs.Marked.{marker_name};
ghost use Rattle.kb_coset.specs.CosetWords.{Cosets};
ghost use Rattle.kb_complete.specs.Completing.{AreReduced, IsHalted};
ghost use Rattle.kb_system.specs.Completed.{IsReducedSystem};
ghost use Rattle.kb_system.specs.Problems.{problem_of};
ghost use Rattle.kb_task.specs.Stores.{text_of, texts_of};
ghost use Rattle.kb_cmd_elements.specs.CosetAnswers.{marked_of, subgroup_file as file_of_subgroup, texts_of_rules};
ghost use Rattle.kb_cmd_elements.specs.CosetOutcomes.{CosetsComeTo};
ghost use Rattle.kb_cmd_elements.specs.Given.{KbcosGiven};
ghost use Rattle.kb_cmd_elements.specs.Kbcos.{kbcos_limits};

use crate::kbcos::Kbcos;
use kb_answering::limit_of_log;
use kb_book::{Book, Limits};
use kb_complete::{Outcome, complete_watched};
use kb_coset::{CosetWords, marked};
use kb_draw::Crew;
use kb_evidence::{Evidence, halted as evidence_of, rules_file};
use kb_index::Index;
use kb_io::{Gate, Sink};
use kb_presprint::write as write_presentation;
use kb_progress::{Evidence as Shown, Progress, Summary};
use kb_rules::{Reducer, Rules};
use kb_system::halted;
use kb_task::TextFile;
use kb_word::{Memory, OwnedText, Presentation, Word};
use kb_wordreader::WordReader;
use std::alloc::Global;
use std::sync::Wait;
use std::thread::Threads;

/// What a completion came to.
#[derive(Drop)]
pub(crate) enum CosetOutcome {
    /// The file of the marked presentation's rules, and what answers word lines by them.
    Told {
        files: Vec<TextFile>,
        coset_words: CosetWords,
    },
    /// What shows that a limit was reached.
    Limit(Evidence),
}

/// The name of the file with the generators of a subgroup of what this file presents.
pub(crate) fn subgroup_file(alloc: Global, file: &OwnedText) -> Result<OwnedText, Memory>
    ensures { IfOk result (λ name. name ≡ file_of_subgroup file.now) }
{
    let mut name = String::from_str(alloc, file.as_str())?;
    name.push_str(".sub")?;
    Ok(OwnedText::from_string(name))
}

/// Completes the presentation that marks the cosets of what these words generate.
pub(crate) fn complete_cosets<T: Threads + Wait + Sync, G: Gate, E: Sink>(
    rt: &T,
    alloc: Global,
    gate: &G,
    task: &Kbcos,
    presentation: Presentation,
    generators: Vec<Word>,
    progress: &mut Progress<'_, E>,
) -> Result<CosetOutcome, Memory>
    requires few { presentation.n < 65534 }
    requires free { ¬ Contains presentation.names marker_name }
    requires letters { All (IsOver presentation.n) generators.items }
    ensures { IfOk result (CosetsComeTo task.now
        (record { parts = parts_of presentation; generators = generators.items })) }
{
    let name = subgroup_file(alloc, &task.file)?;
    let marking = marked(alloc, &presentation, generators.as_slice())?;
    let crew = Crew::new(task.workers, gate);
    let limits = &task.limits;
    match complete_watched::<Index, G, Progress<'_, E>, T>(
        rt, alloc, &marking, limits, &crew, progress,
    )? {
        Outcome::Confluent(rules, _book) => {
            progress.ended(Summary::Cosets { rules: rules.len() });
            told(alloc, &name, &marking, presentation, generators, &rules)
        }
        Outcome::Halted(book) => shown(alloc, &name, &marking, book, limits, progress),
    }
}

/// What shows that the completion of the marked presentation reached a limit.
fn shown<E: Sink>(
    alloc: Global,
    name: &OwnedText,
    marking: &Presentation,
    book: Book<Index>,
    limits: &Limits,
    progress: &mut Progress<'_, E>,
) -> Result<CosetOutcome, Memory>
    requires halted { IsHalted book.course }
    requires reduced { AreReduced book.course }
    ensures { (task : KbcosGiven) (cosets : Cosets) → file_of_subgroup task.file ≡ name.now
        → parts_of marking.now ≡ marked_of cosets
        → book.course.problem ≡ problem_of (kbcos_limits task) (marked_of cosets)
        → IfOk result (CosetsComeTo task cosets) }
{
    let halt = halted(alloc, book)?;
    progress.ended(Summary::Limit {
        limit: limit_of_log(&halt, limits),
        evidence: Shown::CosetRules,
    });
    let evidence = evidence_of(alloc, marking, name, halt)?;
    Ok(CosetOutcome::Limit(evidence))
}

/// What is stored, and what answers word lines, by the rules of the marked presentation.
fn told(
    alloc: Global,
    name: &OwnedText,
    marking: &Presentation,
    presentation: Presentation,
    generators: Vec<Word>,
    rules: &Rules,
) -> Result<CosetOutcome, Memory>
    requires few { presentation.n < 65534 }
    requires letters { All (IsOver presentation.n) generators.items }
    requires marked { parts_of marking.now ≡ marked_of
        (record { parts = parts_of presentation; generators = generators.items }) }
    requires reduced { IsReducedSystem (parts_of marking.now) rules.now.rules }
    ensures { (task : KbcosGiven) → file_of_subgroup task.file ≡ name.now
        → IfOk result (CosetsComeTo task
        (record { parts = parts_of presentation; generators = generators.items })) }
{
    let files = rules_texts(alloc, name, marking, rules)?;
    let index = Index::of(alloc, rules)?;
    let reader = WordReader::new(alloc, presentation)?;
    let coset_words = CosetWords::new(reader, generators, index);
    Ok(CosetOutcome::Told { files, coset_words })
}

/// The rules of the marked presentation, as a file.
fn rules_texts(
    alloc: Global,
    name: &OwnedText,
    marking: &Presentation,
    rules: &Rules,
) -> Result<Vec<TextFile>, Memory>
    ensures { IfOk result (λ files. texts_of files.items
        ≡ texts_of_rules name.now (parts_of marking.now) rules.now.rules) }
{
    let file = TextFile {
        name: rules_file(alloc, name)?,
        bytes: write_presentation(alloc, marking, rules, true)?,
    };
    one(alloc, file)
}

/// One file in a list.
fn one(alloc: Global, file: TextFile) -> Result<Vec<TextFile>, Memory>
    ensures { IfOk result (λ files. texts_of files.items ≡ text_of file ∷ []) }
{
    let mut files = Vec::with_capacity(alloc, 1)?;
    files.push(file)?;
    Ok(files)
}
