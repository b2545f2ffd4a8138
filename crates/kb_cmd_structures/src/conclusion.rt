//! What is stored and written of the search for a group's automatic structure.

ghost use Rattle.std.specs.Prelude.{◌≡◌, ℕ, All, IfOk, length};
ghost use Rattle.kb_word.specs.Presentations.{parts_of};
ghost use Rattle.kb_word.specs.declared.word_order.WordOrder.TheVariants.{ShortLex};
ghost use Rattle.kb_fsa.specs.Canonical.{IsCanonical};
ghost use Rattle.kb_fsa.specs.Language.{IsAutomaton, generators};
ghost use Rattle.kb_fsaprint.specs.Printed.{text_of_automaton};
ghost use Rattle.kb_auto.specs.Autgroup.{AutgroupSays};
ghost use Rattle.kb_task.specs.Stores.{text_of, texts_of};
ghost use Rattle.kb_round.specs.Rounds.{IsOwnStructure};
ghost use Rattle.kb_cmd_structures.specs.Concluded.{ConcludesAs};
ghost use Rattle.kb_cmd_structures.specs.Made.{structure_texts};

use crate::autgroup::Autgroup;
use crate::evidence::{at_halt, too_many_differences, too_many_states};
use kb_auto::Autgroup as Answer;
use kb_evidence::{Evidence, acceptor_file, multiplier_file};
use kb_fsa::Fsa;
use kb_fsaprint::write as write_automaton;
use kb_reduce::LeastWords;
use kb_round::Structure;
use kb_task::TextFile;
use kb_word::{Letter, Memory, Names, OwnedText, Presentation};
use kb_wordreader::WordReader;
use std::alloc::Global;

/// What is stored and written.
#[derive(Drop)]
pub(crate) enum Conclusion {
    /// The files of the automatic structure, and what answers word lines by it.
    Made {
        files: Vec<TextFile>,
        least_words: LeastWords,
    },
    /// What shows that a limit was reached.
    Limit(Evidence),
}

/// What is stored and written where the search came to this.
pub(crate) fn conclusion_of(
    alloc: Global,
    task: &Autgroup,
    presentation: Presentation,
    answer: Answer,
) -> Result<Conclusion, Memory>
    requires shortlex { presentation.order ≡ ShortLex }
    requires answer { AutgroupSays task.now.limits task.now.most presentation answer }
    ensures { IfOk result (ConcludesAs task.now (parts_of presentation)) }
{
    let file = &task.file;
    match answer {
        Answer::Own(structure) => Ok(made(alloc, task, presentation, structure)?),
        Answer::Halted { halted, listing } => Ok(Conclusion::Limit(at_halt(
            alloc,
            &presentation,
            file,
            halted,
            &listing,
        )?)),
        Answer::TooManyDifferences {
            lines,
            rules,
            confluent,
            listing,
        } => Ok(Conclusion::Limit(too_many_differences(
            alloc,
            &presentation,
            file,
            lines,
            &rules,
            confluent,
            &listing,
        )?)),
        Answer::TooManyStates {
            which,
            lines,
            rules,
            listing,
        } => Ok(Conclusion::Limit(too_many_states(
            alloc,
            &presentation,
            file,
            which,
            lines,
            &rules,
            &listing,
        )?)),
    }
}

/// The files of an automatic structure, and what answers words by it.
fn made(
    alloc: Global,
    task: &Autgroup,
    presentation: Presentation,
    structure: Structure,
) -> Result<Conclusion, Memory>
    requires shortlex { presentation.order ≡ ShortLex }
    requires own { IsOwnStructure presentation task.now.limits.states structure.acceptor
        structure.multipliers.items }
    ensures { IfOk result (ConcludesAs task.now (parts_of presentation)) }
{
    let files = structure_files(alloc, &task.file, &presentation, &structure)?;
    let Structure {
        acceptor,
        multipliers,
    } = structure;
    let reader = WordReader::new(alloc, presentation)?;
    let least_words = LeastWords::new(reader, acceptor, multipliers);
    Ok(Conclusion::Made { files, least_words })
}

/// A word acceptor and multipliers, as files.
fn structure_files(
    alloc: Global,
    file: &OwnedText,
    presentation: &Presentation,
    structure: &Structure,
) -> Result<Vec<TextFile>, Memory>
    requires { (limit : ℕ) × IsOwnStructure presentation.now limit structure.now.acceptor
        structure.now.multipliers.items }
    ensures files { IfOk result (λ files. texts_of files.items ≡ structure_texts file.now
        presentation.now.names structure.now.acceptor structure.now.multipliers.items) }
    ensures acceptor { IfOk result (λ files. IsAutomaton structure.now.acceptor) }
    ensures multipliers { IfOk result (λ files.
        All IsAutomaton structure.now.multipliers.items) }
{
    let Structure {
        acceptor,
        multipliers,
    } = structure;
    let names = &presentation.names;
    let mut files = Vec::with_capacity(alloc, multipliers.len() + 1)?;
    files.push(automaton_file(alloc, acceptor_file(alloc, file)?, names, acceptor)?)?;
    let n = presentation.n;
    for (place, multiplier) in multipliers.iter().enumerate() {
        prove!(place < usize::from(n));
        let generator = Letter::new(place as u16 + 1);
        let name = multiplier_file(alloc, file, generator)?;
        files.push(automaton_file(alloc, name, names, multiplier)?)?;
    }
    Ok(files)
}

/// An automaton as a file of this name.
pub(crate) fn automaton_file(
    alloc: Global,
    name: OwnedText,
    names: &Names,
    automaton: &Fsa,
) -> Result<TextFile, Memory>
    requires canonical { IsCanonical automaton.now.table }
    requires names { length names.now ≡ generators automaton.now.alphabet }
    ensures text { IfOk result (λ file. text_of file
        ≡ record { name = name; bytes = text_of_automaton names.now automaton.now }) }
    ensures automaton { IsAutomaton automaton.now }
{
    // That it is an automaton is known to whoever looks at its table.
    let _ = automaton.table();
    let bytes = write_automaton(alloc, names, automaton)?;
    Ok(TextFile { name, bytes })
}
