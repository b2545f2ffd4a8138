//! What is found of automata, as it is stored and written.

ghost use Rattle.std.specs.Prelude.{◌≡◌, ◌≢◌, ℕ, [], IfOk, codes, List};
ghost use Rattle.std.specs.List.{AllPairs, Contains};
ghost use Rattle.kb_io.specs.Outside.{outside};
ghost use Rattle.kb_io.specs.States.{SourceState};
ghost use Rattle.kb_word.specs.Presentations.{parts_of};
ghost use Rattle.kb_fsa.specs.Language.{Automaton};
ghost use Rattle.kb_auto.specs.Deciding.{CheckedSays};
ghost use Rattle.kb_task.specs.Limits.{undecided_line, undecided_words_line};
ghost use Rattle.kb_task.specs.Runs.{IsRun};
ghost use Rattle.kb_task.specs.Statuses.{IsFaultless};
ghost use Rattle.kb_task.specs.Stores.{names_of, texts_of};
ghost use Rattle.kb_task.specs.declared.status.Cert.TheVariants as certs;
ghost use Rattle.kb_task.specs.declared.status.Limit.TheVariants.{States};
ghost use Rattle.kb_task.specs.declared.status.Status.TheVariants.{Yes, No, Undecided};
ghost use Rattle.kb_evidence.specs.Files.{halted_texts, limit_of};
ghost use Rattle.kb_cmd_structures.specs.Findings.{HasParts, IsFound};
ghost use Rattle.kb_cmd_structures.specs.Gpaxioms.{construction_of};
ghost use Rattle.kb_cmd_structures.specs.Lines.{certificate_line};
ghost use Rattle.kb_cmd_structures.specs.Shown.{ShowMeans};

use crate::automata_check::AutomataCheck;
use crate::certificates::certificate_line;
use kb_auto::Checked;
use kb_axioms::Construction as Counted;
use kb_evidence::Evidence;
use kb_io::{Shelf, Sink};
use kb_progress::Progress;
use kb_structure::Cert as StructureCert;
use kb_system::Halted;
use kb_task::{
    Cert, Construction, Limit, Status, TextFile, print_line, store_texts, undecided_line,
};
use kb_word::{Memory, Names, OwnedText, Presentation};
use std::alloc::Global;

/// What is found.
#[derive(Drop)]
pub(crate) struct Finding {
    /// How the run ends.
    pub status: Status,
    /// The files that are stored.
    pub files: Vec<TextFile>,
    /// The line that is written.
    pub line: Vec<u8>,
}

/// Stores the files of what is found, and writes its line.
pub(crate) fn show<F: Shelf, O: Sink, E: Sink>(
    alloc: Global,
    finding: Finding,
    progress: &mut Progress<'_, E>,
    shelf: &mut F,
    out: &mut O,
) -> Status
    requires faultless { IsFaultless finding.status }
    requires differ { AllPairs (λ (one other : List ℕ). one ≢ other)
        (names_of (texts_of finding.files.items)) }
    ensures { (input : SourceState)
        → IsRun (ShowMeans (λ status texts line. HasParts status texts line finding))
        (Contains (names_of (texts_of finding.files.items)))
        (outside (F.state shelf.old) input (O.state out.old))
        (outside (F.state shelf.new) input (O.state out.new)) result }
{
    let Finding {
        status,
        files,
        line,
    } = finding;
    match store_texts(alloc, files, shelf) {
        Status::Yes => {
            progress.finish();
            print_line(&line, status, out)
        }
        stopped => stopped,
    }
}

/// What is stored and written where this is answered of automata.
pub(crate) fn finding_of(
    alloc: Global,
    task: &AutomataCheck,
    presentation: &Presentation,
    checked: Checked,
) -> Result<Finding, Memory>
    ensures { IfOk result (λ finding. (acceptor : Automaton) (multipliers : List Automaton)
        → CheckedSays task.now.limits presentation.now acceptor multipliers checked
        → IsFound task.now presentation.now acceptor multipliers finding) }
{
    match checked {
        Checked::Yes => own(alloc),
        Checked::No(cert) => refuted(alloc, &presentation.names, cert),
        Checked::TooManyStates { which } => too_many(alloc, &presentation.names, which),
        Checked::Halted(halted) => unsettled(alloc, presentation, &task.file, halted),
    }
}

/// The automata are the group's own.
pub(crate) fn own(alloc: Global) -> Result<Finding, Memory>
    ensures { IfOk result (HasParts Yes [] (codes "yes\n")) }
{
    Ok(Finding {
        status: Status::Yes,
        files: Vec::new(alloc),
        line: Vec::from_slice(alloc, b"yes\n")?,
    })
}

/// A certificate shows that they aren't.
pub(crate) fn refuted(alloc: Global, names: &Names, cert: StructureCert) -> Result<Finding, Memory>
    ensures { IfOk result
        (HasParts (No (certs.Structure cert)) [] (certificate_line names.now cert)) }
{
    let line = certificate_line(alloc, names, &cert)?;
    Ok(Finding {
        status: Status::No(Cert::Structure(cert)),
        files: Vec::new(alloc),
        line,
    })
}

/// A count is above the limit.
pub(crate) fn too_many(alloc: Global, names: &Names, which: Counted) -> Result<Finding, Memory>
    ensures { IfOk result (HasParts (Undecided (States (construction_of which))) []
        (undecided_line names.now (States (construction_of which)))) }
{
    states_counted(alloc, names, construction_of(which))
}

/// The states of a construction are counted above the limit.
pub(crate) fn states_counted(
    alloc: Global,
    names: &Names,
    which: Construction,
) -> Result<Finding, Memory>
    ensures { IfOk result (HasParts (Undecided (States which)) []
        (undecided_line names.now (States which))) }
{
    let limit = Limit::States(which);
    let line = undecided_line(alloc, names, &limit)?;
    Ok(Finding {
        status: Status::Undecided(limit),
        files: Vec::new(alloc),
        line,
    })
}

/// What is called after a count.
pub(crate) fn construction_of(which: Counted) -> Construction
    ensures { result ≡ construction_of which }
{
    match which {
        Counted::Images(x) => Construction::Images(x),
        Counted::Relation(number) => Construction::Relation(number),
    }
}

/// The completion halted, and its rules don't settle it.
fn unsettled(
    alloc: Global,
    presentation: &Presentation,
    file: &OwnedText,
    halted: Halted,
) -> Result<Finding, Memory>
    ensures { IfOk result (HasParts (Undecided (limit_of halted.reached))
        (halted_texts file.now (parts_of presentation.now) halted.lines.items halted.waiting
        halted.rules.rules)
        (undecided_words_line presentation.now.names (limit_of halted.reached)
        halted.waiting.left halted.waiting.right)) }
{
    let Evidence { limit, files, line } = kb_evidence::halted(alloc, presentation, file, halted)?;
    Ok(Finding {
        status: Status::Undecided(limit),
        files,
        line,
    })
}
