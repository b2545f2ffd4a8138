//! The reduced complete system of a group as automata, made of the group's own automatic structure.

ghost use Rattle.std.specs.Prelude.{◌≡◌, IfOk, codes};
ghost use Rattle.kb_axioms.specs.Checked.{PassesRelations, own_structure};
ghost use Rattle.kb_structure.specs.Structure.{IsAutomaticStructure};
ghost use Rattle.kb_structure.specs.StructureOf.{FitTogether};
ghost use Rattle.kb_task.specs.declared.status.Status.TheVariants.{Yes};
ghost use Rattle.kb_cmd_structures.specs.CanonicalForms.{AreCanonicalForms};
ghost use Rattle.kb_cmd_structures.specs.Findings.{HasParts};
ghost use Rattle.kb_cmd_structures.specs.Gpaxioms.{checked_by};
ghost use Rattle.kb_cmd_structures.specs.Loaded.{AreAutomataOver};
ghost use Rattle.kb_cmd_structures.specs.ReducedSystem.{system_texts};
ghost use Rattle.kb_cmd_structures.specs.Systems.{CanBePrinted, IsPrintable, IsReducedFinding, IsSystemFound, IsTooManyStates, ReducedSays};
ghost use Rattle.kb_cmd_structures.specs.declared.system.Reduced.TheVariants.{TooManyStates};

use crate::automata_check::AutomataCheck;
use crate::conclusion::automaton_file;
use crate::finding::{Finding, states_counted};
use crate::loading::Loaded;
use kb_evidence::{both, minkb_file, minred_file};
use kb_fsa::Fsa;
use kb_fsamin::canonical;
use kb_minkb::{Det, minkb, minred};
use kb_task::{Construction, Status};
use kb_word::{Memory, Names, OwnedText};
use std::alloc::Global;

/// What is made of a group's own structure.
#[derive(Drop)]
pub(crate) enum Reduced {
    /// The automata of the left sides and of the rules.
    System { left_sides: Fsa, rules: Fsa },
    /// A construction would have more states than it may have.
    TooManyStates(Construction),
}

/// What is stored and written where the automata are the group's own: its reduced complete system, made of their
/// canonical forms.
pub(crate) fn system_finding(
    alloc: Global,
    task: &AutomataCheck,
    loaded: &Loaded,
) -> Result<Finding, Memory>
    requires over { AreAutomataOver loaded.now.presentation loaded.now.acceptor
        loaded.now.multipliers.items }
    requires passes { PassesRelations (checked_by task.now loaded.now.presentation
        loaded.now.acceptor loaded.now.multipliers.items) }
    requires own { IsAutomaticStructure (own_structure (checked_by task.now
        loaded.now.presentation loaded.now.acceptor loaded.now.multipliers.items)) }
    ensures { IfOk result (IsSystemFound task.now loaded.now.presentation loaded.now.acceptor
        loaded.now.multipliers.items) }
{
    let form = canonical(alloc, &loaded.acceptor)?;
    // That it is an automaton is known to whoever looks at its table.
    let _ = form.table();
    let forms = canonical_forms(alloc, &loaded.multipliers)?;
    let reduced = reduced_system(alloc, &form, &forms, task.limits.states)?;
    reduced_finding(alloc, &task.file, &loaded.presentation.names, reduced)
}

/// The canonical automata of the languages.
fn canonical_forms(alloc: Global, automata: &[Fsa]) -> Result<Vec<Fsa>, Memory>
    ensures { IfOk result (λ forms. AreCanonicalForms automata.now forms.items) }
{
    let mut forms = Vec::with_capacity(alloc, automata.len())?;
    for automaton in automata {
        let form = canonical(alloc, automaton)?;
        // That it is an automaton is known to whoever looks at its table.
        let _ = form.table();
        forms.push(form)?;
    }
    Ok(forms)
}

/// The left sides that a word acceptor has, and then the rules that it has with multipliers.
fn reduced_system(
    alloc: Global,
    acceptor: &Fsa,
    multipliers: &[Fsa],
    limit: u32,
) -> Result<Reduced, Memory>
    requires fit { FitTogether acceptor.now multipliers.now }
    ensures { IfOk result (ReducedSays acceptor.now multipliers.now limit) }
{
    let left_sides = match minred(alloc, acceptor, limit) {
        Ok(automaton) => automaton,
        Err(det) => return too_many(det, Construction::Minred),
    };
    let rules = match minkb(alloc, acceptor, multipliers, limit) {
        Ok(automaton) => automaton,
        Err(det) => return too_many(det, Construction::Minkb),
    };
    // That they are automata is known to whoever looks at their tables.
    let _ = left_sides.table();
    let _ = rules.table();
    Ok(Reduced::System { left_sides, rules })
}

/// The construction has too many states, or memory ran out.
fn too_many(det: Det, which: Construction) -> Result<Reduced, Memory>
    ensures { IfOk result (λ reduced. (reduced ≡ TooManyStates which) × IsTooManyStates det) }
{
    match det {
        Det::TooManyStates { .. } => Ok(Reduced::TooManyStates(which)),
        Det::Memory => Err(Memory),
    }
}

/// What is stored and written of a reduced complete system.
fn reduced_finding(
    alloc: Global,
    file: &OwnedText,
    names: &Names,
    reduced: Reduced,
) -> Result<Finding, Memory>
    requires { CanBePrinted names.now reduced }
    ensures { IfOk result (IsReducedFinding file.now names.now reduced) }
{
    match reduced {
        Reduced::System { left_sides, rules } => stored(alloc, file, names, &left_sides, &rules),
        Reduced::TooManyStates(which) => states_counted(alloc, names, which),
    }
}

/// The automata of the left sides and of the rules, as files, and the line of a yes.
fn stored(
    alloc: Global,
    file: &OwnedText,
    names: &Names,
    left_sides: &Fsa,
    rules: &Fsa,
) -> Result<Finding, Memory>
    requires left_sides { IsPrintable names.now left_sides.now }
    requires rules { IsPrintable names.now rules.now }
    ensures { IfOk result (HasParts Yes
        (system_texts file.now names.now left_sides.now rules.now) (codes "yes\n")) }
{
    let first = automaton_file(alloc, minred_file(alloc, file)?, names, left_sides)?;
    let second = automaton_file(alloc, minkb_file(alloc, file)?, names, rules)?;
    Ok(Finding {
        status: Status::Yes,
        files: both(alloc, first, second)?,
        line: Vec::from_slice(alloc, b"yes\n")?,
    })
}
