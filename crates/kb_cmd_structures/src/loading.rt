//! A group, its word acceptor and its multipliers from files.

ghost use Rattle.std.specs.Prelude.{◌≡◌, IsTrue, IfOk, IfErr};
ghost use Rattle.kb_io.specs.Outside.{outside};
ghost use Rattle.kb_io.specs.States.{SourceState, SinkState};
ghost use Rattle.kb_fsa.specs.declared.alphabet.Alphabet.TheVariants.{Plain, Pair};
ghost use Rattle.kb_axioms.specs.Truth.{AreMultipliers};
ghost use Rattle.kb_task.specs.Loads.{EndsAtLoad, OnlyLoads};
ghost use Rattle.kb_task.specs.Runs.{FaultIsCounted};
ghost use Rattle.kb_evidence.specs.Files.{acceptor_file, multiplier_file};
ghost use Rattle.kb_cmd_structures.specs.Loaded.{AreAutomataOver, EndsAtAutomata, EndsAtFile, EndsAtMultiplier, HoldsAcceptor, HoldsGroup, HoldsMultiplier, HoldMultipliers, HoldStructure, IsAcceptorFault, IsGroup, IsMultiplierFault};

use kb_evidence::{acceptor_file, multiplier_file};
use kb_fsa::Fsa;
use kb_io::Shelf;
use kb_task::{Status, load_acceptor, load_group, load_multiplier};
use kb_word::{Letter, OwnedText, Presentation};
use std::alloc::Global;

/// A group, and the automata that may be its own.
#[derive(Drop)]
pub(crate) struct Loaded {
    /// The group.
    pub presentation: Presentation,
    /// The word acceptor.
    pub acceptor: Fsa,
    /// A multiplier for each generator.
    pub multipliers: Vec<Fsa>,
}

/// The group that the file of this name holds, and the word acceptor and the multipliers that the files beside it
/// hold; or the status of a run that ends at one of them.
pub(crate) fn load_structure<F: Shelf>(
    alloc: Global,
    file: &OwnedText,
    shelf: &mut F,
) -> Result<Loaded, Status>
    ensures holds { IsTrue (F.state shelf.old).told → IfOk result (λ loaded.
        HoldStructure (F.state shelf.old).holds file.now loaded.presentation loaded.acceptor
        loaded.multipliers.items) }
    ensures over { IfOk result (λ loaded.
        AreAutomataOver loaded.presentation loaded.acceptor loaded.multipliers.items) }
    ensures ends { IsTrue (F.state shelf.old).told
        → IfErr result (EndsAtFile (F.state shelf.old).holds file.now) }
    ensures fault { IfErr result (λ status. (input : SourceState) (output : SinkState)
        → FaultIsCounted (outside (F.state shelf.old) input output)
        (outside (F.state shelf.new) input output) status) }
    ensures only_loads { OnlyLoads (F.state shelf.old) (F.state shelf.new) }
{
    let Ok(name) = file.copy(alloc) else {
        return Err(Status::Memory);
    };
    match load_group(alloc, name, shelf) {
        Ok(presentation) => load_automata(alloc, file, presentation, shelf),
        Err(status) => Err(status),
    }
}

/// A group with the word acceptor and the multipliers that the files beside its own hold.
pub(crate) fn load_automata<F: Shelf>(
    alloc: Global,
    file: &OwnedText,
    presentation: Presentation,
    shelf: &mut F,
) -> Result<Loaded, Status>
    requires { IsGroup presentation }
    ensures holds { IsTrue (F.state shelf.old).told
        → HoldsGroup (F.state shelf.old).holds file.now presentation
        → IfOk result (λ loaded. HoldStructure (F.state shelf.old).holds file.now
        loaded.presentation loaded.acceptor loaded.multipliers.items) }
    ensures over { IfOk result (λ loaded.
        AreAutomataOver loaded.presentation loaded.acceptor loaded.multipliers.items) }
    ensures same { IfOk result (λ loaded. loaded.presentation ≡ presentation) }
    ensures ends { IsTrue (F.state shelf.old).told
        → IfErr result (EndsAtAutomata (F.state shelf.old).holds file.now presentation) }
    ensures fault { IfErr result (λ status. (input : SourceState) (output : SinkState)
        → FaultIsCounted (outside (F.state shelf.old) input output)
        (outside (F.state shelf.new) input output) status) }
    ensures only_loads { OnlyLoads (F.state shelf.old) (F.state shelf.new) }
{
    match acceptor_beside(alloc, file, &presentation, shelf) {
        Ok(acceptor) => match multipliers_beside(alloc, file, &presentation, shelf) {
            Ok(multipliers) => Ok(Loaded {
                presentation,
                acceptor,
                multipliers,
            }),
            Err(status) => Err(status),
        },
        Err(status) => Err(status),
    }
}

/// The word acceptor over the presentation's generators that the file beside its own holds.
fn acceptor_beside<F: Shelf>(
    alloc: Global,
    file: &OwnedText,
    presentation: &Presentation,
    shelf: &mut F,
) -> Result<Fsa, Status>
    ensures holds { IsTrue (F.state shelf.old).told → IfOk result
        (HoldsAcceptor (F.state shelf.old).holds file.now presentation.now) }
    ensures words { IfOk result (λ acceptor. acceptor.alphabet ≡ Plain presentation.now.n) }
    ensures ends { IsTrue (F.state shelf.old).told → IfErr result
        (EndsAtLoad (IsAcceptorFault (F.state shelf.old).holds file.now presentation.now)
        (acceptor_file file.now)) }
    ensures fault { IfErr result (λ status. (input : SourceState) (output : SinkState)
        → FaultIsCounted (outside (F.state shelf.old) input output)
        (outside (F.state shelf.new) input output) status) }
    ensures only_loads { OnlyLoads (F.state shelf.old) (F.state shelf.new) }
{
    match acceptor_file(alloc, file) {
        Ok(name) => load_acceptor(alloc, name, presentation, shelf),
        Err(_) => Err(Status::Memory),
    }
}

/// The multiplier of each generator that the files beside the presentation's own hold.
fn multipliers_beside<F: Shelf>(
    alloc: Global,
    file: &OwnedText,
    presentation: &Presentation,
    shelf: &mut F,
) -> Result<Vec<Fsa>, Status>
    ensures holds { IsTrue (F.state shelf.old).told → IfOk result (λ multipliers.
        HoldMultipliers (F.state shelf.old).holds file.now presentation.now multipliers.items) }
    ensures pairs { IfOk result (λ multipliers. AreMultipliers presentation.now.n multipliers.items) }
    ensures ends { IsTrue (F.state shelf.old).told → IfErr result
        (EndsAtMultiplier (F.state shelf.old).holds file.now presentation.now) }
    ensures fault { IfErr result (λ status. (input : SourceState) (output : SinkState)
        → FaultIsCounted (outside (F.state shelf.old) input output)
        (outside (F.state shelf.new) input output) status) }
    ensures only_loads { OnlyLoads (F.state shelf.old) (F.state shelf.new) }
{
    let mut multipliers = Vec::new(alloc);
    for place in 0..presentation.n {
        let generator = Letter::new(place + 1);
        match multiplier_beside(alloc, file, generator, presentation, shelf) {
            Ok(multiplier) => match multipliers.push(multiplier) {
                Ok(()) => {}
                Err(_) => return Err(Status::Memory),
            },
            Err(status) => return Err(status),
        }
    }
    Ok(multipliers)
}

/// The multiplier of a generator that the file beside the presentation's own holds.
fn multiplier_beside<F: Shelf>(
    alloc: Global,
    file: &OwnedText,
    generator: Letter,
    presentation: &Presentation,
    shelf: &mut F,
) -> Result<Fsa, Status>
    ensures holds { IsTrue (F.state shelf.old).told → IfOk result
        (HoldsMultiplier (F.state shelf.old).holds file.now presentation.now generator) }
    ensures pairs { IfOk result (λ multiplier. multiplier.alphabet ≡ Pair presentation.now.n) }
    ensures ends { IsTrue (F.state shelf.old).told → IfErr result
        (EndsAtLoad (IsMultiplierFault (F.state shelf.old).holds file.now presentation.now generator)
        (multiplier_file file.now generator)) }
    ensures fault { IfErr result (λ status. (input : SourceState) (output : SinkState)
        → FaultIsCounted (outside (F.state shelf.old) input output)
        (outside (F.state shelf.new) input output) status) }
    ensures only_loads { OnlyLoads (F.state shelf.old) (F.state shelf.new) }
{
    match multiplier_file(alloc, file, generator) {
        Ok(name) => load_multiplier(alloc, name, presentation, shelf),
        Err(_) => Err(Status::Memory),
    }
}
