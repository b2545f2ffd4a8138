//! Subgroups from files, and the groups whose cosets can be marked.

ghost use Rattle.std.specs.Prelude.{◌≡◌, ℕ, ◌<◌, ◌≤◌, List, length, IsTrue, IfOk, IfErr, OnOk, All, Contains};
ghost use Rattle.kb_io.specs.Outside.{outside};
ghost use Rattle.kb_io.specs.States.{ShelfState, SourceState, SinkState};
ghost use Rattle.kb_word.specs.Presentations.{parts_of};
ghost use Rattle.kb_word.specs.Relations.{IsOver};
ghost use Rattle.kb_word.specs.declared.word_order.WordOrder.TheVariants.{ShortLex};
ghost use Rattle.kb_diff.specs.Groups.{EachInverts};
ghost use Rattle.kb_fields.specs.Generators.{most_generators};
ghost use Rattle.kb_proof.specs.Printable.{AreReadableNames};
ghost use Rattle.kb_task.specs.Loads.{Files, IsHeld, IsCause, EndsAtLoad, OnlyLoads, LoadIsCounted};
ghost use Rattle.kb_task.specs.Presentations.{HoldsGroup, HoldsPresentation};
ghost use Rattle.kb_task.specs.Runs.{FaultIsCounted};
ghost use Rattle.kb_task.specs.Subgroups.{HoldsSubgroup, IsSubgroupFault, IsMarkableFault, marker_name};

use super::presentations::group_in;
use super::{LoadStop, load_text};
use crate::status::{FileFault, Status};
use kb_io::Shelf;
use kb_subfile::{SubError, read};
use kb_word::{OwnedText, Presentation, Word};
use std::alloc::Global;

/// A presentation has at most so many generators.
const MOST_GENERATORS: usize = 1000;

/// The generators of a subgroup that the file of this name holds, or the status of a run that ends there.
pub fn load_subgroup<F: Shelf>(
    alloc: Global,
    file: OwnedText,
    presentation: &Presentation,
    shelf: &mut F,
) -> Result<Vec<Word>, Status>
    ensures holds { IsTrue (F.state shelf.old).told
        → IfOk result (λ generators. HoldsSubgroup (parts_of presentation.now)
        (F.state shelf.old).holds file generators.items) }
    ensures letters { IfOk result
        (λ generators. All (IsOver (length presentation.now.names)) generators.items) }
    ensures ends { IsTrue (F.state shelf.old).told → IfErr result (EndsAtLoad
        (IsSubgroupFault (parts_of presentation.now) (F.state shelf.old).holds file) file) }
    ensures fault { IfErr result (λ status. (input : SourceState) (output : SinkState)
        → FaultIsCounted (outside (F.state shelf.old) input output)
        (outside (F.state shelf.new) input output) status) }
    ensures only_loads { OnlyLoads (F.state shelf.old) (F.state shelf.new) }
{
    match subgroup_in(alloc, file.as_str(), presentation, shelf) {
        Ok(generators) => Ok(generators),
        Err(stop) => Err(stop.status(file)),
    }
}

/// The generators of a subgroup that the file of this name holds.
fn subgroup_in<F: Shelf>(
    alloc: Global,
    name: &str,
    presentation: &Presentation,
    shelf: &mut F,
) -> Result<Vec<Word>, LoadStop>
    ensures holds { IsTrue (F.state shelf.old).told
        → IfOk result (λ generators. HoldsSubgroup (parts_of presentation.now)
        (F.state shelf.old).holds name.now generators.items) }
    ensures letters { IfOk result
        (λ generators. All (IsOver (length presentation.now.names)) generators.items) }
    ensures stops { IsTrue (F.state shelf.old).told → IfErr result (IsCause
        (IsSubgroupFault (parts_of presentation.now) (F.state shelf.old).holds name.now)) }
    ensures counted { IfErr result (LoadIsCounted (F.state shelf.old) (F.state shelf.new)) }
    ensures only_loads { OnlyLoads (F.state shelf.old) (F.state shelf.new) }
{
    match load_text(alloc, name, shelf) {
        Ok(bytes) => subgroup_of(alloc, &bytes, presentation),
        Err(stop) => Err(stop),
    }
}

/// The generators of a subgroup that the bytes are a text of.
fn subgroup_of(
    alloc: Global,
    bytes: &[u8],
    presentation: &Presentation,
) -> Result<Vec<Word>, LoadStop>
    ensures holds { (files : Files) (name : List ℕ) → IsHeld files name bytes.now
        → IfOk result (λ generators. HoldsSubgroup (parts_of presentation.now) files name
        generators.items) }
    ensures letters { IfOk result
        (λ generators. All (IsOver (length presentation.now.names)) generators.items) }
    ensures stops { (files : Files) (name : List ℕ) → IsHeld files name bytes.now
        → IfErr result (IsCause (IsSubgroupFault (parts_of presentation.now) files name)) }
    ensures unfailed { (a b : ShelfState) → IfErr result (LoadIsCounted a b) }
{
    match read(alloc, bytes, presentation) {
        Ok(generators) => Ok(generators),
        Err(SubError::Memory) => Err(LoadStop::Memory),
        Err(fault) => Err(LoadStop::Refused(FileFault::Subgroup(fault))),
    }
}

/// The presentation of a group by shortlex to which the marker of cosets can be added, that the file of this name
/// holds; or the status of a run that ends there.
pub fn load_markable<F: Shelf>(
    alloc: Global,
    file: OwnedText,
    shelf: &mut F,
) -> Result<Presentation, Status>
    ensures holds { IsTrue (F.state shelf.old).told
        → IfOk result (λ presentation.
        HoldsPresentation (F.state shelf.old).holds file (parts_of presentation)) }
    ensures names { IfOk result (λ presentation. AreReadableNames presentation.names) }
    ensures group { IfOk result
        (λ presentation. EachInverts presentation.n presentation.inv) }
    ensures shortlex { IfOk result (λ presentation. presentation.order ≡ ShortLex) }
    ensures room { IfOk result (λ presentation. length presentation.names < most_generators) }
    ensures free { IfOk result (λ presentation. ¬ Contains presentation.names marker_name) }
    ensures ends { IsTrue (F.state shelf.old).told
        → IfErr result (EndsAtLoad (IsMarkableFault (F.state shelf.old).holds file) file) }
    ensures fault { IfErr result (λ status. (input : SourceState) (output : SinkState)
        → FaultIsCounted (outside (F.state shelf.old) input output)
        (outside (F.state shelf.new) input output) status) }
    ensures only_loads { OnlyLoads (F.state shelf.old) (F.state shelf.new) }
{
    match markable_in(alloc, file.as_str(), shelf) {
        Ok(presentation) => Ok(presentation),
        Err(stop) => Err(stop.status(file)),
    }
}

/// The presentation of a group by shortlex to which the marker of cosets can be added, that the file of this name
/// holds.
fn markable_in<F: Shelf>(alloc: Global, name: &str, shelf: &mut F) -> Result<Presentation, LoadStop>
    ensures holds { IsTrue (F.state shelf.old).told
        → IfOk result (λ presentation.
        HoldsPresentation (F.state shelf.old).holds name.now (parts_of presentation)) }
    ensures names { IfOk result (λ presentation. AreReadableNames presentation.names) }
    ensures group { IfOk result
        (λ presentation. EachInverts presentation.n presentation.inv) }
    ensures shortlex { IfOk result (λ presentation. presentation.order ≡ ShortLex) }
    ensures room { IfOk result (λ presentation. length presentation.names < most_generators) }
    ensures free { IfOk result (λ presentation. ¬ Contains presentation.names marker_name) }
    ensures stops { IsTrue (F.state shelf.old).told
        → IfErr result (IsCause (IsMarkableFault (F.state shelf.old).holds name.now)) }
    ensures counted { IfErr result (LoadIsCounted (F.state shelf.old) (F.state shelf.new)) }
    ensures only_loads { OnlyLoads (F.state shelf.old) (F.state shelf.new) }
{
    match group_in(alloc, name, shelf) {
        Ok(presentation) => match look_for_marker(&presentation) {
            Ok(()) => Ok(presentation),
            Err(stop) => Err(stop),
        },
        Err(stop) => Err(stop),
    }
}

/// Stops at a group with no room for the marker, and at one in which its name is taken.
fn look_for_marker(presentation: &Presentation) -> Result<(), LoadStop>
    ensures room { OnOk result (length presentation.now.names < most_generators) }
    ensures free { OnOk result (¬ Contains presentation.now.names marker_name) }
    ensures stops { (files : Files) (name : List ℕ)
        → HoldsGroup files name (parts_of presentation.now)
        → IfErr result (IsCause (IsMarkableFault files name)) }
    ensures unfailed { (a b : ShelfState) → IfErr result (LoadIsCounted a b) }
{
    if presentation.names.len() >= MOST_GENERATORS {
        return Err(LoadStop::Refused(FileFault::NoRoom));
    }
    match presentation.names.number_of("_H") {
        Some(_) => Err(LoadStop::Refused(FileFault::MarkerTaken)),
        None => Ok(()),
    }
}
