//! Presentations from files.

ghost use Rattle.std.specs.Prelude.{◌≡◌, ◌≢◌, ℕ, ◌<◌, ◌≤◌, List, None, Some, length, IsTrue, IfOk, IfErr, IfNone, IfSome, OnOk};
ghost use Rattle.kb_io.specs.Outside.{outside};
ghost use Rattle.kb_io.specs.States.{ShelfState, SourceState, SinkState};
ghost use Rattle.kb_word.specs.Names.{name_of};
ghost use Rattle.kb_word.specs.Presentations.{parts_of};
ghost use Rattle.kb_word.specs.Relations.{inverse_letter};
ghost use Rattle.kb_word.specs.declared.word_order.WordOrder.TheVariants.{ShortLex};
ghost use Rattle.kb_presfile.specs.Holds.{most_equations};
ghost use Rattle.kb_diff.specs.Groups.{EachInverts};
ghost use Rattle.kb_proof.specs.Printable.{AreReadableNames};
ghost use Rattle.kb_task.specs.Loads.{Files, IsHeld, IsCause, EndsAtLoad, OnlyLoads, LoadIsCounted};
ghost use Rattle.kb_task.specs.Presentations.{HoldsPresentation, IsPresentationFault, IsShortlexFault, IsGroupFault};
ghost use Rattle.kb_task.specs.Runs.{FaultIsCounted};

use super::{LoadStop, load_text};
use crate::status::{FileFault, Status};
use kb_io::Shelf;
use kb_presfile::{PresError, read};
use kb_presprint::a_presentation_that_is_read_can_be_written;
use kb_word::{Letter, Memory, OwnedText, Presentation, WordOrder};
use std::alloc::Global;

/// The presentation that the file of this name holds, or the status of a run that ends there.
pub fn load_presentation<F: Shelf>(
    alloc: Global,
    file: OwnedText,
    shelf: &mut F,
) -> Result<Presentation, Status>
    ensures holds { IsTrue (F.state shelf.old).told
        → IfOk result (λ presentation.
        HoldsPresentation (F.state shelf.old).holds file (parts_of presentation)) }
    ensures few { IfOk result (λ presentation. length presentation.eqs ≤ most_equations) }
    ensures names { IfOk result (λ presentation. AreReadableNames presentation.names) }
    ensures ends { IsTrue (F.state shelf.old).told
        → IfErr result (EndsAtLoad (IsPresentationFault (F.state shelf.old).holds file) file) }
    ensures fault { IfErr result (λ status. (input : SourceState) (output : SinkState)
        → FaultIsCounted (outside (F.state shelf.old) input output)
        (outside (F.state shelf.new) input output) status) }
    ensures only_loads { OnlyLoads (F.state shelf.old) (F.state shelf.new) }
{
    match presentation_in(alloc, file.as_str(), shelf) {
        Ok(presentation) => Ok(presentation),
        Err(stop) => Err(stop.status(file)),
    }
}

/// The presentation that the file of this name holds.
fn presentation_in<F: Shelf>(
    alloc: Global,
    name: &str,
    shelf: &mut F,
) -> Result<Presentation, LoadStop>
    ensures holds { IsTrue (F.state shelf.old).told
        → IfOk result (λ presentation.
        HoldsPresentation (F.state shelf.old).holds name.now (parts_of presentation)) }
    ensures few { IfOk result (λ presentation. length presentation.eqs ≤ most_equations) }
    ensures names { IfOk result (λ presentation. AreReadableNames presentation.names) }
    ensures stops { IsTrue (F.state shelf.old).told
        → IfErr result (IsCause (IsPresentationFault (F.state shelf.old).holds name.now)) }
    ensures counted { IfErr result (LoadIsCounted (F.state shelf.old) (F.state shelf.new)) }
    ensures only_loads { OnlyLoads (F.state shelf.old) (F.state shelf.new) }
{
    match load_text(alloc, name, shelf) {
        Ok(bytes) => presentation_of(alloc, &bytes),
        Err(stop) => Err(stop),
    }
}

/// The presentation that the bytes are a text of.
fn presentation_of(alloc: Global, bytes: &[u8]) -> Result<Presentation, LoadStop>
    ensures holds { (files : Files) (name : List ℕ) → IsHeld files name bytes.now
        → IfOk result (λ presentation. HoldsPresentation files name (parts_of presentation)) }
    ensures few { IfOk result (λ presentation. length presentation.eqs ≤ most_equations) }
    ensures names { IfOk result (λ presentation. AreReadableNames presentation.names) }
    ensures stops { (files : Files) (name : List ℕ) → IsHeld files name bytes.now
        → IfErr result (IsCause (IsPresentationFault files name)) }
    ensures unfailed { (a b : ShelfState) → IfErr result (LoadIsCounted a b) }
{
    a_presentation_that_is_read_can_be_written();
    match read(alloc, bytes) {
        Ok(presentation) => Ok(presentation),
        Err(PresError::Memory) => Err(LoadStop::Memory),
        Err(fault) => Err(LoadStop::Refused(FileFault::Presentation(fault))),
    }
}

/// The presentation by shortlex that the file of this name holds, or the status of a run that ends there.
pub fn load_shortlex<F: Shelf>(
    alloc: Global,
    file: OwnedText,
    shelf: &mut F,
) -> Result<Presentation, Status>
    ensures holds { IsTrue (F.state shelf.old).told
        → IfOk result (λ presentation.
        HoldsPresentation (F.state shelf.old).holds file (parts_of presentation)) }
    ensures few { IfOk result (λ presentation. length presentation.eqs ≤ most_equations) }
    ensures names { IfOk result (λ presentation. AreReadableNames presentation.names) }
    ensures shortlex { IfOk result (λ presentation. presentation.order ≡ ShortLex) }
    ensures ends { IsTrue (F.state shelf.old).told
        → IfErr result (EndsAtLoad (IsShortlexFault (F.state shelf.old).holds file) file) }
    ensures fault { IfErr result (λ status. (input : SourceState) (output : SinkState)
        → FaultIsCounted (outside (F.state shelf.old) input output)
        (outside (F.state shelf.new) input output) status) }
    ensures only_loads { OnlyLoads (F.state shelf.old) (F.state shelf.new) }
{
    match shortlex_in(alloc, file.as_str(), shelf) {
        Ok(presentation) => Ok(presentation),
        Err(stop) => Err(stop.status(file)),
    }
}

/// The presentation by shortlex that the file of this name holds.
fn shortlex_in<F: Shelf>(alloc: Global, name: &str, shelf: &mut F) -> Result<Presentation, LoadStop>
    ensures holds { IsTrue (F.state shelf.old).told
        → IfOk result (λ presentation.
        HoldsPresentation (F.state shelf.old).holds name.now (parts_of presentation)) }
    ensures few { IfOk result (λ presentation. length presentation.eqs ≤ most_equations) }
    ensures names { IfOk result (λ presentation. AreReadableNames presentation.names) }
    ensures shortlex { IfOk result (λ presentation. presentation.order ≡ ShortLex) }
    ensures stops { IsTrue (F.state shelf.old).told
        → IfErr result (IsCause (IsShortlexFault (F.state shelf.old).holds name.now)) }
    ensures counted { IfErr result (LoadIsCounted (F.state shelf.old) (F.state shelf.new)) }
    ensures only_loads { OnlyLoads (F.state shelf.old) (F.state shelf.new) }
{
    match presentation_in(alloc, name, shelf) {
        Ok(presentation) => match look_at_order(&presentation) {
            Ok(()) => Ok(presentation),
            Err(stop) => Err(stop),
        },
        Err(stop) => Err(stop),
    }
}

/// Stops at a presentation by another order than shortlex.
fn look_at_order(presentation: &Presentation) -> Result<(), LoadStop>
    ensures shortlex { OnOk result (presentation.now.order ≡ ShortLex) }
    ensures stops { (files : Files) (name : List ℕ)
        → HoldsPresentation files name (parts_of presentation.now)
        → IfErr result (IsCause (IsShortlexFault files name)) }
    ensures unfailed { (a b : ShelfState) → IfErr result (LoadIsCounted a b) }
{
    match presentation.order {
        WordOrder::ShortLex => Ok(()),
        WordOrder::WtLex(_) => Err(LoadStop::Refused(FileFault::NeedsShortlex)),
    }
}

/// The presentation of a group by shortlex that the file of this name holds, or the status of a run that ends there.
pub fn load_group<F: Shelf>(
    alloc: Global,
    file: OwnedText,
    shelf: &mut F,
) -> Result<Presentation, Status>
    ensures holds { IsTrue (F.state shelf.old).told
        → IfOk result (λ presentation.
        HoldsPresentation (F.state shelf.old).holds file (parts_of presentation)) }
    ensures few { IfOk result (λ presentation. length presentation.eqs ≤ most_equations) }
    ensures names { IfOk result (λ presentation. AreReadableNames presentation.names) }
    ensures group { IfOk result
        (λ presentation. EachInverts presentation.n presentation.inv) }
    ensures shortlex { IfOk result (λ presentation. presentation.order ≡ ShortLex) }
    ensures ends { IsTrue (F.state shelf.old).told
        → IfErr result (EndsAtLoad (IsGroupFault (F.state shelf.old).holds file) file) }
    ensures fault { IfErr result (λ status. (input : SourceState) (output : SinkState)
        → FaultIsCounted (outside (F.state shelf.old) input output)
        (outside (F.state shelf.new) input output) status) }
    ensures only_loads { OnlyLoads (F.state shelf.old) (F.state shelf.new) }
{
    match group_in(alloc, file.as_str(), shelf) {
        Ok(presentation) => Ok(presentation),
        Err(stop) => Err(stop.status(file)),
    }
}

/// The presentation of a group by shortlex that the file of this name holds.
pub(super) fn group_in<F: Shelf>(
    alloc: Global,
    name: &str,
    shelf: &mut F,
) -> Result<Presentation, LoadStop>
    ensures holds { IsTrue (F.state shelf.old).told
        → IfOk result (λ presentation.
        HoldsPresentation (F.state shelf.old).holds name.now (parts_of presentation)) }
    ensures few { IfOk result (λ presentation. length presentation.eqs ≤ most_equations) }
    ensures names { IfOk result (λ presentation. AreReadableNames presentation.names) }
    ensures group { IfOk result
        (λ presentation. EachInverts presentation.n presentation.inv) }
    ensures shortlex { IfOk result (λ presentation. presentation.order ≡ ShortLex) }
    ensures stops { IsTrue (F.state shelf.old).told
        → IfErr result (IsCause (IsGroupFault (F.state shelf.old).holds name.now)) }
    ensures counted { IfErr result (LoadIsCounted (F.state shelf.old) (F.state shelf.new)) }
    ensures only_loads { OnlyLoads (F.state shelf.old) (F.state shelf.new) }
{
    match presentation_in(alloc, name, shelf) {
        Ok(presentation) => match look_at_group(alloc, &presentation) {
            Ok(()) => Ok(presentation),
            Err(stop) => Err(stop),
        },
        Err(stop) => Err(stop),
    }
}

/// Stops at a presentation by another order than shortlex, and at one with a generator that has no inverse.
fn look_at_group(alloc: Global, presentation: &Presentation) -> Result<(), LoadStop>
    ensures group { OnOk result (EachInverts presentation.now.n presentation.now.inv) }
    ensures shortlex { OnOk result (presentation.now.order ≡ ShortLex) }
    ensures stops { (files : Files) (name : List ℕ)
        → HoldsPresentation files name (parts_of presentation.now)
        → IfErr result (IsCause (IsGroupFault files name)) }
    ensures unfailed { (a b : ShelfState) → IfErr result (LoadIsCounted a b) }
{
    match presentation.order {
        WordOrder::ShortLex => look_for_inverses(alloc, presentation),
        WordOrder::WtLex(_) => Err(LoadStop::Refused(FileFault::NeedsShortlex)),
    }
}

/// Stops at a generator that has no inverse.
fn look_for_inverses(alloc: Global, presentation: &Presentation) -> Result<(), LoadStop>
    ensures group { OnOk result (EachInverts presentation.now.n presentation.now.inv) }
    ensures stops { (files : Files) (name : List ℕ) → presentation.now.order ≡ ShortLex
        → HoldsPresentation files name (parts_of presentation.now)
        → IfErr result (IsCause (IsGroupFault files name)) }
    ensures unfailed { (a b : ShelfState) → IfErr result (LoadIsCounted a b) }
{
    let Some(generator) = first_without_inverse(presentation) else {
        return Ok(());
    };
    match generator_name(alloc, presentation, generator) {
        Ok(name) => Err(LoadStop::Refused(FileFault::NotGroup(name))),
        Err(Memory) => Err(LoadStop::Memory),
    }
}

/// The name of a generator.
fn generator_name(
    alloc: Global,
    presentation: &Presentation,
    generator: Letter,
) -> Result<OwnedText, Memory>
    requires positive { 0 < generator }
    requires within { generator ≤ presentation.now.n }
    ensures { IfOk result (λ name. name_of presentation.now.names generator ≡ Some name) }
{
    match presentation.names.name_of(generator) {
        Some(name) => OwnedText::from_str(alloc, name),
        None => unreachable!(),
    }
}

/// The first generator that has no inverse.
fn first_without_inverse(presentation: &Presentation) -> Option<Letter>
    ensures lacks { IfSome result (λ letter. inverse_letter presentation.now.inv letter ≡ None) }
    ensures positive { IfSome result (λ letter. 0 < letter) }
    ensures within { IfSome result (λ letter. letter ≤ presentation.now.n) }
    ensures earlier { IfSome result (λ letter. (x : ℕ) → 0 < x → x < letter
        → inverse_letter presentation.now.inv x ≢ None) }
    ensures none { IfNone result (EachInverts presentation.now.n presentation.now.inv) }
{
    for place in 0..presentation.n {
        let generator = Letter::new(place + 1);
        if presentation.letter_inverse(generator).is_none() {
            return Some(generator);
        }
    }
    None
}
