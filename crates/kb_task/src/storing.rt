//! Files that are stored, and automata in their canonical form.

ghost use Rattle.std.specs.Prelude.{◌≡◌, ◌≢◌, ◌∷◌, ℕ, List, IsTrue, IfOk, IfErr, OnOk, length};
ghost use Rattle.std.specs.List.{AllPairs, Contains};
ghost use Rattle.kb_io.specs.Outside.{outside};
ghost use Rattle.kb_io.specs.States.{SourceState, SinkState};
ghost use Rattle.kb_fsa.specs.Language.{generators};
ghost use Rattle.kb_task.specs.Runs.{IsRun};
ghost use Rattle.kb_task.specs.Stored.{IsCanonicalText, StoreMeans};
ghost use Rattle.kb_task.specs.Stores.{Text, text_of, texts_of, names_of, PutsText, StoresMean};

use crate::status::{Status, Which};
use kb_fsa::Fsa;
use kb_fsamin::canonical;
use kb_fsaprint::write;
use kb_io::{Shelf, ShelfFault};
use kb_word::{Memory, Names, OwnedText};
use std::alloc::Global;

/// A file that is to be stored.
#[derive(Drop)]
pub struct TextFile {
    /// Its name.
    pub name: OwnedText,
    /// Its bytes.
    pub bytes: Vec<u8>,
}

/// Stores files in order, up to one whose store fails.
pub fn store_texts<F: Shelf>(alloc: Global, files: Vec<TextFile>, shelf: &mut F) -> Status
    requires { AllPairs (λ (one other : List ℕ). one ≢ other) (names_of (texts_of files.items)) }
    ensures { (input : SourceState) (output : SinkState) → IsRun (StoresMean (texts_of files.items))
        (Contains (names_of (texts_of files.items)))
        (outside (F.state shelf.old) input output)
        (outside (F.state shelf.new) input output) result }
{
    for file in files {
        if let Err(status) = store_text(alloc, file, shelf) {
            return status;
        }
    }
    Status::Yes
}

/// Stores a file, or returns the status of a run that ends at it, whatever files it should have stored after it.
fn store_text<F: Shelf>(alloc: Global, file: TextFile, shelf: &mut F) -> Result<(), Status>
    ensures puts { OnOk result (PutsText (text_of file) (F.state shelf.old) (F.state shelf.new)) }
    ensures ends { IfErr result (λ status.
        (rest : List Text) (input : SourceState) (output : SinkState)
        → IsRun (StoresMean (text_of file ∷ rest)) (Contains (names_of (text_of file ∷ rest)))
        (outside (F.state shelf.old) input output)
        (outside (F.state shelf.new) input output) status) }
{
    let TextFile { name, bytes } = file;
    match shelf.store(alloc, name.as_str(), &bytes) {
        Ok(()) => Ok(()),
        Err(ShelfFault::Failed) => Err(Status::Fault(Which::Store(name))),
        Err(ShelfFault::Memory) => Err(Status::Memory),
    }
}

/// Stores the canonical automaton of the language of an automaton under this name.
pub fn store_canonical<F: Shelf>(
    alloc: Global,
    names: &Names,
    made: &Fsa,
    name: OwnedText,
    shelf: &mut F,
) -> Status
    requires { length names.now ≡ generators made.now.alphabet }
    ensures { (input : SourceState) (output : SinkState)
        → IsRun (StoreMeans names.now made.now name) (λ stored. stored ≡ name)
        (outside (F.state shelf.old) input output)
        (outside (F.state shelf.new) input output) result }
{
    let Ok(text) = canonical_text(alloc, names, made) else {
        return Status::Memory;
    };
    match shelf.store(alloc, name.as_str(), &text) {
        Ok(()) => Status::Yes,
        Err(ShelfFault::Failed) => Status::Fault(Which::Store(name)),
        Err(ShelfFault::Memory) => Status::Memory,
    }
}

/// The text of the canonical automaton of the language of an automaton.
pub fn canonical_text(alloc: Global, names: &Names, made: &Fsa) -> Result<Vec<u8>, Memory>
    requires { length names.now ≡ generators made.now.alphabet }
    ensures { IfOk result (λ text. IsCanonicalText names.now made.now text.items) }
{
    let canonical = canonical(alloc, made)?;
    write(alloc, names, &canonical)
}
