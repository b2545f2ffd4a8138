//! Automata from files.

ghost use Rattle.std.specs.Prelude.{◌≡◌, ◌↔◌, ℕ, List, IsTrue, IfOk, IfErr, length};
ghost use Rattle.kb_io.specs.Outside.{outside};
ghost use Rattle.kb_io.specs.States.{ShelfState, SourceState, SinkState};
ghost use Rattle.kb_fsa.specs.Language.{generators};
ghost use Rattle.kb_fsa.specs.declared.alphabet.Alphabet.TheVariants.{Plain, Pair};
ghost use Rattle.kb_fsafile.specs.Languages.{LanguageOf};
ghost use Rattle.kb_task.specs.Automata.{HoldsAutomaton, HoldsLanguage, HasKind, IsAutomatonFault, IsSecondFault};
ghost use Rattle.kb_task.specs.Loads.{Files, IsHeld, IsCause, EndsAtLoad, OnlyLoads, LoadIsCounted};
ghost use Rattle.kb_task.specs.Runs.{FaultIsCounted};
ghost use Rattle.kb_task.specs.declared.loading.automata.Kind.TheVariants.{Words, Pairs};

use super::{LoadStop, load_text};
use crate::status::{FileFault, Status};
use kb_fsa::{Alphabet, Fsa};
use kb_fsafile::{FsaError, read, read_language};
use kb_io::Shelf;
use kb_word::{Names, OwnedText, Presentation};
use std::alloc::Global;

/// What a command needs an automaton to read.
#[derive(Clone, Copy, Debug, PartialEq, Eq)]
pub enum Kind {
    /// Words or pairs of words.
    WordsOrPairs,
    /// Words: the automaton is plain.
    Words,
    /// Pairs of words.
    Pairs,
}

/// An automaton that a file holds, over letters with these names.
#[derive(Drop)]
pub struct Loaded {
    /// The names of its letters.
    pub names: Names,
    /// The automaton.
    pub fsa: Fsa,
}

/// The automaton of the kind that the file of this name holds, or the status of a run that ends there.
pub fn load_automaton<F: Shelf>(
    alloc: Global,
    kind: Kind,
    file: OwnedText,
    shelf: &mut F,
) -> Result<Loaded, Status>
    ensures holds { IsTrue (F.state shelf.old).told
        → IfOk result (λ loaded.
        HoldsAutomaton (F.state shelf.old).holds file loaded.names loaded.fsa) }
    ensures kind { IfOk result (λ loaded. HasKind kind loaded.fsa.alphabet) }
    ensures letters { IfOk result (λ loaded. length loaded.names ≡ generators loaded.fsa.alphabet) }
    ensures ends { IsTrue (F.state shelf.old).told
        → IfErr result (EndsAtLoad (IsAutomatonFault kind (F.state shelf.old).holds file) file) }
    ensures fault { IfErr result (λ status. (input : SourceState) (output : SinkState)
        → FaultIsCounted (outside (F.state shelf.old) input output)
        (outside (F.state shelf.new) input output) status) }
    ensures only_loads { OnlyLoads (F.state shelf.old) (F.state shelf.new) }
{
    match automaton_in(alloc, kind, file.as_str(), shelf) {
        Ok(loaded) => Ok(loaded),
        Err(stop) => Err(stop.status(file)),
    }
}

/// An automaton of the kind with the language of the one that the file of this name holds, or the status of a run that
/// ends there. It has no states but those that texts lead to, and takes the less memory.
pub fn load_language<F: Shelf>(
    alloc: Global,
    kind: Kind,
    file: OwnedText,
    shelf: &mut F,
) -> Result<Loaded, Status>
    ensures holds { IfOk result (λ loaded.
        HoldsLanguage (F.state shelf.old) file loaded.names loaded.fsa) }
    ensures kind { IfOk result (λ loaded. HasKind kind loaded.fsa.alphabet) }
    ensures letters { IfOk result (λ loaded. length loaded.names ≡ generators loaded.fsa.alphabet) }
    ensures ends { IsTrue (F.state shelf.old).told
        → IfErr result (EndsAtLoad (IsAutomatonFault kind (F.state shelf.old).holds file) file) }
    ensures fault { IfErr result (λ status. (input : SourceState) (output : SinkState)
        → FaultIsCounted (outside (F.state shelf.old) input output)
        (outside (F.state shelf.new) input output) status) }
    ensures only_loads { OnlyLoads (F.state shelf.old) (F.state shelf.new) }
{
    match language_in(alloc, kind, file.as_str(), shelf) {
        Ok(loaded) => Ok(loaded),
        Err(stop) => Err(stop.status(file)),
    }
}

/// The automaton of the kind that the file of this name holds, over the same letters as the first one and of its kind.
pub fn load_second<F: Shelf>(
    alloc: Global,
    kind: Kind,
    first: &Loaded,
    file: OwnedText,
    shelf: &mut F,
) -> Result<Fsa, Status>
    ensures holds { IsTrue (F.state shelf.old).told
        → IfOk result (λ fsa. HoldsAutomaton (F.state shelf.old).holds file first.now.names fsa) }
    ensures alphabet { IfOk result (λ fsa. fsa.alphabet ≡ first.now.fsa.alphabet) }
    ensures ends { IsTrue (F.state shelf.old).told → IfErr result (EndsAtLoad
        (IsSecondFault kind first.now.names first.now.fsa.alphabet
        (F.state shelf.old).holds file) file) }
    ensures fault { IfErr result (λ status. (input : SourceState) (output : SinkState)
        → FaultIsCounted (outside (F.state shelf.old) input output)
        (outside (F.state shelf.new) input output) status) }
    ensures only_loads { OnlyLoads (F.state shelf.old) (F.state shelf.new) }
{
    match second_in(
        alloc,
        kind,
        &first.names,
        first.fsa.alphabet(),
        file.as_str(),
        shelf,
    ) {
        Ok(fsa) => Ok(fsa),
        Err(stop) => Err(stop.status(file)),
    }
}

/// The automaton of words over the presentation's generators that the file of this name holds.
pub fn load_acceptor<F: Shelf>(
    alloc: Global,
    file: OwnedText,
    presentation: &Presentation,
    shelf: &mut F,
) -> Result<Fsa, Status>
    ensures holds { IsTrue (F.state shelf.old).told → IfOk result (λ fsa.
        HoldsAutomaton (F.state shelf.old).holds file presentation.now.names fsa) }
    ensures alphabet { IfOk result (λ fsa. fsa.alphabet ≡ Plain presentation.now.n) }
    ensures ends { IsTrue (F.state shelf.old).told → IfErr result (EndsAtLoad
        (IsSecondFault Words presentation.now.names (Plain presentation.now.n)
        (F.state shelf.old).holds file) file) }
    ensures fault { IfErr result (λ status. (input : SourceState) (output : SinkState)
        → FaultIsCounted (outside (F.state shelf.old) input output)
        (outside (F.state shelf.new) input output) status) }
    ensures only_loads { OnlyLoads (F.state shelf.old) (F.state shelf.new) }
{
    let alphabet = Alphabet::Plain(presentation.n);
    match second_in(
        alloc,
        Kind::Words,
        &presentation.names,
        alphabet,
        file.as_str(),
        shelf,
    ) {
        Ok(fsa) => Ok(fsa),
        Err(stop) => Err(stop.status(file)),
    }
}

/// The automaton of pairs of words over the presentation's generators that the file of this name holds.
pub fn load_multiplier<F: Shelf>(
    alloc: Global,
    file: OwnedText,
    presentation: &Presentation,
    shelf: &mut F,
) -> Result<Fsa, Status>
    ensures holds { IsTrue (F.state shelf.old).told → IfOk result (λ fsa.
        HoldsAutomaton (F.state shelf.old).holds file presentation.now.names fsa) }
    ensures alphabet { IfOk result (λ fsa. fsa.alphabet ≡ Pair presentation.now.n) }
    ensures ends { IsTrue (F.state shelf.old).told → IfErr result (EndsAtLoad
        (IsSecondFault Pairs presentation.now.names (Pair presentation.now.n)
        (F.state shelf.old).holds file) file) }
    ensures fault { IfErr result (λ status. (input : SourceState) (output : SinkState)
        → FaultIsCounted (outside (F.state shelf.old) input output)
        (outside (F.state shelf.new) input output) status) }
    ensures only_loads { OnlyLoads (F.state shelf.old) (F.state shelf.new) }
{
    let alphabet = Alphabet::Pair(presentation.n);
    match second_in(
        alloc,
        Kind::Pairs,
        &presentation.names,
        alphabet,
        file.as_str(),
        shelf,
    ) {
        Ok(fsa) => Ok(fsa),
        Err(stop) => Err(stop.status(file)),
    }
}

/// The automaton of the kind that the file of this name holds.
fn automaton_in<F: Shelf>(
    alloc: Global,
    kind: Kind,
    name: &str,
    shelf: &mut F,
) -> Result<Loaded, LoadStop>
    ensures holds { IsTrue (F.state shelf.old).told
        → IfOk result (λ loaded.
        HoldsAutomaton (F.state shelf.old).holds name.now loaded.names loaded.fsa) }
    ensures kind { IfOk result (λ loaded. HasKind kind loaded.fsa.alphabet) }
    ensures letters { IfOk result (λ loaded. length loaded.names ≡ generators loaded.fsa.alphabet) }
    ensures stops { IsTrue (F.state shelf.old).told
        → IfErr result (IsCause (IsAutomatonFault kind (F.state shelf.old).holds name.now)) }
    ensures counted { IfErr result (LoadIsCounted (F.state shelf.old) (F.state shelf.new)) }
    ensures only_loads { OnlyLoads (F.state shelf.old) (F.state shelf.new) }
{
    match load_text(alloc, name, shelf) {
        Ok(bytes) => automaton_of_kind(alloc, kind, &bytes),
        Err(stop) => Err(stop),
    }
}

/// The automaton of the kind that the bytes are a text of.
fn automaton_of_kind(alloc: Global, kind: Kind, bytes: &[u8]) -> Result<Loaded, LoadStop>
    ensures holds { (files : Files) (name : List ℕ) → IsHeld files name bytes.now
        → IfOk result (λ loaded. HoldsAutomaton files name loaded.names loaded.fsa) }
    ensures kind { IfOk result (λ loaded. HasKind kind loaded.fsa.alphabet) }
    ensures letters { IfOk result (λ loaded. length loaded.names ≡ generators loaded.fsa.alphabet) }
    ensures stops { (files : Files) (name : List ℕ) → IsHeld files name bytes.now
        → IfErr result (IsCause (IsAutomatonFault kind files name)) }
    ensures unfailed { (a b : ShelfState) → IfErr result (LoadIsCounted a b) }
{
    let loaded = match read(alloc, bytes) {
        Ok((names, fsa)) => Loaded { names, fsa },
        Err(FsaError::Memory) => return Err(LoadStop::Memory),
        Err(fault) => return Err(LoadStop::Refused(FileFault::Automaton(fault))),
    };
    match (kind, loaded.fsa.alphabet()) {
        (Kind::Words, Alphabet::Pair(_)) => Err(LoadStop::Refused(FileFault::NotPlain)),
        (Kind::Pairs, Alphabet::Plain(_)) => Err(LoadStop::Refused(FileFault::NotPairs)),
        _ => Ok(loaded),
    }
}

/// An automaton of the kind with the language of the one that the file of this name holds.
fn language_in<F: Shelf>(
    alloc: Global,
    kind: Kind,
    name: &str,
    shelf: &mut F,
) -> Result<Loaded, LoadStop>
    ensures holds { IfOk result (λ loaded.
        HoldsLanguage (F.state shelf.old) name.now loaded.names loaded.fsa) }
    ensures kind { IfOk result (λ loaded. HasKind kind loaded.fsa.alphabet) }
    ensures letters { IfOk result (λ loaded. length loaded.names ≡ generators loaded.fsa.alphabet) }
    ensures stops { IsTrue (F.state shelf.old).told
        → IfErr result (IsCause (IsAutomatonFault kind (F.state shelf.old).holds name.now)) }
    ensures counted { IfErr result (LoadIsCounted (F.state shelf.old) (F.state shelf.new)) }
    ensures only_loads { OnlyLoads (F.state shelf.old) (F.state shelf.new) }
{
    match load_text(alloc, name, shelf) {
        Ok(bytes) => language_of_kind(alloc, kind, &bytes),
        Err(stop) => Err(stop),
    }
}

/// An automaton of the kind with the language of the one that the bytes are a text of.
fn language_of_kind(alloc: Global, kind: Kind, bytes: &[u8]) -> Result<Loaded, LoadStop>
    ensures holds { IfOk result (λ loaded. LanguageOf bytes.now loaded.names loaded.fsa) }
    ensures kind { IfOk result (λ loaded. HasKind kind loaded.fsa.alphabet) }
    ensures letters { IfOk result (λ loaded. length loaded.names ≡ generators loaded.fsa.alphabet) }
    ensures stops { (files : Files) (name : List ℕ) → IsHeld files name bytes.now
        → IfErr result (IsCause (IsAutomatonFault kind files name)) }
    ensures unfailed { (a b : ShelfState) → IfErr result (LoadIsCounted a b) }
{
    let loaded = match read_language(alloc, bytes) {
        Ok((names, fsa)) => Loaded { names, fsa },
        Err(FsaError::Memory) => return Err(LoadStop::Memory),
        Err(fault) => return Err(LoadStop::Refused(FileFault::Automaton(fault))),
    };
    match (kind, loaded.fsa.alphabet()) {
        (Kind::Words, Alphabet::Pair(_)) => Err(LoadStop::Refused(FileFault::NotPlain)),
        (Kind::Pairs, Alphabet::Plain(_)) => Err(LoadStop::Refused(FileFault::NotPairs)),
        _ => Ok(loaded),
    }
}

/// The automaton of the kind that the file of this name holds, over letters with these names and this alphabet.
fn second_in<F: Shelf>(
    alloc: Global,
    kind: Kind,
    names: &Names,
    alphabet: Alphabet,
    name: &str,
    shelf: &mut F,
) -> Result<Fsa, LoadStop>
    ensures holds { IsTrue (F.state shelf.old).told
        → IfOk result (λ fsa. HoldsAutomaton (F.state shelf.old).holds name.now names.now fsa) }
    ensures alphabet { IfOk result (λ fsa. fsa.alphabet ≡ alphabet) }
    ensures stops { IsTrue (F.state shelf.old).told → IfErr result (IsCause
        (IsSecondFault kind names.now alphabet (F.state shelf.old).holds name.now)) }
    ensures counted { IfErr result (LoadIsCounted (F.state shelf.old) (F.state shelf.new)) }
    ensures only_loads { OnlyLoads (F.state shelf.old) (F.state shelf.new) }
{
    match automaton_in(alloc, kind, name, shelf) {
        Ok(second) if is_over(&second, names, alphabet) => Ok(second.fsa),
        Ok(_) => Err(LoadStop::Refused(FileFault::AlphabetsDiffer)),
        Err(stop) => Err(stop),
    }
}

/// Whether an automaton is over letters with these names, in the same order, and over this alphabet.
fn is_over(loaded: &Loaded, names: &Names, alphabet: Alphabet) -> bool
    ensures { IsTrue result
        ↔ ((loaded.now.names ≡ names.now) × (loaded.now.fsa.alphabet ≡ alphabet)) }
{
    have_same_names(&loaded.names, names) && loaded.fsa.alphabet() == alphabet
}

/// Whether the letters have the same names, in the same order.
fn have_same_names(names: &Names, others: &Names) -> bool
    ensures { IsTrue result ↔ (names.now ≡ others.now) }
{
    if names.len() != others.len() {
        return false;
    }
    for place in 0..names.len() {
        if names.get(place) != others.get(place) {
            return false;
        }
    }
    true
}
